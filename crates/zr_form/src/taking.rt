//! The line at the front of a text, and what is read of it.

ghost use Rattle.std.specs.Prelude.{◌≡◌};
ghost use Rattle.zr_form.specs.Stops.{IsFirstLine, placed_fault};

use crate::cut::next_line;
use crate::fault::{LineFault, ReadError};

/// The line at the front without its line feed, and what follows it.
///
/// A text without a line feed is out of form where it begins.
pub fn first_line(bytes: &[u8]) -> Result<(&[u8], &[u8]), ReadError>
    ensures { IsFirstLine bytes.now result }
{
    match next_line(bytes) {
        Some(cut) => Ok(cut),
        None => Err(ReadError::Form(bytes.len())),
    }
}

/// What was read of a line; a fault of the line gets its place, where so many bytes are left from
/// the start of the line.
pub fn placed<T>(read: Result<T, LineFault>, left: usize) -> Result<T, ReadError>
    ensures { result ≡ placed_fault left read }
{
    match read {
        Ok(item) => Ok(item),
        Err(fault) => Err(fault.at(left)),
    }
}
