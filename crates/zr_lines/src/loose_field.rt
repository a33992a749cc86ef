//! Fields of a line where numbers have no upper bounds.

ghost use Rattle.std.specs.Prelude.{◌≡◌, false, option_copied};
ghost use Rattle.zr_form.specs.Bounds.{is_count, is_index, is_narrow, is_positive};
ghost use Rattle.zr_form.specs.Code.{left_of};
ghost use Rattle.zr_form.specs.Fields.{integer_read, natural_read};
ghost use Rattle.zr_form.specs.Numbers.{integer, natural};
ghost use Rattle.zr_lines.specs.Code.{TakesAny, TakesSpelled};
ghost use Rattle.zr_lines.specs.Fits.{is_at, is_scale};

use zr_form::{any_integer, any_natural, any_positive};

/// What follows a number from 0 on, which is 0 in a refuting tree.
pub(crate) fn after_scale(left: Option<&[u8]>, refuting: bool) -> Option<Option<&[u8]>>
    ensures { TakesAny left.entry result (integer_read (is_scale false refuting) (left_of (option_copied left.entry))) }
{
    let (field, rest) = any_natural(left)?;
    if refuting && field != b"0".as_slice() {
        return None;
    }
    Some(rest)
}

/// What follows a number from 0 on.
pub fn after_natural(left: Option<&[u8]>) -> Option<Option<&[u8]>>
    ensures { TakesAny left.entry result (natural_read (is_index false) (left_of (option_copied left.entry))) }
{
    let (_, rest) = any_natural(left)?;
    Some(rest)
}

/// What follows a number that a variable is split at.
pub(crate) fn after_at(left: Option<&[u8]>) -> Option<Option<&[u8]>>
    ensures { TakesAny left.entry result (integer_read (is_at false) (left_of (option_copied left.entry))) }
{
    let (_, rest) = any_integer(left)?;
    Some(rest)
}

/// What follows a count of at least 1.
pub fn after_count(left: Option<&[u8]>) -> Option<Option<&[u8]>>
    ensures { TakesAny left.entry result (natural_read (is_count false) (left_of (option_copied left.entry))) }
{
    let (_, rest) = any_positive(left)?;
    Some(rest)
}

/// What follows a number of at least 1.
pub fn after_positive(left: Option<&[u8]>) -> Option<Option<&[u8]>>
    ensures { TakesAny left.entry result (integer_read (is_positive false) (left_of (option_copied left.entry))) }
{
    let (_, rest) = any_positive(left)?;
    Some(rest)
}

/// What follows a number.
pub fn after_integer(left: Option<&[u8]>) -> Option<Option<&[u8]>>
    ensures { TakesAny left.entry result (integer_read (is_narrow false) (left_of (option_copied left.entry))) }
{
    let (_, rest) = any_integer(left)?;
    Some(rest)
}

/// A number from 0 on, and what follows it.
pub(crate) fn spelled_natural(left: Option<&[u8]>) -> Option<(&[u8], Option<&[u8]>)>
    ensures { TakesSpelled natural left.entry result (natural_read (is_index false) (left_of (option_copied left.entry))) }
{
    let (field, rest) = any_natural(left)?;
    Some((field, rest))
}

/// A number, and what follows it.
pub fn spelled_integer(left: Option<&[u8]>) -> Option<(&[u8], Option<&[u8]>)>
    ensures { TakesSpelled integer left.entry result (integer_read (is_narrow false) (left_of (option_copied left.entry))) }
{
    let (field, rest) = any_integer(left)?;
    Some((field, rest))
}

/// A number of at least 1, and what follows it.
pub fn spelled_positive(left: Option<&[u8]>) -> Option<(&[u8], Option<&[u8]>)>
    ensures { TakesSpelled integer left.entry result (integer_read (is_positive false) (left_of (option_copied left.entry))) }
{
    let (field, rest) = any_positive(left)?;
    Some((field, rest))
}
