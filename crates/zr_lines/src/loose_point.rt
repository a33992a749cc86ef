//! Whether a point or a ray stands in a line where numbers have no upper bounds. No memory is taken.

ghost use Rattle.std.specs.Prelude.{◌≡◌, ◌^◌, ◌<◌, false, is_some, length, option_copied, option_map};
ghost use Rattle.zr_form.specs.Bounds.{is_narrow};
ghost use Rattle.zr_form.specs.Code.{left_of};
ghost use Rattle.zr_form.specs.Fields.{integers};
ghost use Rattle.zr_lines.specs.Reader.{is_two_lists, point_at, ray_at};

use crate::loose_field::after_positive;
use zr_form::any_integer;

/// How many numbers stand there to the end of the line, if nothing else stands there.
fn number_count(left: Option<&[u8]>) -> Option<u64>
    requires { length (left_of (option_copied left)) < 2 ^ 64 }
    ensures { result ≡ option_map length (integers (is_narrow false) (left_of (option_copied left.entry))) }
{
    let mut count: u64 = 0;
    let mut rest = left;
    while let Some(line) = rest {
        let Some((_, after)) = any_integer(Some(line)) else {
            return None;
        };
        count += 1;
        rest = after;
    }
    Some(count)
}

/// Whether a point stands there to the end of the line.
pub fn is_point(left: Option<&[u8]>) -> bool
    requires { length (left_of (option_copied left)) < 2 ^ 64 }
    ensures { result ≡ is_some (point_at false (left_of (option_copied left.entry))) }
{
    let Some(rest) = after_positive(left) else {
        return false;
    };
    let Some(count) = number_count(rest) else {
        return false;
    };
    count > 0
}

/// Whether a ray stands there to the end of the line.
pub(crate) fn is_ray(left: Option<&[u8]>) -> bool
    requires { length (left_of (option_copied left)) < 2 ^ 64 }
    ensures { result ≡ is_some (ray_at false (left_of (option_copied left.entry))) }
{
    let Some(rest) = after_positive(left) else {
        return false;
    };
    let Some(count) = number_count(rest) else {
        return false;
    };
    is_two_lists(count)
}

/// Whether so many numbers are two lists of as many numbers, and of at least one.
fn is_two_lists(count: u64) -> bool
    ensures { result ≡ is_two_lists count }
{
    count > 0 && count % 2 == 0
}
