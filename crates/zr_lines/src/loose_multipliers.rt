//! Whether multipliers stand in a line where numbers have no upper bounds. No memory is taken.

ghost use Rattle.std.specs.Prelude.{◌≡◌, ◌^◌, ◌<◌, ℕ, Some, false, is_some, length, nat_le, option_copied};
ghost use Rattle.zr_form.specs.Code.{left_of};
ghost use Rattle.zr_form.specs.Numbers.{natural};
ghost use Rattle.zr_lines.specs.Code.{IsFloor};
ghost use Rattle.zr_lines.specs.Reader.{counted, counting};

use crate::loose_field::spelled_natural;
use zr_form::{any_natural, any_positive, is_less, natural};

/// Whether the slot is above the last one, if there is one.
fn is_above(last: Option<&[u8]>, slot: &[u8]) -> bool
    ensures { (least n : ℕ) → IsFloor last.entry least → natural slot.now ≡ Some n → result ≡ nat_le least n }
{
    match last {
        None => true,
        Some(last) => is_less(last, slot),
    }
}

/// Whether as many slots and multipliers as the count says stand there to the end of the line, with
/// slots that ascend.
pub(crate) fn are_counted(left: Option<&[u8]>, count: &[u8]) -> bool
    requires { length (left_of (option_copied left)) < 2 ^ 64 }
    ensures { (n : ℕ) → natural count.now ≡ Some n → result ≡ is_some (counted false n (left_of (option_copied left.entry))) }
{
    let mut pairs: u64 = 0;
    let mut last: Option<&[u8]> = None;
    let mut rest = left;
    while let Some(line) = rest {
        let Some((slot, after)) = any_natural(Some(line)) else {
            return false;
        };
        let Some((_, after)) = any_positive(after) else {
            return false;
        };
        if !is_above(last, slot) {
            return false;
        }
        pairs += 1;
        last = Some(slot);
        rest = after;
    }
    match natural(count) {
        Some(n) => n == pairs as u128,
        None => false,
    }
}

/// Whether a count, and as many slots and multipliers as it says, stand there to the end of the
/// line.
#[tactic(auto, unfolding(crate::specs::Reader::counting))]
pub(crate) fn is_counting(left: Option<&[u8]>) -> bool
    requires { length (left_of (option_copied left)) < 2 ^ 64 }
    ensures { result ≡ is_some (counting false (left_of (option_copied left.entry))) }
{
    let Some((count, rest)) = spelled_natural(left) else {
        return false;
    };
    are_counted(rest, count)
}
