//! Fields that spell numbers of any size. No memory is taken.
//!
//! The functions that take a field are given what is left of the line, `None` after the last field.
//! They give the field, and what is left then, or `None` where no such field stands there.

ghost use Rattle.std.specs.Prelude.{◌≡◌, ◌≤◌, ◌<◌, ◌↔◌, ℕ, All, IsTrue, Some, is_some, nat_le};
ghost use Rattle.zr_form.specs.Numbers.{natural, integer};
ghost use Rattle.zr_form.specs.Fields.{only_if};
ghost use Rattle.zr_form.specs.Code.{TakesField, positive};

use crate::cut::next_field;

/// The field at the front, where it spells a number from 0 on, and what follows it.
pub fn any_natural(left: Option<&[u8]>) -> Option<(&[u8], Option<&[u8]>)>
    ensures { TakesField natural left.entry result }
{
    let (field, rest) = next_field(left?);
    if is_natural(field) {
        Some((field, rest))
    } else {
        None
    }
}

/// The field at the front, where it spells a number, and what follows it.
pub fn any_integer(left: Option<&[u8]>) -> Option<(&[u8], Option<&[u8]>)>
    ensures { TakesField integer left.entry result }
{
    let (field, rest) = next_field(left?);
    if is_integer(field) {
        Some((field, rest))
    } else {
        None
    }
}

/// The field at the front, where it spells a number from 1 on, and what follows it.
pub fn any_positive(left: Option<&[u8]>) -> Option<(&[u8], Option<&[u8]>)>
    ensures { TakesField positive left.entry result }
{
    let (field, rest) = next_field(left?);
    if is_above_zero(field) {
        Some((field, rest))
    } else {
        None
    }
}

/// Whether the number that `a` spells is below the one that `b` spells.
///
/// Both fields spell numbers from 0 on; of other fields the answer tells nothing.
pub fn is_less(a: &[u8], b: &[u8]) -> bool
    ensures { (m n : ℕ) → natural a.now ≡ Some m → natural b.now ≡ Some n → (IsTrue result ↔ (m < n)) }
{
    if a.len() != b.len() {
        return a.len() < b.len();
    }
    a < b
}

/// Whether all bytes are digits.
fn are_digits(field: &[u8]) -> bool
    ensures { IsTrue result ↔ All (λ d. (48 ≤ d) × (d < 58)) field.now }
{
    field.iter().all(|d| d.is_ascii_digit())
}

/// Whether the field spells a number from 1 on.
fn is_above_zero(field: &[u8]) -> bool
    ensures { result ≡ is_some (only_if (nat_le 1) (natural field.now)) }
{
    if field.is_empty() {
        return false;
    }
    field[0] != b'0' && are_digits(field)
}

/// Whether the field spells a number from 0 on.
fn is_natural(field: &[u8]) -> bool
    ensures { result ≡ is_some (natural field.now) }
{
    field == b"0".as_slice() || is_above_zero(field)
}

/// Whether the field spells a number.
fn is_integer(field: &[u8]) -> bool
    ensures { result ≡ is_some (integer field.now) }
{
    if field.is_empty() {
        return false;
    }
    if field[0] == b'-' {
        is_above_zero(&field[1..])
    } else {
        is_natural(field)
    }
}
