//! What stands in the field at the front of a line: a word, or a number within its bounds.
//!
//! Each function is given what is left of the line, `None` after the last field, and gives what is
//! left then. It gives `None` where the field doesn't stand there.

ghost use Rattle.std.specs.Prelude.{◌≡◌, ◌^◌, ◌≤◌, ◌&&◌, ◌==◌, nat_lt, nat_le, option_map, option_copied, ◌<◌, IfSome, List, [], ◌∷◌, int_le, pos, true};
ghost use Rattle.zr_form.specs.Fields.{word_read, natural_read, integer_read};
ghost use Rattle.zr_form.specs.Bounds.{is_narrow, is_positive, below};
ghost use Rattle.zr_form.specs.Code.{left_of, Takes, TakesWord};

use crate::cut::{natural, next_field, number};

/// What follows the word, where it is the field at the front.
pub fn word<'a>(left: Option<&'a [u8]>, word: &[u8]) -> Option<Option<&'a [u8]>>
    ensures { TakesWord word.now left.entry result (word_read word.now (left_of (option_copied left.entry))) }
{
    let (field, rest) = next_field(left?);
    if field == word { Some(rest) } else { None }
}

/// A number within `±(2^127 - 1)`, and what follows it.
pub fn signed(left: Option<&[u8]>) -> Option<(i128, Option<&[u8]>)>
    ensures { Takes (λ z. z) left.entry result (integer_read (is_narrow true) (left_of (option_copied left.entry))) }
{
    let (field, rest) = next_field(left?);
    let n = number(field)?;
    Some((n, rest))
}

/// A number from 0 on below the limit, and what follows it.
pub fn small(left: Option<&[u8]>, limit: u64) -> Option<(u64, Option<&[u8]>)>
    ensures reads { Takes (λ n. n) left.entry result (natural_read (below true limit) (left_of (option_copied left.entry))) }
    ensures within { IfSome result (λ x. x.0 < limit) }
{
    let (field, rest) = next_field(left?);
    let n = natural(field)?;
    if n < limit as u128 {
        Some((n as u64, rest))
    } else {
        None
    }
}

/// A number from 1 to `2^127 - 1`, and what follows it.
pub fn positive(left: Option<&[u8]>) -> Option<(i128, Option<&[u8]>)>
    ensures { Takes (λ z. z) left.entry result (integer_read (is_positive true) (left_of (option_copied left.entry))) }
{
    let (n, rest) = signed(left)?;
    if n >= 1 { Some((n, rest)) } else { None }
}
