//! Whether a line is that of a refutation's node where numbers have no upper bounds. No memory is
//! taken.

ghost use Rattle.std.specs.Prelude.{◌≡◌, ◌^◌, ◌<◌, ℕ, false, is_some, length, option_copied};
ghost use Rattle.zr_form.specs.Code.{left_of};
ghost use Rattle.zr_form.specs.Lines.{fields_of};
ghost use Rattle.zr_lines.specs.Reader.{case_at, case_rest};
ghost use Rattle.zr_lines.specs.declared.words.CaseWord.TheVariants as word;

use crate::field::ended;
use crate::loose_field::after_natural;
use crate::loose_multipliers::is_counting;
use crate::words::{CaseWord, case_word};
use zr_form::{next_field, small};

/// Whether it is the line of a node, in a refutation for so many players.
pub(crate) fn is_case(line: &[u8], players: u32) -> bool
    ensures { result ≡ is_some (case_at false players (fields_of line.now)) }
{
    let (field, rest) = next_field(line);
    let Some(word) = case_word(field) else {
        return false;
    };
    match word {
        CaseWord::OnOff => is_on_off(rest),
        CaseWord::Row => is_row(rest),
        CaseWord::Which => is_which(rest, players),
        CaseWord::Close => is_close(rest),
    }
}

#[tactic(auto, unfolding(crate::specs::Reader::case_rest))]
fn is_on_off(left: Option<&[u8]>) -> bool
    ensures { (players : ℕ) → result ≡ is_some (case_rest false players word.OnOff (left_of (option_copied left.entry))) }
{
    let Some(rest) = after_natural(left) else {
        return false;
    };
    let Some(rest) = after_natural(rest) else {
        return false;
    };
    ended(rest).is_some()
}

#[tactic(auto, unfolding(crate::specs::Reader::case_rest))]
fn is_row(left: Option<&[u8]>) -> bool
    ensures { (players : ℕ) → result ≡ is_some (case_rest false players word.Row (left_of (option_copied left.entry))) }
{
    let Some(rest) = after_natural(left) else {
        return false;
    };
    let Some(rest) = after_natural(rest) else {
        return false;
    };
    let Some(rest) = after_natural(rest) else {
        return false;
    };
    ended(rest).is_some()
}

#[tactic(auto, unfolding(crate::specs::Reader::case_rest))]
fn is_which(left: Option<&[u8]>, players: u32) -> bool
    ensures { result ≡ is_some (case_rest false players word.Which (left_of (option_copied left.entry))) }
{
    let Some((_, rest)) = small(left, players as u64) else {
        return false;
    };
    ended(rest).is_some()
}

#[tactic(auto, unfolding(crate::specs::Reader::case_rest))]
fn is_close(left: Option<&[u8]>) -> bool
    requires { length (left_of (option_copied left)) < 2 ^ 64 }
    ensures { (players : ℕ) → result ≡ is_some (case_rest false players word.Close (left_of (option_copied left.entry))) }
{
    is_counting(left)
}
