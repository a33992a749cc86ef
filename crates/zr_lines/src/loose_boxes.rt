//! Whether a line is that of a box tree's node where numbers have no upper bounds. No memory is
//! taken.

ghost use Rattle.std.specs.Prelude.{◌≡◌, ◌^◌, ◌<◌, false, is_some, length, option_copied};
ghost use Rattle.zr_form.specs.Code.{left_of};
ghost use Rattle.zr_form.specs.Lines.{fields_of};
ghost use Rattle.zr_lines.specs.Reader.{box_at, box_rest};
ghost use Rattle.zr_lines.specs.declared.words.BoxWord.TheVariants as word;

use crate::field::ended;
use crate::loose_field::{after_at, after_natural};
use crate::loose_multipliers::is_counting;
use crate::loose_point::is_point;
use crate::words::{BoxWord, box_word};
use zr_form::next_field;

/// Whether it is the line of a node.
pub(crate) fn is_box(line: &[u8]) -> bool
    ensures { result ≡ is_some (box_at false (fields_of line.now)) }
{
    let (field, rest) = next_field(line);
    let Some(word) = box_word(field) else {
        return false;
    };
    match word {
        BoxWord::Split => is_split(rest),
        BoxWord::Empty => is_empty(rest),
        BoxWord::Deviate => is_deviate(rest),
    }
}

#[tactic(auto, unfolding(crate::specs::Reader::box_rest))]
fn is_split(left: Option<&[u8]>) -> bool
    ensures { result ≡ is_some (box_rest false word.Split (left_of (option_copied left.entry))) }
{
    let Some(rest) = after_natural(left) else {
        return false;
    };
    let Some(rest) = after_natural(rest) else {
        return false;
    };
    let Some(rest) = after_at(rest) else {
        return false;
    };
    ended(rest).is_some()
}

#[tactic(auto, unfolding(crate::specs::Reader::box_rest))]
fn is_empty(left: Option<&[u8]>) -> bool
    requires { length (left_of (option_copied left)) < 2 ^ 64 }
    ensures { result ≡ is_some (box_rest false word.Empty (left_of (option_copied left.entry))) }
{
    let Some(rest) = after_natural(left) else {
        return false;
    };
    is_counting(rest)
}

#[tactic(auto, unfolding(crate::specs::Reader::box_rest))]
fn is_deviate(left: Option<&[u8]>) -> bool
    requires { length (left_of (option_copied left)) < 2 ^ 64 }
    ensures { result ≡ is_some (box_rest false word.Deviate (left_of (option_copied left.entry))) }
{
    let Some(rest) = after_natural(left) else {
        return false;
    };
    is_point(rest)
}
