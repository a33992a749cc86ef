//! Whether a line is in the form where numbers have no upper bounds. No memory is taken.

ghost use Rattle.std.specs.Prelude.{◌≡◌, ℤ, Some, false, is_some, option_copied};
ghost use Rattle.zr_form.specs.Code.{left_of};
ghost use Rattle.zr_form.specs.Fields.{natural_read};
ghost use Rattle.zr_form.specs.Lines.{fields_of};
ghost use Rattle.zr_form.specs.Numbers.{integer};
ghost use Rattle.zr_text.specs.Fits.{is_lowest, is_player_count};
ghost use Rattle.zr_text.specs.Reader.{verdict_line_at, cost_at, kind_at, none_at, none_rest, part_at, player_at};
ghost use Rattle.zr_text.specs.declared.words.NoneWord.TheVariants as a_word;
ghost use Rattle.zr_lines.specs.Code.{TakesAny};

use crate::heading::{kind_name, verdict_line_name};
use crate::words::{NoneWord, none_word};
use zr_base::gcd;
use zr_form::{any_positive, next_field, number, word};
use zr_lines::{
    after_count, after_natural, after_positive, ended, index, is_point, spelled_integer,
    spelled_positive,
};

/// Whether it is the line of a part.
#[tactic(auto, unfolding(crate::specs::Reader::part_at))]
pub(crate) fn is_part(line: &[u8]) -> bool
    ensures { result ≡ is_some (part_at false (fields_of line.now)) }
{
    let Some(rest) = word(Some(line), b"part") else {
        return false;
    };
    let Some(rest) = after_positive(rest) else {
        return false;
    };
    is_point(rest)
}

/// What follows a number of players, of at least 1.
fn after_player_count(left: Option<&[u8]>) -> Option<Option<&[u8]>>
    ensures { TakesAny left.entry result (natural_read (is_player_count false) (left_of (option_copied left.entry))) }
{
    let (_, rest) = any_positive(left)?;
    Some(rest)
}

/// Whether it is the line of player `i`.
#[tactic(auto, unfolding(crate::specs::Reader::player_at))]
pub(crate) fn is_player(line: &[u8], i: u32) -> bool
    ensures { result ≡ is_some (player_at false i (fields_of line.now)) }
{
    let Some(rest) = word(Some(line), b"player") else {
        return false;
    };
    let Some(rest) = index(rest, i) else {
        return false;
    };
    let Some(rest) = word(rest, b"total") else {
        return false;
    };
    let Some(rest) = after_positive(rest) else {
        return false;
    };
    let Some(rest) = word(rest, b"parts") else {
        return false;
    };
    let Some(rest) = after_count(rest) else {
        return false;
    };
    ended(rest).is_some()
}

/// Whether it is the line of the cost of player `i`.
#[tactic(auto, unfolding(crate::specs::Reader::cost_at))]
pub(crate) fn is_cost(line: &[u8], i: u32) -> bool
    ensures { result ≡ is_some (cost_at false i (fields_of line.now)) }
{
    let Some(rest) = word(Some(line), b"cost") else {
        return false;
    };
    let Some(rest) = index(rest, i) else {
        return false;
    };
    let Some((num, rest)) = spelled_integer(rest) else {
        return false;
    };
    let Some((den, rest)) = spelled_positive(rest) else {
        return false;
    };
    ended(rest).is_some() && are_lowest(num, den)
}

/// Whether two numbers are in lowest terms, if both are within the upper bounds.
fn are_lowest(num: &[u8], den: &[u8]) -> bool
    ensures { (n d : ℤ) → integer num.now ≡ Some n → integer den.now ≡ Some d → result ≡ is_lowest n d }
{
    match (number(num), number(den)) {
        (Some(num), Some(den)) => gcd(num.unsigned_abs(), den.unsigned_abs()) == 1,
        _ => true,
    }
}

/// Whether it is the line of the kind.
#[tactic(auto, unfolding(crate::specs::Reader::kind_at))]
pub(crate) fn is_kind(line: &[u8]) -> bool
    ensures { result ≡ is_some (kind_at false (fields_of line.now)) }
{
    let Some(rest) = word(Some(line), b"kind") else {
        return false;
    };
    let Some((_, rest)) = kind_name(rest) else {
        return false;
    };
    let Some(rest) = after_player_count(rest) else {
        return false;
    };
    ended(rest).is_some()
}

/// Whether it is the line of the verdict.
#[tactic(auto, unfolding(crate::specs::Reader::verdict_line_at, crate::specs::Reader::verdict_line_rest))]
pub(crate) fn is_verdict_line(line: &[u8]) -> bool
    ensures { result ≡ is_some (verdict_line_at false (fields_of line.now)) }
{
    let Some(rest) = word(Some(line), b"verdict") else {
        return false;
    };
    let Some((is_profile, rest)) = verdict_line_name(rest) else {
        return false;
    };
    if is_profile {
        return ended(rest).is_some();
    }
    is_none(rest)
}

/// Whether it tells what shows that there is no equilibrium.
fn is_none(left: Option<&[u8]>) -> bool
    ensures { result ≡ is_some (none_at false (left_of (option_copied left.entry))) }
{
    let Some(line) = left else {
        return false;
    };
    let (field, rest) = next_field(line);
    let Some(word) = none_word(field) else {
        return false;
    };
    match word {
        NoneWord::Cover => is_cover(rest),
        NoneWord::Empty => is_empty(rest),
        NoneWord::Boxes => is_boxes(rest),
    }
}

#[tactic(auto, unfolding(crate::specs::Reader::none_rest))]
fn is_cover(left: Option<&[u8]>) -> bool
    ensures { result ≡ is_some (none_rest false a_word.Cover (left_of (option_copied left.entry))) }
{
    ended(left).is_some()
}

#[tactic(auto, unfolding(crate::specs::Reader::none_rest))]
fn is_empty(left: Option<&[u8]>) -> bool
    ensures { result ≡ is_some (none_rest false a_word.Empty (left_of (option_copied left.entry))) }
{
    let Some(rest) = after_natural(left) else {
        return false;
    };
    ended(rest).is_some()
}

#[tactic(auto, unfolding(crate::specs::Reader::none_rest))]
fn is_boxes(left: Option<&[u8]>) -> bool
    ensures { result ≡ is_some (none_rest false a_word.Boxes (left_of (option_copied left.entry))) }
{
    ended(left).is_some()
}
