//! The first lines of a certificate, and its last one.

ghost use Rattle.std.specs.Prelude.{◌≡◌, ◌<◌, option_map, option_copied, true, false, IfSome};
ghost use Rattle.zr_form.specs.Code.{left_of, Takes};
ghost use Rattle.zr_form.specs.Fields.{natural_read};
ghost use Rattle.zr_form.specs.Lines.{by_fields, fields_of, lines_of};
ghost use Rattle.zr_form.specs.Reading.{one_read};
ghost use Rattle.zr_form.specs.Stops.{Gives, ReadsLine};
ghost use Rattle.zr_text.specs.Code.{GivesThis, IsThis, verdict_line_of};
ghost use Rattle.zr_text.specs.Fits.{is_player_count};
ghost use Rattle.zr_text.specs.Reader.{verdict_line_at, verdict_line_word, kind_at, kind_named, none_at, none_rest, word_at};
ghost use Rattle.zr_text.specs.declared.words.NoneWord.TheVariants as a_word;

use crate::loose::{is_kind, is_verdict_line};
use crate::words::{NoneWord, none_word};
use zr_form::{LineFault, ReadError, first_line, next_field, placed, small, word};
use zr_game::Kind;
use zr_lines::{INDEX_LIMIT, ended};

/// What the verdict's line says.
pub(crate) enum VerdictLine {
    /// A profile follows.
    Profile,
    /// Covers and a refutation follow.
    Cover,
    /// The player has no feasible point.
    Empty { player: u32 },
    /// A box tree follows.
    Boxes,
}

/// The kind, and what follows its name.
pub(crate) fn kind_name(left: Option<&[u8]>) -> Option<(Kind, Option<&[u8]>)>
    ensures { Takes (λ k. k) left.entry result (one_read kind_named (left_of (option_copied left.entry))) }
{
    let (field, rest) = next_field(left?);
    if field == b"pure".as_slice() {
        return Some((Kind::Pure, rest));
    }
    if field == b"mixed".as_slice() {
        return Some((Kind::Mixed, rest));
    }
    None
}

/// A number of players, and what follows it.
fn player_count(left: Option<&[u8]>) -> Option<(u64, Option<&[u8]>)>
    ensures within { IfSome result (λ x. x.0 < 17) }
    ensures reads { Takes (λ n. n) left.entry result (natural_read (is_player_count true) (left_of (option_copied left.entry))) }
{
    let (n, rest) = small(left, 17)?;
    if n < 1 {
        return None;
    }
    Some((n, rest))
}

/// The kind and the number of players, within the upper bounds.
#[tactic(auto, unfolding(crate::specs::Reader::kind_at))]
fn kind(line: &[u8]) -> Option<(Kind, u32)>
    ensures { option_map (λ h. (h.0, h.1)) result ≡ kind_at true (fields_of line.now) }
{
    let rest = word(Some(line), b"kind")?;
    let (kind, rest) = kind_name(rest)?;
    let (players, rest) = player_count(rest)?;
    ended(rest)?;
    Some((kind, players as u32))
}

/// The kind and the number of players.
fn kind_line(line: &[u8]) -> Result<(Kind, u32), LineFault>
    ensures { ReadsLine (λ h. (h.0, h.1)) result (kind_at true (fields_of line.now)) (kind_at false (fields_of line.now)) }
{
    match kind(line) {
        Some(head) => Ok(head),
        None => Err(LineFault::of_line(is_kind(line))),
    }
}

/// The kind, the number of players, and what follows their line.
pub(crate) fn take_kind(bytes: &[u8]) -> Result<((Kind, u32), &[u8]), ReadError>
    ensures { Gives (λ h. (h.0, h.1)) result (one_read (by_fields (kind_at true)) (lines_of bytes.now)) (one_read (by_fields (kind_at false)) (lines_of bytes.now)) }
{
    let (line, rest) = first_line(bytes)?;
    let head = placed(kind_line(line), bytes.len())?;
    Ok((head, rest))
}

/// Whether it says that a profile follows, and what follows that word.
pub(crate) fn verdict_line_name(left: Option<&[u8]>) -> Option<(bool, Option<&[u8]>)>
    ensures { Takes (λ c. c) left.entry result (one_read verdict_line_word (left_of (option_copied left.entry))) }
{
    let (field, rest) = next_field(left?);
    if field == b"profile".as_slice() {
        return Some((true, rest));
    }
    if field == b"none".as_slice() {
        return Some((false, rest));
    }
    None
}

/// What the line of the verdict says, within the upper bounds.
#[tactic(auto, unfolding(crate::specs::Reader::verdict_line_at, crate::specs::Reader::verdict_line_rest))]
fn stated(line: &[u8]) -> Option<VerdictLine>
    ensures { option_map verdict_line_of result ≡ verdict_line_at true (fields_of line.now) }
{
    let rest = word(Some(line), b"verdict")?;
    let (is_profile, rest) = verdict_line_name(rest)?;
    if is_profile {
        ended(rest)?;
        return Some(VerdictLine::Profile);
    }
    none(rest)
}

/// What shows that there is no equilibrium, within the upper bounds.
fn none(left: Option<&[u8]>) -> Option<VerdictLine>
    ensures { option_map verdict_line_of result ≡ none_at true (left_of (option_copied left.entry)) }
{
    let Some(line) = left else {
        return None;
    };
    let (field, rest) = next_field(line);
    let Some(word) = none_word(field) else {
        return None;
    };
    match word {
        NoneWord::Cover => cover(rest),
        NoneWord::Empty => empty(rest),
        NoneWord::Boxes => boxes(rest),
    }
}

#[tactic(auto, unfolding(crate::specs::Reader::none_rest))]
fn cover(left: Option<&[u8]>) -> Option<VerdictLine>
    ensures { option_map verdict_line_of result ≡ none_rest true a_word.Cover (left_of (option_copied left.entry)) }
{
    ended(left)?;
    Some(VerdictLine::Cover)
}

#[tactic(auto, unfolding(crate::specs::Reader::none_rest))]
fn empty(left: Option<&[u8]>) -> Option<VerdictLine>
    ensures { option_map verdict_line_of result ≡ none_rest true a_word.Empty (left_of (option_copied left.entry)) }
{
    let (player, rest) = small(left, INDEX_LIMIT)?;
    ended(rest)?;
    Some(VerdictLine::Empty {
        player: player as u32,
    })
}

#[tactic(auto, unfolding(crate::specs::Reader::none_rest))]
fn boxes(left: Option<&[u8]>) -> Option<VerdictLine>
    ensures { option_map verdict_line_of result ≡ none_rest true a_word.Boxes (left_of (option_copied left.entry)) }
{
    ended(left)?;
    Some(VerdictLine::Boxes)
}

/// What the line of the verdict says.
fn verdict_line(line: &[u8]) -> Result<VerdictLine, LineFault>
    ensures { ReadsLine verdict_line_of result (verdict_line_at true (fields_of line.now)) (verdict_line_at false (fields_of line.now)) }
{
    match stated(line) {
        Some(said) => Ok(said),
        None => Err(LineFault::of_line(is_verdict_line(line))),
    }
}

/// What the line of the verdict says, and what follows it.
pub(crate) fn take_verdict_line(bytes: &[u8]) -> Result<(VerdictLine, &[u8]), ReadError>
    ensures { Gives verdict_line_of result (one_read (by_fields (verdict_line_at true)) (lines_of bytes.now)) (one_read (by_fields (verdict_line_at false)) (lines_of bytes.now)) }
{
    let (line, rest) = first_line(bytes)?;
    let said = placed(verdict_line(line), bytes.len())?;
    Ok((said, rest))
}

/// Whether the line is the word.
#[tactic(auto, unfolding(crate::specs::Reader::word_at))]
fn is_word(line: &[u8], name: &[u8]) -> bool
    ensures { IsThis name.now result (word_at name.now (fields_of line.now)) }
{
    let Some(rest) = word(Some(line), name) else {
        return false;
    };
    ended(rest).is_some()
}

/// What follows the line of this word.
pub(crate) fn take_word<'a>(bytes: &'a [u8], name: &[u8]) -> Result<&'a [u8], ReadError>
    ensures { GivesThis name.now result (one_read (by_fields (word_at name.now)) (lines_of bytes.now)) }
{
    let (line, rest) = first_line(bytes)?;
    if is_word(line, name) {
        Ok(rest)
    } else {
        Err(ReadError::Form(bytes.len()))
    }
}
