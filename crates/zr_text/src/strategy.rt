//! Strategies: a line for each player, and one for each part.

ghost use Rattle.std.specs.Prelude.{◌≡◌, map, option_map, IfOk, Some, true, false, codes};
ghost use Rattle.zr_mix.specs.Mixtures.{part_of};
ghost use Rattle.zr_cert.specs.Certs.{mixture_of};
ghost use Rattle.zr_form.specs.Bounds.{is_positive};
ghost use Rattle.zr_form.specs.Fields.{integer_read, skip};
ghost use Rattle.zr_form.specs.Lines.{by_fields, fields_of, lines_of};
ghost use Rattle.zr_form.specs.Reading.{items_read, many_read, one_read};
ghost use Rattle.zr_form.specs.Stops.{Gives, ReadsLine};
ghost use Rattle.zr_text.specs.Code.{Begins};
ghost use Rattle.zr_text.specs.Reader.{part_at, player_at, strategy_read};

use crate::loose::{is_part, is_player};
use std::alloc::{AllocError, Global};
use zr_form::{LineFault, ReadError, first_line, placed, positive, word};
use zr_lines::{count, ended, index, point};
use zr_mix::{Part, Strategy};

/// The weight of a part, and what follows it.
fn weight(line: &[u8]) -> Option<(i128, Option<&[u8]>)>
    ensures { Begins result (skip (codes "part") (integer_read (is_positive true)) (fields_of line.now)) }
{
    let rest = word(Some(line), b"part")?;
    let (weight, rest) = positive(rest)?;
    Some((weight, rest))
}

/// The part of the line, with numbers within the upper bounds.
#[tactic(auto, unfolding(crate::specs::Reader::part_at))]
fn part(alloc: Global, line: &[u8]) -> Result<Option<Part>, AllocError>
    ensures { IfOk result (λ o. option_map part_of o ≡ part_at true (fields_of line.now)) }
{
    let Some((weight, rest)) = weight(line) else {
        return Ok(None);
    };
    let Some(point) = point(alloc, rest)? else {
        return Ok(None);
    };
    Ok(Some(Part { weight, point }))
}

/// The part of the line.
fn part_line(alloc: Global, line: &[u8]) -> Result<Result<Part, LineFault>, AllocError>
    ensures { IfOk result (λ part. ReadsLine part_of part (part_at true (fields_of line.now)) (part_at false (fields_of line.now))) }
{
    match part(alloc, line)? {
        Some(part) => Ok(Ok(part)),
        None => Ok(Err(LineFault::of_line(is_part(line)))),
    }
}

/// The total of player `i` and the count of its parts, within the upper bounds.
#[tactic(auto, unfolding(crate::specs::Reader::player_at))]
fn player(line: &[u8], i: u32) -> Option<(i128, u64)>
    ensures { option_map (λ h. (i, (h.0, h.1))) result ≡ player_at true i (fields_of line.now) }
{
    let rest = word(Some(line), b"player")?;
    let rest = index(rest, i)?;
    let rest = word(rest, b"total")?;
    let (total, rest) = positive(rest)?;
    let rest = word(rest, b"parts")?;
    let (count, rest) = count(rest)?;
    ended(rest)?;
    Some((total, count))
}

/// The total of player `i` and the count of its parts.
fn player_line(line: &[u8], i: u32) -> Result<(i128, u64), LineFault>
    ensures { ReadsLine (λ h. (i, (h.0, h.1))) result (player_at true i (fields_of line.now)) (player_at false i (fields_of line.now)) }
{
    match player(line, i) {
        Some(head) => Ok(head),
        None => Err(LineFault::of_line(is_player(line, i))),
    }
}

/// The total of player `i`, the count of its parts, and what follows the line.
fn take_player(bytes: &[u8], i: u32) -> Result<((i128, u64), &[u8]), ReadError>
    ensures { Gives (λ h. (i, (h.0, h.1))) result (one_read (by_fields (player_at true i)) (lines_of bytes.now)) (one_read (by_fields (player_at false i)) (lines_of bytes.now)) }
{
    let (line, rest) = first_line(bytes)?;
    let head = placed(player_line(line, i), bytes.len())?;
    Ok((head, rest))
}

/// So many parts, and what follows them.
fn take_parts(alloc: Global, bytes: &[u8], count: u64) -> Result<(Vec<Part>, &[u8]), ReadError>
    ensures { Gives (λ parts. map part_of parts.items) result (items_read (by_fields (part_at true)) (λ p. 0) (lines_of bytes.now) count) (items_read (by_fields (part_at false)) (λ p. 0) (lines_of bytes.now) count) }
{
    let mut parts = Vec::new(alloc);
    let mut rest = bytes;
    for _ in 0..count {
        let (line, after) = first_line(rest)?;
        let part = placed(part_line(alloc, line)?, rest.len())?;
        parts.push(part)?;
        rest = after;
    }
    Ok((parts, rest))
}

/// The strategy of player `i`, and what follows it.
fn take_strategy(alloc: Global, bytes: &[u8], i: u32) -> Result<(Strategy, &[u8]), ReadError>
    ensures { Gives mixture_of result (strategy_read true i (lines_of bytes.now)) (strategy_read false i (lines_of bytes.now)) }
{
    let ((total, count), rest) = take_player(bytes, i)?;
    let (parts, rest) = take_parts(alloc, rest, count)?;
    Ok((Strategy { total, parts }, rest))
}

/// A strategy for each player, and what follows them.
pub(crate) fn take_strategies(
    alloc: Global,
    bytes: &[u8],
    players: u32,
) -> Result<(Vec<Strategy>, &[u8]), ReadError>
    ensures { Gives (λ all. map mixture_of all.items) result (many_read (strategy_read true) players 0 (lines_of bytes.now)) (many_read (strategy_read false) players 0 (lines_of bytes.now)) }
{
    let mut all = Vec::new(alloc);
    let mut rest = bytes;
    for i in 0..players {
        let (strategy, after) = take_strategy(alloc, rest, i)?;
        all.push(strategy)?;
        rest = after;
    }
    Ok((all, rest))
}
