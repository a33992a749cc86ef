//! Named points and rays: a line of their count, and one for each.

ghost use Rattle.std.specs.Prelude.{◌≡◌, ◌^◌, ◌<◌, length, map, option_map, option_copied, IfOk, is_some, true, false};
ghost use Rattle.zr_game.specs.Named.{named_of};
ghost use Rattle.zr_cert.specs.Certs.{named_list};
ghost use Rattle.zr_form.specs.Code.{left_of};
ghost use Rattle.zr_form.specs.Lines.{by_fields, fields_of, lines_of};
ghost use Rattle.zr_form.specs.Reading.{items_read, one_read};
ghost use Rattle.zr_form.specs.Stops.{Gives, ReadsLine};
ghost use Rattle.zr_lines.specs.Reader.{named_at, named_count_at, named_read, named_rest};
ghost use Rattle.zr_lines.specs.declared.words.NamedWord.TheVariants as word;

use crate::field::{INDEX_LIMIT, ended};
use crate::loose_field::after_natural;
use crate::loose_point::{is_point, is_ray};
use crate::point_fields::{point, ray};
use crate::words::{NamedWord, named_word};
use std::alloc::{AllocError, Global};
use zr_form::{LineFault, ReadError, first_line, next_field, placed, small, word};
use zr_game::Named;

/// How many points and rays follow, within the upper bounds.
#[tactic(auto, unfolding(crate::specs::Reader::named_count_at))]
fn named_count(line: &[u8]) -> Option<u64>
    ensures { option_map (λ n. n) result ≡ named_count_at true (fields_of line.now) }
{
    let rest = word(Some(line), b"named")?;
    let (count, rest) = small(rest, INDEX_LIMIT)?;
    ended(rest)?;
    Some(count)
}

/// Whether it is the line of a count of points and rays, where numbers have no upper bounds.
#[tactic(auto, unfolding(crate::specs::Reader::named_count_at))]
fn is_named_count(line: &[u8]) -> bool
    ensures { result ≡ is_some (named_count_at false (fields_of line.now)) }
{
    let Some(rest) = word(Some(line), b"named") else {
        return false;
    };
    let Some(rest) = after_natural(rest) else {
        return false;
    };
    ended(rest).is_some()
}

/// How many points and rays follow.
fn named_count_line(line: &[u8]) -> Result<u64, LineFault>
    ensures { ReadsLine (λ n. n) result (named_count_at true (fields_of line.now)) (named_count_at false (fields_of line.now)) }
{
    match named_count(line) {
        Some(count) => Ok(count),
        None => Err(LineFault::of_line(is_named_count(line))),
    }
}

#[tactic(auto, unfolding(crate::specs::Reader::named_rest))]
fn named_point(alloc: Global, left: Option<&[u8]>) -> Result<Option<Named>, AllocError>
    ensures { IfOk result (λ o. option_map named_of o ≡ named_rest true word.Point (left_of (option_copied left.entry))) }
{
    let Some(point) = point(alloc, left)? else {
        return Ok(None);
    };
    Ok(Some(Named::Point(point)))
}

#[tactic(auto, unfolding(crate::specs::Reader::named_rest))]
fn named_ray(alloc: Global, left: Option<&[u8]>) -> Result<Option<Named>, AllocError>
    ensures { IfOk result (λ o. option_map named_of o ≡ named_rest true word.Ray (left_of (option_copied left.entry))) }
{
    ray(alloc, left)
}

/// The point or ray of the line, with numbers within the upper bounds.
fn named(alloc: Global, line: &[u8]) -> Result<Option<Named>, AllocError>
    ensures { IfOk result (λ o. option_map named_of o ≡ named_at true (fields_of line.now)) }
{
    let (field, rest) = next_field(line);
    let Some(word) = named_word(field) else {
        return Ok(None);
    };
    match word {
        NamedWord::Point => named_point(alloc, rest),
        NamedWord::Ray => named_ray(alloc, rest),
    }
}

/// Whether it is the line of a point or a ray, where numbers have no upper bounds.
fn is_named(line: &[u8]) -> bool
    ensures { result ≡ is_some (named_at false (fields_of line.now)) }
{
    let (field, rest) = next_field(line);
    let Some(word) = named_word(field) else {
        return false;
    };
    match word {
        NamedWord::Point => is_named_point(rest),
        NamedWord::Ray => is_named_ray(rest),
    }
}

#[tactic(auto, unfolding(crate::specs::Reader::named_rest))]
fn is_named_point(left: Option<&[u8]>) -> bool
    requires { length (left_of (option_copied left)) < 2 ^ 64 }
    ensures { result ≡ is_some (named_rest false word.Point (left_of (option_copied left.entry))) }
{
    is_point(left)
}

#[tactic(auto, unfolding(crate::specs::Reader::named_rest))]
fn is_named_ray(left: Option<&[u8]>) -> bool
    requires { length (left_of (option_copied left)) < 2 ^ 64 }
    ensures { result ≡ is_some (named_rest false word.Ray (left_of (option_copied left.entry))) }
{
    is_ray(left)
}

/// The point or ray of the line.
fn named_line(alloc: Global, line: &[u8]) -> Result<Result<Named, LineFault>, AllocError>
    ensures { IfOk result (λ item. ReadsLine named_of item (named_at true (fields_of line.now)) (named_at false (fields_of line.now))) }
{
    match named(alloc, line)? {
        Some(item) => Ok(Ok(item)),
        None => Ok(Err(LineFault::of_line(is_named(line)))),
    }
}

/// How many points and rays follow, and what follows the line.
fn take_named_count(bytes: &[u8]) -> Result<(u64, &[u8]), ReadError>
    ensures { Gives (λ n. n) result (one_read (by_fields (named_count_at true)) (lines_of bytes.now)) (one_read (by_fields (named_count_at false)) (lines_of bytes.now)) }
{
    let (line, rest) = first_line(bytes)?;
    let count = placed(named_count_line(line), bytes.len())?;
    Ok((count, rest))
}

/// So many points and rays, and what follows them.
fn take_items(alloc: Global, bytes: &[u8], count: u64) -> Result<(Vec<Named>, &[u8]), ReadError>
    ensures { Gives (λ items. map named_of items.items) result (items_read (by_fields (named_at true)) (λ item. 0) (lines_of bytes.now) count) (items_read (by_fields (named_at false)) (λ item. 0) (lines_of bytes.now) count) }
{
    let mut items = Vec::new(alloc);
    let mut rest = bytes;
    for _ in 0..count {
        let (line, after) = first_line(rest)?;
        let item = placed(named_line(alloc, line)?, rest.len())?;
        items.push(item)?;
        rest = after;
    }
    Ok((items, rest))
}

/// The named points and rays at the front, with the line of their count, and what follows them.
pub fn take_named(alloc: Global, bytes: &[u8]) -> Result<(Vec<Named>, &[u8]), ReadError>
    ensures { Gives named_list result (named_read true (lines_of bytes.now)) (named_read false (lines_of bytes.now)) }
{
    let (count, rest) = take_named_count(bytes)?;
    let (items, rest) = take_items(alloc, rest, count)?;
    Ok((items, rest))
}
