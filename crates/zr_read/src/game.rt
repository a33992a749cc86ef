ghost use Rattle.std.specs.Prelude.{◌≡◌, ◌≤◌, [], Some, codes, map, IfOk, IfErr, IsSome};
ghost use Rattle.serde_json.specs.View.{view};
ghost use Rattle.serde_json.specs.Find.{as_object};
ghost use Rattle.zr_source.specs.Sources.{leaders_of};
ghost use Rattle.zr_value.specs.Faults.{Reads};
ghost use Rattle.zr_value.specs.Values.{needed};
ghost use Rattle.zr_value.specs.Formats.{format_in};
ghost use Rattle.zr_read.specs.Passes.{players_in, players_of_in, source_in};
ghost use Rattle.zr_read.specs.Texts.{source_of, StandsFor, IsRefusal};

use crate::players::read_leaders;
use serde_json::Value;
use serde_json::error::Category;
use std::alloc::Global;
use zr_source::Source;
use zr_value::{
    GameError, GameFault, GameFormat, at, missing, placed, read_format, read_listed, read_object,
};

/// The source of a list of 1 to `most` players.
fn read_list(
    alloc: Global,
    value: &Value,
    format: GameFormat,
    most: usize,
    cross: usize,
    taken: &str,
) -> Result<Source, GameError>
    requires few { most ≤ 16 }
    requires few_cross { cross ≤ 65536 }
    ensures { Reads source_of result (players_in format most cross taken.now (view value.now)) }
{
    let items = read_listed(alloc, value, 1, most)?;
    let leaders = read_leaders(alloc, items, format, cross, taken)?;
    Ok(Source { leaders })
}

/// The source of the member `players`.
fn read_members(
    alloc: Global,
    top: &Value,
    format: GameFormat,
    most: usize,
    cross: usize,
    taken: &str,
) -> Result<Source, GameError>
    requires few { most ≤ 16 }
    requires few_cross { cross ≤ 65536 }
    ensures { Reads source_of result (players_of_in format most cross taken.now (view top.now)) }
{
    match top.get("players") {
        None => Err(missing(alloc, "players")),
        Some(value) => placed(
            alloc,
            "players",
            read_list(alloc, value, format, most, cross, taken),
        ),
    }
}

/// Reads the member `players` of an object by the format `zero-game/2`: 1 to `most` players, each
/// with at most `cross` cross terms, none of whom is named `taken`. The empty text takes no name.
///
/// The error is the first fault from that member on, with its path from the object.
pub fn read_players(
    alloc: Global,
    top: &Value,
    most: u32,
    cross: u32,
    taken: &str,
) -> Result<Source, GameError>
    requires object { IsSome (as_object (view top.now)) }
    requires some { 1 ≤ most }
    requires few { most ≤ 16 }
    requires few_cross { cross ≤ 65536 }
    ensures { Reads source_of result
        (players_of_in GameFormat.Second most cross taken.now (view top.now)) }
{
    read_members(
        alloc,
        top,
        GameFormat::Second,
        most as usize,
        cross as usize,
        taken,
    )
}

/// The member `format`.
fn read_format_member(alloc: Global, object: &Value) -> Result<GameFormat, GameError>
    ensures { Reads (λ f. f) result (needed (codes "format") format_in (view object.now)) }
{
    match object.get("format") {
        None => Err(missing(alloc, "format")),
        Some(value) => placed(alloc, "format", read_format(alloc, value)),
    }
}

/// The source of a JSON value.
fn read_value(alloc: Global, value: &Value) -> Result<Source, GameError>
    ensures { Reads source_of result (source_in (view value.now)) }
{
    read_object(alloc, value)?;
    let format = read_format_member(alloc, value)?;
    read_members(alloc, value, format, 16, 65_536, "")
}

/// Reads the text of a game: JSON of the format `zero-game/1` or `zero-game/2`.
///
/// A game has 1 to 16 players, each with 1 to 64 variables, those of its followers included, and at
/// most 256 rows, 32 pairs, 65,536 cross terms, 65,536 terms in the others' variables and 16
/// followers, each of these with at most 32 rows and 65,536 cross terms. Numbers are within
/// ±1,000,000,000. Terms of number 0 are read and left out.
///
/// The error is the first fault in the order of reading: the JSON, `format` and `players`; then for
/// each player its name, aim, variables and its followers' variables; then for each player its
/// rows, pairs, cost, cross terms and terms in the others' variables, and for each of its followers
/// its aim, rows, cost and cross terms.
pub fn read_game(alloc: Global, bytes: &[u8]) -> Result<Source, GameError>
    ensures source { IfOk result (λ source. StandsFor bytes.now (source_of source)) }
    ensures refused { IfErr result (λ e. IsRefusal bytes.now e) }
{
    match Value::from_slice(alloc, bytes) {
        Ok(value) => read_value(alloc, &value),
        Err(e) => if e.classify() == Category::Memory {
            Err(GameError::NoMemory)
        } else {
            Err(at(alloc, GameFault::NotJson))
        },
    }
}
