//! The one text of a source in each format of game texts.
#![tactic(auto)]

mod costs;
mod followers;
mod laws;
mod leaders;
mod parts;
mod rows;

ghost use Rattle.std.specs.Prelude.{◌≡◌, IfOk, true};
ghost use Rattle.std.specs.List.{list_all};
ghost use Rattle.serde_json.specs.View.{view};
ghost use Rattle.zr_game.specs.Players.{var_of};
ghost use Rattle.zr_source.specs.Sources.{leader_of, leaders_of};
ghost use Rattle.zr_read.specs.Texts.{StandsFor, source_of};
ghost use Rattle.zr_write.specs.Canonical.{source_data};
ghost use Rattle.zr_write.specs.Written.{IsWritten, has_zero_lows, is_zero, needs_lows};

use crate::leaders::leaders_value;
pub use laws::law_of_reading_back;
use serde_json::{Value, json};
use std::alloc::{AllocError, Global};
pub use zr_base::NoMemory;
use zr_game::Var;
use zr_source::{Leader, Source};

/// The canonical text of the source: that of format 1 where every lower bound is 0, else that of
/// format 2.
pub fn write_game(alloc: Global, source: &Source) -> Result<Vec<u8>, NoMemory>
    ensures text { IfOk result (λ bytes. IsWritten (needs_lows (source_of source.now))
        (source_of source.now) bytes.items) }
    ensures stands { IfOk result (λ bytes. StandsFor bytes.items (source_of source.now)) }
{
    text_of(alloc, &source.leaders, !have_zero_lows(&source.leaders))
}

/// The canonical text of format 2.
pub fn migrate_game(alloc: Global, source: &Source) -> Result<Vec<u8>, NoMemory>
    ensures text { IfOk result (λ bytes. IsWritten true (source_of source.now) bytes.items) }
    ensures stands { IfOk result (λ bytes. StandsFor bytes.items (source_of source.now)) }
{
    text_of(alloc, &source.leaders, true)
}

/// The compact text of the leaders' value, with lower bounds in format 2 or without them in format 1.
fn text_of(alloc: Global, leaders: &[Leader], lows: bool) -> Result<Vec<u8>, NoMemory>
    ensures { IfOk result (λ bytes. IsWritten lows (leaders_of leaders.now) bytes.items) }
{
    let Ok(value) = source_value(alloc, leaders, lows) else {
        return Err(NoMemory);
    };
    match value.to_string(alloc) {
        Ok(text) => Ok(text.into_bytes()),
        Err(_) => Err(NoMemory),
    }
}

fn source_value(alloc: Global, leaders: &[Leader], lows: bool) -> Result<Value, AllocError>
    ensures { IfOk result (λ value. view value ≡ source_data lows (leaders_of leaders.now)) }
{
    let format = if lows { "zero-game/2" } else { "zero-game/1" };
    let players = leaders_value(alloc, leaders, lows)?;
    json!(in alloc; {"format": format, "players": players})
}

/// Whether each lower bound is 0.
fn have_zero_lows(leaders: &[Leader]) -> bool
    ensures { result ≡ list_all (λ leader. has_zero_lows (leader_of leader)) leaders.now }
{
    leaders.iter().all(|leader| has_zero_lows(leader))
}

fn has_zero_lows(leader: &Leader) -> bool
    ensures { result ≡ has_zero_lows (leader_of leader.now) }
{
    are_from_zero(&leader.base.vars)
}

fn are_from_zero(vars: &[Var]) -> bool
    ensures { result ≡ list_all (λ var. is_zero (var_of var).low) vars.now }
{
    vars.iter().all(|var| is_from_zero(var))
}

fn is_from_zero(var: &Var) -> bool
    ensures { result ≡ is_zero (var_of var.now).low }
{
    match var.low {
        Some(low) => low == 0,
        None => false,
    }
}

#[cfg(test)]
mod tests;
