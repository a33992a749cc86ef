ghost use Rattle.std.specs.Prelude.{◌≡◌};
ghost use Rattle.serde_json.specs.View.{view};
ghost use Rattle.zr_value.specs.Faults.{Reads};
ghost use Rattle.zr_value.specs.Values.{part};
ghost use Rattle.zr_value.specs.Formats.{aim_in, aim_of_in, by_aim, cost_number_in, format_in};
ghost use Rattle.zr_game.specs.Forms.{IsNumber};

use crate::fault::{GameError, GameFault, at, missing_item, numbered, placed};
use crate::values::{read_number, read_text};
use serde_json::Value;
use std::alloc::Global;

/// The format of a game's text: `zero-game/1` or `zero-game/2`.
///
/// The second one has lower bounds of variables, rows from below, equations, and aims.
#[derive(Clone, Copy, Debug, PartialEq, Eq)]
pub enum GameFormat {
    First,
    Second,
}

/// Whether a cost is to be small, or a payoff great.
#[derive(Clone, Copy, Debug, PartialEq, Eq)]
pub enum Aim {
    Min,
    Max,
}

impl Aim {
    /// The number of a cost that is read under this aim: a payoff is a cost with the other sign.
    fn number(self, z: i64) -> i64
        requires { IsNumber z }
        ensures { result ≡ by_aim self z }
    {
        match self {
            Aim::Min => z,
            Aim::Max => -z,
        }
    }
}

/// The text of `format`.
pub fn read_format(alloc: Global, value: &Value) -> Result<GameFormat, GameError>
    ensures { Reads (λ f. f) result (format_in (view value.now)) }
{
    match read_text(alloc, value)? {
        "zero-game/1" => Ok(GameFormat::First),
        "zero-game/2" => Ok(GameFormat::Second),
        _ => Err(at(alloc, GameFault::Format)),
    }
}

/// The text of `aim`.
fn read_aim(alloc: Global, value: &Value) -> Result<Aim, GameError>
    ensures { Reads (λ a. a) result (aim_in (view value.now)) }
{
    match read_text(alloc, value)? {
        "min" => Ok(Aim::Min),
        "max" => Ok(Aim::Max),
        _ => Err(at(alloc, GameFault::Format)),
    }
}

/// The aim of a player or follower.
pub fn read_aim_member(alloc: Global, object: &Value, format: GameFormat) -> Result<Aim, GameError>
    ensures { Reads (λ a. a) result (aim_of_in format (view object.now)) }
{
    match (format, object.get("aim")) {
        (GameFormat::Second, Some(value)) => placed(alloc, "aim", read_aim(alloc, value)),
        _ => Ok(Aim::Min),
    }
}

/// A number of a cost under an aim.
fn read_cost_number(alloc: Global, value: &Value, aim: Aim) -> Result<i64, GameError>
    ensures { Reads (λ z. z) result (cost_number_in aim (view value.now)) }
{
    Ok(aim.number(read_number(alloc, value)?))
}

/// Part k of a list, which is a number of a cost under an aim.
pub fn read_cost_number_part(
    alloc: Global,
    list: &Value,
    k: usize,
    aim: Aim,
) -> Result<i64, GameError>
    ensures { Reads (λ z. z) result (part k (cost_number_in aim) (view list.now)) }
{
    match list.get(k) {
        None => Err(missing_item(alloc, k)),
        Some(value) => numbered(alloc, k, read_cost_number(alloc, value, aim)),
    }
}
