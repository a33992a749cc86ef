ghost use Rattle.std.specs.Prelude.{◌≡◌, IfOk, map};
ghost use Rattle.std.specs.List.{All};
ghost use Rattle.zr_base.specs.Points.{IsPoint};
ghost use Rattle.zr_base.specs.Steps.{IsNarrow};
ghost use Rattle.zr_game.specs.Players.{player_of, var_of};
ghost use Rattle.zr_naming.specs.Starts.{start_between, start_point, start_value};

use std::alloc::{AllocError, Global};
use zr_base::{NoMemory, Point};
use zr_game::{Player, Var};

/// The point at which each variable has its start value.
pub(crate) fn start_point(alloc: Global, player: &Player) -> Result<Point, NoMemory>
    ensures point { IfOk result (λ point. point ≡ start_point (player_of player.now)) }
    ensures form { IfOk result (λ point. IsPoint point.num point.den) }
{
    let Ok(num) = start_values(alloc, &player.vars) else {
        return Err(NoMemory);
    };
    match Point::new(num, 1) {
        Ok(point) => Ok(point),
        Err(_) => unreachable!(),
    }
}

fn start_values(alloc: Global, vars: &[Var]) -> Result<Vec<i128>, AllocError>
    ensures values { IfOk result (λ num. num.items ≡ map start_value (map var_of vars.now)) }
    ensures narrow { IfOk result (λ num. All IsNarrow num.items) }
{
    let mut num = Vec::new(alloc);
    for var in vars {
        num.push(start_between(var.low, var.up))?;
    }
    Ok(num)
}

/// The lower bound; without one the smaller of 0 and the upper bound; without both 0.
fn start_between(low: Option<i64>, up: Option<i64>) -> i128
    ensures value { result ≡ start_between low up }
    ensures narrow { IsNarrow result }
{
    match (low, up) {
        (Some(low), _) => i128::from(low),
        (None, Some(up)) => i128::from(up.min(0)),
        (None, None) => 0,
    }
}
