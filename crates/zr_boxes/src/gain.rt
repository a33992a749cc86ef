ghost use Rattle.std.specs.Prelude.{◌≡◌, ◌<◌, pos, length, IfOk};
ghost use Rattle.zr_base.specs.Steps.{IsNarrow};
ghost use Rattle.zr_game.specs.Players.{player_of};
ghost use Rattle.zr_boxes.specs.GainSteps.{gain_steps, next_gain, var_steps};
ghost use Rattle.zr_boxes.specs.Paths.{box_of};

use crate::bounded::range_of;
use crate::range::{least_product, shifted};
use crate::slope::{counts, slope_range};
use zr_base::{Point, Wide, add_product};
use zr_game::{Leaf, Player};

/// The least gain of player `i` by playing the point against the box: the sum over its variables
/// that count of the least product of an end of the way to the point, times the point's
/// denominator, and an end of the slope. The point has a number for each of its variables; 0 stands
/// for a bound that isn't there.
pub(crate) fn least_gain(
    player: &Player,
    i: u32,
    leaves: &[Leaf],
    point: &Point,
) -> Result<i128, Wide>
    requires { length point.now.num ≡ length (player_of player.now).vars }
    ensures { result ≡ gain_steps (player_of player.now) i (box_of leaves.now) point.now (pos 0) 0
        (length (player_of player.now).vars) }
{
    let mut gain = 0;
    for v in 0..player.vars.len() {
        gain = with_var(player, i, leaves, point, v, gain)?;
    }
    Ok(gain)
}

/// The gain so far, and what variable `v` adds to it where it counts.
fn with_var(
    player: &Player,
    i: u32,
    leaves: &[Leaf],
    point: &Point,
    v: usize,
    gain: i128,
) -> Result<i128, Wide>
    requires var { v < length point.now.num }
    requires narrow { IsNarrow gain }
    ensures steps { result ≡ next_gain (player_of player.now) i (box_of leaves.now) point.now
        gain v }
    ensures narrow { IfOk result IsNarrow }
{
    if !counts(player, v) {
        return Ok(gain);
    }
    let least = var_gain(player, i, leaves, point, v)?;
    add_product(gain, least, 1)
}

/// The part of variable `v` in the least gain.
fn var_gain(player: &Player, i: u32, leaves: &[Leaf], point: &Point, v: usize) -> Result<i128, Wide>
    requires { v < length point.now.num }
    ensures { result ≡ var_steps (player_of player.now) i (box_of leaves.now) point.now v }
{
    let way = shifted(point.den(), point.num(v), range_of(leaves, i, v))?;
    let slope = slope_range(player, leaves, v)?;
    least_product(way, slope)
}
