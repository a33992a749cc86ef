ghost use Rattle.std.specs.Prelude.{◌≡◌, ◌<◌, ◌+◌, ◌*◌, ◌+ℤ◌, ◌-ℤ◌, ◌*ℤ◌, pos, length};
ghost use Rattle.zr_base.specs.Points.{num_of};
ghost use Rattle.zr_game.specs.Players.{player_of};
ghost use Rattle.zr_boxes.specs.Gains.{least_gain as gain_in, slope_range};
ghost use Rattle.zr_boxes.specs.Paths.{box_of};
ghost use Rattle.zr_boxes.specs.Ranges.{least_product, lesser_of, range_of, shifted};
ghost use Rattle.zr_box_search.specs.Sizes.{HasNearRange, IsNearPlayer, IsNearPoint, IsUpTo, number_size, part_size, slope_size};

use crate::slope::{Ends, high_at, low_at, slope_ends};
use zr_base::Point;
use zr_game::{Leaf, Player};

/// What a player gains at least.
#[derive(Clone, Copy)]
struct Gain {
    total: i128,
}

/// The least gain of player `i` by playing the whole point against the box: the sum over its
/// variables of the least product of an end of the way to the point and an end of the slope.
pub(crate) fn least_gain(player: &Player, i: u32, leaves: &[Leaf], point: &Point) -> i128
    requires player { IsNearPlayer (player_of player.now) i (box_of leaves.now) }
    requires point { IsNearPoint (player_of player.now) point.now }
    ensures { result ≡ gain_in (player_of player.now) i (box_of leaves.now) point.now }
{
    let mut gain = Gain { total: 0 };
    for v in 0..player.vars.len() {
        gain = with_var(gain, player, i, leaves, point, v);
    }
    gain.total
}

/// The gain so far and the part of variable `v`.
fn with_var(gain: Gain, player: &Player, i: u32, leaves: &[Leaf], point: &Point, v: usize) -> Gain
    requires player { IsNearPlayer (player_of player.now) i (box_of leaves.now) }
    requires point { IsNearPoint (player_of player.now) point.now }
    requires var { v < length (player_of player.now).vars }
    requires so_far { IsUpTo (v * part_size) gain.total }
    ensures value { result.total ≡ gain.total +ℤ least_product
        (shifted (pos 1) (num_of point.now v) (range_of (box_of leaves.now) i v))
        (slope_range (player_of player.now) (box_of leaves.now) v) }
    ensures size { IsUpTo ((v + 1) * part_size) result.total }
{
    let part = var_gain(player, i, leaves, point.num(v), v);
    add(gain, part, v)
}

fn add(gain: Gain, part: Gain, count: usize) -> Gain
    requires few { count < 64 }
    requires so_far { IsUpTo (count * part_size) gain.total }
    requires part { IsUpTo part_size part.total }
    ensures value { result.total ≡ gain.total +ℤ part.total }
    ensures size { IsUpTo ((count + 1) * part_size) result.total }
{
    Gain {
        total: gain.total + part.total,
    }
}

/// The part of variable `v` in the least gain, where the point's number is `num`.
fn var_gain(player: &Player, i: u32, leaves: &[Leaf], num: i128, v: usize) -> Gain
    requires player { IsNearPlayer (player_of player.now) i (box_of leaves.now) }
    requires var { v < length (player_of player.now).vars }
    requires num { IsUpTo number_size num }
    ensures value { result.total
        ≡ least_product (shifted (pos 1) num (range_of (box_of leaves.now) i v))
        (slope_range (player_of player.now) (box_of leaves.now) v) }
    ensures size { IsUpTo part_size result.total }
{
    least_of(way_ends(leaves, i, v, num), slope_ends(player, leaves, v))
}

/// The ends of the way from the number to the variable of player `i`.
fn way_ends(leaves: &[Leaf], i: u32, v: usize, num: i128) -> Ends
    requires range { HasNearRange (box_of leaves.now) i v }
    requires num { IsUpTo number_size num }
    ensures low { result.low ≡ (range_of (box_of leaves.now) i v).low -ℤ num }
    ensures high { result.high ≡ (range_of (box_of leaves.now) i v).high -ℤ num }
    ensures near { IsUpTo (2 * number_size) result.low }
    ensures far { IsUpTo (2 * number_size) result.high }
{
    Ends {
        low: i128::from(low_at(leaves, i, v)) - num,
        high: i128::from(high_at(leaves, i, v)) - num,
    }
}

/// The least of the four products of an end of the one range and an end of the other.
fn least_of(way: Ends, slope: Ends) -> Gain
    requires near { IsUpTo (2 * number_size) way.low }
    requires far { IsUpTo (2 * number_size) way.high }
    requires least { IsUpTo slope_size slope.low }
    requires greatest { IsUpTo slope_size slope.high }
    ensures value { result.total
        ≡ lesser_of (lesser_of (way.low *ℤ slope.low) (way.low *ℤ slope.high))
        (lesser_of (way.high *ℤ slope.low) (way.high *ℤ slope.high)) }
    ensures size { IsUpTo part_size result.total }
{
    let near = lesser(product(way.low, slope.low), product(way.low, slope.high));
    let far = lesser(product(way.high, slope.low), product(way.high, slope.high));
    lesser(near, far)
}

fn product(a: i128, b: i128) -> Gain
    requires way { IsUpTo (2 * number_size) a }
    requires slope { IsUpTo slope_size b }
    ensures value { result.total ≡ a *ℤ b }
    ensures size { IsUpTo part_size result.total }
{
    Gain { total: a * b }
}

fn lesser(a: Gain, b: Gain) -> Gain
    requires first { IsUpTo part_size a.total }
    requires second { IsUpTo part_size b.total }
    ensures value { result.total ≡ lesser_of a.total b.total }
    ensures size { IsUpTo part_size result.total }
{
    if b.total < a.total { b } else { a }
}
