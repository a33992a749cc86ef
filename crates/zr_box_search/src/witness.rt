ghost use Rattle.std.specs.Prelude.{◌≡◌, ◌<◌, ◌≤ℤ◌, ℕ, ℤ, pos, true, IfOk, IfSome, length, slice_index_or};
ghost use Rattle.zr_base.specs.Points.{num_of};
ghost use Rattle.zr_game.specs.Players.{player_of};
ghost use Rattle.zr_game.specs.Games.{game_of};
ghost use Rattle.zr_game.specs.Forms.{IsPlayer};
ghost use Rattle.zr_game.specs.Leaves.{HasPoint, IsLeafOf, leaf_of};
ghost use Rattle.zr_box_search.specs.Whole.{IsBoxPlayer};

use crate::early::{is_point_of, point_of};
use crate::mend::mend;
use crate::setting::box_settings;
use std::alloc::Global;
use zr_base::{NoMemory, Point};
use zr_game::{Game, Leaf, Player};

/// Whether the point's value of variable `v` lies within the leaf's bounds.
fn is_between(leaf: &Leaf, num: i128, v: usize) -> bool
    requires low { v < length leaf.now.low.items }
    requires high { v < length leaf.now.high.items }
    ensures low { result ≡ true
        → IfSome ((leaf_of leaf.now).low v) (λ low. low ≤ℤ num) }
    ensures high { result ≡ true
        → IfSome ((leaf_of leaf.now).high v) (λ high. num ≤ℤ high) }
{
    is_from(leaf.low[v], num) && is_up_to(leaf.high[v], num)
}

fn is_from(low: Option<i64>, num: i128) -> bool
    ensures { result ≡ true → IfSome low (λ low. low ≤ℤ num) }
{
    match low {
        Some(low) => i128::from(low) <= num,
        None => true,
    }
}

fn is_up_to(high: Option<i64>, num: i128) -> bool
    ensures { result ≡ true → IfSome high (λ high. num ≤ℤ high) }
{
    match high {
        Some(high) => num <= i128::from(high),
        None => true,
    }
}

/// Whether each value of the point lies within the leaf's bounds.
fn is_within(leaf: &Leaf, point: &Point) -> bool
    requires lows { length leaf.now.low.items ≡ length point.now.num }
    requires highs { length leaf.now.high.items ≡ length point.now.num }
    ensures low { result ≡ true → (v : ℕ) → v < length point.now.num
        → IfSome ((leaf_of leaf.now).low v) (λ low. low ≤ℤ num_of point.now v) }
    ensures high { result ≡ true → (v : ℕ) → v < length point.now.num
        → IfSome ((leaf_of leaf.now).high v) (λ high. num_of point.now v ≤ℤ high) }
{
    for v in 0..point.len() {
        if !is_between(leaf, point.num(v), v) {
            return false;
        }
    }
    true
}

/// Whether the whole point is one of player `i`, and lies in the leaf.
fn is_inside(game: &Game, i: u32, player: &Player, leaf: &Leaf, point: &Point) -> bool
    requires number { i < length (game_of game.now) }
    requires player { IsPlayer (game_of game.now) i (player_of player.now) }
    requires whole { IsBoxPlayer (player_of player.now) }
    requires lengths { IsLeafOf (player_of player.now) leaf.now }
    requires den { point.now.den ≡ pos 1 }
    ensures { result ≡ true → HasPoint (player_of player.now) (leaf_of leaf.now) }
{
    if !is_point_of(game, i, player, point) {
        return false;
    }
    is_within(leaf, point)
}

/// Whether a whole point of player `i` is found in the leaf, its part of the box; one that is there
/// may be missed.
pub(crate) fn has_witness(
    alloc: Global,
    game: &Game,
    i: u32,
    player: &Player,
    leaf: &Leaf,
) -> Result<bool, NoMemory>
    requires number { i < length (game_of game.now) }
    requires player { IsPlayer (game_of game.now) i (player_of player.now) }
    requires whole { IsBoxPlayer (player_of player.now) }
    requires lengths { IsLeafOf (player_of player.now) leaf.now }
    ensures { IfOk result (λ found. found ≡ true
        → HasPoint (player_of player.now) (leaf_of leaf.now)) }
{
    let mut settings = box_settings(alloc, leaf)?;
    if !mend(&player.rows, &mut settings) {
        return Ok(false);
    }
    match point_of(alloc, &settings) {
        Err(NoMemory) => Err(NoMemory),
        Ok(None) => Ok(false),
        Ok(Some(point)) => Ok(is_inside(game, i, player, leaf, &point)),
    }
}
