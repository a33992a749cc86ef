ghost use Rattle.std.specs.Prelude.{◌≡◌, ◌<◌, ◌≤◌, ◌≤ℤ◌, ◌<ℤ◌, ℕ, true, IfOk, IfSome, IfNone, length};
ghost use Rattle.zr_game.specs.Games.{game_of};
ghost use Rattle.zr_game.specs.Forms.{IsPlayer};
ghost use Rattle.zr_game.specs.Players.{PlayerOf, player_of};
ghost use Rattle.zr_boxes.specs.Paths.{box_of};
ghost use Rattle.zr_box_search.specs.Dues.{AreRanged, IsRanged};
ghost use Rattle.zr_box_search.specs.Fates.{SplitsRange, SplitsRangeIn};
ghost use Rattle.zr_box_search.specs.OpenBoxes.{HasOneValue};

use crate::slope::{high_at, low_at};
use crate::tight::empty_cut;
use crate::widest::widest_split;
use std::alloc::Global;
use zr_base::NoMemory;
use zr_game::{Game, Leaf, Player};

/// A split of a box: the variable `var` of the player is at most `at`, or at least `at + 1`.
#[derive(Clone, Copy)]
pub(crate) struct BoxSplit {
    pub(crate) player: u32,
    pub(crate) var: u32,
    pub(crate) at: i64,
}

/// Where to split a box: a split that cuts off a part in which a row can't hold; else the middle of
/// the variable whose range adds most to the width of the players' gains. `None` where no bounds
/// differ.
pub(crate) fn where_to_split(
    alloc: Global,
    game: &Game,
    leaves: &[Leaf],
) -> Result<Option<BoxSplit>, NoMemory>
    requires { AreRanged (game_of game.now) (box_of leaves.now) }
    ensures some { IfOk result (λ split.
        IfSome split (SplitsRangeIn (game_of game.now) (box_of leaves.now))) }
    ensures none { IfOk result (λ split. IfNone split ((k : ℕ) (player : PlayerOf)
        → IsPlayer (game_of game.now) k player → (v : ℕ) → v < length player.vars
        → HasOneValue (box_of leaves.now k) v)) }
{
    if let Some(split) = if_splits(game, leaves, empty_cut(game, leaves)) {
        return Ok(Some(split));
    }
    let widest = widest_split(alloc, game, leaves)?;
    if let Some(split) = if_splits(game, leaves, widest) {
        return Ok(Some(split));
    }
    Ok(first_split(game, leaves))
}

/// The split, where it is one of the box.
fn if_splits(game: &Game, leaves: &[Leaf], split: Option<BoxSplit>) -> Option<BoxSplit>
    requires { AreRanged (game_of game.now) (box_of leaves.now) }
    ensures { IfSome result (SplitsRangeIn (game_of game.now) (box_of leaves.now)) }
{
    let Some(split) = split else {
        return None;
    };
    let i = split.player as usize;
    if i < game.players.len() && is_between(&game.players[i], leaves, split) {
        return Some(split);
    }
    None
}

/// Whether the split is between the two bounds of a variable of the player.
fn is_between(player: &Player, leaves: &[Leaf], split: BoxSplit) -> bool
    requires { (v : ℕ) → v < length (player_of player.now).vars
        → IsRanged (box_of leaves.now split.player) v }
    ensures { result ≡ true
        → SplitsRange (player_of player.now) (box_of leaves.now split.player) split }
{
    let v = split.var as usize;
    if v >= player.vars.len() {
        return false;
    }
    let low = low_at(leaves, split.player, v);
    let high = high_at(leaves, split.player, v);
    let at = split.at;
    if at < low {
        return false;
    }
    if at < high {
        return true;
    }
    false
}

/// The first variable whose bounds differ, in the middle. `None` where no bounds differ.
fn first_split(game: &Game, leaves: &[Leaf]) -> Option<BoxSplit>
    requires { AreRanged (game_of game.now) (box_of leaves.now) }
    ensures some { IfSome result (SplitsRangeIn (game_of game.now) (box_of leaves.now)) }
    ensures none { IfNone result ((k : ℕ) (player : PlayerOf) → IsPlayer (game_of game.now) k player
        → (v : ℕ) → v < length player.vars → HasOneValue (box_of leaves.now k) v) }
{
    for (i, player) in game.players.iter().enumerate() {
        if let Some(split) = own_split(i as u32, player, leaves) {
            return Some(split);
        }
    }
    None
}

/// The same for the variables of player `i`.
fn own_split(i: u32, player: &Player, leaves: &[Leaf]) -> Option<BoxSplit>
    requires few { length (player_of player.now).vars ≤ 64 }
    requires ranged { (v : ℕ) → v < length (player_of player.now).vars
        → IsRanged (box_of leaves.now i) v }
    ensures player { IfSome result (λ split. split.player ≡ i) }
    ensures some { IfSome result (SplitsRange (player_of player.now) (box_of leaves.now i)) }
    ensures none { IfNone result ((v : ℕ) → v < length (player_of player.now).vars
        → HasOneValue (box_of leaves.now i) v) }
{
    for v in 0..player.vars.len() {
        let low = low_at(leaves, i, v);
        let high = high_at(leaves, i, v);
        if low < high {
            return Some(BoxSplit {
                player: i,
                var: v as u32,
                at: middle(low, high),
            });
        }
    }
    None
}

/// The middle of two numbers, rounded down.
pub(crate) fn middle(low: i64, high: i64) -> i64
    requires { low <ℤ high }
    ensures from_low { low ≤ℤ result }
    ensures below_high { result <ℤ high }
{
    ((i128::from(low) + i128::from(high)).div_euclid(2)) as i64
}
