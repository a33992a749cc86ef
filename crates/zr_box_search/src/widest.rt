ghost use Rattle.std.specs.Prelude.{◌≤◌, ℕ, length};
ghost use Rattle.zr_game.specs.Games.{game_of};
ghost use Rattle.zr_game.specs.Players.{player_of};
ghost use Rattle.zr_boxes.specs.Paths.{box_of};
ghost use Rattle.zr_box_search.specs.Dues.{AreRanged};
ghost use Rattle.zr_box_search.specs.Sizes.{IsNearPlayer};

use crate::setting::size_of;
use crate::slope::{high_at, low_at, slope_ends};
use crate::split::{BoxSplit, middle};
use std::alloc::Global;
use zr_base::NoMemory;
use zr_game::{CrossTerm, Game, Leaf, Player};

/// A split, and how much the variable's range adds to the width of the players' gains.
#[derive(Clone, Copy)]
struct Width {
    split: BoxSplit,
    width: i128,
}

/// The place of a player's variable in a list that has 64 places for each player.
fn place_of(player: u32, var: usize) -> usize {
    (player as usize).saturating_mul(64).saturating_add(var)
}

fn number_in(numbers: &[i128], place: usize) -> i128 {
    if place < numbers.len() {
        numbers[place]
    } else {
        0
    }
}

fn add_to(numbers: &mut [i128], place: usize, more: i128) {
    if place < numbers.len() {
        numbers[place] = numbers[place].saturating_add(more);
    }
}

/// From the variable's lower bound to its upper one.
fn whole_range(player: &Player, var: usize) -> i128 {
    if var >= player.vars.len() {
        return 0;
    }
    let var = &player.vars[var];
    i128::from(var.up.unwrap_or(0)).saturating_sub(i128::from(var.low.unwrap_or(0)))
}

/// Adds what the other variables of the player's cross terms do to its gain: each number times the
/// whole range of the own variable.
fn add_crosses(sums: &mut [i128], player: &Player, cross: &[CrossTerm]) {
    for term in cross {
        let size = size_of(i128::from(term.coef));
        let more = size.saturating_mul(whole_range(player, term.own as usize));
        add_to(sums, place_of(term.player, term.var as usize), more);
    }
}

/// For each player's variable the sum of what it does to the gains of others.
fn cross_sums(alloc: Global, game: &Game) -> Result<Vec<i128>, NoMemory> {
    let count = game.players.len().saturating_mul(64);
    let Ok(mut sums) = vec![in alloc; 0i128; count] else {
        return Err(NoMemory);
    };
    for player in &game.players {
        add_crosses(&mut sums, player, &player.cross);
    }
    Ok(sums)
}

fn wider(best: Option<Width>, other: Option<Width>) -> Option<Width> {
    let Some(b) = best else {
        return other;
    };
    let Some(o) = other else {
        return best;
    };
    if b.width < o.width { other } else { best }
}

/// The split of the variable in the middle, where its range isn't one value. Its slope counts
/// twice beside what it does to the gains of others.
fn width_of(player: &Player, i: u32, leaves: &[Leaf], sums: &[i128], v: usize) -> Option<Width>
    requires few { v ≤ 64 }
    requires near { (k : ℕ) × IsNearPlayer (player_of player.now) k (box_of leaves.now) }
{
    let low = low_at(leaves, i, v);
    let high = high_at(leaves, i, v);
    if low >= high {
        return None;
    }
    let slope = slope_ends(player, leaves, v);
    let least = size_of(slope.low);
    let greatest = size_of(slope.high);
    let own = if least < greatest { greatest } else { least };
    let sum = own
        .saturating_mul(2)
        .saturating_add(number_in(sums, place_of(i, v)));
    Some(Width {
        split: BoxSplit {
            player: i,
            var: v as u32,
            at: middle(low, high),
        },
        width: i128::from(high)
            .saturating_sub(i128::from(low))
            .saturating_mul(sum),
    })
}

fn widest_of(player: &Player, i: u32, leaves: &[Leaf], sums: &[i128]) -> Option<Width>
    requires few { length (player_of player.now).vars ≤ 64 }
    requires near { (k : ℕ) × IsNearPlayer (player_of player.now) k (box_of leaves.now) }
{
    let mut widest = None;
    for v in 0..player.vars.len() {
        widest = wider(widest, width_of(player, i, leaves, sums, v));
    }
    widest
}

/// The split in the middle of the variable whose range adds most to the width of the players'
/// gains, the first such one; `None` where no variable has more than one value.
pub(crate) fn widest_split(
    alloc: Global,
    game: &Game,
    leaves: &[Leaf],
) -> Result<Option<BoxSplit>, NoMemory>
    requires { AreRanged (game_of game.now) (box_of leaves.now) }
{
    let sums = cross_sums(alloc, game)?;
    let mut widest = None;
    for (i, player) in game.players.iter().enumerate() {
        widest = wider(widest, widest_of(player, i as u32, leaves, &sums));
    }
    match widest {
        Some(width) => Ok(Some(width.split)),
        None => Ok(None),
    }
}
