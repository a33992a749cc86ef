ghost use Rattle.std.specs.Prelude.{IfOk, IfSome};
ghost use Rattle.std.specs.List.{All};
ghost use Rattle.zr_base.specs.Steps.{IsNarrow};
ghost use Rattle.zr_game.specs.Games.{game_of};
ghost use Rattle.zr_system.specs.Regions.{leaves_of};
ghost use Rattle.zr_system.specs.Asked.{AreLeaves, IsUnknown, LeafExists, LineExists};
ghost use Rattle.zr_comp.specs.Cases.{AreFewSlots, IsCase};

use crate::case::Case;
use crate::first::slot_case;
use crate::index::{leaf_index, player_index, slot_index};
use crate::path::is_used;
use zr_base::{Point, Wide, add_product};
use zr_game::{Choice, Game, Kind};
use zr_system::{Leaves, Line, Unknown, is_exact, number_in_row};

/// The numerator of column `j`, or 0 past the last column.
pub(crate) fn number_at(point: &Point, j: usize) -> i128
    ensures { IsNarrow result }
{
    if j < point.len() { point.num(j) } else { 0 }
}

/// The sum of a row's left side with one unknown more.
fn row_step(
    sum: i128,
    game: &Game,
    leaves: &Leaves,
    line: Line,
    u: Unknown,
    number: i128,
) -> Result<i128, Wide>
    requires narrow { IsNarrow sum }
    requires leaves { AreLeaves (game_of game.now) leaves.now }
    requires line { LineExists (game_of game.now) (leaves_of leaves.now) line }
    requires unknown { IsUnknown (game_of game.now) (leaves_of leaves.now) u }
    ensures narrow { IfOk result IsNarrow }
{
    match number_in_row(game, leaves, line, u) {
        Ok(by) => add_product(sum, by, number),
        Err(wide) => Err(wide),
    }
}

/// What the left side of a row comes to at the point, over the point's denominator, or `None`
/// where a step is too wide.
fn row_amount(
    game: &Game,
    leaves: &Leaves,
    order: &[Unknown],
    point: &Point,
    line: Line,
) -> Option<i128>
    requires leaves { AreLeaves (game_of game.now) leaves.now }
    requires line { LineExists (game_of game.now) (leaves_of leaves.now) line }
    requires order { All (IsUnknown (game_of game.now) (leaves_of leaves.now)) order.now }
{
    let mut sum = 0;
    for (j, u) in order.iter().enumerate() {
        match row_step(sum, game, leaves, line, *u, number_at(point, j)) {
            Ok(next) => sum = next,
            Err(_) => return None,
        }
    }
    Some(sum)
}

/// Whether the slot's row isn't known to be tight at the point.
pub(crate) fn is_slack(
    game: &Game,
    leaves: &Leaves,
    order: &[Unknown],
    point: &Point,
    i: u32,
    k: u32,
    s: u32,
) -> bool
    requires leaves { AreLeaves (game_of game.now) leaves.now }
    requires leaf { LeafExists (game_of game.now) (leaves_of leaves.now) i k }
    requires order { All (IsUnknown (game_of game.now) (leaves_of leaves.now)) order.now }
{
    let line = Line::Slot {
        player: i as usize,
        leaf: k as usize,
        slot: s as usize,
        negated: false,
    };
    row_amount(game, leaves, order, point, line) != Some(0)
}

/// Whether the leaf isn't known to have no weight at the point.
pub(crate) fn is_weighted(
    game: &Game,
    leaves: &Leaves,
    order: &[Unknown],
    point: &Point,
    i: u32,
    k: u32,
) -> bool
    requires leaves { AreLeaves (game_of game.now) leaves.now }
    requires leaf { LeafExists (game_of game.now) (leaves_of leaves.now) i k }
    requires order { All (IsUnknown (game_of game.now) (leaves_of leaves.now)) order.now }
{
    let line = Line::Weight {
        player: i as usize,
        leaf: k as usize,
        negated: false,
    };
    row_amount(game, leaves, order, point, line) != Some(0)
}

/// Whether a share of the leaf isn't 0 at the point.
fn has_share(order: &[Unknown], point: &Point, i: u32, k: u32) -> bool {
    for (j, u) in order.iter().enumerate() {
        if is_share(*u, i, k) && number_at(point, j) != 0 {
            return true;
        }
    }
    false
}

/// Whether the unknown is a share of the leaf.
fn is_share(u: Unknown, i: u32, k: u32) -> bool {
    match u {
        Unknown::Share { player, leaf, .. } => player == i as usize && leaf == k as usize,
        _ => false,
    }
}

/// How far the point is from both choices of a leaf, by its weight there: 0 where it meets one of
/// them.
pub(crate) fn gap_of(
    game: &Game,
    leaves: &Leaves,
    order: &[Unknown],
    point: &Point,
    i: u32,
    k: u32,
    weight: i128,
) -> i128
    requires leaves { AreLeaves (game_of game.now) leaves.now }
    requires leaf { LeafExists (game_of game.now) (leaves_of leaves.now) i k }
    requires order { All (IsUnknown (game_of game.now) (leaves_of leaves.now)) order.now }
{
    if weight == 0 {
        return if has_share(order, point, i, k) { 1 } else { 0 };
    }
    if !is_exact(game, leaves, i as usize, k as usize) {
        return 0;
    }
    let line = Line::Gain {
        player: i as usize,
        leaf: k as usize,
        negated: true,
    };
    row_amount(game, leaves, order, point, line).unwrap_or(i128::MAX)
}

/// The case of a slot, whose multiplier isn't 0, if its leaf is On or chosen and its row not
/// tight.
fn unmet_slot_of(
    game: &Game,
    leaves: &Leaves,
    kind: Kind,
    order: &[Unknown],
    point: &Point,
    path: &[Choice],
    i: u32,
    k: u32,
    s: u32,
) -> Option<Case>
    requires leaves { AreLeaves (game_of game.now) leaves.now }
    requires leaf { LeafExists (game_of game.now) (leaves_of leaves.now) i k }
    requires order { All (IsUnknown (game_of game.now) (leaves_of leaves.now)) order.now }
    ensures { IfSome result (IsCase (game_of game.now) (leaves_of leaves.now) kind path.now) }
{
    if !is_exact(game, leaves, i as usize, k as usize) {
        return None;
    }
    if !is_used(path, i, k) {
        return None;
    }
    if !is_slack(game, leaves, order, point, i, k, s) {
        return None;
    }
    slot_case(game, leaves, kind, path, i, k, s)
}

/// That case for an unknown, which is the multiplier, and its number at the point.
fn unmet_slot_at(
    game: &Game,
    leaves: &Leaves,
    kind: Kind,
    order: &[Unknown],
    point: &Point,
    path: &[Choice],
    u: Unknown,
    number: i128,
) -> Option<Case>
    requires leaves { AreLeaves (game_of game.now) leaves.now }
    requires few { AreFewSlots (game_of game.now) (leaves_of leaves.now) }
    requires order { All (IsUnknown (game_of game.now) (leaves_of leaves.now)) order.now }
    requires unknown { IsUnknown (game_of game.now) (leaves_of leaves.now) u }
    ensures { IfSome result (IsCase (game_of game.now) (leaves_of leaves.now) kind path.now) }
{
    match u {
        Unknown::Dual { player, leaf, slot } => {
            if number == 0 {
                return None;
            }
            let i = player_index(game, player);
            let k = leaf_index(game, leaves, player, leaf);
            let s = slot_index(game, leaves, player, leaf, slot);
            unmet_slot_of(game, leaves, kind, order, point, path, i, k, s)
        }
        _ => None,
    }
}

/// The first case of a slot of which the point meets neither choice.
pub(crate) fn unmet_slot(
    game: &Game,
    leaves: &Leaves,
    kind: Kind,
    order: &[Unknown],
    point: &Point,
    path: &[Choice],
) -> Option<Case>
    requires leaves { AreLeaves (game_of game.now) leaves.now }
    requires few { AreFewSlots (game_of game.now) (leaves_of leaves.now) }
    requires order { All (IsUnknown (game_of game.now) (leaves_of leaves.now)) order.now }
    ensures { IfSome result (IsCase (game_of game.now) (leaves_of leaves.now) kind path.now) }
{
    for (j, u) in order.iter().enumerate() {
        let number = number_at(point, j);
        let case = unmet_slot_at(game, leaves, kind, order, point, path, *u, number);
        if case.is_some() {
            return case;
        }
    }
    None
}
