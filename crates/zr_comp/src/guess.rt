ghost use Rattle.std.specs.List.{All};
ghost use Rattle.zr_game.specs.Games.{game_of};
ghost use Rattle.zr_branch.specs.Replies.{CountsPivotsAlone};
ghost use Rattle.zr_system.specs.Regions.{leaves_of};
ghost use Rattle.zr_system.specs.Asked.{AreLeaves, IsUnknown};
ghost use Rattle.zr_comp.specs.Cases.{AreFewSlots};

use crate::index::{leaf_index, player_index, slot_index};
use crate::unmet::{is_slack, number_at};
use std::alloc::{AllocError, Global};
use zr_base::{Point, cross};
use zr_game::{Game, Kind};
use zr_io::Purse;
use zr_supports::{WeightedPoint, likely_weights};
use zr_system::{Leaves, Unknown};

/// The weight of a leaf.
fn weight_at(found: &[WeightedPoint], player: usize, leaf: usize) -> i128 {
    for part in found {
        if part.player == player && part.leaf == leaf {
            return part.weight;
        }
    }
    0
}

/// The share of a variable: the weight times its value, or 0 where that is too wide.
fn share_at(found: &[WeightedPoint], player: usize, leaf: usize, var: usize) -> i128 {
    for part in found {
        if part.player == player && part.leaf == leaf && var < part.point.len() {
            return cross((part.weight, i128::from(part.point[var])), (0, 0)).unwrap_or(0);
        }
    }
    0
}

/// The weights and shares, and 0 for the other unknowns.
fn shares(
    alloc: Global,
    order: &[Unknown],
    found: &[WeightedPoint],
) -> Result<Option<Point>, AllocError> {
    let mut numbers = Vec::new(alloc);
    for u in order {
        let number = match *u {
            Unknown::Weight { player, leaf } => weight_at(found, player, leaf),
            Unknown::Share { player, leaf, var } => share_at(found, player, leaf, var),
            _ => 0,
        };
        numbers.push(number)?;
    }
    Ok(Point::new(numbers, 1).ok())
}

/// Whether the unknown is the multiplier of a slot that is tight at the point.
fn is_tight(game: &Game, leaves: &Leaves, order: &[Unknown], point: &Point, u: Unknown) -> bool
    requires leaves { AreLeaves (game_of game.now) leaves.now }
    requires few { AreFewSlots (game_of game.now) (leaves_of leaves.now) }
    requires order { All (IsUnknown (game_of game.now) (leaves_of leaves.now)) order.now }
    requires unknown { IsUnknown (game_of game.now) (leaves_of leaves.now) u }
{
    match u {
        Unknown::Dual { player, leaf, slot } => {
            let i = player_index(game, player);
            let k = leaf_index(game, leaves, player, leaf);
            let s = slot_index(game, leaves, player, leaf, slot);
            !is_slack(game, leaves, order, point, i, k, s)
        }
        _ => false,
    }
}

/// The point with 1 for the multipliers of the slots that are tight there.
fn with_multipliers(
    alloc: Global,
    game: &Game,
    leaves: &Leaves,
    order: &[Unknown],
    point: &Point,
) -> Result<Option<Point>, AllocError>
    requires leaves { AreLeaves (game_of game.now) leaves.now }
    requires few { AreFewSlots (game_of game.now) (leaves_of leaves.now) }
    requires order { All (IsUnknown (game_of game.now) (leaves_of leaves.now)) order.now }
{
    let mut numbers = Vec::new(alloc);
    for (j, u) in order.iter().enumerate() {
        if is_tight(game, leaves, order, point, *u) {
            numbers.push(1)?;
        } else {
            numbers.push(number_at(point, j))?;
        }
    }
    Ok(Point::new(numbers, 1).ok())
}

/// Numbers of the unknowns that tell the choices which a solution is likely to meet, where all
/// leaves are single points and small supports have an equilibrium: its weights and shares, and 1
/// for the multiplier of each slot that is tight.
///
/// Nothing rests on them: a solution is one of a list's question.
pub(crate) fn guess(
    alloc: Global,
    game: &Game,
    leaves: &Leaves,
    kind: Kind,
    order: &[Unknown],
    purse: &mut Purse,
) -> Result<Option<Point>, AllocError>
    requires leaves { AreLeaves (game_of game.now) leaves.now }
    requires few { AreFewSlots (game_of game.now) (leaves_of leaves.now) }
    requires order { All (IsUnknown (game_of game.now) (leaves_of leaves.now)) order.now }
    ensures purse { CountsPivotsAlone purse.old purse.new }
{
    let Some(found) = likely_weights(alloc, game, leaves, kind, purse)? else {
        return Ok(None);
    };
    let Some(point) = shares(alloc, order, &found)? else {
        return Ok(None);
    };
    with_multipliers(alloc, game, leaves, order, &point)
}
