ghost use Rattle.std.specs.Prelude.{IfSome};
ghost use Rattle.std.specs.List.{All};
ghost use Rattle.zr_game.specs.Games.{game_of};
ghost use Rattle.zr_system.specs.Regions.{leaves_of};
ghost use Rattle.zr_system.specs.Asked.{AreLeaves, ChoiceExists, IsUnknown, LeafExists};
ghost use Rattle.zr_comp.specs.Cases.{AreFewSlots, IsCase};
ghost use Rattle.zr_comp.specs.OpenPaths.{SuitsKind};

use crate::case::Case;
use crate::first::{leaf_case, players_case};
use crate::index::{leaf_index, player_index, slot_index};
use crate::unmet::{gap_of, is_slack, is_weighted, number_at, unmet_slot};
use zr_base::Point;
use zr_game::{Choice, Game, Kind};
use zr_system::{Leaves, Unknown};

/// The case of a leaf, if neither On nor Off, that the unknown is the weight of, and how far the
/// point is from both choices; 0 where there is no such case.
fn gap_at(
    game: &Game,
    leaves: &Leaves,
    order: &[Unknown],
    point: &Point,
    path: &[Choice],
    u: Unknown,
    number: i128,
) -> (i128, Option<Case>)
    requires leaves { AreLeaves (game_of game.now) leaves.now }
    requires path { SuitsKind Kind.Mixed path.now }
    requires order { All (IsUnknown (game_of game.now) (leaves_of leaves.now)) order.now }
    requires unknown { IsUnknown (game_of game.now) (leaves_of leaves.now) u }
    ensures { IfSome result.1
        (IsCase (game_of game.now) (leaves_of leaves.now) Kind.Mixed path.now) }
{
    match u {
        Unknown::Weight { player, leaf } => {
            let i = player_index(game, player);
            let k = leaf_index(game, leaves, player, leaf);
            let case = leaf_case(game, leaves, path, i, k);
            if case.is_none() {
                return (0, None);
            }
            (gap_of(game, leaves, order, point, i, k, number), case)
        }
        _ => (0, None),
    }
}

/// The case of the leaf that is furthest from both of its choices at the point.
fn widest_leaf(
    game: &Game,
    leaves: &Leaves,
    order: &[Unknown],
    point: &Point,
    path: &[Choice],
) -> Option<Case>
    requires leaves { AreLeaves (game_of game.now) leaves.now }
    requires path { SuitsKind Kind.Mixed path.now }
    requires order { All (IsUnknown (game_of game.now) (leaves_of leaves.now)) order.now }
    ensures { IfSome result
        (IsCase (game_of game.now) (leaves_of leaves.now) Kind.Mixed path.now) }
{
    let mut widest = 0;
    let mut found = None;
    for (j, u) in order.iter().enumerate() {
        let (gap, case) = gap_at(game, leaves, order, point, path, *u, number_at(point, j));
        if gap > widest {
            widest = gap;
            found = case;
        }
    }
    found
}

/// The case of a leaf, if neither On nor Off, of whose slot, which the unknown is the multiplier
/// of, the point meets neither choice.
fn half_met_at(
    game: &Game,
    leaves: &Leaves,
    order: &[Unknown],
    point: &Point,
    path: &[Choice],
    u: Unknown,
    number: i128,
) -> Option<Case>
    requires leaves { AreLeaves (game_of game.now) leaves.now }
    requires few { AreFewSlots (game_of game.now) (leaves_of leaves.now) }
    requires path { SuitsKind Kind.Mixed path.now }
    requires order { All (IsUnknown (game_of game.now) (leaves_of leaves.now)) order.now }
    requires unknown { IsUnknown (game_of game.now) (leaves_of leaves.now) u }
    ensures { IfSome result
        (IsCase (game_of game.now) (leaves_of leaves.now) Kind.Mixed path.now) }
{
    match u {
        Unknown::Dual { player, leaf, slot } => {
            if number == 0 {
                return None;
            }
            let i = player_index(game, player);
            let k = leaf_index(game, leaves, player, leaf);
            let s = slot_index(game, leaves, player, leaf, slot);
            if !is_weighted(game, leaves, order, point, i, k) {
                return None;
            }
            if !is_slack(game, leaves, order, point, i, k, s) {
                return None;
            }
            leaf_case(game, leaves, path, i, k)
        }
        _ => None,
    }
}

/// The first case of a leaf with weight of one of whose slots the point meets neither choice.
fn half_met_leaf(
    game: &Game,
    leaves: &Leaves,
    order: &[Unknown],
    point: &Point,
    path: &[Choice],
) -> Option<Case>
    requires leaves { AreLeaves (game_of game.now) leaves.now }
    requires few { AreFewSlots (game_of game.now) (leaves_of leaves.now) }
    requires path { SuitsKind Kind.Mixed path.now }
    requires order { All (IsUnknown (game_of game.now) (leaves_of leaves.now)) order.now }
    ensures { IfSome result
        (IsCase (game_of game.now) (leaves_of leaves.now) Kind.Mixed path.now) }
{
    for (j, u) in order.iter().enumerate() {
        let number = number_at(point, j);
        let case = half_met_at(game, leaves, order, point, path, *u, number);
        if case.is_some() {
            return case;
        }
    }
    None
}

/// The first of these cases for the mixed kind: of a slot, of the widest leaf, of a leaf with
/// such a slot.
fn unmet_mixed(
    game: &Game,
    leaves: &Leaves,
    order: &[Unknown],
    point: &Point,
    path: &[Choice],
) -> Option<Case>
    requires leaves { AreLeaves (game_of game.now) leaves.now }
    requires few { AreFewSlots (game_of game.now) (leaves_of leaves.now) }
    requires path { SuitsKind Kind.Mixed path.now }
    requires order { All (IsUnknown (game_of game.now) (leaves_of leaves.now)) order.now }
    ensures { IfSome result
        (IsCase (game_of game.now) (leaves_of leaves.now) Kind.Mixed path.now) }
{
    let slot = unmet_slot(game, leaves, Kind::Mixed, order, point, path);
    if slot.is_some() {
        return slot;
    }
    let leaf = widest_leaf(game, leaves, order, point, path);
    if leaf.is_some() {
        return leaf;
    }
    half_met_leaf(game, leaves, order, point, path)
}

/// The first of these cases for the pure kind: of a player, of a slot.
fn unmet_pure(
    game: &Game,
    leaves: &Leaves,
    order: &[Unknown],
    point: &Point,
    path: &[Choice],
) -> Option<Case>
    requires leaves { AreLeaves (game_of game.now) leaves.now }
    requires few { AreFewSlots (game_of game.now) (leaves_of leaves.now) }
    requires exist { All (ChoiceExists (game_of game.now) (leaves_of leaves.now)) path.now }
    requires path { SuitsKind Kind.Pure path.now }
    requires order { All (IsUnknown (game_of game.now) (leaves_of leaves.now)) order.now }
    ensures { IfSome result
        (IsCase (game_of game.now) (leaves_of leaves.now) Kind.Pure path.now) }
{
    let player = players_case(game, leaves, path);
    if player.is_some() {
        return player;
    }
    unmet_slot(game, leaves, Kind::Pure, order, point, path)
}

/// A case of which the point meets no choice, or that of the first player who has no chosen leaf
/// for the pure kind.
pub(crate) fn unmet_case(
    game: &Game,
    leaves: &Leaves,
    kind: Kind,
    order: &[Unknown],
    point: &Point,
    path: &[Choice],
) -> Option<Case>
    requires leaves { AreLeaves (game_of game.now) leaves.now }
    requires few { AreFewSlots (game_of game.now) (leaves_of leaves.now) }
    requires exist { All (ChoiceExists (game_of game.now) (leaves_of leaves.now)) path.now }
    requires path { SuitsKind kind path.now }
    requires order { All (IsUnknown (game_of game.now) (leaves_of leaves.now)) order.now }
    ensures { IfSome result (IsCase (game_of game.now) (leaves_of leaves.now) kind path.now) }
{
    match kind {
        Kind::Mixed => unmet_mixed(game, leaves, order, point, path),
        Kind::Pure => unmet_pure(game, leaves, order, point, path),
    }
}
