ghost use Rattle.std.specs.Prelude.{IfOk, IfSome, OnOk, List};
ghost use Rattle.std.specs.List.{All};
ghost use Rattle.zr_game.specs.Games.{game_of};
ghost use Rattle.zr_game.specs.Players.{GameOf};
ghost use Rattle.zr_game.specs.declared.choice.Choice.{Choice as AChoice};
ghost use Rattle.zr_game.specs.declared.kind.Kind.{Kind as AKind};
ghost use Rattle.zr_system.specs.Regions.{LeavesOf, leaves_of};
ghost use Rattle.zr_system.specs.Asked.{AreLeaves, IsUnknown, LeafExists};
ghost use Rattle.zr_refute.specs.Refuting.{IsOpenPlayer};
ghost use Rattle.zr_comp.specs.Cases.{AreFewSlots, IsCase, IsChoiceList, SuitsOne};
ghost use Rattle.zr_comp.specs.OpenPaths.{MayChoose};

use crate::case::Case;
use crate::first::{leaf_case, player_case, slot_case};
use crate::index::{leaf_index, player_index, slot_index};
use crate::path::is_used;
use crate::unmet::number_at;
use std::alloc::{AllocError, Global};
use zr_base::Point;
use zr_game::{Choice, Game, Kind};
use zr_system::{Leaves, Unknown, is_exact};

/// A choice of the case of a leaf or of a slot: On or Zero where `first`, else Off or Tight.
fn choice_of(case: Case, first: bool) -> Option<Choice>
    ensures { (game : GameOf) (leaves : LeavesOf) (kind : AKind) (path : List AChoice)
        → IsCase game leaves kind path case
        → IfSome result (λ c. MayChoose game leaves kind path c × SuitsOne kind c) }
{
    match (case, first) {
        (Case::Leaf { player, leaf }, true) => Some(Choice::On { player, leaf }),
        (Case::Leaf { player, leaf }, false) => Some(Choice::Off { player, leaf }),
        (Case::Slot { player, leaf, slot }, true) => Some(Choice::Zero { player, leaf, slot }),
        (Case::Slot { player, leaf, slot }, false) => Some(Choice::Tight { player, leaf, slot }),
        (Case::Player { player: _ }, _) => None,
    }
}

/// Appends that choice.
fn push_choice(list: &mut Vec<Choice>, case: Case, first: bool) -> Result<(), AllocError>
    ensures { (game : GameOf) (leaves : LeavesOf) (kind : AKind)
        → IsChoiceList game leaves kind list.old.items
        → IsCase game leaves kind list.old.items case
        → OnOk result (IsChoiceList game leaves kind list.new.items) }
{
    match choice_of(case, first) {
        None => Ok(()),
        Some(choice) => {
            list.push(choice)?;
            Ok(())
        }
    }
}

/// Appends a choice of the leaf that the unknown is the weight of, if it is neither On nor Off: On
/// where the weight isn't 0.
fn settle_leaf(
    list: &mut Vec<Choice>,
    game: &Game,
    leaves: &Leaves,
    u: Unknown,
    number: i128,
) -> Result<(), AllocError>
    requires leaves { AreLeaves (game_of game.now) leaves.now }
    requires list { IsChoiceList (game_of game.now) (leaves_of leaves.now) Kind.Mixed
        list.old.items }
    requires unknown { IsUnknown (game_of game.now) (leaves_of leaves.now) u }
    ensures { OnOk result
        (IsChoiceList (game_of game.now) (leaves_of leaves.now) Kind.Mixed list.new.items) }
{
    match u {
        Unknown::Weight { player, leaf } => {
            let i = player_index(game, player);
            let k = leaf_index(game, leaves, player, leaf);
            match leaf_case(game, leaves, list, i, k) {
                None => Ok(()),
                Some(case) => push_choice(list, case, number != 0),
            }
        }
        _ => Ok(()),
    }
}

/// Appends a choice of each leaf that is neither On nor Off.
fn settle_leaves(
    list: &mut Vec<Choice>,
    game: &Game,
    leaves: &Leaves,
    order: &[Unknown],
    point: &Point,
) -> Result<(), AllocError>
    requires leaves { AreLeaves (game_of game.now) leaves.now }
    requires list { IsChoiceList (game_of game.now) (leaves_of leaves.now) Kind.Mixed
        list.old.items }
    requires order { All (IsUnknown (game_of game.now) (leaves_of leaves.now)) order.now }
    ensures { OnOk result
        (IsChoiceList (game_of game.now) (leaves_of leaves.now) Kind.Mixed list.new.items) }
{
    for (j, u) in order.iter().enumerate() {
        settle_leaf(list, game, leaves, *u, number_at(point, j))?;
    }
    Ok(())
}

/// Appends the choice of a leaf of a player of whom no leaf is chosen.
fn push_which(
    list: &mut Vec<Choice>,
    game: &Game,
    leaves: &Leaves,
    i: u32,
    k: u32,
) -> Result<(), AllocError>
    requires leaf { LeafExists (game_of game.now) (leaves_of leaves.now) i k }
    requires list { IsChoiceList (game_of game.now) (leaves_of leaves.now) Kind.Pure
        list.old.items }
    requires player { IsOpenPlayer (game_of game.now) Kind.Pure list.old.items i }
    ensures { OnOk result
        (IsChoiceList (game_of game.now) (leaves_of leaves.now) Kind.Pure list.new.items) }
{
    list.push(Choice::Which { player: i, leaf: k })?;
    Ok(())
}

/// Appends the choice of the leaf that the unknown is the weight of, if that isn't 0 and no leaf of
/// its player is chosen.
fn settle_player(
    list: &mut Vec<Choice>,
    game: &Game,
    leaves: &Leaves,
    u: Unknown,
    number: i128,
) -> Result<(), AllocError>
    requires leaves { AreLeaves (game_of game.now) leaves.now }
    requires list { IsChoiceList (game_of game.now) (leaves_of leaves.now) Kind.Pure
        list.old.items }
    requires unknown { IsUnknown (game_of game.now) (leaves_of leaves.now) u }
    ensures { OnOk result
        (IsChoiceList (game_of game.now) (leaves_of leaves.now) Kind.Pure list.new.items) }
{
    match u {
        Unknown::Weight { player, leaf } => {
            if number == 0 {
                return Ok(());
            }
            let i = player_index(game, player);
            let k = leaf_index(game, leaves, player, leaf);
            match player_case(game, leaves, list, i) {
                None => Ok(()),
                Some(_) => push_which(list, game, leaves, i, k),
            }
        }
        _ => Ok(()),
    }
}

/// Appends the choice of a leaf with weight of each player of whom none is chosen.
fn settle_players(
    list: &mut Vec<Choice>,
    game: &Game,
    leaves: &Leaves,
    order: &[Unknown],
    point: &Point,
) -> Result<(), AllocError>
    requires leaves { AreLeaves (game_of game.now) leaves.now }
    requires list { IsChoiceList (game_of game.now) (leaves_of leaves.now) Kind.Pure
        list.old.items }
    requires order { All (IsUnknown (game_of game.now) (leaves_of leaves.now)) order.now }
    ensures { OnOk result
        (IsChoiceList (game_of game.now) (leaves_of leaves.now) Kind.Pure list.new.items) }
{
    for (j, u) in order.iter().enumerate() {
        settle_player(list, game, leaves, *u, number_at(point, j))?;
    }
    Ok(())
}

/// Appends a choice of a slot, if its leaf is exact and On or chosen, and it is not decided: Zero
/// where its multiplier is 0.
fn settle_slot(
    list: &mut Vec<Choice>,
    game: &Game,
    leaves: &Leaves,
    kind: Kind,
    i: u32,
    k: u32,
    s: u32,
    number: i128,
) -> Result<(), AllocError>
    requires leaves { AreLeaves (game_of game.now) leaves.now }
    requires leaf { LeafExists (game_of game.now) (leaves_of leaves.now) i k }
    requires list { IsChoiceList (game_of game.now) (leaves_of leaves.now) kind list.old.items }
    ensures { OnOk result
        (IsChoiceList (game_of game.now) (leaves_of leaves.now) kind list.new.items) }
{
    if !is_exact(game, leaves, i as usize, k as usize) {
        return Ok(());
    }
    if !is_used(list, i, k) {
        return Ok(());
    }
    match slot_case(game, leaves, kind, list, i, k, s) {
        None => Ok(()),
        Some(case) => push_choice(list, case, number == 0),
    }
}

/// The same for an unknown, which is the multiplier.
fn settle_slot_at(
    list: &mut Vec<Choice>,
    game: &Game,
    leaves: &Leaves,
    kind: Kind,
    u: Unknown,
    number: i128,
) -> Result<(), AllocError>
    requires leaves { AreLeaves (game_of game.now) leaves.now }
    requires few { AreFewSlots (game_of game.now) (leaves_of leaves.now) }
    requires list { IsChoiceList (game_of game.now) (leaves_of leaves.now) kind list.old.items }
    requires unknown { IsUnknown (game_of game.now) (leaves_of leaves.now) u }
    ensures { OnOk result
        (IsChoiceList (game_of game.now) (leaves_of leaves.now) kind list.new.items) }
{
    match u {
        Unknown::Dual { player, leaf, slot } => {
            let i = player_index(game, player);
            let k = leaf_index(game, leaves, player, leaf);
            let s = slot_index(game, leaves, player, leaf, slot);
            settle_slot(list, game, leaves, kind, i, k, s, number)
        }
        _ => Ok(()),
    }
}

/// Appends a choice of each such slot.
fn settle_slots(
    list: &mut Vec<Choice>,
    game: &Game,
    leaves: &Leaves,
    kind: Kind,
    order: &[Unknown],
    point: &Point,
) -> Result<(), AllocError>
    requires leaves { AreLeaves (game_of game.now) leaves.now }
    requires few { AreFewSlots (game_of game.now) (leaves_of leaves.now) }
    requires list { IsChoiceList (game_of game.now) (leaves_of leaves.now) kind list.old.items }
    requires order { All (IsUnknown (game_of game.now) (leaves_of leaves.now)) order.now }
    ensures { OnOk result
        (IsChoiceList (game_of game.now) (leaves_of leaves.now) kind list.new.items) }
{
    for (j, u) in order.iter().enumerate() {
        settle_slot_at(list, game, leaves, kind, *u, number_at(point, j))?;
    }
    Ok(())
}

/// The path with the choices that the point meets, where it meets one of each case.
pub(crate) fn met_choices(
    alloc: Global,
    game: &Game,
    leaves: &Leaves,
    kind: Kind,
    order: &[Unknown],
    point: &Point,
    path: &[Choice],
) -> Result<Vec<Choice>, AllocError>
    requires leaves { AreLeaves (game_of game.now) leaves.now }
    requires few { AreFewSlots (game_of game.now) (leaves_of leaves.now) }
    requires path { IsChoiceList (game_of game.now) (leaves_of leaves.now) kind path.now }
    requires order { All (IsUnknown (game_of game.now) (leaves_of leaves.now)) order.now }
    ensures { IfOk result (λ list.
        IsChoiceList (game_of game.now) (leaves_of leaves.now) kind list.items) }
{
    let mut list = path.to_vec(alloc)?;
    match kind {
        Kind::Pure => settle_players(&mut list, game, leaves, order, point)?,
        Kind::Mixed => settle_leaves(&mut list, game, leaves, order, point)?,
    }
    settle_slots(&mut list, game, leaves, kind, order, point)?;
    Ok(list)
}
