ghost use Rattle.std.specs.Prelude.{◌<◌, IfOk, IfErr, IfSome, List, length};
ghost use Rattle.std.specs.List.{All};
ghost use Rattle.zr_io.specs.declared.purse.Purse.{Purse as APurse};
ghost use Rattle.zr_game.specs.Games.{game_of};
ghost use Rattle.zr_game.specs.Players.{GameOf};
ghost use Rattle.zr_game.specs.declared.choice.Choice.{Choice as AChoice};
ghost use Rattle.zr_game.specs.declared.kind.Kind.{Kind as AKind};
ghost use Rattle.zr_system.specs.Asked.{AreLeaves, IsUnknown};
ghost use Rattle.zr_system.specs.Regions.{LeavesOf, leaves_of};
ghost use Rattle.zr_system.specs.Unknowns.{columns};
ghost use Rattle.zr_branch.specs.Replies.{CountsPivotsAlone};
ghost use Rattle.zr_choices.specs.Replies.{IsChoicesCause, IsSolvedBy};
ghost use Rattle.zr_comp.specs.Answers.{IsSolution};
ghost use Rattle.zr_comp.specs.OpenPaths.{IsOpenChoicePath};
ghost use Rattle.zr_comp.specs.Cases.{AreFewSlots, IsChoiceList, IsDuePath};
ghost use Rattle.zr_comp.specs.Causes.{IsCompCause};
ghost use Rattle.zr_comp.specs.Fates.{IsFate};

use crate::answer::CompStop;
use crate::case::Case;
use crate::first::first_case;
use crate::guess::guess;
use crate::meeting::met_choices;
use crate::unmet_leaf::unmet_case;
use std::alloc::Global;
use zr_base::Point;
use zr_choices::{ChoiceStop, Reply, ask};
use zr_game::{Choice, Game, Kind};
use zr_io::Purse;
use zr_system::{Leaves, Unknown, unknowns};

/// What becomes of a path.
#[derive(Drop)]
pub(crate) enum Fate {
    /// The multipliers refute the rows under it.
    Closed(Vec<(u32, i128)>),
    /// The rows under it have a solution, and a case is made.
    Divided(Case),
    /// There is a solution under a complete list of choices.
    Solved(Point),
}

/// The stop of a search whose question has no answer.
fn stop_of(stop: ChoiceStop) -> CompStop
    ensures { (game : GameOf) (leaves : LeavesOf) (kind : AKind) (path : List AChoice)
        → IsOpenChoicePath game leaves kind path → IsChoicesCause game leaves path stop
        → (old new : APurse) → IsCompCause game leaves kind old new result }
{
    match stop {
        ChoiceStop::Wide(asked) => CompStop::Wide(asked),
        ChoiceStop::WideRow(wide) => CompStop::WideRow(wide),
        ChoiceStop::NoMemory => CompStop::NoMemory,
    }
}

/// A solution under the complete list of the choices that the point meets, if it meets one of each
/// case and the list's question has an answer.
#[tactic(auto, using(crate::proofs::Solving::solution_of))]
fn confirmed(
    alloc: Global,
    game: &Game,
    leaves: &Leaves,
    kind: Kind,
    order: &[Unknown],
    point: &Point,
    path: &[Choice],
    purse: &mut Purse,
) -> Result<Option<Point>, CompStop>
    requires leaves { AreLeaves (game_of game.now) leaves.now }
    requires few { AreFewSlots (game_of game.now) (leaves_of leaves.now) }
    requires columns { length (columns (game_of game.now) (leaves_of leaves.now)) < 16777217 }
    requires path { IsChoiceList (game_of game.now) (leaves_of leaves.now) kind path.now }
    requires order { All (IsUnknown (game_of game.now) (leaves_of leaves.now)) order.now }
    ensures found { IfOk result (λ found. IfSome found
        (IsSolution (game_of game.now) (leaves_of leaves.now) kind)) }
    ensures cause { (old new : APurse) → IfErr result
        (IsCompCause (game_of game.now) (leaves_of leaves.now) kind old new) }
    ensures purse { CountsPivotsAlone purse.old purse.new }
{
    let Ok(list) = met_choices(alloc, game, leaves, kind, order, point, path) else {
        return Err(CompStop::NoMemory);
    };
    if first_case(game, leaves, kind, &list).is_some() {
        return Ok(None);
    }
    match ask(alloc, game, leaves, &list, purse) {
        Ok(Reply::Point(found)) => Ok(Some(found)),
        Ok(Reply::Close(_)) => Ok(None),
        // That the list's question is stuck tells nothing of the path.
        Err(ChoiceStop::Wide(_)) => Ok(None),
        Err(ChoiceStop::WideRow(wide)) => Err(CompStop::WideRow(wide)),
        Err(ChoiceStop::NoMemory) => Err(CompStop::NoMemory),
    }
}

/// What becomes of a path under which the point solves the rows.
#[tactic(auto, using(crate::proofs::Solving::solution_of))]
fn fate_of(
    alloc: Global,
    game: &Game,
    leaves: &Leaves,
    kind: Kind,
    path: &[Choice],
    point: Point,
    purse: &mut Purse,
) -> Result<Fate, CompStop>
    requires leaves { AreLeaves (game_of game.now) leaves.now }
    requires few { AreFewSlots (game_of game.now) (leaves_of leaves.now) }
    requires columns { length (columns (game_of game.now) (leaves_of leaves.now)) < 16777217 }
    requires path { IsChoiceList (game_of game.now) (leaves_of leaves.now) kind path.now }
    requires solved { IsSolvedBy (game_of game.now) (leaves_of leaves.now) path.now point }
    ensures fate { IfOk result (IsFate (game_of game.now) (leaves_of leaves.now) kind path.now) }
    ensures cause { (old new : APurse) → IfErr result
        (IsCompCause (game_of game.now) (leaves_of leaves.now) kind old new) }
    ensures purse { CountsPivotsAlone purse.old purse.new }
{
    let Ok(order) = unknowns(alloc, game, leaves) else {
        return Err(CompStop::NoMemory);
    };
    let unmet = unmet_case(game, leaves, kind, &order, &point, path);
    if let Some(case) = unmet {
        return Ok(Fate::Divided(case));
    }
    match first_case(game, leaves, kind, path) {
        None => Ok(Fate::Solved(point)),
        Some(case) => {
            match confirmed(alloc, game, leaves, kind, &order, &point, path, purse) {
                Err(stop) => Err(stop),
                Ok(Some(found)) => Ok(Fate::Solved(found)),
                Ok(None) => Ok(Fate::Divided(case)),
            }
        }
    }
}

/// Asks whether the rows under a path have a solution, and tells what becomes of the path.
pub(crate) fn visit(
    alloc: Global,
    game: &Game,
    leaves: &Leaves,
    kind: Kind,
    path: &[Choice],
    purse: &mut Purse,
) -> Result<Fate, CompStop>
    requires leaves { AreLeaves (game_of game.now) leaves.now }
    requires few { AreFewSlots (game_of game.now) (leaves_of leaves.now) }
    requires columns { length (columns (game_of game.now) (leaves_of leaves.now)) < 16777217 }
    requires path { IsDuePath (game_of game.now) (leaves_of leaves.now) kind path.now }
    ensures fate { IfOk result (IsFate (game_of game.now) (leaves_of leaves.now) kind path.now) }
    ensures cause { (old new : APurse) → IfErr result
        (IsCompCause (game_of game.now) (leaves_of leaves.now) kind old new) }
    ensures purse { CountsPivotsAlone purse.old purse.new }
{
    match ask(alloc, game, leaves, path, purse) {
        Err(stop) => Err(stop_of(stop)),
        Ok(Reply::Close(mult)) => Ok(Fate::Closed(mult)),
        Ok(Reply::Point(point)) => fate_of(alloc, game, leaves, kind, path, point, purse),
    }
}

/// A solution that small supports lead to, where all leaves are single points.
#[tactic(auto, using(crate::proofs::Trying::no_choices))]
pub(crate) fn tried(
    alloc: Global,
    game: &Game,
    leaves: &Leaves,
    kind: Kind,
    purse: &mut Purse,
) -> Result<Option<Point>, CompStop>
    requires leaves { AreLeaves (game_of game.now) leaves.now }
    requires few { AreFewSlots (game_of game.now) (leaves_of leaves.now) }
    requires columns { length (columns (game_of game.now) (leaves_of leaves.now)) < 16777217 }
    ensures found { IfOk result (λ found. IfSome found
        (IsSolution (game_of game.now) (leaves_of leaves.now) kind)) }
    ensures cause { (old new : APurse) → IfErr result
        (IsCompCause (game_of game.now) (leaves_of leaves.now) kind old new) }
    ensures purse { CountsPivotsAlone purse.old purse.new }
{
    let Ok(order) = unknowns(alloc, game, leaves) else {
        return Err(CompStop::NoMemory);
    };
    match guess(alloc, game, leaves, kind, &order, purse) {
        Err(_) => Err(CompStop::NoMemory),
        Ok(None) => Ok(None),
        Ok(Some(point)) => confirmed(alloc, game, leaves, kind, &order, &point, &[], purse),
    }
}
