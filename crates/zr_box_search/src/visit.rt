ghost use Rattle.std.specs.Prelude.{ℕ, ◌≤◌, IfOk, IfErr, length};
ghost use Rattle.zr_game.specs.Games.{game_of};
ghost use Rattle.zr_game.specs.Forms.{IsPlayer};
ghost use Rattle.zr_game.specs.Players.{PlayerOf};
ghost use Rattle.zr_tree.proofs.SettledLeaves.{KeepsRoot};
ghost use Rattle.zr_boxes.specs.Paths.{box_of};
ghost use Rattle.zr_box_search.specs.Dues.{AreLeaves, AreRanged, LeadsToBox, box_by, moves_of};
ghost use Rattle.zr_box_search.specs.Fates.{IsBoxFate, IsEndCause, SpendsEndUnits};
ghost use Rattle.zr_box_search.specs.OpenBoxes.{HasPoints};
ghost use Rattle.zr_box_search.specs.Whole.{IsBoxGame};

use crate::answer::BoxStop;
use crate::boxes::leaves_by;
use crate::early::early_deviation;
use crate::empty::empty_node;
use crate::profile::deviation;
use crate::split::{BoxSplit, where_to_split};
use std::alloc::Global;
use zr_asked::Move;
use zr_base::NoMemory;
use zr_cases::BNode;
use zr_game::{Game, Leaf};
use zr_io::Purse;

/// What becomes of a box.
#[derive(Drop)]
pub(crate) enum BoxFate {
    /// This node shows that no profile of it is an equilibrium.
    Closed { node: BNode },
    /// It is split.
    Divided { split: BoxSplit },
    /// Its single profile is an equilibrium.
    Stable,
}

/// What becomes of the box to which the paths lead.
pub(crate) fn visit(
    alloc: Global,
    game: &Game,
    paths: &[Vec<Move>],
    purse: &mut Purse,
) -> Result<BoxFate, BoxStop>
    requires whole { IsBoxGame (game_of game.now) }
    requires due { LeadsToBox (game_of game.now) (moves_of paths.now) }
    requires limit { purse.old.limit ≤ 1000000000 }
    ensures fate { IfOk result (IsBoxFate (game_of game.now)
        (box_by (game_of game.now) (moves_of paths.now)) purse.old purse.new) }
    ensures cause { IfErr result (IsEndCause (game_of game.now)
        (box_by (game_of game.now) (moves_of paths.now)) purse.old purse.new) }
    ensures spends { SpendsEndUnits (game_of game.now)
        (box_by (game_of game.now) (moves_of paths.now)) purse.old purse.new }
{
    let Ok(leaves) = leaves_by(alloc, game, paths) else {
        return Err(BoxStop::NoMemory);
    };
    match early_deviation(alloc, game, &leaves) {
        Err(NoMemory) => Err(BoxStop::NoMemory),
        Ok(Some(node)) => Ok(BoxFate::Closed { node }),
        Ok(None) => without_deviation(alloc, game, paths, &leaves, purse),
    }
}

/// The same, where the leaves are those of the box: it is empty, or every player has a point in it.
fn without_deviation(
    alloc: Global,
    game: &Game,
    paths: &[Vec<Move>],
    leaves: &[Leaf],
    purse: &mut Purse,
) -> Result<BoxFate, BoxStop>
    requires whole { IsBoxGame (game_of game.now) }
    requires due { LeadsToBox (game_of game.now) (moves_of paths.now) }
    requires leaves { AreLeaves (game_of game.now) (moves_of paths.now)
        (length (game_of game.now)) leaves.now }
    requires limit { purse.old.limit ≤ 1000000000 }
    ensures fate { IfOk result (IsBoxFate (game_of game.now)
        (box_by (game_of game.now) (moves_of paths.now)) purse.old purse.new) }
    ensures cause { IfErr result (IsEndCause (game_of game.now)
        (box_by (game_of game.now) (moves_of paths.now)) purse.old purse.new) }
    ensures spends { SpendsEndUnits (game_of game.now)
        (box_by (game_of game.now) (moves_of paths.now)) purse.old purse.new }
{
    match empty_node(alloc, game, paths, leaves, purse) {
        Err(stop) => Err(stop),
        Ok(Some(node)) => Ok(BoxFate::Closed { node }),
        Ok(None) => with_points(alloc, game, leaves, purse),
    }
}

/// The same for a box in which the rows of each player have a solution.
fn with_points(
    alloc: Global,
    game: &Game,
    leaves: &[Leaf],
    purse: &mut Purse,
) -> Result<BoxFate, BoxStop>
    requires whole { IsBoxGame (game_of game.now) }
    requires points { HasPoints (game_of game.now) (box_of leaves.now) }
    requires keeps { (k : ℕ) (own : PlayerOf) → IsPlayer (game_of game.now) k own
        → KeepsRoot own (box_of leaves.now k) }
    requires ranged { AreRanged (game_of game.now) (box_of leaves.now) }
    requires limit { purse.old.limit ≤ 1000000000 }
    ensures fate { IfOk result
        (IsBoxFate (game_of game.now) (box_of leaves.now) purse.old purse.new) }
    ensures cause { IfErr result
        (IsEndCause (game_of game.now) (box_of leaves.now) purse.old purse.new) }
    ensures spends { SpendsEndUnits (game_of game.now) (box_of leaves.now) purse.old purse.new }
{
    match where_to_split(alloc, game, leaves) {
        Err(NoMemory) => Err(BoxStop::NoMemory),
        Ok(Some(split)) => Ok(BoxFate::Divided { split }),
        Ok(None) => match deviation(alloc, game, leaves, purse) {
            Err(stop) => Err(stop),
            Ok(Some(node)) => Ok(BoxFate::Closed { node }),
            Ok(None) => Ok(BoxFate::Stable),
        },
    }
}
