ghost use Rattle.std.specs.Prelude.{ℕ, ◌≡◌, ◌≤◌, IfOk, IfErr, IfSome, IfNone};
ghost use Rattle.zr_game.specs.Games.{game_of};
ghost use Rattle.zr_game.specs.Forms.{IsPlayer};
ghost use Rattle.zr_game.specs.Players.{PlayerOf};
ghost use Rattle.zr_cases.specs.Cases.{bnode_of};
ghost use Rattle.zr_cases.specs.Forms.{IsBoxForm};
ghost use Rattle.zr_tree.proofs.SettledLeaves.{KeepsRoot};
ghost use Rattle.zr_boxes.specs.Paths.{box_of};
ghost use Rattle.zr_box_search.specs.Answers.{HasPureEquilibrium};
ghost use Rattle.zr_box_search.specs.Dues.{AreRanged};
ghost use Rattle.zr_box_search.specs.Fates.{IsEndCause, IsEndNode, SpendsEnd, SpendsEndUnits};
ghost use Rattle.zr_box_search.specs.OpenBoxes.{IsSingle};
ghost use Rattle.zr_box_search.specs.Whole.{IsBoxGame};

use crate::answer::BoxStop;
use crate::better::better_point;
use std::alloc::Global;
use zr_cases::BNode;
use zr_game::{Game, Leaf};
use zr_io::Purse;

/// The node of a single profile: a better point of the first player that has one, or `None` where
/// the profile is an equilibrium.
pub(crate) fn deviation(
    alloc: Global,
    game: &Game,
    leaves: &[Leaf],
    purse: &mut Purse,
) -> Result<Option<BNode>, BoxStop>
    requires whole { IsBoxGame (game_of game.now) }
    requires single { IsSingle (game_of game.now) (box_of leaves.now) }
    requires keeps { (k : ℕ) (own : PlayerOf) → IsPlayer (game_of game.now) k own
        → KeepsRoot own (box_of leaves.now k) }
    requires ranged { AreRanged (game_of game.now) (box_of leaves.now) }
    requires limit { purse.old.limit ≤ 1000000000 }
    ensures node { IfOk result (λ node. IfSome node
        (λ end. IsEndNode (game_of game.now) (box_of leaves.now) (bnode_of end))) }
    ensures form { IfOk result (λ node. IfSome node (λ end. IsBoxForm (bnode_of end))) }
    ensures none { IfOk result (λ node. IfNone node (HasPureEquilibrium (game_of game.now))) }
    ensures spent { IfOk result
        (λ node. SpendsEnd (game_of game.now) (box_of leaves.now) purse.old purse.new) }
    ensures cause { IfErr result
        (IsEndCause (game_of game.now) (box_of leaves.now) purse.old purse.new) }
    ensures spends { SpendsEndUnits (game_of game.now) (box_of leaves.now) purse.old purse.new }
{
    for (i, player) in game.players.iter().enumerate() {
        match better_point(alloc, game, i as u32, player, leaves, purse) {
            Err(stop) => return Err(stop),
            Ok(Some(point)) => {
                return Ok(Some(BNode::Deviate {
                    player: i as u32,
                    point,
                }));
            }
            Ok(None) => {}
        }
    }
    Ok(None)
}
