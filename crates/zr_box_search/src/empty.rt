ghost use Rattle.std.specs.Prelude.{◌≡◌, ◌<◌, ℕ, IfOk, IfErr, IfSome, MatchOption, length};
ghost use Rattle.std.specs.List.{All};
ghost use Rattle.zr_base.specs.Steps.{IsNarrow};
ghost use Rattle.zr_io.specs.declared.purse.Purse.{Purse as APurse};
ghost use Rattle.zr_game.specs.Players.{GameOf, PlayerOf, player_of};
ghost use Rattle.zr_game.specs.Games.{game_of};
ghost use Rattle.zr_game.specs.Forms.{IsPlayer};
ghost use Rattle.zr_game.specs.Leaves.{HasPoint, IsLeafOf, leaf_of};
ghost use Rattle.zr_asked.specs.Paths.{IsOpenPath, branch};
ghost use Rattle.zr_asked.specs.Stuck.{IsZeroAim};
ghost use Rattle.zr_branch.specs.Replies.{CountsPivotsAlone, IsSomePlayer};
ghost use Rattle.zr_cases.specs.Cases.{bnode_of};
ghost use Rattle.zr_cases.specs.Forms.{IsBoxForm};
ghost use Rattle.zr_boxes.specs.Boxes.{BoxOf};
ghost use Rattle.zr_box_search.specs.Dues.{AreLeaves, LeadsToBox, box_by, moves_of};
ghost use Rattle.zr_box_search.specs.Fates.{IsEndCause, IsEndNode, IsRefutedLeaf, IsZeroStop};
ghost use Rattle.zr_box_search.specs.OpenBoxes.{HasPoints};
ghost use Rattle.zr_box_search.specs.Whole.{IsBoxGame, IsBoxPlayer};

use crate::answer::BoxStop;
use crate::witness::has_witness;
use std::alloc::{AllocError, Global};
use zr_asked::Move;
use zr_base::NoMemory;
use zr_branch::{AskStop, Reply, ask};
use zr_cases::BNode;
use zr_game::{Game, Leaf, Player};
use zr_io::Purse;

/// The aim that is zero.
fn zero_aim(alloc: Global, count: usize) -> Result<Vec<i128>, AllocError>
    ensures narrow { IfOk result (λ aim. All IsNarrow aim.items) }
    ensures aim { (player : PlayerOf) → length player.vars ≡ count
        → IfOk result (λ aim. IsZeroAim player aim.items) }
{
    vec![in alloc; 0; count]
}

/// Multipliers that show that the rows of player `i` have no solution on the branch to which the
/// path leads, or `None` where they have one: a whole point that is found, or else one that is
/// asked for.
fn refutation(
    alloc: Global,
    game: &Game,
    i: u32,
    player: &Player,
    path: &[Move],
    leaf: &Leaf,
    purse: &mut Purse,
) -> Result<Option<Vec<(u32, i128)>>, AskStop>
    requires number { i < length (game_of game.now) }
    requires player { IsPlayer (game_of game.now) i (player_of player.now) }
    requires whole { IsBoxPlayer (player_of player.now) }
    requires path { IsOpenPath (player_of player.now) path.now }
    requires lengths { IsLeafOf (player_of player.now) leaf.now }
    requires leaf { leaf_of leaf.now ≡ branch (player_of player.now) path.now }
    ensures found { IfOk result (λ mult. MatchOption mult
        (HasPoint (player_of player.now) (branch (player_of player.now) path.now))
        (λ list. IsRefutedLeaf (player_of player.now) (branch (player_of player.now) path.now)
        list.items)) }
    ensures cause { IfErr result (IsZeroStop i (player_of player.now)) }
    ensures purse { CountsPivotsAlone purse.old purse.new }
{
    match has_witness(alloc, game, i, player, leaf) {
        Err(NoMemory) => Err(AskStop::NoMemory),
        Ok(true) => Ok(None),
        Ok(false) => asked_refutation(alloc, i, player, path, leaf, purse),
    }
}

/// The same, asked.
fn asked_refutation(
    alloc: Global,
    i: u32,
    player: &Player,
    path: &[Move],
    leaf: &Leaf,
    purse: &mut Purse,
) -> Result<Option<Vec<(u32, i128)>>, AskStop>
    requires player { IsSomePlayer i (player_of player.now) }
    requires path { IsOpenPath (player_of player.now) path.now }
    requires lengths { IsLeafOf (player_of player.now) leaf.now }
    requires leaf { leaf_of leaf.now ≡ branch (player_of player.now) path.now }
    ensures found { IfOk result (λ mult. MatchOption mult
        (HasPoint (player_of player.now) (branch (player_of player.now) path.now))
        (λ list. IsRefutedLeaf (player_of player.now) (branch (player_of player.now) path.now)
        list.items)) }
    ensures cause { IfErr result (IsZeroStop i (player_of player.now)) }
    ensures purse { CountsPivotsAlone purse.old purse.new }
{
    let Ok(aim) = zero_aim(alloc, player.vars.len()) else {
        return Err(AskStop::NoMemory);
    };
    match ask(alloc, i, player, path, leaf, &aim, purse) {
        Err(stop) => Err(stop),
        Ok(Reply::Empty { mult }) => Ok(Some(mult)),
        Ok(
            Reply::Best {
                point: _,
                value: _,
                scale: _,
                mult: _,
            },
        ) => Ok(None),
        Ok(Reply::Unbounded { point: _, ray: _ }) => Ok(None),
    }
}

/// The stop of a search whose question has no answer.
fn stop_of(stop: AskStop) -> BoxStop
    ensures { (game : GameOf) (box : BoxOf) (i : ℕ) (player : PlayerOf) → IsPlayer game i player
        → IsZeroStop i player stop → (old new : APurse) → IsEndCause game box old new result }
{
    match stop {
        AskStop::NoMemory => BoxStop::NoMemory,
        AskStop::Wide(asked) => BoxStop::Wide(asked),
    }
}

/// The node of a box in which a player has no point, the first such player, or `None` where the
/// rows of each player have a solution there.
pub(crate) fn empty_node(
    alloc: Global,
    game: &Game,
    paths: &[Vec<Move>],
    leaves: &[Leaf],
    purse: &mut Purse,
) -> Result<Option<BNode>, BoxStop>
    requires whole { IsBoxGame (game_of game.now) }
    requires due { LeadsToBox (game_of game.now) (moves_of paths.now) }
    requires leaves { AreLeaves (game_of game.now) (moves_of paths.now)
        (length (game_of game.now)) leaves.now }
    ensures found { IfOk result (λ node. MatchOption node
        (HasPoints (game_of game.now) (box_by (game_of game.now) (moves_of paths.now)))
        (λ end. IsEndNode (game_of game.now) (box_by (game_of game.now) (moves_of paths.now))
        (bnode_of end))) }
    ensures form { IfOk result (λ node. IfSome node (λ end. IsBoxForm (bnode_of end))) }
    ensures cause { (old new : APurse) → IfErr result (IsEndCause (game_of game.now)
        (box_by (game_of game.now) (moves_of paths.now)) old new) }
    ensures purse { CountsPivotsAlone purse.old purse.new }
{
    for (i, player) in game.players.iter().enumerate() {
        match refutation(alloc, game, i as u32, player, &paths[i], &leaves[i], purse) {
            Err(stop) => return Err(stop_of(stop)),
            Ok(Some(mult)) => {
                return Ok(Some(BNode::Empty {
                    player: i as u32,
                    mult,
                }));
            }
            Ok(None) => {}
        }
    }
    Ok(None)
}
