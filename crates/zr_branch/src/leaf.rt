ghost use Rattle.std.specs.Prelude.{◌≡◌, ◌<◌, ◌++◌, [], ◌∷◌, IfOk, length};
ghost use Rattle.std.specs.List.{All};
ghost use Rattle.zr_game.specs.Players.{PlayerOf, player_of};
ghost use Rattle.zr_game.specs.Games.{game_of};
ghost use Rattle.zr_game.specs.Forms.{IsPlayer};
ghost use Rattle.zr_game.specs.Leaves.{IsLeafOf, leaf_of};
ghost use Rattle.zr_asked.specs.Paths.{IsMove, IsOpenPath, branch, child_by};
ghost use Rattle.zr_branch.specs.Replies.{IsMoveForm};

use std::alloc::{AllocError, Global};
use zr_asked::Move;
use zr_game::{Game, Leaf, Player, Side};
use zr_tree::{NoMemory, lower_high, raise_low, set_side};

/// The leaf of player `i`, which is below the number of players, to which the path leads from the
/// leaf of all points.
///
/// The path is one of an open tree, and its splits are at numbers from -2^62 to 2^62 - 1.
pub fn leaf_at(
    alloc: Global,
    game: &Game,
    i: u32,
    player: &Player,
    path: &[Move],
) -> Result<Leaf, NoMemory>
    requires number { i < length (game_of game.now) }
    requires player { IsPlayer (game_of game.now) i (player_of player.now) }
    requires path { IsOpenPath (player_of player.now) path.now }
    requires forms { All IsMoveForm path.now }
    ensures lengths { IfOk result (IsLeafOf (player_of player.now)) }
    ensures leaf { IfOk result (λ leaf. leaf_of leaf ≡ branch (player_of player.now) path.now) }
{
    let mut leaf = Leaf::root(alloc, game, i)?;
    for step in path {
        enter(player, &mut leaf, *step);
    }
    Ok(leaf)
}

/// Goes to the child that a move names.
fn enter(player: &Player, leaf: &mut Leaf, step: Move)
    requires lengths { IsLeafOf (player_of player.now) leaf.old }
    requires step { IsMove (player_of player.now) (leaf_of leaf.old) step }
    requires form { IsMoveForm step }
    ensures lengths { IsLeafOf (player_of player.now) leaf.new }
    ensures leaf { leaf_of leaf.new ≡ child_by (leaf_of leaf.old) step }
{
    match step {
        Move::Low { var, at } => lower_high(player, leaf, var as usize, at),
        Move::High { var, at } => raise_low(player, leaf, var as usize, at),
        Move::VarZero { pair } => set_side(player, leaf, pair as usize, Side::VarZero),
        Move::RowZero { pair } => set_side(player, leaf, pair as usize, Side::RowZero),
    }
}

/// A path with one more move.
pub fn with_move(alloc: Global, path: &[Move], step: Move) -> Result<Vec<Move>, AllocError>
    ensures { IfOk result (λ longer. longer.items ≡ path.now ++ step ∷ []) }
{
    let mut longer = path.to_vec(alloc)?;
    longer.push(step)?;
    Ok(longer)
}
