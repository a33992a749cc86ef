ghost use Rattle.std.specs.Prelude.{◌≡◌, ◌<◌, ℕ, ℤ, List, IfOk, IfErr, length};
ghost use Rattle.std.specs.List.{All};
ghost use Rattle.zr_base.specs.Steps.{IsNarrow};
ghost use Rattle.zr_io.specs.declared.purse.Purse.{Purse as APurse};
ghost use Rattle.zr_game.specs.Players.{PlayerOf, player_of};
ghost use Rattle.zr_game.specs.Games.{game_of};
ghost use Rattle.zr_game.specs.Forms.{IsPlayer};
ghost use Rattle.zr_game.specs.Leaves.{IsLeafOf, MeetsLeaf, leaf_of};
ghost use Rattle.zr_simplex.specs.Programs.{numbers};
ghost use Rattle.zr_asked.specs.Drawn.{IsBranchSolution};
ghost use Rattle.zr_asked.specs.Paths.{IsOpenPath, branch};
ghost use Rattle.zr_asked.specs.Stuck.{IsPlainAim, IsZeroAim};
ghost use Rattle.zr_branch.specs.Replies.{CountsPivotsAlone, IsMoveForm, IsSomePlayer};
ghost use Rattle.zr_bnb.specs.Splits.{AreNear};
ghost use Rattle.zr_cover.specs.Causes.{IsCoverCause};
ghost use Rattle.zr_cover.specs.Fates.{IsFate};

use crate::ends::split_number;
use crate::split::{Split, first_undecided, next_variable};
use crate::stop::{CoverStop, stop_of};
use std::alloc::{AllocError, Global};
use zr_asked::Move;
use zr_base::Point;
use zr_branch::{Reply, ask, leaf_at};
use zr_game::{Game, Leaf, Player};
use zr_io::Purse;
use zr_tree::Node;

/// What becomes of a branch.
#[derive(Drop)]
pub(crate) enum Fate {
    /// It has no point or is settled, and this is its end.
    End(Node),
    /// It has a point, and is split.
    Divided(Split),
}

/// Asks for a point of a branch and tells what becomes of it.
pub(crate) fn visit(
    alloc: Global,
    game: &Game,
    i: u32,
    player: &Player,
    path: &[Move],
    purse: &mut Purse,
) -> Result<Fate, CoverStop>
    requires number { i < length (game_of game.now) }
    requires player { IsPlayer (game_of game.now) i (player_of player.now) }
    requires some { IsSomePlayer i (player_of player.now) }
    requires path { IsOpenPath (player_of player.now) path.now }
    requires forms { All IsMoveForm path.now }
    requires near { AreNear (branch (player_of player.now) path.now) 1000000000 }
    ensures fate { (more : ℕ) → AreNear (branch (player_of player.now) path.now) more
        → IfOk result (IsFate (player_of player.now) (branch (player_of player.now) path.now)
        more) }
    ensures cause { (old new : APurse)
        → IfErr result (IsCoverCause i (player_of player.now) old new) }
    ensures purse { CountsPivotsAlone purse.old purse.new }
{
    let Ok(leaf) = leaf_at(alloc, game, i, player, path) else {
        return Err(CoverStop::NoMemory);
    };
    let Ok(aim) = zero_aim(alloc, player.vars.len()) else {
        return Err(CoverStop::NoMemory);
    };
    match ask(alloc, i, player, path, &leaf, &aim, purse) {
        Err(stop) => Err(stop_of(stop)),
        Ok(Reply::Empty { mult }) => Ok(Fate::End(Node::Leaf { scale: 0, mult })),
        Ok(
            Reply::Best {
                point,
                value: _,
                scale: _,
                mult: _,
            },
        ) => at_point(alloc, i, player, path, &leaf, point, purse),
        Ok(Reply::Unbounded { point: _, ray: _ }) => unreachable!(),
    }
}

/// The aim that is 0 at each variable.
fn zero_aim(alloc: Global, count: usize) -> Result<Vec<i128>, AllocError>
    ensures narrow { IfOk result (λ aim. All IsNarrow aim.items) }
    ensures aim { (player : PlayerOf) → length player.vars ≡ count
        → IfOk result (λ aim. IsZeroAim player aim.items) }
{
    vec![in alloc; 0; count]
}

/// What becomes of a leaf that has this point: an undecided pair is chosen, else a whole variable
/// is split, else the leaf is settled.
fn at_point(
    alloc: Global,
    i: u32,
    player: &Player,
    path: &[Move],
    leaf: &Leaf,
    point: Point,
    purse: &mut Purse,
) -> Result<Fate, CoverStop>
    requires player { IsSomePlayer i (player_of player.now) }
    requires path { IsOpenPath (player_of player.now) path.now }
    requires lengths { IsLeafOf (player_of player.now) leaf.now }
    requires leaf { leaf_of leaf.now ≡ branch (player_of player.now) path.now }
    requires near { AreNear (leaf_of leaf.now) 1000000000 }
    requires meets { MeetsLeaf (player_of player.now) (leaf_of leaf.now) point }
    requires drawn { (aim : List ℤ) × IsPlainAim (player_of player.now) aim
        × IsBranchSolution (player_of player.now) (leaf_of leaf.now) (numbers aim) point }
    ensures fate { (more : ℕ) → AreNear (leaf_of leaf.now) more
        → IfOk result (IsFate (player_of player.now) (leaf_of leaf.now) more) }
    ensures cause { (old new : APurse)
        → IfErr result (IsCoverCause i (player_of player.now) old new) }
    ensures purse { CountsPivotsAlone purse.old purse.new }
{
    if let Some(p) = first_undecided(&leaf.sides) {
        return Ok(Fate::Divided(Split::Pair { pair: p as u32 }));
    }
    match next_variable(&player.vars, &leaf.low, &leaf.high) {
        None => Ok(Fate::End(Node::Known { point })),
        Some(v) => {
            let low = leaf.low[v];
            let high = leaf.high[v];
            match split_number(alloc, i, player, path, leaf, v, low, high, purse) {
                Err(stop) => Err(stop),
                Ok(at) => Ok(Fate::Divided(Split::Var { var: v as u32, at })),
            }
        }
    }
}
