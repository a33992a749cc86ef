ghost use Rattle.std.specs.Prelude.{◌≡◌, ◌≤◌, ◌+◌, ℕ, IfOk, length, map};
ghost use Rattle.std.specs.List.{All};
ghost use Rattle.zr_base.specs.Steps.{IsNarrow};
ghost use Rattle.zr_game.specs.Players.{player_of};
ghost use Rattle.zr_game.specs.Leaves.{IsLeafOf, leaf_of};
ghost use Rattle.zr_branch.specs.Columns.{IsBranchQuestion, part_of};
ghost use Rattle.zr_branch.specs.Replies.{IsSomePlayer};

use crate::number::aim_by_part;
use crate::part::{Part, parts_of};
use crate::row::rows_at;
use std::alloc::{AllocError, Global};
use zr_game::{Leaf, Player};
use zr_simplex::Lp;

/// The question of a branch: its linear program, the slot that is each row, and the slot of the
/// lower bound of each column's variable.
#[derive(Drop)]
pub(crate) struct Question {
    pub(crate) lp: Lp,
    pub(crate) places: Vec<u32>,
    pub(crate) lows: Vec<u32>,
}

/// The slots of the columns' lower bounds, of which the first variable's is `first`.
fn lows_of(alloc: Global, parts: &[Part], first: usize) -> Result<Vec<u32>, AllocError>
    requires first { first ≤ 256 }
    requires vars { All (λ part. part.var ≤ 64) parts.now }
    ensures { IfOk result (λ lows.
        lows.items ≡ map (λ part. first + part.0 + part.0) (map part_of parts.now)) }
{
    let mut lows = Vec::new(alloc);
    for part in parts {
        lows.push((first + part.var + part.var) as u32)?;
    }
    Ok(lows)
}

/// The question of a leaf.
pub(crate) fn question_of(
    alloc: Global,
    player: &Player,
    leaf: &Leaf,
    aim: &[i128],
) -> Result<Question, AllocError>
    requires player { (i : ℕ) × IsSomePlayer i (player_of player.now) }
    requires leaf { IsLeafOf (player_of player.now) leaf.now }
    requires aim { length aim.now ≡ length (player_of player.now).vars }
    requires narrow { All IsNarrow aim.now }
    ensures { IfOk result (IsBranchQuestion (player_of player.now) (leaf_of leaf.now) aim.now) }
{
    let parts = parts_of(alloc, &player.vars)?;
    let (rows, places) = rows_at(alloc, player, leaf, &parts)?;
    let lp = Lp {
        columns: parts.len() as u32,
        rows,
        aim: aim_by_part(alloc, aim, &parts)?,
    };
    let lows = lows_of(alloc, &parts, player.rows.len())?;
    Ok(Question { lp, places, lows })
}
