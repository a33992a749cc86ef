ghost use Rattle.std.specs.Prelude.{◌≡◌, ◌<◌, ℕ, ℤ, pos, negsuc, ◌⊎◌, None, Some, IfSome, IfOk, IfErr, length};
ghost use Rattle.std.specs.List.{All};
ghost use Rattle.zr_base.specs.Steps.{IsNarrow};
ghost use Rattle.zr_io.specs.declared.purse.Purse.{Purse as APurse};
ghost use Rattle.zr_game.specs.Players.{PlayerOf, player_of};
ghost use Rattle.zr_game.specs.Leaves.{HasPoint, IsLeafOf, IsWholeVar, LeafOf, leaf_of};
ghost use Rattle.zr_asked.specs.Paths.{IsOpenPath, branch};
ghost use Rattle.zr_asked.specs.Stuck.{IsVariableAim};
ghost use Rattle.zr_branch.specs.Replies.{CountsPivotsAlone, IsSomePlayer};
ghost use Rattle.zr_bnb.specs.Splits.{IsNear};
ghost use Rattle.zr_cover.specs.Causes.{IsCoverCause};
ghost use Rattle.zr_cover.specs.Splits.{AreInOrder, IsWithinBounds, StaysNear};

use crate::split::{below_high, from_low, middle};
use crate::stop::{CoverStop, stop_of};
use std::alloc::{AllocError, Global};
use zr_asked::Move;
use zr_base::Point;
use zr_branch::{Reply, ask};
use zr_game::{Leaf, Player};
use zr_io::Purse;

/// A number at which to split the whole variable `v` of a leaf that has a point: the middle of its
/// bounds; or where it lacks one, the last number on that side that it has on the leaf.
pub(crate) fn split_number(
    alloc: Global,
    i: u32,
    player: &Player,
    path: &[Move],
    leaf: &Leaf,
    v: usize,
    low: Option<i64>,
    high: Option<i64>,
    purse: &mut Purse,
) -> Result<i64, CoverStop>
    requires player { IsSomePlayer i (player_of player.now) }
    requires path { IsOpenPath (player_of player.now) path.now }
    requires lengths { IsLeafOf (player_of player.now) leaf.now }
    requires leaf { leaf_of leaf.now ≡ branch (player_of player.now) path.now }
    requires point { HasPoint (player_of player.now) (leaf_of leaf.now) }
    requires whole { IsWholeVar (player_of player.now) v }
    requires below { v < length (player_of player.now).vars }
    requires order { AreInOrder low high }
    requires near_low { IfSome low (IsNear 1000000000) }
    requires near_high { IfSome high (IsNear 1000000000) }
    ensures between { IfOk result (IsWithinBounds low high) }
    ensures near { IfOk result (StaysNear low high) }
    ensures cause { (old new : APurse)
        → IfErr result (IsCoverCause i (player_of player.now) old new) }
    ensures purse { CountsPivotsAlone purse.old purse.new }
{
    match (low, high) {
        (Some(low), Some(high)) => Ok(middle(low, high)),
        (low, None) => match last_point(alloc, i, player, path, leaf, v, -1, purse) {
            Err(stop) => Err(stop),
            Ok(point) => Ok(from_low(point.num(v).div_euclid(point.den()), low)),
        },
        (None, Some(high)) => match last_point(alloc, i, player, path, leaf, v, 1, purse) {
            Err(stop) => Err(stop),
            Ok(point) => Ok(below_high((point.num(v) - 1).div_euclid(point.den()), high)),
        },
    }
}

/// A point of the leaf where `z` times the variable is least. If that falls without end along a ray
/// of the leaf, this is the stop.
fn last_point(
    alloc: Global,
    i: u32,
    player: &Player,
    path: &[Move],
    leaf: &Leaf,
    v: usize,
    z: i128,
    purse: &mut Purse,
) -> Result<Point, CoverStop>
    requires player { IsSomePlayer i (player_of player.now) }
    requires path { IsOpenPath (player_of player.now) path.now }
    requires lengths { IsLeafOf (player_of player.now) leaf.now }
    requires leaf { leaf_of leaf.now ≡ branch (player_of player.now) path.now }
    requires point { HasPoint (player_of player.now) (leaf_of leaf.now) }
    requires whole { IsWholeVar (player_of player.now) v }
    requires below { v < length (player_of player.now).vars }
    requires sign { (z ≡ pos 1) ⊎ (z ≡ negsuc 0) }
    ensures len { IfOk result (λ point. length point.num ≡ length (player_of player.now).vars) }
    ensures cause { (old new : APurse)
        → IfErr result (IsCoverCause i (player_of player.now) old new) }
    ensures purse { CountsPivotsAlone purse.old purse.new }
{
    let Ok(aim) = variable_aim(alloc, player.vars.len(), v, z) else {
        return Err(CoverStop::NoMemory);
    };
    match ask(alloc, i, player, path, leaf, &aim, purse) {
        Ok(
            Reply::Best {
                point,
                value: _,
                scale: _,
                mult: _,
            },
        ) => Ok(point),
        Ok(Reply::Empty { mult: _ }) => unreachable!(),
        Ok(Reply::Unbounded { point: _, ray }) => Err(CoverStop::Endless {
            var: v as u32,
            dir: ray,
        }),
        Err(stop) => Err(stop_of(stop)),
    }
}

/// The aim that is `z` at variable `v`, and 0 at all others.
fn variable_aim(alloc: Global, count: usize, v: usize, z: i128) -> Result<Vec<i128>, AllocError>
    requires place { v < count }
    requires narrow { IsNarrow z }
    ensures narrow { IfOk result (λ aim. All IsNarrow aim.items) }
    ensures aim { (player : PlayerOf) → length player.vars ≡ count
        → IfOk result (λ aim. IsVariableAim player v z aim.items) }
{
    let mut aim = vec![in alloc; 0; count]?;
    aim[v] = z;
    Ok(aim)
}
