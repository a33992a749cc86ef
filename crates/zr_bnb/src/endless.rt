ghost use Rattle.std.specs.Prelude.{◌≡◌, ◌≢◌, ◌<◌, ℤ, pos, negsuc, List, IfOk, IfErr, true, length, ◌⊎◌};
ghost use Rattle.std.specs.List.{All};
ghost use Rattle.zr_base.specs.Steps.{IsNarrow};
ghost use Rattle.zr_io.specs.declared.purse.Purse.{Purse as APurse};
ghost use Rattle.zr_game.specs.Players.{PlayerOf, player_of};
ghost use Rattle.zr_game.specs.Leaves.{IsLeafOf, IsWholeVar, leaf_of, root_leaf};
ghost use Rattle.zr_asked.specs.Stuck.{IsVariableAim};
ghost use Rattle.zr_branch.specs.Replies.{CountsPivotsAlone, IsSomePlayer};
ghost use Rattle.zr_bnb.specs.Causes.{IsBnbCause, IsLeastOpen};

use crate::answer::BnbStop;
use crate::stop::stop_of;
use std::alloc::{AllocError, Global};
use zr_branch::{Reply, ask};
use zr_game::{Leaf, Player, Var};
use zr_io::Purse;

/// The aim that is `z` at variable `v`, and 0 at all others.
fn variable_aim(alloc: Global, count: usize, v: usize, z: i128) -> Result<Vec<i128>, AllocError>
    requires place { v < count }
    requires narrow { IsNarrow z }
    ensures narrow { IfOk result (λ aim. All IsNarrow aim.items) }
    ensures aim { (player : PlayerOf) → length player.vars ≡ count
        → IfOk result (λ aim. IsVariableAim player v z aim.items) }
{
    let mut aim = vec![in alloc; 0; count]?;
    aim[v] = z;
    Ok(aim)
}

/// That each whole variable has on the relaxation the bounds that it lacks itself. If there is one
/// that hasn't, that is the stop.
pub(crate) fn are_bounded(
    alloc: Global,
    i: u32,
    player: &Player,
    root: &Leaf,
    purse: &mut Purse,
) -> Result<(), BnbStop>
    requires player { IsSomePlayer i (player_of player.now) }
    requires lengths { IsLeafOf (player_of player.now) root.now }
    requires root { leaf_of root.now ≡ root_leaf (player_of player.now) }
    ensures cause { (main : List ℤ) → IsLeastOpen (player_of player.now) main
        → (old new : APurse) → IfErr result (IsBnbCause i (player_of player.now) main old new) }
    ensures purse { CountsPivotsAlone purse.old purse.new }
{
    for (v, var) in player.vars.iter().enumerate() {
        if var.whole {
            if let Err(stop) = is_bounded(alloc, i, player, root, v, var, purse) {
                return Err(stop);
            }
        }
    }
    Ok(())
}

/// The same, for one variable.
fn is_bounded(
    alloc: Global,
    i: u32,
    player: &Player,
    root: &Leaf,
    v: usize,
    var: &Var,
    purse: &mut Purse,
) -> Result<(), BnbStop>
    requires player { IsSomePlayer i (player_of player.now) }
    requires lengths { IsLeafOf (player_of player.now) root.now }
    requires root { leaf_of root.now ≡ root_leaf (player_of player.now) }
    requires whole { IsWholeVar (player_of player.now) v }
    requires below { v < length (player_of player.now).vars }
    ensures cause { (main : List ℤ) → IsLeastOpen (player_of player.now) main
        → (old new : APurse) → IfErr result (IsBnbCause i (player_of player.now) main old new) }
    ensures purse { CountsPivotsAlone purse.old purse.new }
{
    if var.up.is_none() {
        if let Err(stop) = falls_not(alloc, i, player, root, v, -1, purse) {
            return Err(stop);
        }
    }
    if var.low.is_none() {
        return falls_not(alloc, i, player, root, v, 1, purse);
    }
    Ok(())
}

/// That `z` times the variable has a least value on the relaxation, if that has a point.
fn falls_not(
    alloc: Global,
    i: u32,
    player: &Player,
    root: &Leaf,
    v: usize,
    z: i128,
    purse: &mut Purse,
) -> Result<(), BnbStop>
    requires player { IsSomePlayer i (player_of player.now) }
    requires lengths { IsLeafOf (player_of player.now) root.now }
    requires root { leaf_of root.now ≡ root_leaf (player_of player.now) }
    requires whole { IsWholeVar (player_of player.now) v }
    requires below { v < length (player_of player.now).vars }
    requires sign { (z ≡ pos 1) ⊎ (z ≡ negsuc 0) }
    ensures cause { (main : List ℤ) → IsLeastOpen (player_of player.now) main
        → (old new : APurse) → IfErr result (IsBnbCause i (player_of player.now) main old new) }
    ensures purse { CountsPivotsAlone purse.old purse.new }
{
    let Ok(aim) = variable_aim(alloc, player.vars.len(), v, z) else {
        return Err(BnbStop::NoMemory);
    };
    match ask(alloc, i, player, &[], root, &aim, purse) {
        Ok(Reply::Unbounded { point: _, ray }) => Err(BnbStop::Endless {
            var: v as u32,
            dir: ray,
        }),
        Ok(_) => Ok(()),
        Err(stop) => Err(stop_of(stop)),
    }
}
