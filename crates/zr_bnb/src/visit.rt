ghost use Rattle.std.specs.Prelude.{◌≡◌, ◌<◌, ◌≤◌, ◌<ℤ◌, ℤ, pos, ℕ, List, Option, true, false, IfOk, IfErr, length};
ghost use Rattle.std.specs.List.{All};
ghost use Rattle.zr_base.specs.Steps.{IsNarrow};
ghost use Rattle.zr_base.specs.Fractions.{Fraction, IsAtMost};
ghost use Rattle.zr_io.specs.declared.purse.Purse.{Purse as APurse};
ghost use Rattle.zr_game.specs.Players.{PlayerOf, player_of};
ghost use Rattle.zr_game.specs.Feasible.{IsFeasible};
ghost use Rattle.zr_game.specs.Games.{game_of};
ghost use Rattle.zr_game.specs.Forms.{IsPlayer};
ghost use Rattle.zr_game.specs.Leaves.{IsLeafOf, LeafOf, MeetsLeaf, leaf_of};
ghost use Rattle.zr_tree.specs.Nodes.{Multipliers};
ghost use Rattle.zr_tree.proofs.SettledLeaves.{KeepsRoot};
ghost use Rattle.zr_asked.specs.Paths.{IsOpenPath, branch};
ghost use Rattle.zr_branch.specs.Replies.{CountsPivotsAlone, IsBestAt, IsMoveForm, IsSomePlayer, IsUnboundedAt};
ghost use Rattle.zr_bnb.specs.Causes.{IsBnbCause, IsLeastOpen};
ghost use Rattle.zr_bnb.specs.Fates.{HasAtMost, IsFate, IsNoHigher, LeavesOpen};
ghost use Rattle.zr_bnb.specs.Found.{IsEndProof, ProvesEnd};
ghost use Rattle.zr_bnb.specs.Splits.{AreNear};

use crate::answer::BnbStop;
use crate::plan::EndProof;
use crate::split::{Split, where_to_split};
use crate::stop::stop_of;
use std::alloc::Global;
use std::cmp::Ordering;
use zr_asked::Move;
use zr_base::{Frac, Point};
use zr_branch::{Reply, ask, leaf_at};
use zr_game::{Game, Leaf, Player, feasible};
use zr_io::Purse;

/// What becomes of a branch.
#[derive(Drop)]
pub(crate) enum Fate {
    /// No point of it is better than the best one so far.
    Closed {
        end: EndProof,
    },
    /// None is better than this feasible point, which is better than the best one so far.
    Improved {
        point: Point,
        value: Frac,
        end: EndProof,
    },
    /// It has a point, and is split. Where it is the branch of all points, and `least_open`, the
    /// aim has no least value on the relaxation, or has it at a point that isn't feasible.
    Divided {
        split: Split,
        least_open: bool,
    },
    /// From this feasible point on the aim falls without end.
    Below {
        base: Point,
        dir: Vec<i128>,
    },
}

/// What a test of a point tells.
#[derive(Clone, Copy)]
pub(crate) enum Test {
    Feasible,
    Infeasible,
    TooWide,
}

/// Whether the best value so far, if there is one, is at most this one.
fn has_at_most(best: Option<Frac>, value: Frac) -> bool
    ensures yes { result ≡ true → HasAtMost best value }
    ensures no { result ≡ false → IsNoHigher best value }
{
    match best {
        None => false,
        Some(best) => is_at_most(best, value),
    }
}

fn is_at_most(best: Frac, value: Frac) -> bool
    ensures yes { result ≡ true → (pos 0 <ℤ best.den) × IsAtMost best value }
    ensures no { result ≡ false → IsAtMost value best }
{
    let _den = best.den();
    best.compare(value) != Ordering::Greater
}

/// Asks for the least value on a branch and tells what becomes of it.
pub(crate) fn visit(
    alloc: Global,
    game: &Game,
    i: u32,
    player: &Player,
    path: &[Move],
    aim: &[i128],
    best: Option<Frac>,
    purse: &mut Purse,
) -> Result<Fate, BnbStop>
    requires number { i < length (game_of game.now) }
    requires player { IsPlayer (game_of game.now) i (player_of player.now) }
    requires some { IsSomePlayer i (player_of player.now) }
    requires path { IsOpenPath (player_of player.now) path.now }
    requires forms { All IsMoveForm path.now }
    requires near { AreNear (branch (player_of player.now) path.now) 1000000000 }
    requires aim { length aim.now ≡ length (player_of player.now).vars }
    requires narrow { All IsNarrow aim.now }
    ensures fate { (more : ℕ) → AreNear (branch (player_of player.now) path.now) more
        → IfOk result (IsFate (player_of player.now) (branch (player_of player.now) path.now)
        aim.now best more) }
    ensures opens { IfOk result (LeavesOpen (player_of player.now)
        (branch (player_of player.now) path.now) aim.now) }
    ensures ends { IfOk result (ProvesEnd (player_of player.now)
        (branch (player_of player.now) path.now) aim.now) }
    ensures cause { (old new : APurse)
        → IfErr result (IsBnbCause i (player_of player.now) aim.now old new) }
    ensures purse { CountsPivotsAlone purse.old purse.new }
{
    let Ok(leaf) = leaf_at(alloc, game, i, player, path) else {
        return Err(BnbStop::NoMemory);
    };
    match ask(alloc, i, player, path, &leaf, aim, purse) {
        Err(stop) => Err(stop_of(stop)),
        Ok(Reply::Empty { mult }) => Ok(Fate::Closed {
            end: EndProof { scale: 0, mult },
        }),
        Ok(
            Reply::Best {
                point,
                value,
                scale,
                mult,
            },
        ) => {
            let end = EndProof { scale, mult };
            if has_at_most(best, value) {
                return Ok(Fate::Closed { end });
            }
            Ok(at_point(game, i, player, &leaf, point, value, end))
        }
        Ok(Reply::Unbounded { point, ray }) => Ok(along(player, &leaf, point, ray)),
    }
}

/// What becomes of a leaf that has its least value at the point.
fn at_point(
    game: &Game,
    i: u32,
    player: &Player,
    leaf: &Leaf,
    point: Point,
    value: Frac,
    end: EndProof,
) -> Fate
    requires number { i < length (game_of game.now) }
    requires player { IsPlayer (game_of game.now) i (player_of player.now) }
    requires some { IsSomePlayer i (player_of player.now) }
    requires lengths { IsLeafOf (player_of player.now) leaf.now }
    requires keeps { KeepsRoot (player_of player.now) (leaf_of leaf.now) }
    requires near { AreNear (leaf_of leaf.now) 1000000000 }
    requires meets { MeetsLeaf (player_of player.now) (leaf_of leaf.now) point }
    ensures fate { (aim : List ℤ) (best : Option Fraction) (scale : ℤ) (mult : Multipliers)
        → IsBestAt (player_of player.now) (leaf_of leaf.now) aim point value scale mult
        → IsNoHigher best value → (more : ℕ) → AreNear (leaf_of leaf.now) more
        → IsFate (player_of player.now) (leaf_of leaf.now) aim best more result }
    ensures opens { (aim : List ℤ) (scale : ℤ) (mult : Multipliers)
        → IsBestAt (player_of player.now) (leaf_of leaf.now) aim point value scale mult
        → LeavesOpen (player_of player.now) (leaf_of leaf.now) aim result }
    ensures ends { (aim : List ℤ) → IsEndProof (player_of player.now) aim (leaf_of leaf.now) end
        → ProvesEnd (player_of player.now) (leaf_of leaf.now) aim result }
{
    match tested(game, i, &point) {
        Test::Feasible => Fate::Improved { point, value, end },
        Test::Infeasible => at_other(player, leaf, point, value, end, true),
        Test::TooWide => at_other(player, leaf, point, value, end, false),
    }
}

/// The same, where the point isn't known to be feasible, and `infeasible` where it is known not to
/// be.
fn at_other(
    player: &Player,
    leaf: &Leaf,
    point: Point,
    value: Frac,
    end: EndProof,
    infeasible: bool,
) -> Fate
    requires some { (i : ℕ) × IsSomePlayer i (player_of player.now) }
    requires lengths { IsLeafOf (player_of player.now) leaf.now }
    requires keeps { KeepsRoot (player_of player.now) (leaf_of leaf.now) }
    requires near { AreNear (leaf_of leaf.now) 1000000000 }
    requires meets { MeetsLeaf (player_of player.now) (leaf_of leaf.now) point }
    requires infeasible { infeasible ≡ true → IsFeasible (player_of player.now) point → ⊥ }
    ensures fate { (aim : List ℤ) (best : Option Fraction) (scale : ℤ) (mult : Multipliers)
        → IsBestAt (player_of player.now) (leaf_of leaf.now) aim point value scale mult
        → IsNoHigher best value → (more : ℕ) → AreNear (leaf_of leaf.now) more
        → IsFate (player_of player.now) (leaf_of leaf.now) aim best more result }
    ensures opens { (aim : List ℤ) (scale : ℤ) (mult : Multipliers)
        → IsBestAt (player_of player.now) (leaf_of leaf.now) aim point value scale mult
        → LeavesOpen (player_of player.now) (leaf_of leaf.now) aim result }
    ensures ends { (aim : List ℤ) → IsEndProof (player_of player.now) aim (leaf_of leaf.now) end
        → ProvesEnd (player_of player.now) (leaf_of leaf.now) aim result }
{
    match where_to_split(player, leaf, &point, &[]) {
        None => Fate::Improved { point, value, end },
        Some(split) => Fate::Divided {
            split,
            least_open: infeasible,
        },
    }
}

/// What becomes of a leaf on which the aim falls along the ray.
fn along(player: &Player, leaf: &Leaf, point: Point, ray: Vec<i128>) -> Fate
    requires some { (i : ℕ) × IsSomePlayer i (player_of player.now) }
    requires lengths { IsLeafOf (player_of player.now) leaf.now }
    requires keeps { KeepsRoot (player_of player.now) (leaf_of leaf.now) }
    requires near { AreNear (leaf_of leaf.now) 1000000000 }
    requires meets { MeetsLeaf (player_of player.now) (leaf_of leaf.now) point }
    ensures fate { (aim : List ℤ) (best : Option Fraction)
        → IsUnboundedAt (player_of player.now) (leaf_of leaf.now) aim point ray.items
        → (more : ℕ) → AreNear (leaf_of leaf.now) more
        → IsFate (player_of player.now) (leaf_of leaf.now) aim best more result }
    ensures opens { (aim : List ℤ)
        → IsUnboundedAt (player_of player.now) (leaf_of leaf.now) aim point ray.items
        → LeavesOpen (player_of player.now) (leaf_of leaf.now) aim result }
    ensures ends { (leaf : LeafOf) (aim : List ℤ)
        → ProvesEnd (player_of player.now) leaf aim result }
{
    match where_to_split(player, leaf, &point, &ray) {
        None => Fate::Below {
            base: point,
            dir: ray,
        },
        Some(split) => Fate::Divided {
            split,
            least_open: true,
        },
    }
}

/// Whether the point is feasible, where no step of the test is too wide.
fn tested(game: &Game, i: u32, point: &Point) -> Test
    requires { i < length (game_of game.now) }
    ensures yes { (player : PlayerOf) → IsPlayer (game_of game.now) i player
        → length point.now.num ≡ length player.vars → result ≡ Test.Feasible
        → IsFeasible player point.now }
    ensures no { (player : PlayerOf) → IsPlayer (game_of game.now) i player
        → length point.now.num ≡ length player.vars → result ≡ Test.Infeasible
        → IsFeasible player point.now → ⊥ }
{
    match feasible(game, i, point) {
        Ok(yes) => if yes {
            Test::Feasible
        } else {
            Test::Infeasible
        },
        Err(_) => Test::TooWide,
    }
}
