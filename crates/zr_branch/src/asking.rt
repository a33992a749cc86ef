ghost use Rattle.std.specs.Prelude.{◌≡◌, ◌≢◌, ◌<◌, ℕ, ℤ, pos, IfOk, IfErr, List, length, true};
ghost use Rattle.std.specs.List.{All};
ghost use Rattle.zr_base.specs.Fractions.{IsSame, ratio};
ghost use Rattle.zr_base.specs.Lowest.{IsLowest, IsRatio};
ghost use Rattle.zr_base.specs.Steps.{IsNarrow};
ghost use Rattle.zr_base.specs.Terms.{coef_at};
ghost use Rattle.zr_basis.specs.Runs.{IsFromSlacks};
ghost use Rattle.zr_game.specs.Players.{player_of};
ghost use Rattle.zr_game.specs.Leaves.{IsLeafOf, LeafOf, leaf_of};
ghost use Rattle.zr_simplex.specs.Answers.{AreListed, IsAnswer, IsBasicAnswer};
ghost use Rattle.zr_simplex.specs.Programs.{program_of};
ghost use Rattle.zr_basis.specs.BasicForms.{IsBasicForm};
ghost use Rattle.zr_asked.specs.Paths.{IsOpenPath, branch};
ghost use Rattle.zr_branch.specs.Columns.{IsBranchQuestion, KeepsLows, is_single};
ghost use Rattle.zr_branch.specs.Programs.{IsSpread};
ghost use Rattle.zr_branch.specs.Replies.{CountsPivotsAlone, IsAskCause, IsReply, IsSomePlayer, KeepsStuck};

use crate::multipliers::by_slot;
use crate::program::{Question, question_of};
use crate::reply::{AskStop, Reply};
use crate::value::{point_by, ray_by};
use std::alloc::{AllocError, Global};
use zr_asked::{Asked, AskedLp, Move};
use zr_base::Frac;
use zr_game::{Leaf, Player};
use zr_io::Purse;
use zr_simplex::{LpAnswer, Stop, Stuck, solve_lp};

/// A value as a fraction in lowest terms.
fn fraction(value: i128, scale: i128) -> Frac
    requires { IsRatio value scale }
    ensures same { IsSame result (ratio value scale) }
    ensures lowest { IsLowest result }
{
    Frac::new(value, scale).unwrap()
}

/// The multipliers of the leaf's slots that multipliers of rows and extras of columns stand for.
fn slot_multipliers(
    alloc: Global,
    player: &Player,
    asked: &Question,
    mult: &[(u32, i128)],
    extra: &[(u32, i128)],
) -> Result<Vec<(u32, i128)>, AllocError>
    requires player { (i : ℕ) × IsSomePlayer i (player_of player.now) }
    requires asked { (leaf : LeafOf) × (aim : List ℤ)
        × IsBranchQuestion (player_of player.now) leaf aim asked.now
        × KeepsLows (player_of player.now) leaf }
    requires listed { AreListed asked.now.lp mult.now extra.now }
    requires single { (c : ℕ) → c < asked.now.lp.columns → coef_at extra.now c ≢ pos 0
        → is_single (player_of player.now).vars c ≡ true }
    ensures { (leaf : LeafOf) (aim : List ℤ)
        → IsBranchQuestion (player_of player.now) leaf aim asked.now
        → KeepsLows (player_of player.now) leaf
        → IfOk result (λ list. IsSpread (player_of player.now) leaf asked.now mult.now extra.now
        list.items) }
{
    let _vars = player.vars.len();
    by_slot(alloc, &asked.places, &asked.lows, mult, extra)
}

/// The answer in terms of the leaf's slots.
fn reply_of(
    alloc: Global,
    player: &Player,
    asked: &Question,
    answer: LpAnswer,
) -> Result<Reply, AllocError>
    requires player { (i : ℕ) × IsSomePlayer i (player_of player.now) }
    requires asked { (leaf : LeafOf) × (aim : List ℤ)
        × IsBranchQuestion (player_of player.now) leaf aim asked.now
        × KeepsLows (player_of player.now) leaf }
    requires answer { IsAnswer asked.now.lp answer }
    requires basic { (basis : ℕ → ℕ) × (form : ℕ → ℕ → ℤ)
        × IsBasicForm (program_of asked.now.lp) basis form
        × IsBasicAnswer (program_of asked.now.lp) basis form answer }
    ensures { (leaf : LeafOf) (aim : List ℤ)
        → IsBranchQuestion (player_of player.now) leaf aim asked.now
        → KeepsLows (player_of player.now) leaf
        → IfOk result (IsReply (player_of player.now) leaf aim) }
{
    match answer {
        LpAnswer::Best {
            point,
            scale,
            value,
            mult,
            extra,
        } => {
            let mult = slot_multipliers(alloc, player, asked, &mult, &extra)?;
            let point = point_by(alloc, &player.vars, &point)?;
            Ok(Reply::Best {
                point,
                value: fraction(value, scale),
                scale,
                mult,
            })
        }
        LpAnswer::Empty { mult, extra } => {
            let mult = slot_multipliers(alloc, player, asked, &mult, &extra)?;
            Ok(Reply::Empty { mult })
        }
        LpAnswer::Unbounded { point, ray } => {
            let point = point_by(alloc, &player.vars, &point)?;
            let ray = ray_by(alloc, &player.vars, &ray)?;
            Ok(Reply::Unbounded { point, ray })
        }
    }
}

/// The stop of a question that is stuck.
fn stuck_at(alloc: Global, i: u32, path: &[Move], aim: &[i128], stuck: Stuck) -> AskStop
    ensures { KeepsStuck i path.now aim.now stuck result }
{
    let (Ok(path), Ok(aim)) = (path.to_vec(alloc), aim.to_vec(alloc)) else {
        return AskStop::NoMemory;
    };
    AskStop::Wide(AskedLp {
        question: Asked::Branch {
            player: i,
            path,
            aim,
        },
        stuck,
    })
}

/// Asks for the least value of the aim over the rows of the leaf to which the path leads.
///
/// The path is one of an open tree, and the aim has a number for each variable of the player, none
/// of them `i128::MIN`. The purse counts the pivots.
///
/// # Errors
///
/// `Wide` where a step of the question's program is too wide, with the question, the basis and the
/// step. `NoMemory` for want of memory.
pub fn ask(
    alloc: Global,
    i: u32,
    player: &Player,
    path: &[Move],
    leaf: &Leaf,
    aim: &[i128],
    purse: &mut Purse,
) -> Result<Reply, AskStop>
    requires player { IsSomePlayer i (player_of player.now) }
    requires path { IsOpenPath (player_of player.now) path.now }
    requires lengths { IsLeafOf (player_of player.now) leaf.now }
    requires leaf { leaf_of leaf.now ≡ branch (player_of player.now) path.now }
    requires aim { length aim.now ≡ length (player_of player.now).vars }
    requires narrow { All IsNarrow aim.now }
    ensures reply { IfOk result (IsReply (player_of player.now)
        (branch (player_of player.now) path.now) aim.now) }
    ensures cause { IfErr result (IsAskCause i (player_of player.now) path.now aim.now) }
    ensures purse { CountsPivotsAlone purse.old purse.new }
{
    // What is read fits its type: the count so far is a `u64`.
    let _pivots = purse.pivots;
    let Ok(asked) = question_of(alloc, player, leaf, aim) else {
        return Err(AskStop::NoMemory);
    };
    match solve_lp(alloc, &asked.lp, purse) {
        Ok(answer) => match reply_of(alloc, player, &asked, answer) {
            Ok(reply) => Ok(reply),
            Err(_) => Err(AskStop::NoMemory),
        },
        Err(Stop::NoMemory) => Err(AskStop::NoMemory),
        Err(Stop::Wide(stuck)) => Err(stuck_at(alloc, i, path, aim, stuck)),
    }
}
