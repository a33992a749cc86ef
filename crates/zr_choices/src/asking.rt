ghost use Rattle.std.specs.Prelude.{◌≡◌, ◌<◌, ℕ, ℤ, IfOk, IfErr, List, length};
ghost use Rattle.std.specs.List.{All};
ghost use Rattle.zr_basis.specs.BasicForms.{IsBasicForm};
ghost use Rattle.zr_simplex.specs.Answers.{IsAnswer, IsBasicAnswer};
ghost use Rattle.zr_simplex.specs.Programs.{program_of};
ghost use Rattle.zr_game.specs.Games.{game_of};
ghost use Rattle.zr_game.specs.Players.{GameOf};
ghost use Rattle.zr_game.specs.declared.choice.Choice.{Choice as AChoice};
ghost use Rattle.zr_system.specs.Asked.{AreLeaves, ChoiceExists};
ghost use Rattle.zr_system.specs.Lines as in_order;
ghost use Rattle.zr_system.specs.Regions.{LeavesOf, leaves_of};
ghost use Rattle.zr_system.specs.Unknowns.{columns};
ghost use Rattle.zr_branch.specs.Replies.{CountsPivotsAlone};
ghost use Rattle.zr_choices.specs.Questions.{IsQuestionUnder, IsUnasked, KeepsPath};
ghost use Rattle.zr_choices.specs.Replies.{IsChoicesCause, IsChoicesReply};
ghost use Rattle.zr_choices.specs.Signs as signs;
ghost use Rattle.zr_choices.specs.Signs.{spread};

use crate::multiplier::by_row;
use crate::program::program;
use crate::reply::{ChoiceStop, Reply};
use crate::sign::{sign_rows, spread_rows};
use crate::value::point_by;
use std::alloc::{AllocError, Global};
use zr_asked::{Asked, AskedLp};
use zr_game::{Choice, Game, Kind};
use zr_io::Purse;
use zr_simplex::{Lp, LpAnswer, Stop, Stuck, solve_lp};
use zr_system::{Leaves, SystemError, Unknown, base_lines, rows, unknowns};

/// The question of a path: the unknowns, by column of the system the row that says of an unknown
/// that it is at least 0, and the program.
#[derive(Drop)]
pub(crate) struct Question {
    pub(crate) order: Vec<Unknown>,
    pub(crate) signs: Vec<u32>,
    pub(crate) lp: Lp,
}

/// The row that says of an unknown that it is at least 0, at the unknown's column.
fn signs_of(
    alloc: Global,
    game: &Game,
    leaves: &Leaves,
    order: &[Unknown],
) -> Result<Vec<u32>, AllocError>
    requires leaves { AreLeaves (game_of game.now) leaves.now }
    requires order { order.now ≡ columns (game_of game.now) (leaves_of leaves.now) }
    requires few { length order.now < 16777217 }
    requires rows { length (in_order.base_lines (game_of game.now) (leaves_of leaves.now))
        < 4294967296 }
    ensures { IfOk result (λ list. list.items ≡ spread order.now
        (signs.sign_rows (in_order.base_lines (game_of game.now) (leaves_of leaves.now)))) }
{
    let Ok(lines) = base_lines(alloc, game, leaves) else {
        return Err(AllocError);
    };
    let rows = sign_rows(alloc, &lines)?;
    spread_rows(alloc, order, &rows)
}

/// The question of a path.
fn question_of(
    alloc: Global,
    game: &Game,
    leaves: &Leaves,
    path: &[Choice],
) -> Result<Question, ChoiceStop>
    requires leaves { AreLeaves (game_of game.now) leaves.now }
    requires path { All (ChoiceExists (game_of game.now) (leaves_of leaves.now)) path.now }
    requires few { length (columns (game_of game.now) (leaves_of leaves.now)) < 16777217 }
    ensures question { IfOk result (IsQuestionUnder (game_of game.now) (leaves_of leaves.now)
        path.now) }
    ensures cause { IfErr result (IsUnasked (game_of game.now) (leaves_of leaves.now)) }
{
    let sys = match rows(alloc, game, leaves, Kind::Mixed, path) {
        Ok(sys) => sys,
        Err(SystemError::Wide(wide)) => return Err(ChoiceStop::WideRow(wide)),
        Err(SystemError::NoMemory) => return Err(ChoiceStop::NoMemory),
    };
    let Ok(order) = unknowns(alloc, game, leaves) else {
        return Err(ChoiceStop::NoMemory);
    };
    let Ok(lp) = program(alloc, &order, &sys.rows) else {
        return Err(ChoiceStop::NoMemory);
    };
    match signs_of(alloc, game, leaves, &order) {
        Ok(signs) => Ok(Question { order, signs, lp }),
        Err(_) => Err(ChoiceStop::NoMemory),
    }
}

/// The answer in terms of the system's unknowns and rows.
fn reply_of(alloc: Global, q: &Question, answer: LpAnswer) -> Result<Reply, AllocError>
    requires question { (game : GameOf) × (leaves : LeavesOf) × (path : List AChoice)
        × IsQuestionUnder game leaves path q.now }
    requires answer { IsAnswer q.now.lp answer }
    requires basic { (basis : ℕ → ℕ) × (form : ℕ → ℕ → ℤ)
        × IsBasicForm (program_of q.now.lp) basis form
        × IsBasicAnswer (program_of q.now.lp) basis form answer }
    ensures { (game : GameOf) (leaves : LeavesOf) (path : List AChoice)
        → IsQuestionUnder game leaves path q.now
        → IfOk result (IsChoicesReply game leaves path) }
{
    match answer {
        LpAnswer::Best {
            point,
            mult,
            extra,
            ..
        } => {
            if point.num(q.lp.columns as usize - 1) > 0 {
                let point = point_by(alloc, &q.order, &point)?;
                return Ok(Reply::Point(point));
            }
            let mult = by_row(alloc, &q.signs, &mult, &extra)?;
            Ok(Reply::Close(mult))
        }
        LpAnswer::Empty { mult, extra } => {
            let mult = by_row(alloc, &q.signs, &mult, &extra)?;
            Ok(Reply::Close(mult))
        }
        LpAnswer::Unbounded { .. } => unreachable!(),
    }
}

/// The stop of a question that is stuck.
fn stuck_at(alloc: Global, path: &[Choice], stuck: Stuck) -> ChoiceStop
    ensures { KeepsPath path.now stuck result }
{
    match path.to_vec(alloc) {
        Ok(path) => ChoiceStop::Wide(AskedLp {
            question: Asked::Choices { path },
            stuck,
        }),
        Err(_) => ChoiceStop::NoMemory,
    }
}

/// Asks whether the system over the leaves, with the rows of the path's choices, has a solution.
///
/// The linear program asked has a column for each unknown that can't be below zero, two for each
/// other one, and a last one, which each strict row is kept by and which is at most 1 and to be
/// raised. Where it can be raised above zero its basic solution solves the system; else its
/// multipliers refute it, by the alternative of T. Motzkin (1936). The purse counts the pivots. The
/// unknowns are fewer than 16,777,217, and the choices of the path exist.
///
/// # Errors
///
/// `Wide` where a step of the program is too wide, with the path, the basis and the step.
/// `WideRow` where a step of a coefficient of the system is too wide. `NoMemory` for want of
/// memory, and where the rows are 4,200,000,000 or more.
pub fn ask(
    alloc: Global,
    game: &Game,
    leaves: &Leaves,
    path: &[Choice],
    purse: &mut Purse,
) -> Result<Reply, ChoiceStop>
    requires leaves { AreLeaves (game_of game.now) leaves.now }
    requires path { All (ChoiceExists (game_of game.now) (leaves_of leaves.now)) path.now }
    requires few { length (columns (game_of game.now) (leaves_of leaves.now)) < 16777217 }
    ensures reply { IfOk result (IsChoicesReply (game_of game.now) (leaves_of leaves.now)
        path.now) }
    ensures cause { IfErr result (IsChoicesCause (game_of game.now) (leaves_of leaves.now)
        path.now) }
    ensures purse { CountsPivotsAlone purse.old purse.new }
{
    // The count's range is known from here on.
    let _pivots = purse.pivots;
    let question = match question_of(alloc, game, leaves, path) {
        Ok(question) => question,
        Err(stop) => return Err(stop),
    };
    match solve_lp(alloc, &question.lp, purse) {
        Ok(answer) => match reply_of(alloc, &question, answer) {
            Ok(reply) => Ok(reply),
            Err(_) => Err(ChoiceStop::NoMemory),
        },
        Err(Stop::NoMemory) => Err(ChoiceStop::NoMemory),
        Err(Stop::Wide(stuck)) => Err(stuck_at(alloc, path, stuck)),
    }
}
