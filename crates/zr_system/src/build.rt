ghost use Rattle.std.specs.Prelude.{◌≡◌, ◌<◌, ◌++◌, ◌∷◌, [], ℕ, ℤ, pos, length, map, IfOk, IfErr, IsErr, OnOk, slice_index_or};
ghost use Rattle.std.specs.List.{All};
ghost use Rattle.zr_base.specs.declared.step.Wide.{Wide as AWide};
ghost use Rattle.zr_base.specs.Steps.{IsNarrow};
ghost use Rattle.zr_base.specs.Terms.{Ascends};
ghost use Rattle.zr_lin.specs.Ineqs.{IsIneq, ineq_of, rows_of};
ghost use Rattle.zr_game.specs.Games.{game_of};
ghost use Rattle.zr_game.specs.Players.{GameOf};
ghost use Rattle.zr_system.specs.Regions.{LeavesOf, leaves_of};
ghost use Rattle.zr_system.specs.Forms.{number_at};
ghost use Rattle.zr_system.specs.Unknowns.{columns};
ghost use Rattle.zr_system.specs.Lines.{all_lines, row_of_line};
ghost use Rattle.zr_system.specs.System.{ineq_over, listed, system_rows, terms_from};
ghost use Rattle.zr_system.specs.Asked.{AreLeaves, ChoiceExists, HasWideCoefficient, HasWideIn, HasWideNumber, IsUnknown, IsWideAt, IsWideBy, LineExists};

use crate::leaves::{Leaves, SystemError};
use crate::line::{Line, lines};
use crate::number::number_in_row;
use crate::unknown::{Unknown, unknowns};
use std::alloc::{AllocError, Global};
use zr_base::{NoMemory, Wide};
use zr_game::{Choice, Game, Kind};
use zr_lin::{Ineq, System};

/// Whether a row is strict.
pub fn is_strict(line: Line) -> bool
    ensures { (game : GameOf) (leaves : LeavesOf) → result ≡ (row_of_line game leaves line).strict }
{
    matches!(line, Line::Positive { .. })
}

/// Appends a column's number, unless it is 0.
fn push_number(list: &mut Vec<(u32, i128)>, j: u32, number: i128) -> Result<(), AllocError>
    ensures { OnOk result (list.new.items ≡ list.old.items ++ listed j number) }
{
    if number != 0 {
        list.push((j, number))?;
    }
    Ok(())
}

/// The number of an unknown in a row, by its column.
fn number_of(
    game: &Game,
    leaves: &Leaves,
    order: &[Unknown],
    line: Line,
    j: u32,
) -> Result<i128, Wide>
    requires leaves { AreLeaves (game_of game.now) leaves.now }
    requires line { LineExists (game_of game.now) (leaves_of leaves.now) line }
    requires order { All (IsUnknown (game_of game.now) (leaves_of leaves.now)) order.now }
    requires column { j < length order.now }
    ensures exact { IfOk result (λ a. a ≡ number_at
        (row_of_line (game_of game.now) (leaves_of leaves.now) line).left
        (slice_index_or order.now j Unknown.One)) }
    ensures narrow { IfOk result IsNarrow }
    ensures wide { IfErr result (IsWideAt (game_of game.now) (leaves_of leaves.now) line
        (slice_index_or order.now j Unknown.One)) }
    ensures wide_ends { (w : AWide) → IsWideAt (game_of game.now) (leaves_of leaves.now) line
        (slice_index_or order.now j Unknown.One) w → IsErr result }
{
    number_in_row(game, leaves, line, order[j as usize])
}

/// The numbers of the unknowns in a row, by column, as far as they aren't 0.
fn terms(
    alloc: Global,
    game: &Game,
    leaves: &Leaves,
    order: &[Unknown],
    line: Line,
) -> Result<Vec<(u32, i128)>, SystemError>
    requires leaves { AreLeaves (game_of game.now) leaves.now }
    requires line { LineExists (game_of game.now) (leaves_of leaves.now) line }
    requires order { All (IsUnknown (game_of game.now) (leaves_of leaves.now)) order.now }
    requires few { length order.now < 4294967296 }
    ensures terms { IfOk result (λ list. list.items ≡ terms_from 0 order.now
        (row_of_line (game_of game.now) (leaves_of leaves.now) line).left) }
    ensures ascend { IfOk result (λ list. Ascends 0 (length order.now) list.items) }
    ensures wide { IfErr result (IsWideBy (λ w. (j : ℕ) × (j < length order.now)
        × IsWideAt (game_of game.now) (leaves_of leaves.now) line
        (slice_index_or order.now j Unknown.One) w)) }
    ensures wide_ends { (j : ℕ) (w : AWide) → j < length order.now
        → IsWideAt (game_of game.now) (leaves_of leaves.now) line
        (slice_index_or order.now j Unknown.One) w → IsErr result }
{
    let mut list = Vec::new(alloc);
    for j in 0..order.len() as u32 {
        match number_of(game, leaves, order, line, j) {
            Ok(number) => {
                if push_number(&mut list, j, number).is_err() {
                    return Err(SystemError::NoMemory);
                }
            }
            Err(wide) => return Err(SystemError::Wide(wide)),
        }
    }
    Ok(list)
}

/// A row over the columns.
fn ineq(
    alloc: Global,
    game: &Game,
    leaves: &Leaves,
    order: &[Unknown],
    line: Line,
) -> Result<Ineq, SystemError>
    requires leaves { AreLeaves (game_of game.now) leaves.now }
    requires line { LineExists (game_of game.now) (leaves_of leaves.now) line }
    requires order { All (IsUnknown (game_of game.now) (leaves_of leaves.now)) order.now }
    requires few { length order.now < 4294967296 }
    ensures row { IfOk result (λ row. ineq_of row ≡ ineq_over order.now
        (row_of_line (game_of game.now) (leaves_of leaves.now) line)) }
    ensures form { IfOk result (λ row. IsIneq (length order.now) (ineq_of row)) }
    ensures wide { IfErr result (IsWideBy (HasWideNumber (game_of game.now) (leaves_of leaves.now)
        order.now line)) }
    ensures wide_ends { (w : AWide) → HasWideNumber (game_of game.now) (leaves_of leaves.now)
        order.now line w → IsErr result }
{
    let coef = match terms(alloc, game, leaves, order, line) {
        Ok(coef) => coef,
        Err(error) => return Err(error),
    };
    match number_in_row(game, leaves, line, Unknown::One) {
        Ok(alone) => Ok(Ineq {
            coef,
            le: -alone,
            strict: is_strict(line),
        }),
        Err(wide) => Err(SystemError::Wide(wide)),
    }
}

/// Appends a row.
#[tactic(auto, using(crate::proofs::Existence::map_more))]
fn push_row(list: &mut Vec<Ineq>, row: Ineq) -> Result<(), NoMemory>
    ensures { OnOk result (map ineq_of list.new.items ≡ map ineq_of list.old.items ++
        (ineq_of row ∷ [])) }
{
    match list.push(row) {
        Ok(()) => Ok(()),
        Err(_) => Err(NoMemory),
    }
}

/// The rows over the columns.
fn rows_over(
    alloc: Global,
    game: &Game,
    leaves: &Leaves,
    order: &[Unknown],
    lines: &[Line],
) -> Result<Vec<Ineq>, SystemError>
    requires leaves { AreLeaves (game_of game.now) leaves.now }
    requires lines { All (LineExists (game_of game.now) (leaves_of leaves.now)) lines.now }
    requires order { All (IsUnknown (game_of game.now) (leaves_of leaves.now)) order.now }
    requires few { length order.now < 4294967296 }
    ensures rows { IfOk result (λ list. map ineq_of list.items ≡ map
        (λ line. ineq_over order.now (row_of_line (game_of game.now) (leaves_of leaves.now) line))
        lines.now) }
    ensures form { IfOk result (λ list. All (IsIneq (length order.now)) (map ineq_of list.items)) }
    ensures wide { IfErr result (IsWideBy (HasWideIn (game_of game.now) (leaves_of leaves.now)
        order.now lines.now)) }
    ensures wide_ends { (w : AWide) → HasWideIn (game_of game.now) (leaves_of leaves.now) order.now
        lines.now w → IsErr result }
{
    let mut list = Vec::new(alloc);
    for line in lines {
        match ineq(alloc, game, leaves, order, *line) {
            Ok(row) => {
                if push_row(&mut list, row).is_err() {
                    return Err(SystemError::NoMemory);
                }
            }
            Err(error) => return Err(error),
        }
    }
    Ok(list)
}

/// The system of the game over the leaves, under a path of choices.
///
/// `Wide` where a step of a coefficient's sum is too wide. The rows are the same for both kinds:
/// what
/// the kind decides is which choices are made.
pub fn rows(
    alloc: Global,
    game: &Game,
    leaves: &Leaves,
    _kind: Kind,
    choices: &[Choice],
) -> Result<System, SystemError>
    requires leaves { AreLeaves (game_of game.now) leaves.now }
    requires choices { All (ChoiceExists (game_of game.now) (leaves_of leaves.now)) choices.now }
    requires few_columns { length (columns (game_of game.now) (leaves_of leaves.now)) < 4294967296 }
    ensures columns { IfOk result (λ sys. sys.columns ≡ length
        (columns (game_of game.now) (leaves_of leaves.now))) }
    ensures rows { IfOk result (λ sys. rows_of sys ≡ system_rows (game_of game.now)
        (leaves_of leaves.now) choices.now) }
    ensures form { IfOk result (λ sys. All (IsIneq sys.columns) (rows_of sys)) }
    ensures wide { IfErr result (IsWideBy (HasWideCoefficient (game_of game.now)
        (leaves_of leaves.now))) }
    ensures wide_ends { (w : AWide) → HasWideCoefficient (game_of game.now) (leaves_of leaves.now)
        w → IsErr result }
{
    let order = match unknowns(alloc, game, leaves) {
        Ok(order) => order,
        Err(_) => return Err(SystemError::NoMemory),
    };
    let lines = match lines(alloc, game, leaves, choices) {
        Ok(lines) => lines,
        Err(_) => return Err(SystemError::NoMemory),
    };
    match rows_over(alloc, game, leaves, &order, &lines) {
        Ok(rows) => Ok(System {
            columns: order.len() as u32,
            rows,
        }),
        Err(error) => Err(error),
    }
}
