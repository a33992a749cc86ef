ghost use Rattle.std.specs.Prelude.{◌≡◌, ◌↔◌, ◌⊎◌, ◌<◌, ◌||◌, ℕ, pos, ◌<ℤ◌, true, IsTrue, IfOk, IfErr, IsErr, OnOk, Ok, Err, length, slice_index_or};
ghost use Rattle.std.specs.List.{All};
ghost use Rattle.zr_base.specs.declared.step.Wide.{Wide as AWide};
ghost use Rattle.zr_base.specs.Steps.{IsNarrow};
ghost use Rattle.zr_base.specs.Sums.{sum_step};
ghost use Rattle.zr_lin.specs.Combinations.{Combines};
ghost use Rattle.zr_lin.specs.DenseRows.{AreMultipliers};
ghost use Rattle.zr_lin.specs.Ineqs.{row_at};
ghost use Rattle.zr_game.specs.Games.{game_of};
ghost use Rattle.zr_cases.specs.Forms.{AreCounted};
ghost use Rattle.zr_system.specs.Asked.{AreLeaves, ChoiceExists, HasWideNumber, IsUnknown, IsWideAt, LineExists};
ghost use Rattle.zr_system.specs.Lines as in_order;
ghost use Rattle.zr_system.specs.Lines.{all_lines, row_of_line};
ghost use Rattle.zr_system.specs.Regions.{leaves_of};
ghost use Rattle.zr_system.specs.System.{system_rows};
ghost use Rattle.zr_system.specs.Unknowns.{columns};
ghost use Rattle.zr_refute.specs.Refuting.{Closes};
ghost use Rattle.zr_refute.specs.Steps.{HasWideRow, HasWideSum, IsWideEnd};
ghost use Rattle.zr_refute.specs.Sums.{AreAdded, EndTells, IsWideAdded, line_number, right_step};

use crate::place::line_at;
use zr_base::{Wide, add_product};
use zr_game::{Choice, Game};
use zr_lin::Combined;
use zr_system::{Leaves, Line, Unknown, is_strict, number_in_row};

/// The sum of a column with a multiple of the row.
fn add_number(
    game: &Game,
    leaves: &Leaves,
    line: Line,
    u: Unknown,
    by: i128,
    sum: i128,
) -> Result<i128, Wide>
    requires leaves { AreLeaves (game_of game.now) leaves.now }
    requires line { LineExists (game_of game.now) (leaves_of leaves.now) line }
    requires unknown { IsUnknown (game_of game.now) (leaves_of leaves.now) u }
    requires narrow { IsNarrow sum }
    ensures ok { IfOk result (λ s. sum_step sum
        (by, line_number (game_of game.now) (leaves_of leaves.now) line u) ≡ Ok s) }
    ensures narrow { IfOk result IsNarrow }
    ensures wide { IfErr result (λ w. IsWideAt (game_of game.now) (leaves_of leaves.now) line u w
        ⊎ (sum_step sum (by, line_number (game_of game.now) (leaves_of leaves.now) line u)
        ≡ Err w)) }
    ensures wide_ends { (w : AWide) → IsWideAt (game_of game.now) (leaves_of leaves.now) line u w
        → IsErr result }
{
    match number_in_row(game, leaves, line, u) {
        Ok(number) => add_product(sum, by, number),
        Err(wide) => Err(wide),
    }
}

/// Adds a multiple of the row to the sums, column by column.
fn add_columns(
    game: &Game,
    leaves: &Leaves,
    order: &[Unknown],
    line: Line,
    by: i128,
    sums: &mut [i128],
) -> Result<(), Wide>
    requires leaves { AreLeaves (game_of game.now) leaves.now }
    requires line { LineExists (game_of game.now) (leaves_of leaves.now) line }
    requires order { All (IsUnknown (game_of game.now) (leaves_of leaves.now)) order.now }
    requires columns { length sums.old ≡ length order.now }
    requires narrow { All IsNarrow sums.old }
    ensures ok { OnOk result (AreAdded (game_of game.now) (leaves_of leaves.now) order.now line by
        sums.old sums.new) }
    ensures wide { IfErr result (λ w. ((j : ℕ) × (j < length order.now)
        × IsWideAt (game_of game.now) (leaves_of leaves.now) line
        (slice_index_or order.now j Unknown.One) w)
        ⊎ IsWideAdded (game_of game.now) (leaves_of leaves.now) order.now line by sums.old w) }
    ensures wide_ends { (j : ℕ) (w : AWide) → j < length order.now
        → IsWideAt (game_of game.now) (leaves_of leaves.now) line
        (slice_index_or order.now j Unknown.One) w → IsErr result }
{
    for j in 0..order.len() {
        match add_number(game, leaves, line, order[j], by, sums[j]) {
            Ok(sum) => sums[j] = sum,
            Err(wide) => return Err(wide),
        }
    }
    Ok(())
}

/// The sum of the right sides with a multiple of the row.
fn add_right(game: &Game, leaves: &Leaves, line: Line, by: i128, le: i128) -> Result<i128, Wide>
    requires leaves { AreLeaves (game_of game.now) leaves.now }
    requires line { LineExists (game_of game.now) (leaves_of leaves.now) line }
    requires narrow { IsNarrow le }
    ensures ok { IfOk result (λ s. right_step (game_of game.now) (leaves_of leaves.now) line by le
        ≡ Ok s) }
    ensures wide { IfErr result (λ w. IsWideAt (game_of game.now) (leaves_of leaves.now) line
        Unknown.One w ⊎ (right_step (game_of game.now) (leaves_of leaves.now) line by le ≡ Err w)) }
    ensures wide_ends { (w : AWide) → IsWideAt (game_of game.now) (leaves_of leaves.now) line
        Unknown.One w → IsErr result }
{
    match number_in_row(game, leaves, line, Unknown::One) {
        Ok(alone) => add_product(le, by, -alone),
        Err(wide) => Err(wide),
    }
}

/// Adds a multiple of the row to the combination.
fn add_line(
    game: &Game,
    leaves: &Leaves,
    order: &[Unknown],
    line: Line,
    by: i128,
    sums: &mut [i128],
    total: Combined,
) -> Result<Combined, Wide>
    requires leaves { AreLeaves (game_of game.now) leaves.now }
    requires line { LineExists (game_of game.now) (leaves_of leaves.now) line }
    requires order { All (IsUnknown (game_of game.now) (leaves_of leaves.now)) order.now }
    requires columns { length sums.old ≡ length order.now }
    requires narrow { All IsNarrow sums.old }
    requires narrow_le { IsNarrow total.le }
    ensures sums { OnOk result (AreAdded (game_of game.now) (leaves_of leaves.now) order.now line by
        sums.old sums.new) }
    ensures right { IfOk result (λ new. right_step (game_of game.now) (leaves_of leaves.now) line by
        total.le ≡ Ok new.le) }
    ensures strict { IfOk result (λ new. new.strict ≡ (total.strict
        || (row_of_line (game_of game.now) (leaves_of leaves.now) line).strict)) }
    ensures wide { IfErr result (λ w. HasWideNumber (game_of game.now) (leaves_of leaves.now)
        order.now line w
        ⊎ (IsWideAdded (game_of game.now) (leaves_of leaves.now) order.now line by sums.old w
        ⊎ (right_step (game_of game.now) (leaves_of leaves.now) line by total.le ≡ Err w))) }
    ensures wide_ends { (w : AWide) → HasWideNumber (game_of game.now) (leaves_of leaves.now)
        order.now line w → IsErr result }
{
    match add_columns(game, leaves, order, line, by, sums) {
        Err(wide) => Err(wide),
        Ok(()) => match add_right(game, leaves, line, by, total.le) {
            Err(wide) => Err(wide),
            Ok(le) => Ok(Combined {
                le,
                strict: total.strict || is_strict(line),
            }),
        },
    }
}

/// Whether there is a row of this number under the path.
fn is_row(game: &Game, leaves: &Leaves, base: &[Line], path: &[Choice], n: usize) -> bool
    requires leaves { AreLeaves (game_of game.now) leaves.now }
    requires base { base.now ≡ in_order.base_lines (game_of game.now) (leaves_of leaves.now) }
    requires path { All (ChoiceExists (game_of game.now) (leaves_of leaves.now)) path.now }
    ensures { IsTrue result ↔ (n < length (all_lines (game_of game.now) (leaves_of leaves.now)
        path.now)) }
{
    line_at(game, leaves, base, path, n).is_some()
}

/// Whether each of the multiplied rows exists under the path.
fn are_rows(
    game: &Game,
    leaves: &Leaves,
    base: &[Line],
    path: &[Choice],
    mult: &[(u32, i128)],
) -> bool
    requires leaves { AreLeaves (game_of game.now) leaves.now }
    requires base { base.now ≡ in_order.base_lines (game_of game.now) (leaves_of leaves.now) }
    requires path { All (ChoiceExists (game_of game.now) (leaves_of leaves.now)) path.now }
    requires mult { AreCounted mult.now }
    ensures { IsTrue result ↔ AreMultipliers (length (system_rows (game_of game.now)
        (leaves_of leaves.now) path.now)) mult.now }
{
    let mut all = true;
    for (row, _) in mult {
        all &= is_row(game, leaves, base, path, *row as usize);
    }
    all
}

/// The combination of the multiplied rows: its left side in `sums`, by column, and its right side as
/// the answer.
fn combine(
    game: &Game,
    leaves: &Leaves,
    order: &[Unknown],
    base: &[Line],
    path: &[Choice],
    mult: &[(u32, i128)],
    sums: &mut [i128],
) -> Result<Combined, Wide>
    requires leaves { AreLeaves (game_of game.now) leaves.now }
    requires order { order.now ≡ columns (game_of game.now) (leaves_of leaves.now) }
    requires base { base.now ≡ in_order.base_lines (game_of game.now) (leaves_of leaves.now) }
    requires path { All (ChoiceExists (game_of game.now) (leaves_of leaves.now)) path.now }
    requires mult { AreMultipliers (length (system_rows (game_of game.now) (leaves_of leaves.now)
        path.now)) mult.now }
    requires columns { length sums.old ≡ length order.now }
    ensures ok { IfOk result (Combines (row_at (system_rows (game_of game.now)
        (leaves_of leaves.now) path.now)) mult.now sums.new) }
    ensures wide { IfErr result (λ _. HasWideRow (game_of game.now) (leaves_of leaves.now) path.now
        mult.now ⊎ HasWideSum (game_of game.now) (leaves_of leaves.now) path.now mult.now) }
    ensures wide_ends { HasWideRow (game_of game.now) (leaves_of leaves.now) path.now mult.now
        → IsErr result }
{
    sums.fill(0);
    let mut total = Combined {
        le: 0,
        strict: false,
    };
    for (row, by) in mult {
        let line = line_at(game, leaves, base, path, *row as usize).unwrap();
        match add_line(game, leaves, order, line, *by, sums, total) {
            Ok(next) => total = next,
            Err(wide) => return Err(wide),
        }
    }
    Ok(total)
}

/// Whether the multiplied rows exist under the path, and their combination is a contradiction.
///
/// Where a row doesn't exist no sum is made. Else all sums are made; the answer is a step of these
/// that is too wide, where there is one. `sums` is room for a number per column.
pub(crate) fn closes(
    game: &Game,
    leaves: &Leaves,
    order: &[Unknown],
    base: &[Line],
    path: &[Choice],
    mult: &[(u32, i128)],
    sums: &mut [i128],
) -> Result<bool, Wide>
    requires leaves { AreLeaves (game_of game.now) leaves.now }
    requires order { order.now ≡ columns (game_of game.now) (leaves_of leaves.now) }
    requires base { base.now ≡ in_order.base_lines (game_of game.now) (leaves_of leaves.now) }
    requires path { All (ChoiceExists (game_of game.now) (leaves_of leaves.now)) path.now }
    requires mult { AreCounted mult.now }
    requires columns { length sums.old ≡ length order.now }
    ensures { EndTells result (Closes (game_of game.now) (leaves_of leaves.now))
        (IsWideEnd (game_of game.now) (leaves_of leaves.now)) path.now mult.now }
{
    if !are_rows(game, leaves, base, path, mult) {
        return Ok(false);
    }
    let total = combine(game, leaves, order, base, path, mult, sums)?;
    let zero = are_zero(sums);
    Ok(zero & is_negative(total))
}

fn are_zero(sums: &[i128]) -> bool
    ensures { IsTrue result ↔ All (λ z. z ≡ pos 0) sums.now }
{
    sums.iter().all(|sum| *sum == 0)
}

/// Whether 0 can't be below the right side.
fn is_negative(total: Combined) -> bool
    ensures { IsTrue result ↔ ((total.le <ℤ (pos 0)) ⊎ ((total.le ≡ pos 0)
        × (total.strict ≡ true))) }
{
    total.le < 0 || total.le == 0 && total.strict
}
