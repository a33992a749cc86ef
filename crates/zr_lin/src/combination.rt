ghost use Rattle.std.specs.Prelude.{◌≡◌, ◌<◌, ◌⊎◌, ◌↔◌, ℕ, ℤ, pos, ◌<ℤ◌, IsTrue, IsErr, true, length, IfOk, IfErr, OnOk, slice_index_or, Ok, Err};
ghost use Rattle.std.specs.List.{All};
ghost use Rattle.zr_base.specs.declared.step.Wide.{Wide};
ghost use Rattle.zr_base.specs.Steps.{IsNarrow};
ghost use Rattle.zr_base.specs.Sums.{sum_step};
ghost use Rattle.zr_base.specs.Terms.{Ascends, coef_at};
ghost use Rattle.zr_lin.specs.DenseRows.{AreMultipliers, Refutes};
ghost use Rattle.zr_lin.specs.Ineqs.{HasNoSolution, IsIneq, row_at, rows_of};
ghost use Rattle.zr_lin.specs.Combinations.{Combines, HasWideStep, IsCombination};

use crate::system::{Combined, System};
use zr_base::{Wide, add_product};

/// The sum of rows, each times its multiplier: the left side in `left`, by column, and the right
/// side as the answer, with `strict` where one of the rows is strict.
///
/// `mult` lists multipliers of at least 1 by row, row numbers ascending strictly, and `left` has a
/// place for each column; what it held before counts for nothing. Each sum runs in the order of
/// `mult`, from 0. Where a step of one of them is too wide, the answer is such a step, and the
/// numbers in `left` are then of no use.
pub fn combine(sys: &System, mult: &[(u32, i128)], left: &mut [i128]) -> Result<Combined, Wide>
    requires places { length left.old ≡ sys.now.columns }
    requires rows { All (IsIneq sys.now.columns) (rows_of sys.now) }
    requires multipliers { AreMultipliers (length (rows_of sys.now)) mult.now }
    ensures exact { IfOk result (IsCombination (row_at (rows_of sys.now)) mult.now left.new) }
    ensures steps { IfOk result (Combines (row_at (rows_of sys.now)) mult.now left.new) }
    ensures narrow { IfOk result (λ sum. All IsNarrow left.new × IsNarrow sum.le) }
    ensures wide { IfErr result (HasWideStep sys.now.columns (row_at (rows_of sys.now)) mult.now) }
    ensures wide_ends { (w : Wide) → HasWideStep sys.now.columns (row_at (rows_of sys.now)) mult.now w → IsErr result }
{
    clear(left);
    let mut le = 0;
    let mut strict = false;
    for (number, by) in mult {
        let row = &sys.rows[*number as usize];
        add_row(left, &row.coef, *by)?;
        le = add_product(le, *by, row.le)?;
        strict |= row.strict;
    }
    Ok(Combined { le, strict })
}

/// Whether the multipliers refute the rows: their combination has the left side zero in each
/// column, and a right side that is below zero, or is zero where a strict row is used.
///
/// The conditions, the sums and the Wide answers are those of `combine`, and `left` is its room.
pub fn refutes(sys: &System, mult: &[(u32, i128)], left: &mut [i128]) -> Result<bool, Wide>
    requires places { length left.old ≡ sys.now.columns }
    requires rows { All (IsIneq sys.now.columns) (rows_of sys.now) }
    requires multipliers { AreMultipliers (length (rows_of sys.now)) mult.now }
    ensures exact { IfOk result (λ yes. IsTrue yes ↔ Refutes sys.now.columns (row_at (rows_of sys.now)) mult.now) }
    ensures sound { IfOk result (λ yes. IsTrue yes → HasNoSolution (rows_of sys.now)) }
    ensures wide { IfErr result (HasWideStep sys.now.columns (row_at (rows_of sys.now)) mult.now) }
    ensures wide_ends { (w : Wide) → HasWideStep sys.now.columns (row_at (rows_of sys.now)) mult.now w → IsErr result }
{
    let sum = combine(sys, mult, left)?;
    let zero = is_all_zero(left);
    Ok(zero && is_negative(&sum))
}

/// Adds a multiple of a row to the sums.
fn add_row(left: &mut [i128], coef: &[(u32, i128)], by: i128) -> Result<(), Wide>
    requires columns { Ascends 0 (length left.old) coef.now }
    requires narrow { All IsNarrow left.old }
    ensures sums { OnOk result ((j : ℕ) → j < length left.old → sum_step (slice_index_or left.old j (pos 0)) (by, coef_at coef.now j) ≡ Ok (slice_index_or left.new j (pos 0))) }
    ensures wide { IfErr result (λ w. (j : ℕ) × (j < length left.old) × (sum_step (slice_index_or left.old j (pos 0)) (by, coef_at coef.now j) ≡ Err w)) }
{
    for (column, number) in coef {
        let column = *column as usize;
        left[column] = add_product(left[column], by, *number)?;
    }
    Ok(())
}

/// Sets each number to 0.
fn clear(left: &mut [i128])
    ensures { All (λ z. z ≡ pos 0) left.new }
{
    for place in left.iter_mut() {
        *place = 0;
    }
}

fn is_all_zero(left: &[i128]) -> bool
    ensures { IsTrue result ↔ All (λ z. z ≡ pos 0) left.now }
{
    left.iter().all(|place| *place == 0)
}

/// Whether 0 can't be below the right side.
fn is_negative(sum: &Combined) -> bool
    ensures { IsTrue result ↔ ((sum.now.le <ℤ (pos 0)) ⊎ ((sum.now.le ≡ pos 0) × (sum.now.strict ≡ true))) }
{
    sum.le < 0 || sum.le == 0 && sum.strict
}

#[cfg(test)]
mod tests;
