ghost use Rattle.std.specs.Prelude.{◌≡◌, ◌≢◌, ◌<◌, ◌+◌, ◌-◌, ◌*◌, ℕ, ℤ, pos, ◌-ℤ◌, ◌*ℤ◌, ◌<ℤ◌, ◌++◌, ◌∷◌, [], length, slice_index, drop, IfOk, IfSome, OnOk};
ghost use Rattle.std.specs.List.{All};
ghost use Rattle.zr_base.specs.Steps.{IsNarrow};
ghost use Rattle.zr_basis.specs.BasicForms.{IsPrimitive, value_column};
ghost use Rattle.zr_basis.specs.Stages.{IsDualFeasibleForm};
ghost use Rattle.zr_simplex.specs.Programs.{IsLp, numbers, program_of};
ghost use Rattle.zr_simplex.specs.RowSteps.{IsGreatest, IsFirstEquation};
ghost use Rattle.zr_simplex.specs.Tableaus.{basis_of, form_of, row_in};
ghost use Rattle.zr_simplex.specs.Dues.{IsTableau};
ghost use Rattle.zr_simplex.specs.Appends.{IsCondensed, IsExpressed, IsTakenOff, first_rows};

use crate::basic::zeros;
use crate::program::Lp;
use crate::row::{coprime_parts, difference, reduce, with_number};
use crate::start::write_row;
use crate::tableau::Tableau;
use std::alloc::{AllocError, Global};
use zr_base::Wide;

/// Writes the last row's equation, over the columns of the program without it, and then 1 for its
/// slack.
fn write_raw(places: &mut [i128], lp: &Lp, rows: usize)
    requires lp { IsLp lp.now }
    requires rows { rows + 1 ≡ length lp.now.rows.items }
    requires len { length places.old ≡ lp.now.columns + rows + 3 }
    requires zeros { All (λ z. z ≡ pos 0) places.old }
    ensures len { length places.new ≡ length places.old }
    ensures narrow { All IsNarrow places.new }
    ensures start { IsFirstEquation lp.now.columns (lp.now.columns + rows)
        (lp.now.columns + rows + 2) ((program_of lp.now).coef rows) ((program_of lp.now).le rows)
        (numbers places.new) }
{
    let columns = lp.columns as usize;
    write_row(places, &lp.rows[rows].coef, columns);
    places[columns + rows + 1] = lp.rows[rows].le;
    places[columns + rows + 2] = 1;
}

/// The last row's equation over the columns of the program without it, and then 1 for its slack.
fn raw_row(alloc: Global, lp: &Lp, rows: usize) -> Result<Vec<i128>, AllocError>
    requires lp { IsLp lp.now }
    requires rows { rows + 1 ≡ length lp.now.rows.items }
    ensures len { IfOk result (λ made. length made.items ≡ lp.now.columns + rows + 3) }
    ensures narrow { IfOk result (λ made. All IsNarrow made.items) }
    ensures start { IfOk result (λ made. IsFirstEquation lp.now.columns (lp.now.columns + rows)
        (lp.now.columns + rows + 2) ((program_of lp.now).coef rows) ((program_of lp.now).le rows)
        (numbers made.items)) }
{
    let mut made = zeros(alloc, lp.columns as usize + rows + 3)?;
    write_raw(&mut made, lp, rows);
    Ok(made)
}

/// Makes the numbers `by` times themselves less `less` times those of an equation, and their own
/// number, which comes last, `by` times itself.
fn take_off(
    made: &mut [i128],
    tableau: &Tableau,
    row: usize,
    by: i128,
    less: i128,
) -> Result<(), Wide>
    requires len { length made.old ≡ tableau.now.width + 1 }
    requires row { row < length tableau.now.basis }
    requires narrow { All IsNarrow made.old }
    ensures len { length made.new ≡ length made.old }
    ensures narrow { All IsNarrow made.new }
    ensures numbers { OnOk result ((j : ℕ) → j < tableau.now.width
        → numbers made.new j ≡ by *ℤ numbers made.old j -ℤ less *ℤ form_of tableau.now row j) }
    ensures own { OnOk result (numbers made.new tableau.now.width ≡ by *ℤ numbers made.old
        tableau.now.width) }
{
    let width = made.len() - 1;
    for column in 0..width {
        match difference(by, made[column], less, tableau.number(row, column)) {
            Ok(number) => made[column] = number,
            Err(wide) => return Err(wide),
        }
    }
    match difference(by, made[width], less, 0) {
        Ok(number) => made[width] = number,
        Err(wide) => return Err(wide),
    }
    Ok(())
}

/// Clears the column of an equation.
fn clear_column(made: &mut [i128], tableau: &Tableau, row: usize) -> Result<(), Wide>
    requires len { length made.old ≡ tableau.now.width + 1 }
    requires row { row < length tableau.now.basis }
    requires column { basis_of tableau.now row < tableau.now.width }
    requires above { pos 0 <ℤ form_of tableau.now row (basis_of tableau.now row) }
    requires narrow { All IsNarrow made.old }
    ensures len { length made.new ≡ length made.old }
    ensures narrow { All IsNarrow made.new }
    ensures taken { OnOk result (IsTakenOff tableau.now.width (form_of tableau.now row)
        (numbers made.old) (numbers made.new)) }
    ensures cleared { OnOk result (numbers made.new (basis_of tableau.now row) ≡ pos 0) }
{
    let column = tableau.own(row);
    let number = made[column];
    if number == 0 {
        return Ok(());
    }
    let (by, less) = coprime_parts(tableau.number(row, column), number);
    take_off(made, tableau, row, by, less)
}

/// The last row's equation with the columns of the basis cleared, if no step is too wide.
fn express(alloc: Global, lp: &Lp, tableau: &Tableau, rows: usize) -> Option<Vec<i128>>
    requires lp { IsLp lp.now }
    requires rows { rows + 1 ≡ length lp.now.rows.items }
    requires kept { IsTableau (first_rows (program_of lp.now) rows) tableau.now }
    ensures len { IfSome result (λ made. length made.items ≡ lp.now.columns + rows + 3) }
    ensures narrow { IfSome result (λ made. All IsNarrow made.items) }
    ensures expressed { IfSome result (λ made. IsExpressed (program_of lp.now) rows rows
        (basis_of tableau.now) (form_of tableau.now) (numbers made.items)) }
{
    let mut made = match raw_row(alloc, lp, rows) {
        Ok(made) => made,
        Err(_) => return None,
    };
    for row in 0..rows {
        if clear_column(&mut made, tableau, row).is_err() {
            return None;
        }
    }
    Some(made)
}

/// Writes an equation's numbers at the columns off the basis, and then its own, into their places,
/// and gives their greatest common divisor.
fn condense(places: &mut [i128], made: &[i128], free: &[u32]) -> u128
    requires len { length places.old ≡ length free.now + 1 }
    requires columns { (k : ℕ) → k < length free.now
        → slice_index free.now k + 1 < length made.now }
    requires some { 0 < length made.now }
    requires narrow { All IsNarrow made.now }
    requires narrow_places { All IsNarrow places.old }
    ensures len { length places.new ≡ length places.old }
    ensures off { (k : ℕ) → k < length free.now
        → numbers places.new k ≡ numbers made.now (slice_index free.now k) }
    ensures own { (home : ℕ) → home + 1 ≡ length made.now
        → numbers places.new (length free.now) ≡ numbers made.now home }
    ensures narrow { All IsNarrow places.new }
    ensures greatest { IsGreatest (length places.new) (numbers places.new) result }
{
    let mut common = 0;
    for place in 0..free.len() {
        let number = made[free[place] as usize];
        places[place] = number;
        common = with_number(common, number);
    }
    let number = made[made.len() - 1];
    places[free.len()] = number;
    with_number(common, number)
}

/// Writes an equation, divided by its common divisor, over another one.
fn replace_row(all: &mut [i128], row: usize, made: &[i128], free: &[u32])
    requires len { length all.old ≡ (row + 2) * (length free.now + 1) }
    requires narrow { All IsNarrow all.old }
    requires columns { (k : ℕ) → k < length free.now
        → slice_index free.now k + 1 < length made.now }
    requires narrow_made { All IsNarrow made.now }
    requires some { 0 < length made.now }
    requires above { pos 0 <ℤ numbers made.now (length made.now - 1) }
    ensures len { length all.new ≡ length all.old }
    ensures narrow { All IsNarrow all.new }
    ensures others { (i : ℕ) → i ≢ row
        → row_in (length free.now + 1) all.new i ≡ row_in (length free.now + 1) all.old i }
    ensures made { IsCondensed free.now (length made.now - 1) (numbers made.now)
        (numbers (row_in (length free.now + 1) all.new row)) }
    ensures own { pos 0 <ℤ numbers (row_in (length free.now + 1) all.new row) (length free.now) }
    ensures primitive { IsPrimitive (length free.now + 1)
        (numbers (row_in (length free.now + 1) all.new row)) }
{
    let width = free.len() + 1;
    let start = row * width;
    let places = &mut all[start..start + width];
    let common = condense(places, made, free);
    reduce(places, free.len(), common);
}

/// Puts an equation between the others and the value's, which is the last of them.
pub(crate) fn add_equation(
    all: &mut Vec<i128>,
    row: usize,
    made: &[i128],
    free: &[u32],
) -> Result<(), AllocError>
    requires len { length all.old.items ≡ (row + 1) * (length free.now + 1) }
    requires narrow { All IsNarrow all.old.items }
    requires columns { (k : ℕ) → k < length free.now
        → slice_index free.now k + 1 < length made.now }
    requires narrow_made { All IsNarrow made.now }
    requires some { 0 < length made.now }
    requires above { pos 0 <ℤ numbers made.now (length made.now - 1) }
    ensures len { OnOk result (length all.new.items ≡ (row + 2) * (length free.now + 1)) }
    ensures narrow { OnOk result (All IsNarrow all.new.items) }
    ensures rows { OnOk result ((i : ℕ) → i < row
        → row_in (length free.now + 1) all.new.items i ≡ row_in
        (length free.now + 1) all.old.items i) }
    ensures value { OnOk result (row_in (length free.now + 1) all.new.items (row + 1) ≡ row_in
        (length free.now + 1) all.old.items row) }
    ensures made { OnOk result (IsCondensed free.now (length made.now - 1) (numbers made.now)
        (numbers (row_in (length free.now + 1) all.new.items row))) }
    ensures own { OnOk result (pos 0 <ℤ numbers (row_in (length free.now + 1) all.new.items row)
        (length free.now)) }
    ensures primitive { OnOk result (IsPrimitive (length free.now + 1)
        (numbers (row_in (length free.now + 1) all.new.items row))) }
{
    let width = free.len() + 1;
    copy_last(all, row * width, width)?;
    replace_row(all, row, made, free);
    Ok(())
}

/// Puts the last so many numbers once more behind themselves.
fn copy_last(numbers: &mut Vec<i128>, start: usize, count: usize) -> Result<(), AllocError>
    requires len { start + count ≡ length numbers.old.items }
    requires narrow { All IsNarrow numbers.old.items }
    ensures made { OnOk result (numbers.new.items ≡ numbers.old.items ++ drop start
        numbers.old.items) }
    ensures narrow { OnOk result (All IsNarrow numbers.new.items) }
{
    for k in 0..count {
        let number = numbers[start + k];
        numbers.push(number)?;
    }
    Ok(())
}

/// The tableau with the last row of the program appended to that of the rows before it, unless
/// memory is wanting or a step is too wide.
///
/// The row's equation is freed of the columns of the basis, and its slack comes into the basis.
pub(crate) fn append(alloc: Global, lp: &Lp, tableau: Tableau) -> Option<Tableau>
    requires lp { IsLp lp.now }
    requires some { 0 < length lp.now.rows.items }
    requires kept { (rows : ℕ) → rows + 1 ≡ length lp.now.rows.items
        → IsTableau (first_rows (program_of lp.now) rows) tableau }
    requires dual { (rows : ℕ) → rows + 1 ≡ length lp.now.rows.items
        → IsDualFeasibleForm (first_rows (program_of lp.now) rows) (form_of tableau) }
    ensures kept { IfSome result (IsTableau (program_of lp.now)) }
    ensures dual { IfSome result (λ made. IsDualFeasibleForm (program_of lp.now) (form_of made)) }
    ensures basis { IfSome result (λ made. made.basis ≡ tableau.basis ++ value_column
        (program_of lp.now) ∷ []) }
{
    let rows = lp.rows.len() - 1;
    let made = express(alloc, lp, &tableau, rows)?;
    match tableau.with_row(&made) {
        Ok(made) => Some(made),
        Err(_) => None,
    }
}
