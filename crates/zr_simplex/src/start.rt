ghost use Rattle.std.specs.Prelude.{◌≡◌, ◌<◌, ◌+◌, ◌≤◌, ◌*◌, ℕ, pos, neg_ℤ, length, slice_index, IfOk};
ghost use Rattle.std.specs.List.{All};
ghost use Rattle.zr_base.specs.Steps.{IsNarrow};
ghost use Rattle.zr_base.specs.Terms.{Ascends, coef_at};
ghost use Rattle.zr_simplex.specs.Programs.{IsLp, numbers, program_of};
ghost use Rattle.zr_simplex.specs.RowSteps.{IsFirst};
ghost use Rattle.zr_simplex.specs.Dues.{IsTableau};
ghost use Rattle.zr_simplex.specs.Tableaus.{basis_of, column_at, row_in};
ghost use Rattle.zr_simplex.specs.declared.columns.Column.TheVariants.{Basic as IsBasic, Free as IsFree};

use crate::columns::Column;
use crate::program::Lp;
use crate::tableau::Tableau;
use std::alloc::{AllocError, Global};

/// Writes a row's coefficients into places that are zero.
pub(crate) fn write_row(places: &mut [i128], coef: &[(u32, i128)], columns: usize)
    requires zeros { All (λ z. z ≡ pos 0) places.old }
    requires coef { Ascends 0 columns coef.now }
    requires columns { columns ≤ length places.old }
    ensures len { length places.new ≡ length places.old }
    ensures numbers { (j : ℕ) → numbers places.new j ≡ coef_at coef.now j }
    ensures narrow { All IsNarrow places.new }
{
    for (column, number) in coef {
        places[*column as usize] = *number;
    }
}

/// Writes the negations of an aim into places that are zero.
fn write_aim(places: &mut [i128], aim: &[i128])
    requires zeros { All (λ z. z ≡ pos 0) places.old }
    requires narrow { All IsNarrow aim.now }
    requires columns { length aim.now ≤ length places.old }
    ensures len { length places.new ≡ length places.old }
    ensures numbers { (j : ℕ) → j < length aim.now
        → numbers places.new j ≡ neg_ℤ (numbers aim.now j) }
    ensures zeros { (j : ℕ) → length aim.now ≤ j → numbers places.new j ≡ pos 0 }
    ensures narrow { All IsNarrow places.new }
{
    for j in 0..aim.len() {
        places[j] = -aim[j];
    }
}

/// Writes the condensed equation of a row: its coefficients, its right side, and 1 at its slack.
fn write_equation(places: &mut [i128], lp: &Lp, row: usize)
    requires lp { IsLp lp.now }
    requires row { row < length lp.now.rows.items }
    requires len { length places.old ≡ lp.now.columns + 2 }
    requires zeros { All (λ z. z ≡ pos 0) places.old }
    ensures len { length places.new ≡ length places.old }
    ensures narrow { All IsNarrow places.new }
    ensures first { IsFirst lp.now.columns ((program_of lp.now).coef row)
        ((program_of lp.now).le row) (numbers places.new) }
{
    let columns = lp.columns as usize;
    write_row(places, &lp.rows[row].coef, columns);
    places[columns] = lp.rows[row].le;
    places[columns + 1] = 1;
}

/// Writes the condensed equation of the value: the negated aim, and 1 at its column.
fn write_value(places: &mut [i128], lp: &Lp)
    requires lp { IsLp lp.now }
    requires len { length places.old ≡ lp.now.columns + 2 }
    requires zeros { All (λ z. z ≡ pos 0) places.old }
    ensures len { length places.new ≡ length places.old }
    ensures narrow { All IsNarrow places.new }
    ensures first { IsFirst lp.now.columns (λ j. neg_ℤ (numbers lp.now.aim.items j)) (pos 0)
        (numbers places.new) }
{
    write_aim(places, &lp.aim);
    places[lp.columns as usize + 1] = 1;
}

/// The condensed equations at the start, one after the other: each row's, and the value's.
pub(crate) fn first_numbers(alloc: Global, lp: &Lp, width: usize) -> Result<Vec<i128>, AllocError>
    requires lp { IsLp lp.now }
    requires width { width ≡ lp.now.columns + 2 }
    ensures len { IfOk result (λ all. length all.items ≡ (length lp.now.rows.items + 1) * width) }
    ensures narrow { IfOk result (λ all. All IsNarrow all.items) }
    ensures rows { IfOk result (λ all. (r : ℕ) → r < length lp.now.rows.items
        → IsFirst lp.now.columns ((program_of lp.now).coef r) ((program_of lp.now).le r)
        (numbers (row_in width all.items r))) }
    ensures value { IfOk result (λ all. IsFirst lp.now.columns
        (λ j. neg_ℤ (numbers lp.now.aim.items j)) (pos 0)
        (numbers (row_in width all.items (length lp.now.rows.items)))) }
{
    let rows = lp.rows.len();
    let mut all = vec![in alloc; 0; (rows + 1) * width]?;
    for row in 0..rows {
        let start = row * width;
        write_equation(&mut all[start..start + width], lp, row);
    }
    write_value(&mut all[rows * width..], lp);
    Ok(all)
}

/// The numbers from one on, so many.
pub(crate) fn numbers_from(alloc: Global, first: u32, count: u32) -> Result<Vec<u32>, AllocError>
    requires { first + count ≤ 4294967296 }
    ensures len { IfOk result (λ made. length made.items ≡ count) }
    ensures each { IfOk result (λ made. (i : ℕ) → i < count
        → slice_index made.items i ≡ first + i) }
{
    let mut made = Vec::new(alloc);
    for i in 0..count {
        made.push(first + i)?;
    }
    Ok(made)
}

/// The columns off the basis at the start: the program's, and that of the right sides.
fn first_free(alloc: Global, columns: u32, right: u32) -> Result<Vec<u32>, AllocError>
    requires { columns ≤ 4294967296 }
    ensures len { IfOk result (λ free. length free.items ≡ columns + 1) }
    ensures each { IfOk result (λ free. (k : ℕ) → k < columns → slice_index free.items k ≡ k) }
    ensures last { IfOk result (λ free. slice_index free.items columns ≡ right) }
{
    let mut free = numbers_from(alloc, 0, columns)?;
    free.push(right)?;
    Ok(free)
}

/// Where the columns stand at the start: the program's off the basis, the slacks and the value's in
/// it, and the right sides' last off it.
fn first_columns(alloc: Global, columns: u32, rows: u32) -> Result<Vec<Column>, AllocError>
    requires { columns + rows < 4294967295 }
    ensures len { IfOk result (λ made. length made.items ≡ columns + rows + 2) }
    ensures free { IfOk result (λ made. (k : ℕ) → k < columns → column_at made.items k ≡ IsFree k) }
    ensures basic { IfOk result (λ made. (i : ℕ) → i ≤ rows
        → column_at made.items (columns + i) ≡ IsBasic i) }
    ensures last { IfOk result (λ made. column_at made.items
        (columns + rows + 1) ≡ IsFree columns) }
{
    let mut made = Vec::new(alloc);
    for place in 0..columns {
        made.push(Column::Free(place))?;
    }
    for row in 0..rows + 1 {
        made.push(Column::Basic(row))?;
    }
    made.push(Column::Free(columns))?;
    Ok(made)
}

/// The equations of the program, which are the basic form of the slacks.
pub(crate) fn start(alloc: Global, lp: &Lp) -> Result<Tableau, AllocError>
    requires { IsLp lp.now }
    ensures kept { IfOk result (IsTableau (program_of lp.now)) }
    ensures slacks { IfOk result (λ tableau. (i : ℕ) → i ≤ length lp.now.rows.items
        → basis_of tableau i ≡ lp.now.columns + i) }
{
    let columns = lp.columns;
    let rows = lp.rows.len() as u32;
    let numbers = first_numbers(alloc, lp, columns as usize + 2)?;
    let basis = numbers_from(alloc, columns, rows + 1)?;
    let free = first_free(alloc, columns, columns + rows + 1)?;
    let stands = first_columns(alloc, columns, rows)?;
    Ok(Tableau::new(basis, free, stands, numbers))
}
