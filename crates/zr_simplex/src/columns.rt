ghost use Rattle.std.specs.Prelude.{◌≡◌, ◌≢◌, ◌<◌, ◌≤◌, ◌+◌, ◌-◌, ℕ, ℤ, pos, List, [], ◌∷◌, ◌++◌, length, slice_index, slice_set, MatchOption, OnOk};
ghost use Rattle.zr_simplex.specs.Programs.{numbers};
ghost use Rattle.zr_simplex.specs.Tableaus.{AreColumns, column_at, number_at};
ghost use Rattle.zr_simplex.specs.declared.columns.Column.TheVariants.{Free as IsFree};

use crate::pivot::RowAt;
use std::alloc::AllocError;

/// Where a column stands: in the basis as that of an equation, or off it at a place of each one.
#[derive(Clone, Copy)]
pub(crate) enum Column {
    Basic(u32),
    Free(u32),
}

/// The place of an equation's number at a column that stands there, or nothing if it is zero.
pub(crate) fn place_of(column: Column, row: usize, own: usize) -> Option<usize>
    requires { (place : ℕ) → column ≡ IsFree place → place < own }
    ensures { MatchOption result ((xs : List ℤ) → number_at own row xs column ≡ pos 0)
        (λ place. (place ≤ own) × ((xs : List ℤ)
        → number_at own row xs column ≡ numbers xs place)) }
{
    match column {
        Column::Basic(of) if of as usize == row => Some(own),
        Column::Basic(_) => None,
        Column::Free(place) => Some(place as usize),
    }
}

/// The column whose number stood at a place of an equation when its step was too wide: the column
/// that leaves the basis stands where the one that enters did.
pub(crate) fn made_column(basis: &[u32], free: &[u32], row: usize, place: usize, e: RowAt) -> usize
    requires row { row < length basis.now }
    requires at { e.row < length basis.now }
    requires place { e.at.place ≤ length free.now }
    ensures own { e.at.place ≡ length free.now → result ≡ slice_index basis.now e.row }
    ensures entered { e.at.place ≢ length free.now
        → result ≡ slice_index (slice_set free.now place (slice_index basis.now row)) e.at.place }
{
    if e.at.place == free.len() {
        basis[e.row] as usize
    } else if e.at.place == place {
        basis[row] as usize
    } else {
        free[e.at.place] as usize
    }
}

/// The column of equation `row` and the one at a place off the basis take each other's place.
pub(crate) fn exchange_columns(
    basis: &mut [u32],
    free: &mut [u32],
    columns: &mut [Column],
    row: usize,
    place: usize,
)
    requires columns { AreColumns basis.old free.old columns.old }
    requires row { row < length basis.old }
    requires place { place < length free.old }
    requires narrow_row { row < 4294967296 }
    requires narrow_place { place < 4294967296 }
    ensures basis { basis.new ≡ slice_set basis.old row (slice_index free.old place) }
    ensures free { free.new ≡ slice_set free.old place (slice_index basis.old row) }
    ensures columns { AreColumns basis.new free.new columns.new }
    ensures len { length columns.new ≡ length columns.old }
{
    let leaving = basis[row];
    let entering = free[place];
    basis[row] = entering;
    free[place] = leaving;
    columns[entering as usize] = Column::Basic(row as u32);
    columns[leaving as usize] = Column::Free(place as u32);
}

/// The slack column of a new equation comes in before the value's column: it takes the number of
/// the value's, which takes that of the right sides, and theirs is new.
pub(crate) fn add_slack(
    basis: &mut Vec<u32>,
    free: &mut [u32],
    columns: &mut Vec<Column>,
) -> Result<(), AllocError>
    requires columns { AreColumns basis.old.items free.old columns.old.items }
    requires value { (i : ℕ) → i + 1 ≡ length basis.old.items
        → slice_index basis.old.items i + 2 ≡ length columns.old.items }
    requires right { (k : ℕ) → k + 1 ≡ length free.old
        → slice_index free.old k + 1 ≡ length columns.old.items }
    requires some { 0 < length basis.old.items }
    requires some_free { 0 < length free.old }
    requires size { length columns.old.items < 4294967295 }
    requires size_basis { length basis.old.items < 4294967296 }
    requires size_free { length free.old < 4294967296 }
    ensures len { length free.new ≡ length free.old }
    ensures basis { OnOk result (basis.new.items ≡ basis.old.items ++
        (length columns.old.items - 1) ∷ []) }
    ensures free { OnOk result (free.new ≡ slice_set free.old (length free.old - 1)
        (length columns.old.items)) }
    ensures columns { OnOk result (AreColumns basis.new.items free.new columns.new.items) }
    ensures long { OnOk result (length columns.new.items ≡ length columns.old.items + 1) }
    ensures same { OnOk result ((j : ℕ) → j + 1 < length columns.old.items
        → column_at columns.new.items j ≡ column_at columns.old.items j) }
{
    let right = columns.len() - 1;
    let place = free.len() - 1;
    let row = basis.len() as u32;
    basis.push(right as u32)?;
    free[place] = right as u32 + 1;
    columns[right] = Column::Basic(row);
    columns.push(Column::Free(place as u32))?;
    Ok(())
}
