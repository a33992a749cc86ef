ghost use Rattle.std.specs.Prelude.{◌≡◌, ◌≢◌, ◌<◌, ◌+◌, ◌*◌, ℕ, pos, ◌<ℤ◌, length, slice_set, MatchOption, IfOk, IfErr, OnOk, OnErr};
ghost use Rattle.std.specs.List.{All};
ghost use Rattle.zr_base.specs.Steps.{IsNarrow};
ghost use Rattle.zr_simplex.specs.StuckSteps.{IsWidePivot};
ghost use Rattle.zr_simplex.specs.RowSteps.{IsPivot, IsSolved};
ghost use Rattle.zr_simplex.specs.Programs.{numbers};

use crate::append::add_equation;
use crate::columns::{Column, add_slack, exchange_columns, made_column, place_of};
use crate::pivot::{Place, exchange};
use std::alloc::AllocError;
use std::marker::Model;

/// A basis, and for each of its columns an equation.
///
/// The equations are condensed, and stand one after the other: of each the numbers at the columns
/// off the basis, and at the right side, and then its number at its own column. What is left out is
/// zero.
#[derive(Drop)]
pub(crate) struct Tableau {
    basis: Vec<u32>,
    free: Vec<u32>,
    columns: Vec<Column>,
    numbers: Vec<i128>,
}

impl Model for Tableau {
    ghost use Rattle.std.specs.Prelude.{◌≡◌, ◌+◌, ◌*◌, length};
    ghost use Rattle.std.specs.List.{All};
    ghost use Rattle.zr_base.specs.Steps.{IsNarrow};
    ghost use Rattle.zr_simplex.specs.Tableaus.{AreColumns, Equations};

    ghost Value = { Equations };

    ghost view = { λ t. record {
      basis = t.basis.items;
      free = t.free.items;
      columns = t.columns.items;
      width = length
          t.columns.items;
      numbers = t.numbers.items;
    } };

    ghost invariant = { λ t. (length t.numbers.items ≡ length t.basis.items *
        (length t.free.items + 1)) × All IsNarrow t.numbers.items
        × AreColumns t.basis.items t.free.items t.columns.items };
}

impl Tableau {
    ghost use Rattle.zr_simplex.specs.Tableaus.{AreColumns, IsPartition, basis_of, form_of, free_of};
    ghost use Rattle.zr_simplex.specs.Appends.{IsWithRow};

    /// The tableau of a basis, of the columns off it, and of its condensed equations.
    pub(crate) fn new(
        basis: Vec<u32>,
        free: Vec<u32>,
        columns: Vec<Column>,
        numbers: Vec<i128>,
    ) -> Tableau
        requires len { length numbers.items ≡ length basis.items * (length free.items + 1) }
        requires narrow { All IsNarrow numbers.items }
        requires columns { AreColumns basis.items free.items columns.items }
        ensures basis { result.basis ≡ basis.items }
        ensures free { result.free ≡ free.items }
        ensures columns { result.columns ≡ columns.items }
        ensures width { result.width ≡ length columns.items }
        ensures numbers { result.numbers ≡ numbers.items }
        ensures partition { IsPartition result.width result.basis result.free }
    {
        Tableau {
            basis,
            free,
            columns,
            numbers,
        }
    }

    /// The number of an equation at a column.
    pub(crate) fn number(&self, row: usize, column: usize) -> i128
        requires row { row < length self.now.basis }
        requires column { column < self.now.width }
        ensures value { result ≡ form_of self.now row column }
        ensures narrow { IsNarrow result }
    {
        let own = self.free.len();
        match place_of(self.columns[column], row, own) {
            Some(place) => self.numbers[row * (own + 1) + place],
            None => 0,
        }
    }

    /// The equation whose column this is, if it is in the basis.
    pub(crate) fn row_of(&self, column: usize) -> Option<usize>
        requires { column < self.now.width }
        ensures { MatchOption result ((i : ℕ) → i < length self.now.basis
            → basis_of self.now i ≢ column)
            (λ i. (i < length self.now.basis) × (basis_of self.now i ≡ column)) }
    {
        match self.columns[column] {
            Column::Basic(row) => Some(row as usize),
            Column::Free(_) => None,
        }
    }

    /// The column of an equation.
    pub(crate) fn own(&self, row: usize) -> usize
        requires { row < length self.now.basis }
        ensures { result ≡ basis_of self.now row }
    {
        self.basis[row] as usize
    }

    /// The column at a place off the basis.
    pub(crate) fn free(&self, place: usize) -> usize
        requires { place < length self.now.free }
        ensures { result ≡ free_of self.now place }
    {
        self.free[place] as usize
    }

    /// The columns off the basis.
    pub(crate) fn off(&self) -> &[u32]
        ensures { result.now ≡ self.now.free }
    {
        &self.free
    }

    /// The basis.
    pub(crate) fn basis(&self) -> &[u32]
        ensures { result.now ≡ self.now.basis }
    {
        &self.basis
    }

    /// The basis.
    pub(crate) fn into_basis(self) -> Vec<u32>
        ensures { result.items ≡ self.basis }
    {
        self.basis
    }

    /// Puts a column into the basis in the place of the column of equation `row`. What is in the
    /// basis already stays.
    pub(crate) fn pivot(&mut self, row: usize, column: usize) -> Result<(), Place>
        requires solved { IsSolved (length self.old.basis) self.old.width (basis_of self.old)
            (form_of self.old) }
        requires row { row < length self.old.basis }
        requires column { column < self.old.width }
        requires narrow { row < 4294967296 }
        requires apart { form_of self.old row column ≢ pos 0 }
        ensures width { self.new.width ≡ self.old.width }
        ensures ok { OnOk result (IsPivot (length self.old.basis) self.old.width (basis_of self.old)
            (form_of self.old) row column (form_of self.new)) }
        ensures basis { OnOk result (self.new.basis ≡ slice_set self.old.basis row column) }
        ensures free { OnOk result ((length self.new.free ≡ length self.old.free)
            × ((k : ℕ) → k < length self.old.free → free_of self.old k ≢ column
            → free_of self.new k ≡ free_of self.old k)) }
        ensures partition { IsPartition self.new.width self.new.basis self.new.free }
        ensures unchanged { OnErr result (self.new.basis ≡ self.old.basis) }
        ensures err { IfErr result (λ place. (place.row < length self.old.basis) × (place.row ≢ row)
            × (place.column < self.old.width)
            × IsWidePivot (form_of self.old row)
            (form_of self.old place.row) column place.column place.wide) }
    {
        let Column::Free(place) = self.columns[column] else {
            return Ok(());
        };
        let place = place as usize;
        match exchange(
            &mut self.numbers,
            self.basis.len(),
            self.free.len(),
            row,
            place,
        ) {
            Ok(()) => {
                exchange_columns(
                    &mut self.basis,
                    &mut self.free,
                    &mut self.columns,
                    row,
                    place,
                );
                Ok(())
            }
            Err(e) => Err(Place {
                row: e.row,
                column: made_column(&self.basis, &self.free, row, place, e),
                wide: e.at.wide,
            }),
        }
    }

    /// The tableau with one equation more before the value's, which is the last one: its numbers at
    /// this tableau's columns, and then that at its own, which is new, stands before the value's,
    /// and comes into the basis.
    pub(crate) fn with_row(self, made: &[i128]) -> Result<Tableau, AllocError>
        requires value { (i : ℕ) → i + 1 ≡ length self.basis → basis_of self i + 2 ≡ self.width }
        requires right { (k : ℕ) → k + 1 ≡ length self.free → free_of self k + 1 ≡ self.width }
        requires some { 0 < length self.basis }
        requires some_free { 0 < length self.free }
        requires size { self.width < 4294967295 }
        requires size_basis { length self.basis < 4294967296 }
        requires size_free { length self.free < 4294967296 }
        requires len { length made.now ≡ self.width + 1 }
        requires narrow { All IsNarrow made.now }
        requires above { pos 0 <ℤ numbers made.now self.width }
        requires cleared { (i : ℕ) → i < length self.basis
            → numbers made.now (basis_of self i) ≡ pos 0 }
        ensures { IfOk result (λ t. (m n v : ℕ) → length self.basis ≡ m + 1
            → length self.free ≡ n + 1 → self.width ≡ v + 2
            → IsWithRow m n v self t (numbers made.now)) }
    {
        let Tableau {
            mut basis,
            mut free,
            mut columns,
            mut numbers,
        } = self;
        add_equation(&mut numbers, basis.len() - 1, made, &free)?;
        add_slack(&mut basis, &mut free, &mut columns)?;
        Ok(Tableau {
            basis,
            free,
            columns,
            numbers,
        })
    }
}
