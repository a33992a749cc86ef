ghost use Rattle.std.specs.Prelude.{◌≡◌, ◌≢◌, ◌<◌, ◌+◌, ◌*◌, ℕ, ℤ, pos, ◌<ℤ◌, length, slice_set, IfErr, OnOk};
ghost use Rattle.std.specs.List.{All};
ghost use Rattle.zr_base.specs.Steps.{IsNarrow};
ghost use Rattle.zr_simplex.specs.Programs.{numbers};
ghost use Rattle.zr_basis.specs.BasicForms.{IsPrimitive};
ghost use Rattle.zr_simplex.specs.Tableaus.{row_in};
ghost use Rattle.zr_simplex.specs.RowSteps.{IsCleared, IsExchange, IsQuotient, IsWideClear, entered, left};

use crate::row::{At, Entry, clear, reduce};
use zr_base::Wide;

/// An equation, and its place, at which a step was too wide.
#[derive(Clone, Copy)]
pub(crate) struct RowAt {
    pub row: usize,
    pub at: At,
}

/// The equation and the column at which a step was too wide.
#[derive(Clone, Copy)]
pub(crate) struct Place {
    pub row: usize,
    pub column: usize,
    pub wide: Wide,
}

/// Clears so many rows by what the pivot's equation leaves for them.
fn clear_rows(rows: &mut [i128], count: usize, pivot: &[i128], entry: Entry) -> Result<(), RowAt>
    requires len { length rows.old ≡ count * length pivot.now }
    requires own { entry.own + 1 ≡ length pivot.now }
    requires place { entry.place < entry.own }
    requires narrow { All IsNarrow rows.old }
    requires narrow_pivot { All IsNarrow pivot.now }
    requires narrow_entry { IsNarrow entry.number }
    requires apart { entry.number ≢ pos 0 }
    requires other { numbers pivot.now entry.own ≡ pos 0 }
    requires above { (i : ℕ) → i < count
        → pos 0 <ℤ numbers (row_in (length pivot.now) rows.old i) entry.own }
    requires primitive { (i : ℕ) → i < count
        → IsPrimitive (length pivot.now) (numbers (row_in (length pivot.now) rows.old i)) }
    ensures len { length rows.new ≡ length rows.old }
    ensures narrow { All IsNarrow rows.new }
    ensures ok { OnOk result ((i : ℕ) → i < count
        → IsCleared (length pivot.now) entry.number
        (numbers (row_in (length pivot.now) rows.old i) entry.place) (numbers pivot.now)
        (numbers (entered entry.place (row_in (length pivot.now) rows.old i)))
        (numbers (row_in (length pivot.now) rows.new i)) entry.own) }
    ensures err { IfErr result (λ e. (e.row < count) × (e.at.place < length pivot.now)
        × IsWideClear entry.number (numbers (row_in (length pivot.now) rows.old e.row) entry.place)
        (numbers pivot.now) (numbers (entered entry.place
        (row_in (length pivot.now) rows.old e.row))) e.at.place e.at.wide) }
{
    let width = pivot.len();
    for row in 0..count {
        let start = row * width;
        if let Err(at) = clear(&mut rows[start..start + width], pivot, entry) {
            return Err(RowAt { row, at });
        }
    }
    Ok(())
}

/// Readies the pivot's equation for the others: its own number takes the place where its column
/// comes in, and nothing takes its own. What stood at the place is the result.
fn leave(pivot: &mut [i128], place: usize, own: usize) -> i128
    requires place { place < own }
    requires own { own < length pivot.old }
    requires narrow { All IsNarrow pivot.old }
    ensures left { pivot.new ≡ left place own pivot.old }
    ensures narrow { All IsNarrow pivot.new }
    ensures value { result ≡ numbers pivot.old place }
    ensures narrow_value { IsNarrow result }
{
    let number = pivot[place];
    pivot[place] = pivot[own];
    pivot[own] = 0;
    number
}

/// Gives the pivot's equation its new own number, and makes it positive.
fn enter(pivot: &mut [i128], own: usize, number: i128)
    requires own { own < length pivot.old }
    requires narrow { All IsNarrow pivot.old }
    requires narrow_number { IsNarrow number }
    requires apart { number ≢ pos 0 }
    requires primitive { IsPrimitive (length pivot.old) (numbers (slice_set pivot.old own number)) }
    ensures len { length pivot.new ≡ length pivot.old }
    ensures narrow { All IsNarrow pivot.new }
    ensures quotient { IsQuotient (length pivot.old) (numbers (slice_set pivot.old own number))
        (numbers pivot.new) }
    ensures own { pos 0 <ℤ numbers pivot.new own }
    ensures primitive { IsPrimitive (length pivot.old) (numbers pivot.new) }
{
    pivot[own] = number;
    reduce(pivot, own, 1);
}

/// Puts the column at a place off the basis into the basis, in the place of the column of equation
/// `row`, in condensed equations that stand one after the other; each has its own number last, at
/// place `own`.
///
/// With the entries `p` of the pivot's equation and `a` of another one at the column, and `g` their
/// greatest common divisor, the other one becomes `p / g` times itself less `a / g` times the
/// pivot's equation, is divided by its common divisor, and is above zero at its own column.
pub(crate) fn exchange(
    all: &mut [i128],
    count: usize,
    own: usize,
    row: usize,
    place: usize,
) -> Result<(), RowAt>
    requires len { length all.old ≡ count * (own + 1) }
    requires narrow { All IsNarrow all.old }
    requires row { row < count }
    requires place { place < own }
    requires apart { numbers (row_in (own + 1) all.old row) place ≢ pos 0 }
    requires above { (i : ℕ) → i < count → pos 0 <ℤ numbers (row_in (own + 1) all.old i) own }
    requires primitive { (i : ℕ) → i < count
        → IsPrimitive (own + 1) (numbers (row_in (own + 1) all.old i)) }
    ensures len { length all.new ≡ length all.old }
    ensures narrow { All IsNarrow all.new }
    ensures ok { OnOk result (IsExchange count own row place (row_in (own + 1) all.old)
        (row_in (own + 1) all.new)) }
    ensures err { IfErr result (λ e. (e.row < count) × (e.row ≢ row) × (e.at.place < own + 1)
        × IsWideClear (numbers (row_in (own + 1) all.old row) place)
        (numbers (row_in (own + 1) all.old e.row) place)
        (numbers (left place own (row_in (own + 1) all.old row)))
        (numbers (entered place (row_in (own + 1) all.old e.row))) e.at.place e.at.wide) }
{
    let width = own + 1;
    let start = row * width;
    let (above, rest) = all.split_at_mut(start);
    let (pivot, below) = rest.split_at_mut(width);
    let number = leave(pivot, place, own);
    let entry = Entry { place, own, number };
    clear_rows(above, row, pivot, entry)?;
    if let Err(e) = clear_rows(below, count - row - 1, pivot, entry) {
        return Err(RowAt {
            row: e.row + row + 1,
            at: e.at,
        });
    }
    enter(pivot, own, number);
    Ok(())
}
