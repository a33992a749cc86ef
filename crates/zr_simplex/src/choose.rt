ghost use Rattle.std.specs.Prelude.{◌≡◌, ◌≢◌, ◌<◌, ◌+◌, ◌≤◌, ◌⊎◌, ℕ, ℤ, pos, neg_ℤ, ◌<ℤ◌, ◌≤ℤ◌, ◌*ℤ◌, true, false, Some, MatchOption, length, slice_index, IfOk};
ghost use Rattle.std.specs.Ordering.{MatchOrdering, int_cmp};
ghost use Rattle.zr_base.specs.Fractions.{HaveSameCross, ratio};
ghost use Rattle.zr_base.specs.Lowest.{IsRatio};
ghost use Rattle.zr_basis.specs.BasicForms.{right_column, value_column};
ghost use Rattle.zr_basis.specs.Stages.{IsFeasibleForm};
ghost use Rattle.zr_basis.specs.Primal.{IsPrimalDue, IsRowBelow, place};
ghost use Rattle.zr_basis.specs.Orders.{IsOrder};
ghost use Rattle.zr_basis.specs.Dual.{IsComparison, IsDirectionBelow, IsDualDue};
ghost use Rattle.zr_simplex.specs.Programs.{IsLp, program_of};
ghost use Rattle.zr_simplex.specs.Tableaus.{basis_of, form_of, free_of, order_of};
ghost use Rattle.zr_simplex.specs.Dues.{IsImprovingDue, IsMendingDue, IsStartBasis, IsTableau};

use crate::program::Lp;
use crate::tableau::Tableau;
use std::alloc::{AllocError, Global};
use std::cmp::Ordering;
use zr_base::Frac;

/// What is due at a basis.
#[derive(Clone, Copy)]
pub(crate) enum Due {
    Best,
    Empty(usize),
    Unbounded(usize),
    Pivot(usize, usize),
}

/// What is due: by the dual rule, in an order of the columns, while a right side is below zero, and
/// then by the primal rule. The basis at which none is below zero for the first time is kept as
/// `start`.
pub(crate) fn next_due(
    alloc: Global,
    lp: &Lp,
    tableau: &Tableau,
    order: &[u32],
    start: &mut Option<Vec<u32>>,
) -> Result<Due, AllocError>
    requires order { IsOrder (program_of lp.now) (order_of order.now) }
    requires lp { IsLp lp.now }
    requires kept { IsTableau (program_of lp.now) tableau.now }
    requires start { MatchOption start.old (Unit {0})
        (λ kept. IsStartBasis (program_of lp.now) kept.items
        × IsFeasibleForm (program_of lp.now) (form_of tableau.now)) }
    ensures due { IfOk result (λ due. MatchOption start.new
        (IsMendingDue (program_of lp.now) (order_of order.now) (basis_of tableau.now)
        (form_of tableau.now) due) (λ kept. IsImprovingDue (program_of lp.now)
        (λ i. slice_index kept.items i) (form_of tableau.now) due)) }
    ensures kept { MatchOption start.old
        (MatchOption start.new (Unit {0})
        (λ kept. (kept.items ≡ tableau.now.basis)
        × IsFeasibleForm (program_of lp.now) (form_of tableau.now)))
        (λ kept. start.new ≡ Some kept) }
{
    if let Some(kept) = start {
        return Ok(improving_due(lp, tableau, kept));
    }
    if let Some(due) = mending_due(lp, tableau, order) {
        return Ok(due);
    }
    let kept = tableau.basis().to_vec(alloc)?;
    let due = improving_due(lp, tableau, &kept);
    *start = Some(kept);
    Ok(due)
}

/// What is due while a right side is below zero: a pivot by the dual rule, or no point meets the
/// rows.
fn mending_due(lp: &Lp, tableau: &Tableau, order: &[u32]) -> Option<Due>
    requires order { IsOrder (program_of lp.now) (order_of order.now) }
    requires lp { IsLp lp.now }
    requires kept { IsTableau (program_of lp.now) tableau.now }
    ensures { MatchOption result (IsFeasibleForm (program_of lp.now) (form_of tableau.now))
        (IsMendingDue (program_of lp.now) (order_of order.now) (basis_of tableau.now)
        (form_of tableau.now)) }
{
    let Some(row) = row_to_mend(lp, tableau) else {
        return None;
    };
    match column_to_enter(lp, tableau, order, row) {
        Some(column) => Some(Due::Pivot(row, column)),
        None => Some(Due::Empty(row)),
    }
}

/// What is due where no right side is below zero: a pivot by the primal rule, whose vectors are
/// read by the basis `start`, or the end.
fn improving_due(lp: &Lp, tableau: &Tableau, start: &[u32]) -> Due
    requires lp { IsLp lp.now }
    requires kept { IsTableau (program_of lp.now) tableau.now }
    requires start { IsStartBasis (program_of lp.now) start.now }
    requires feasible { IsFeasibleForm (program_of lp.now) (form_of tableau.now) }
    ensures { IsImprovingDue (program_of lp.now) (λ i. slice_index start.now i)
        (form_of tableau.now) result }
{
    let Some(column) = column_to_raise(lp, tableau) else {
        return Due::Best;
    };
    match row_to_leave(lp, tableau, start, column) {
        Some(row) => Due::Pivot(row, column),
        None => Due::Unbounded(column),
    }
}

/// The first row whose right side is below zero.
fn row_to_mend(lp: &Lp, tableau: &Tableau) -> Option<usize>
    requires lp { IsLp lp.now }
    requires kept { IsTableau (program_of lp.now) tableau.now }
    ensures { MatchOption result (IsFeasibleForm (program_of lp.now) (form_of tableau.now))
        (λ i. (i < length lp.now.rows.items)
        × (form_of tableau.now i (right_column (program_of lp.now)) <ℤ pos 0)) }
{
    let right = right_of(lp);
    for i in 0..lp.rows.len() {
        if tableau.number(i, right) < 0 {
            return Some(i);
        }
    }
    None
}

/// The column of the right sides.
fn right_of(lp: &Lp) -> usize
    requires { IsLp lp.now }
    ensures { result ≡ right_column (program_of lp.now) }
{
    lp.columns as usize + lp.rows.len() + 1
}

/// The column that enters in place of a row's: of those where the row is below zero the one whose
/// direction is lowest in the order, each over the row's number, negated.
fn column_to_enter(lp: &Lp, tableau: &Tableau, order: &[u32], row: usize) -> Option<usize>
    requires lp { IsLp lp.now }
    requires kept { IsTableau (program_of lp.now) tableau.now }
    requires order { IsOrder (program_of lp.now) (order_of order.now) }
    requires row { row < length lp.now.rows.items }
    requires right { form_of tableau.now row (right_column (program_of lp.now)) <ℤ pos 0 }
    ensures { MatchOption result ((j : ℕ) → j < value_column (program_of lp.now)
        → pos 0 ≤ℤ form_of tableau.now row j)
        (IsDualDue (program_of lp.now) (order_of order.now) (basis_of tableau.now)
        (form_of tableau.now) row) }
{
    match place_to_enter(lp, tableau, order, row) {
        Some(place) => Some(tableau.free(place)),
        None => None,
    }
}

/// The place off the basis at which the column stands that enters in place of a row's.
fn place_to_enter(lp: &Lp, tableau: &Tableau, order: &[u32], row: usize) -> Option<usize>
    requires lp { IsLp lp.now }
    requires kept { IsTableau (program_of lp.now) tableau.now }
    requires order { IsOrder (program_of lp.now) (order_of order.now) }
    requires row { row < length lp.now.rows.items }
    requires right { form_of tableau.now row (right_column (program_of lp.now)) <ℤ pos 0 }
    ensures { MatchOption result ((j : ℕ) → j < value_column (program_of lp.now)
        → pos 0 ≤ℤ form_of tableau.now row j)
        (λ place. (place < lp.now.columns)
        × IsDualDue (program_of lp.now) (order_of order.now) (basis_of tableau.now)
        (form_of tableau.now) row (free_of tableau.now place)) }
{
    let mut best = None;
    for place in 0..lp.columns as usize {
        let column = tableau.free(place);
        if tableau.number(row, column) < 0 {
            best = Some(better_place(lp, tableau, order, row, best, place));
        }
    }
    best
}

/// The better of two places whose columns may enter.
fn better_place(
    lp: &Lp,
    tableau: &Tableau,
    order: &[u32],
    row: usize,
    best: Option<usize>,
    place: usize,
) -> usize
    requires lp { IsLp lp.now }
    requires kept { IsTableau (program_of lp.now) tableau.now }
    requires order { IsOrder (program_of lp.now) (order_of order.now) }
    requires row { row < length lp.now.rows.items }
    requires place { place < lp.now.columns }
    requires under { form_of tableau.now row (free_of tableau.now place) <ℤ pos 0 }
    requires best { MatchOption best (Unit {0})
        (λ last. (last < place) × (form_of tableau.now row (free_of tableau.now last) <ℤ pos 0)) }
    ensures { MatchOption best (result ≡ place)
        (λ last. ((result ≡ place) × IsDirectionBelow (program_of lp.now) (order_of order.now)
        (basis_of tableau.now) (form_of tableau.now) row (free_of tableau.now place)
        (free_of tableau.now last)) ⊎ ((result ≡ last)
        × (IsDirectionBelow (program_of lp.now) (order_of order.now) (basis_of tableau.now)
        (form_of tableau.now) row (free_of tableau.now place) (free_of tableau.now last) → ⊥))) }
{
    let Some(last) = best else {
        return place;
    };
    let column = tableau.free(place);
    let other = tableau.free(last);
    if is_lower_direction(lp, tableau, order, row, column, other) {
        place
    } else {
        last
    }
}

/// Whether the direction of a column is lower in the order than that of another one, each over the
/// row's number, negated.
fn is_lower_direction(
    lp: &Lp,
    tableau: &Tableau,
    order: &[u32],
    row: usize,
    column: usize,
    last: usize,
) -> bool
    requires lp { IsLp lp.now }
    requires kept { IsTableau (program_of lp.now) tableau.now }
    requires order { IsOrder (program_of lp.now) (order_of order.now) }
    requires row { row < length lp.now.rows.items }
    requires column { column < value_column (program_of lp.now) }
    requires last { last < value_column (program_of lp.now) }
    requires apart { column ≢ last }
    requires under { form_of tableau.now row column <ℤ pos 0 }
    requires under_last { form_of tableau.now row last <ℤ pos 0 }
    ensures yes { result ≡ true → IsDirectionBelow (program_of lp.now) (order_of order.now)
        (basis_of tableau.now) (form_of tableau.now) row column last }
    ensures no { result ≡ false → IsDirectionBelow (program_of lp.now) (order_of order.now)
        (basis_of tableau.now) (form_of tableau.now) row column last → ⊥ }
{
    for place in 0..order.len() {
        match compare_directions(lp, tableau, row, column, last, order[place] as usize) {
            Ordering::Less => return true,
            Ordering::Greater => return false,
            Ordering::Equal => {}
        }
    }
    false
}

/// The order of two directions at column `at`, that of `column` and that of `last`, each over the
/// number of `row` there, negated.
fn compare_directions(
    lp: &Lp,
    tableau: &Tableau,
    row: usize,
    column: usize,
    last: usize,
    at: usize,
) -> Ordering
    requires lp { IsLp lp.now }
    requires kept { IsTableau (program_of lp.now) tableau.now }
    requires row { row < length lp.now.rows.items }
    requires column { column < value_column (program_of lp.now) }
    requires last { last < value_column (program_of lp.now) }
    requires at { at ≤ value_column (program_of lp.now) }
    requires apart { column ≢ last }
    requires under { form_of tableau.now row column <ℤ pos 0 }
    requires under_last { form_of tableau.now row last <ℤ pos 0 }
    ensures { (c : ℕ → ℤ) → IsComparison (program_of lp.now) (basis_of tableau.now)
        (form_of tableau.now) row column last c
        → MatchOrdering result (pos 0 <ℤ c at) (c at ≡ pos 0) (c at <ℤ pos 0) }
{
    if at == last {
        return Ordering::Less;
    }
    if at == column {
        return Ordering::Greater;
    }
    match tableau.row_of(at) {
        Some(i) => compare_at_row(tableau, row, column, last, i),
        None => Ordering::Equal,
    }
}

/// The order of what row `at` has at column `last` and at `column`, each over the number of `row`
/// there, negated.
fn compare_at_row(tableau: &Tableau, row: usize, column: usize, last: usize, at: usize) -> Ordering
    requires row { row < length tableau.now.basis }
    requires at { at < length tableau.now.basis }
    requires column { column < tableau.now.width }
    requires last { last < tableau.now.width }
    requires under { form_of tableau.now row column <ℤ pos 0 }
    requires under_last { form_of tableau.now row last <ℤ pos 0 }
    ensures { result ≡ int_cmp (form_of tableau.now at last *ℤ neg_ℤ
        (form_of tableau.now row column))
        (form_of tableau.now at column *ℤ neg_ℤ (form_of tableau.now row last)) }
{
    compare_ratios(
        tableau.number(at, last),
        -tableau.number(row, last),
        tableau.number(at, column),
        -tableau.number(row, column),
    )
}

/// The first column off the basis along which the value falls.
fn column_to_raise(lp: &Lp, tableau: &Tableau) -> Option<usize>
    requires lp { IsLp lp.now }
    requires kept { IsTableau (program_of lp.now) tableau.now }
    ensures { MatchOption result ((j : ℕ) → j < value_column (program_of lp.now)
        → form_of tableau.now (length lp.now.rows.items) j ≤ℤ pos 0)
        (λ j. (j < value_column (program_of lp.now))
        × (pos 0 <ℤ form_of tableau.now (length lp.now.rows.items) j)) }
{
    let value = lp.rows.len();
    for place in 0..lp.columns as usize {
        let column = tableau.free(place);
        if tableau.number(value, column) > 0 {
            return Some(column);
        }
    }
    None
}

/// The row that leaves the basis where a column is raised: of those above zero there the one with
/// the lowest vector by its number.
fn row_to_leave(lp: &Lp, tableau: &Tableau, start: &[u32], column: usize) -> Option<usize>
    requires lp { IsLp lp.now }
    requires kept { IsTableau (program_of lp.now) tableau.now }
    requires start { IsStartBasis (program_of lp.now) start.now }
    requires column { column < value_column (program_of lp.now) }
    requires falls { pos 0 <ℤ form_of tableau.now (length lp.now.rows.items) column }
    ensures { MatchOption result ((i : ℕ) → i < length lp.now.rows.items
        → form_of tableau.now i column ≤ℤ pos 0)
        (λ row. IsPrimalDue (program_of lp.now) (λ i. slice_index start.now i)
        (form_of tableau.now) row column) }
{
    let mut best = None;
    for i in 0..lp.rows.len() {
        if tableau.number(i, column) > 0 {
            best = Some(better_row(lp, tableau, start, best, i, column));
        }
    }
    best
}

/// The better of two rows to leave the basis.
fn better_row(
    lp: &Lp,
    tableau: &Tableau,
    start: &[u32],
    best: Option<usize>,
    row: usize,
    column: usize,
) -> usize
    requires lp { IsLp lp.now }
    requires kept { IsTableau (program_of lp.now) tableau.now }
    requires start { IsStartBasis (program_of lp.now) start.now }
    requires row { row < length lp.now.rows.items }
    requires column { column < value_column (program_of lp.now) }
    requires above { pos 0 <ℤ form_of tableau.now row column }
    requires best { MatchOption best (Unit {0})
        (λ last. (last < length lp.now.rows.items) × (pos 0 <ℤ form_of tableau.now last column)) }
    ensures { MatchOption best (result ≡ row)
        (λ last. ((result ≡ row) × IsRowBelow (program_of lp.now) (λ i. slice_index start.now i)
        (form_of tableau.now) column row last)
        ⊎ ((result ≡ last) × (IsRowBelow (program_of lp.now) (λ i. slice_index start.now i)
        (form_of tableau.now) column row last → ⊥))) }
{
    match best {
        Some(last) if !is_lower_row(lp, tableau, start, row, last, column) => last,
        _ => row,
    }
}

/// Whether a row's vector by its number is lower than another one's.
fn is_lower_row(
    lp: &Lp,
    tableau: &Tableau,
    start: &[u32],
    row: usize,
    last: usize,
    column: usize,
) -> bool
    requires lp { IsLp lp.now }
    requires kept { IsTableau (program_of lp.now) tableau.now }
    requires start { IsStartBasis (program_of lp.now) start.now }
    requires row { row < length lp.now.rows.items }
    requires last { last < length lp.now.rows.items }
    requires column { column < value_column (program_of lp.now) }
    requires above { pos 0 <ℤ form_of tableau.now row column }
    requires above_last { pos 0 <ℤ form_of tableau.now last column }
    ensures yes { result ≡ true → IsRowBelow (program_of lp.now) (λ i. slice_index start.now i)
        (form_of tableau.now) column row last }
    ensures no { result ≡ false → IsRowBelow (program_of lp.now) (λ i. slice_index start.now i)
        (form_of tableau.now) column row last → ⊥ }
{
    for k in 0..lp.rows.len() + 1 {
        match compare_at(tableau, row, last, column, place_at(lp, start, k)) {
            Ordering::Less => return true,
            Ordering::Greater => return false,
            Ordering::Equal => {}
        }
    }
    false
}

/// The column that comes at this place of a vector.
fn place_at(lp: &Lp, start: &[u32], k: usize) -> usize
    requires lp { IsLp lp.now }
    requires start { IsStartBasis (program_of lp.now) start.now }
    requires k { k ≤ length lp.now.rows.items }
    ensures place { result ≡ place (program_of lp.now) (λ i. slice_index start.now i) k }
    ensures inside { result ≤ right_column (program_of lp.now) }
{
    if k == 0 {
        right_of(lp)
    } else {
        start[k - 1] as usize
    }
}

/// The order of two rows by their numbers at column `at`, each over its number at `column`.
fn compare_at(tableau: &Tableau, row: usize, other: usize, column: usize, at: usize) -> Ordering
    requires row { row < length tableau.now.basis }
    requires other { other < length tableau.now.basis }
    requires column { column < tableau.now.width }
    requires at { at < tableau.now.width }
    requires above { pos 0 <ℤ form_of tableau.now row column }
    requires above_other { pos 0 <ℤ form_of tableau.now other column }
    ensures { result ≡ int_cmp (form_of tableau.now row at *ℤ form_of tableau.now other column)
        (form_of tableau.now other at *ℤ form_of tableau.now row column) }
{
    compare_ratios(
        tableau.number(row, at),
        tableau.number(row, column),
        tableau.number(other, at),
        tableau.number(other, column),
    )
}

/// The order of two quotients, whose denominators are above zero. No step is too wide.
fn compare_ratios(num: i128, den: i128, other: i128, other_den: i128) -> Ordering
    requires ratio { IsRatio num den }
    requires other_ratio { IsRatio other other_den }
    ensures { result ≡ int_cmp (num *ℤ other_den) (other *ℤ den) }
{
    quotient_of(num, den).compare(quotient_of(other, other_den))
}

/// A number over another one, which is above zero.
fn quotient_of(num: i128, den: i128) -> Frac
    requires { IsRatio num den }
    ensures same { HaveSameCross result (ratio num den) }
    ensures positive { pos 0 <ℤ result.den }
{
    Frac::new(num, den).unwrap()
}
