ghost use Rattle.std.specs.Prelude.{◌≡◌, ◌≢◌, ◌<◌, ◌+◌, ◌≤◌, ℕ, ℤ, pos, ◌≤ℤ◌, length, IfOk, IfErr, OnOk, OnErr};
ghost use Rattle.zr_base.specs.Terms.{Ascends};
ghost use Rattle.zr_basis.specs.Bases.{Exchanges};
ghost use Rattle.zr_basis.specs.BasicForms.{right_column, value_column};
ghost use Rattle.zr_io.specs.Purses.{Spends};
ghost use Rattle.zr_io.specs.declared.purse.Unit.TheVariants.{Pivot as IsPivot};
ghost use Rattle.zr_simplex.specs.Programs.{IsLp, program_of};
ghost use Rattle.zr_simplex.specs.StuckSteps.{IsWidePivot};
ghost use Rattle.zr_simplex.specs.Answers.{AreListed, AreOf, IsAnswer, IsBasicAnswer, signed};
ghost use Rattle.zr_simplex.specs.Causes.{CountsFew, IsCause, IsEndStep, IsReachedAnswer};
ghost use Rattle.zr_basis.specs.Orders.{IsOrder};
ghost use Rattle.zr_basis.specs.Dual.{AreDirectionsPositive};
ghost use Rattle.zr_basis.specs.Runs.{IsFromSlacks};
ghost use Rattle.zr_simplex.specs.Tableaus.{basis_of, form_of, order_of};
ghost use Rattle.zr_simplex.specs.Dues.{IsEnd, IsTableau};
ghost use Rattle.zr_simplex.specs.Halts.{HasRun, IsFrom, IsMiss, IsMissAfter, origin_of};

use crate::basic::{Miss, point_of, ray_of};
use crate::binary::{raise, zero_digits};
use crate::choose::{Due, next_due};
use crate::listed::listed;
use crate::pivot::Place;
use crate::program::{Lp, LpAnswer, Stop};
use crate::start::{numbers_from, start};
use crate::tableau::Tableau;
use std::alloc::{AllocError, Global};
use zr_io::{Purse, Unit};
use zr_lin::{Step, Stuck};

/// The multipliers and the extras that an equation gives.
fn multipliers(
    alloc: Global,
    lp: &Lp,
    tableau: &Tableau,
    row: usize,
    negated: bool,
) -> Result<(Vec<(u32, i128)>, Vec<(u32, i128)>), AllocError>
    requires lp { IsLp lp.now }
    requires kept { IsTableau (program_of lp.now) tableau.now }
    requires row { row ≤ length lp.now.rows.items }
    requires sign { (j : ℕ) → j < value_column (program_of lp.now)
        → pos 0 ≤ℤ signed negated (form_of tableau.now row j) }
    ensures listed { IfOk result (λ lists. AreListed lp.now lists.0.items lists.1.items) }
    ensures of { IfOk result (λ lists. AreOf (program_of lp.now)
        (form_of tableau.now row) negated lists.0.items lists.1.items) }
    ensures ascends { IfOk result (λ lists. Ascends 0 (length lp.now.rows.items) lists.0.items) }
{
    let mult = listed(
        alloc,
        tableau,
        row,
        lp.columns,
        lp.rows.len() as u32,
        negated,
    )?;
    let extra = listed(alloc, tableau, row, 0, lp.columns, negated)?;
    Ok((mult, extra))
}

/// The answer at a basis where no pivot is due, or what stops it.
fn answer(alloc: Global, lp: &Lp, tableau: &Tableau, due: Due) -> Result<LpAnswer, Miss>
    requires lp { IsLp lp.now }
    requires kept { IsTableau (program_of lp.now) tableau.now }
    requires end { IsEnd (program_of lp.now) (form_of tableau.now) due }
    ensures answer { IfOk result (IsAnswer lp.now) }
    ensures basic { IfOk result (IsBasicAnswer (program_of lp.now) (basis_of tableau.now)
        (form_of tableau.now)) }
    ensures halts { IfErr result (IsMiss (program_of lp.now) (basis_of tableau.now)
        (form_of tableau.now) (IsEndStep (program_of lp.now) (form_of tableau.now))) }
{
    let value = lp.rows.len();
    match due {
        Due::Best => {
            let point = point_of(alloc, lp, tableau)?;
            let scale = tableau.number(value, lp.columns as usize + value);
            let least = tableau.number(value, lp.columns as usize + value + 1);
            let (mult, extra) = match multipliers(alloc, lp, tableau, value, true) {
                Ok(lists) => lists,
                Err(_) => return Err(Miss::NoMemory),
            };
            Ok(LpAnswer::Best {
                point,
                scale,
                value: least,
                mult,
                extra,
            })
        }
        Due::Empty(row) => {
            let (mult, extra) = match multipliers(alloc, lp, tableau, row, false) {
                Ok(lists) => lists,
                Err(_) => return Err(Miss::NoMemory),
            };
            Ok(LpAnswer::Empty { mult, extra })
        }
        Due::Unbounded(column) => {
            let point = point_of(alloc, lp, tableau)?;
            let ray = ray_of(alloc, lp, tableau, column)?;
            Ok(LpAnswer::Unbounded { point, ray })
        }
        Due::Pivot(_, _) => unreachable!(),
    }
}

/// One pivot.
fn turn(lp: &Lp, tableau: &mut Tableau, row: usize, column: usize) -> Result<(), Place>
    requires lp { IsLp lp.now }
    requires kept { IsTableau (program_of lp.now) tableau.old }
    requires row { row < length lp.now.rows.items }
    requires column { column < value_column (program_of lp.now) }
    requires apart { form_of tableau.old row column ≢ pos 0 }
    ensures kept { OnOk result (IsTableau (program_of lp.now) tableau.new) }
    ensures exchanges { OnOk result (Exchanges (basis_of tableau.old) row column
        (basis_of tableau.new)) }
    ensures err { OnErr result (tableau.new.basis ≡ tableau.old.basis) }
    ensures wide { IfErr result (λ place. (place.row ≤ length lp.now.rows.items) × (place.row ≢ row)
        × (place.column ≤ right_column (program_of lp.now))
        × IsWidePivot (form_of tableau.old row)
        (form_of tableau.old place.row) column place.column place.wide) }
{
    tableau.pivot(row, column)
}

/// One pivot, which is counted when it was made.
fn counted_turn(
    lp: &Lp,
    tableau: &mut Tableau,
    purse: &mut Purse,
    row: usize,
    column: usize,
) -> Result<(), Place>
    requires lp { IsLp lp.now }
    requires kept { IsTableau (program_of lp.now) tableau.old }
    requires row { row < length lp.now.rows.items }
    requires column { column < value_column (program_of lp.now) }
    requires apart { form_of tableau.old row column ≢ pos 0 }
    ensures kept { OnOk result (IsTableau (program_of lp.now) tableau.new) }
    ensures exchanges { OnOk result (Exchanges (basis_of tableau.old) row column
        (basis_of tableau.new)) }
    ensures counts { OnOk result (Spends purse.old purse.new IsPivot) }
    ensures err { OnErr result (tableau.new.basis ≡ tableau.old.basis) }
    ensures none { OnErr result (purse.new ≡ purse.old) }
    ensures wide { IfErr result (λ place. (place.row ≤ length lp.now.rows.items) × (place.row ≢ row)
        × (place.column ≤ right_column (program_of lp.now))
        × IsWidePivot (form_of tableau.old row)
        (form_of tableau.old place.row) column place.column place.wide) }
{
    match turn(lp, tableau, row, column) {
        Ok(()) => {
            let _ = purse.spend(Unit::Pivot);
            Ok(())
        }
        Err(place) => Err(place),
    }
}

/// Pivots by the rules, in an order of the columns, until none is due: what ends the method. They
/// are counted in binary too, with a digit for each column, as they are fewer than the ways to
/// choose a basis.
fn run(
    alloc: Global,
    lp: &Lp,
    tableau: &mut Tableau,
    order: &[u32],
    purse: &mut Purse,
) -> Result<Due, Miss>
    requires lp { IsLp lp.now }
    requires kept { IsTableau (program_of lp.now) tableau.old }
    requires order { IsOrder (program_of lp.now) (order_of order.now) }
    requires positive { AreDirectionsPositive (program_of lp.now) (order_of order.now)
        (basis_of tableau.old) (form_of tableau.old) }
    ensures kept { OnOk result (IsTableau (program_of lp.now) tableau.new) }
    ensures end { IfOk result (IsEnd (program_of lp.now) (form_of tableau.new)) }
    ensures run { OnOk result (HasRun (program_of lp.now)
        (origin_of tableau.old order.now) purse.old purse.new (basis_of tableau.new)
        (form_of tableau.new)) }
    ensures count { length tableau.new.basis ≡ length lp.now.rows.items + 1 }
    ensures few { CountsFew (program_of lp.now) purse.old purse.new }
    ensures miss { IfErr result (IsMissAfter (program_of lp.now)
        (origin_of tableau.old order.now) purse.old purse.new (basis_of tableau.new)) }
{
    let mut start = None;
    let mut count = match zero_digits(alloc, lp.columns as usize + lp.rows.len()) {
        Ok(count) => count,
        Err(_) => return Err(Miss::NoMemory),
    };
    'pivots: loop {
        let due = match next_due(alloc, lp, tableau, order, &mut start) {
            Ok(due) => due,
            Err(_) => return Err(Miss::NoMemory),
        };
        let Due::Pivot(row, column) = due else {
            return Ok(due);
        };
        if let Err(place) = counted_turn(lp, tableau, purse, row, column) {
            let step = Step::Pivot {
                row: row as u32,
                col: column as u32,
                at_row: place.row as u32,
                at_col: place.column as u32,
            };
            return Err(Miss::Wide(step, place.wide));
        }
        raise(&mut count);
    }
}

/// The answer to which pivots by the rules lead, in an order of the columns, or what stops it.
fn solve(
    alloc: Global,
    lp: &Lp,
    tableau: &mut Tableau,
    order: &[u32],
    purse: &mut Purse,
) -> Result<LpAnswer, Miss>
    requires lp { IsLp lp.now }
    requires kept { IsTableau (program_of lp.now) tableau.old }
    requires order { IsOrder (program_of lp.now) (order_of order.now) }
    requires positive { AreDirectionsPositive (program_of lp.now) (order_of order.now)
        (basis_of tableau.old) (form_of tableau.old) }
    ensures answer { IfOk result (IsAnswer lp.now) }
    ensures kept { OnOk result (IsTableau (program_of lp.now) tableau.new) }
    ensures basic { IfOk result (IsBasicAnswer (program_of lp.now) (basis_of tableau.new)
        (form_of tableau.new)) }
    ensures reached { IfOk result (IsReachedAnswer (program_of lp.now)
        (IsFrom (program_of lp.now) (origin_of tableau.old order.now)) purse.old purse.new) }
    ensures count { length tableau.new.basis ≡ length lp.now.rows.items + 1 }
    ensures few { CountsFew (program_of lp.now) purse.old purse.new }
    ensures miss { IfErr result (IsMissAfter (program_of lp.now)
        (origin_of tableau.old order.now) purse.old purse.new (basis_of tableau.new)) }
{
    match run(alloc, lp, tableau, order, purse) {
        Ok(due) => answer(alloc, lp, tableau, due),
        Err(miss) => Err(miss),
    }
}

/// The answer to which pivots by the rules lead from a tableau, in an order of the columns, and the
/// tableau at the end.
pub(crate) fn solve_from(
    alloc: Global,
    lp: &Lp,
    tableau: Tableau,
    order: &[u32],
    purse: &mut Purse,
) -> Result<(Tableau, LpAnswer), Stop>
    requires lp { IsLp lp.now }
    requires kept { IsTableau (program_of lp.now) tableau }
    requires order { IsOrder (program_of lp.now) (order_of order.now) }
    requires positive { AreDirectionsPositive (program_of lp.now) (order_of order.now)
        (basis_of tableau) (form_of tableau) }
    ensures kept { IfOk result (λ found. IsTableau (program_of lp.now) found.0) }
    ensures answer { IfOk result (λ found. IsAnswer lp.now found.1) }
    ensures basic { IfOk result (λ found. IsBasicAnswer (program_of lp.now) (basis_of found.0)
        (form_of found.0) found.1) }
    ensures reached { IfOk result (λ found. IsReachedAnswer (program_of lp.now)
        (IsFrom (program_of lp.now) (origin_of tableau order.now)) purse.old purse.new found.1) }
    ensures cause { IfErr result (IsCause (program_of lp.now)
        (IsFrom (program_of lp.now) (origin_of tableau order.now)) purse.old purse.new) }
    ensures few { CountsFew (program_of lp.now) purse.old purse.new }
{
    let mut tableau = tableau;
    match solve(alloc, lp, &mut tableau, order, purse) {
        Ok(found) => Ok((tableau, found)),
        Err(Miss::NoMemory) => Err(Stop::NoMemory),
        Err(Miss::Wide(step, wide)) => Err(Stop::Wide(Stuck {
            basis: tableau.into_basis(),
            step,
            wide,
        })),
    }
}

/// The answer to which pivots by the rules lead from the basis of the slacks, and the tableau at
/// the end.
pub(crate) fn solve_afresh(
    alloc: Global,
    lp: &Lp,
    purse: &mut Purse,
) -> Result<(Tableau, LpAnswer), Stop>
    requires { IsLp lp.now }
    ensures kept { IfOk result (λ found. IsTableau (program_of lp.now) found.0) }
    ensures answer { IfOk result (λ found. IsAnswer lp.now found.1) }
    ensures basic { IfOk result (λ found. IsBasicAnswer (program_of lp.now) (basis_of found.0)
        (form_of found.0) found.1) }
    ensures reached { IfOk result (λ found. IsReachedAnswer (program_of lp.now)
        (IsFromSlacks (program_of lp.now)) purse.old purse.new found.1) }
    ensures cause { IfErr result (IsCause (program_of lp.now)
        (IsFromSlacks (program_of lp.now)) purse.old purse.new) }
    ensures few { CountsFew (program_of lp.now) purse.old purse.new }
{
    let tableau = match start(alloc, lp) {
        Ok(tableau) => tableau,
        Err(_) => return Err(Stop::NoMemory),
    };
    let order = match numbers_from(alloc, 0, lp.columns + lp.rows.len() as u32) {
        Ok(order) => order,
        Err(_) => return Err(Stop::NoMemory),
    };
    solve_from(alloc, lp, tableau, &order, purse)
}

/// The least value of a linear program with what shows it, or what shows that no point meets the
/// rows, or that there is no least value.
///
/// By the simplex method (G. Dantzig, 1947) on equations in whole numbers without common divisors,
/// from the basis of the slacks. While a right side is below zero, pivots go by the dual method (C.
/// Lemke, 1954) for the aim that the columns be least in their order; then by the primal one, in
/// which the first column enters along which the value falls. In both the lexicographic order
/// breaks ties (A. Charnes, 1952; G. Dantzig, A. Orden and P. Wolfe, 1955), so that no basis comes
/// twice: the pivots are fewer than the ways to choose a column for each row. The purse counts each
/// pivot when it has been made; no limit holds for them.
///
/// # Errors
///
/// `Wide` where a step at a basis is too wide, with that basis and step. `NoMemory` for want of
/// memory.
pub fn solve_lp(alloc: Global, lp: &Lp, purse: &mut Purse) -> Result<LpAnswer, Stop>
    requires { IsLp lp.now }
    ensures answer { IfOk result (IsAnswer lp.now) }
    ensures basic { IfOk result (IsReachedAnswer (program_of lp.now)
        (IsFromSlacks (program_of lp.now)) purse.old purse.new) }
    ensures cause { IfErr result (IsCause (program_of lp.now)
        (IsFromSlacks (program_of lp.now)) purse.old purse.new) }
    ensures few { CountsFew (program_of lp.now) purse.old purse.new }
{
    match solve_afresh(alloc, lp, purse) {
        Ok((_, found)) => Ok(found),
        Err(stop) => Err(stop),
    }
}
