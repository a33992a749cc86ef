ghost use Rattle.std.specs.Prelude.{◌≡◌, ◌≢◌, ◌<◌, ◌+◌, ℕ, ℤ, pos, ◌<ℤ◌, length, IfOk, IfErr};
ghost use Rattle.std.specs.List.{All};
ghost use Rattle.zr_base.specs.Steps.{IsNarrow};
ghost use Rattle.zr_base.specs.Points.{IsPoint};
ghost use Rattle.zr_simplex.specs.Programs.{IsLp, numbers, program_of};
ghost use Rattle.zr_basis.specs.BasicForms.{value_column};
ghost use Rattle.zr_simplex.specs.StuckSteps.{IsNumerator};
ghost use Rattle.zr_simplex.specs.Answers.{IsBasicPoint, IsBasicRay, signed};
ghost use Rattle.zr_simplex.specs.Tableaus.{basis_of, form_of};
ghost use Rattle.zr_simplex.specs.Dues.{IsTableau};
ghost use Rattle.zr_simplex.specs.Halts.{HaltsAt, IsMiss, IsPointStep, IsRayStep};

use crate::program::Lp;
use crate::solution::{WideAt, common_multiple, fill};
use crate::tableau::Tableau;
use std::alloc::{AllocError, Global};
use zr_base::{Point, Wide};
use zr_lin::Step;

/// Why numerators can't be had.
#[derive(Clone, Copy)]
pub(crate) enum Halt {
    NoMemory,
    Wide(WideAt),
}

/// Why a point or a ray can't be had.
#[derive(Clone, Copy)]
pub(crate) enum Miss {
    NoMemory,
    Wide(Step, Wide),
}

/// The columns' numerators and their denominator where the basis stands as column `from`, or its
/// negation, says, and all other columns are zero.
fn over_basis(
    alloc: Global,
    lp: &Lp,
    tableau: &Tableau,
    from: usize,
    negated: bool,
) -> Result<(Vec<i128>, i128), Halt>
    requires lp { IsLp lp.now }
    requires kept { IsTableau (program_of lp.now) tableau.now }
    requires from { from < tableau.now.width }
    ensures len { IfOk result (λ made. length made.0.items ≡ lp.now.columns + length
        lp.now.rows.items) }
    ensures on { IfOk result (λ made. (i : ℕ) → i < length lp.now.rows.items
        → IsNumerator (basis_of tableau.now) (form_of tableau.now) made.1
        (λ i. signed negated (form_of tableau.now i from)) i
        (numbers made.0.items (basis_of tableau.now i))) }
    ensures off { IfOk result (λ made. (j : ℕ)
        → ((i : ℕ) → i < length lp.now.rows.items → j ≢ basis_of tableau.now i)
        → numbers made.0.items j ≡ pos 0) }
    ensures narrow { IfOk result (λ made. All IsNarrow made.0.items) }
    ensures den { IfOk result (λ made. (pos 0 <ℤ made.1) × IsNarrow made.1) }
    ensures halts { IfErr result (HaltsAt (length lp.now.rows.items) (basis_of tableau.now)
        (form_of tableau.now) (λ i. signed negated (form_of tableau.now i from))) }
{
    let rows = lp.rows.len();
    let den = match common_multiple(tableau, rows) {
        Ok(den) => den,
        Err(at) => return Err(Halt::Wide(at)),
    };
    let mut all = match zeros(alloc, lp.columns as usize + rows) {
        Ok(all) => all,
        Err(_) => return Err(Halt::NoMemory),
    };
    match fill(&mut all, tableau, rows, from, negated, den) {
        Ok(()) => Ok((all, den)),
        Err(at) => Err(Halt::Wide(at)),
    }
}

/// So many zeros.
pub(crate) fn zeros(alloc: Global, count: usize) -> Result<Vec<i128>, AllocError>
    ensures len { IfOk result (λ all. length all.items ≡ count) }
    ensures zeros { IfOk result (λ all. All (λ z. z ≡ pos 0) all.items) }
{
    vec![in alloc; 0; count]
}

/// A point that is known to be one.
fn make_point(num: Vec<i128>, den: i128) -> Point
    requires { IsPoint num.items den }
    ensures num { result.num ≡ num.items }
    ensures den { result.den ≡ den }
{
    match Point::new(num, den) {
        Ok(point) => point,
        Err(_) => unreachable!(),
    }
}

/// The basic solution.
pub(crate) fn point_of(alloc: Global, lp: &Lp, tableau: &Tableau) -> Result<Point, Miss>
    requires lp { IsLp lp.now }
    requires kept { IsTableau (program_of lp.now) tableau.now }
    ensures point { IfOk result (IsBasicPoint (program_of lp.now) (basis_of tableau.now)
        (form_of tableau.now)) }
    ensures halts { IfErr result (IsMiss (program_of lp.now) (basis_of tableau.now)
        (form_of tableau.now) IsPointStep) }
{
    let right = lp.columns as usize + lp.rows.len() + 1;
    match over_basis(alloc, lp, tableau, right, false) {
        Ok((mut num, den)) => {
            num.truncate(lp.columns as usize);
            Ok(make_point(num, den))
        }
        Err(Halt::NoMemory) => Err(Miss::NoMemory),
        Err(Halt::Wide(at)) => Err(Miss::Wide(Step::Point { row: at.row as u32 }, at.wide)),
    }
}

/// The basic direction that raises a column off the basis.
pub(crate) fn ray_of(
    alloc: Global,
    lp: &Lp,
    tableau: &Tableau,
    column: usize,
) -> Result<Vec<i128>, Miss>
    requires lp { IsLp lp.now }
    requires kept { IsTableau (program_of lp.now) tableau.now }
    requires column { column < value_column (program_of lp.now) }
    requires free { (i : ℕ) → i < length lp.now.rows.items → column ≢ basis_of tableau.now i }
    ensures ray { IfOk result (λ ray. IsBasicRay (program_of lp.now) (basis_of tableau.now)
        (form_of tableau.now) column ray.items) }
    ensures halts { IfErr result (IsMiss (program_of lp.now) (basis_of tableau.now)
        (form_of tableau.now) (IsRayStep column)) }
{
    match over_basis(alloc, lp, tableau, column, true) {
        Ok((mut ray, den)) => {
            ray[column] = den;
            ray.truncate(lp.columns as usize);
            Ok(ray)
        }
        Err(Halt::NoMemory) => Err(Miss::NoMemory),
        Err(Halt::Wide(at)) => Err(Miss::Wide(
            Step::Ray {
                row: at.row as u32,
                col: column as u32,
            },
            at.wide,
        )),
    }
}
