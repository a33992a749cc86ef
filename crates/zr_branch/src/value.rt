ghost use Rattle.std.specs.Prelude.{◌≡◌, ◌<◌, ◌≤◌, ◌+◌, ℕ, ℤ, pos, ◌≤ℤ◌, IfOk, length, map, slice_index_or};
ghost use Rattle.std.specs.List.{All};
ghost use Rattle.zr_base.specs.Points.{IsPoint, num_of};
ghost use Rattle.zr_base.specs.Steps.{IsNarrow};
ghost use Rattle.zr_game.specs.Players.{var_of};
ghost use Rattle.zr_simplex.specs.Programs.{numbers};
ghost use Rattle.zr_asked.specs.Parts.{is_from_zero, parts_of};
ghost use Rattle.zr_branch.specs.Columns.{own_value, values_from, width};

use crate::part::is_from_zero;
use std::alloc::{AllocError, Global};
use zr_base::Point;
use zr_game::Var;

/// What a variable's columns, from `c` on, give: the positive part, or positive minus negative part.
fn value_of(var: &Var, list: &[i128], c: usize) -> i128
    requires columns { c + width (is_from_zero var.now.low) ≤ length list.now }
    requires up { (k : ℕ) → k < length list.now → pos 0 ≤ℤ numbers list.now k }
    ensures value { result ≡ own_value (is_from_zero var.now.low) c (numbers list.now) }
    ensures narrow { IsNarrow result }
{
    if is_from_zero(var) {
        list[c]
    } else {
        list[c] - list[c + 1]
    }
}

/// How many columns a variable has.
fn width_of(var: &Var) -> usize
    ensures { result ≡ width (is_from_zero var.now.low) }
{
    if is_from_zero(var) { 1 } else { 2 }
}

/// What the columns give, variable by variable.
pub(crate) fn values_by(alloc: Global, vars: &[Var], list: &[i128]) -> Result<Vec<i128>, AllocError>
    requires columns { length list.now ≡ length (parts_of (map var_of vars.now)) }
    requires up { (k : ℕ) → k < length list.now → pos 0 ≤ℤ numbers list.now k }
    ensures values { IfOk result (λ made.
        made.items ≡ values_from 0 (map var_of vars.now) (numbers list.now)) }
    ensures narrow { IfOk result (λ made. All IsNarrow made.items) }
{
    let mut values = Vec::new(alloc);
    let mut c = 0;
    for var in vars {
        values.push(value_of(var, list, c))?;
        c += width_of(var);
    }
    Ok(values)
}

/// The numerators of a point.
fn numerators(alloc: Global, point: &Point) -> Result<Vec<i128>, AllocError>
    ensures { IfOk result (λ list. list.items ≡ point.now.num) }
{
    let mut list = Vec::new(alloc);
    for j in 0..point.len() {
        list.push(point.num(j))?;
    }
    Ok(list)
}

/// The point that the columns give, over the same denominator.
pub(crate) fn point_by(alloc: Global, vars: &[Var], point: &Point) -> Result<Point, AllocError>
    requires columns { length point.now.num ≡ length (parts_of (map var_of vars.now)) }
    requires up { (k : ℕ) → k < length point.now.num → pos 0 ≤ℤ num_of point.now k }
    ensures values { IfOk result (λ made.
        made.num ≡ values_from 0 (map var_of vars.now) (num_of point.now)) }
    ensures den { IfOk result (λ made. made.den ≡ point.now.den) }
{
    let den = point.den();
    let list = numerators(alloc, point)?;
    let values = values_by(alloc, vars, &list)?;
    match Point::new(values, den) {
        Ok(made) => Ok(made),
        Err(_) => unreachable!(),
    }
}

/// The direction that the columns give.
pub(crate) fn ray_by(alloc: Global, vars: &[Var], ray: &[i128]) -> Result<Vec<i128>, AllocError>
    requires columns { length ray.now ≡ length (parts_of (map var_of vars.now)) }
    requires up { (k : ℕ) → k < length ray.now → pos 0 ≤ℤ numbers ray.now k }
    ensures values { IfOk result (λ made.
        made.items ≡ values_from 0 (map var_of vars.now) (numbers ray.now)) }
    ensures narrow { IfOk result (λ made. All IsNarrow made.items) }
{
    values_by(alloc, vars, ray)
}
