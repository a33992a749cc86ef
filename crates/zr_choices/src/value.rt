ghost use Rattle.std.specs.Prelude.{◌≡◌, ◌<◌, ◌≤◌, ◌+◌, ℕ, ℤ, pos, ◌≤ℤ◌, ◌-ℤ◌, IfOk, if◌then◌else◌, length, map, slice_index_or};
ghost use Rattle.std.specs.List.{All};
ghost use Rattle.zr_base.specs.Points.{num_of};
ghost use Rattle.zr_base.specs.Steps.{IsNarrow};
ghost use Rattle.zr_system.specs.Asked.{firsts};
ghost use Rattle.zr_choices.specs.Parted.{joined, place};
ghost use Rattle.zr_choices.specs.Programs as program;
ghost use Rattle.zr_choices.specs.Programs.{free_in};

use crate::part::{may_be_negative, width};
use std::alloc::{AllocError, Global};
use zr_base::Point;
use zr_system::Unknown;

/// What an unknown's columns, from `c` on, give: its number, or positive minus negative part.
fn value_of(u: Unknown, point: &Point, c: usize) -> i128
    requires columns { c + (if program.may_be_negative u then 2 else 1) ≤ length point.now.num }
    requires few { c < 4294967295 }
    requires up { (k : ℕ) → k < length point.now.num → pos 0 ≤ℤ num_of point.now k }
    ensures value { result ≡ (if program.may_be_negative u
        then num_of point.now c -ℤ num_of point.now (c + 1) else num_of point.now c) }
    ensures narrow { IsNarrow result }
{
    if may_be_negative(u) {
        point.num(c) - point.num(c + 1)
    } else {
        point.num(c)
    }
}

/// What the columns give, unknown by unknown.
fn values_by(alloc: Global, order: &[Unknown], point: &Point) -> Result<Vec<i128>, AllocError>
    requires few { length order.now < 16777217 }
    requires columns { place (free_in order.now) (length order.now) ≤ length point.now.num }
    requires up { (k : ℕ) → k < length point.now.num → pos 0 ≤ℤ num_of point.now k }
    ensures values { IfOk result (λ made. made.items
        ≡ firsts (length order.now) (joined (free_in order.now) (num_of point.now))) }
    ensures narrow { IfOk result (λ made. All IsNarrow made.items) }
{
    let mut values = Vec::new(alloc);
    let mut c = 0;
    for u in order {
        values.push(value_of(*u, point, c))?;
        c += width(*u) as usize;
    }
    Ok(values)
}

/// The point that the columns give, over the same denominator.
pub(crate) fn point_by(alloc: Global, order: &[Unknown], point: &Point) -> Result<Point, AllocError>
    requires few { length order.now < 16777217 }
    requires columns { place (free_in order.now) (length order.now) ≤ length point.now.num }
    requires up { (k : ℕ) → k < length point.now.num → pos 0 ≤ℤ num_of point.now k }
    ensures values { IfOk result (λ made. made.num
        ≡ firsts (length order.now) (joined (free_in order.now) (num_of point.now))) }
    ensures den { IfOk result (λ made. made.den ≡ point.now.den) }
{
    let values = values_by(alloc, order, point)?;
    match Point::new(values, point.den()) {
        Ok(made) => Ok(made),
        Err(_) => unreachable!(),
    }
}
