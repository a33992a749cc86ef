ghost use Rattle.std.specs.Prelude.{◌≡◌, ◌<◌, pos, ◌<ℤ◌, int_div, unsigned_abs, length, map, IfOk};
ghost use Rattle.zr_base.specs.Points.{IsPoint, IsSamePoint, value_of};
ghost use Rattle.zr_tidy.specs.Points.{DividesPoint, IsGreatestDivisor, IsLowestPoint, IsPointOrder, IsValueOrder, point_without};

use std::alloc::{AllocError, Global};
use std::cmp::Ordering;
use zr_base::{NoMemory, Point, common, divided};

/// The same point in lowest terms.
pub(crate) fn lowest(alloc: Global, point: &Point) -> Result<Point, NoMemory>
    ensures same { IfOk result (λ x. IsSamePoint x point.now) }
    ensures lowest { IfOk result IsLowestPoint }
    ensures kept { IfOk result (λ x. IsPoint x.num x.den) }
{
    // A point keeps the rules of points, and tells so with its denominator.
    let _den = point.den();
    let shared = greatest_divisor(point);
    without(alloc, point, shared)
}

/// The point with its greatest divisor taken out of its denominator and its numbers.
fn without(alloc: Global, point: &Point, by: i128) -> Result<Point, NoMemory>
    requires { IsGreatestDivisor by point.now }
    ensures value { IfOk result (λ x. x ≡ point_without by point.now) }
    ensures kept { IfOk result (λ x. IsPoint x.num x.den) }
{
    let den = divided(point.den(), by);
    let Ok(num) = numbers_without(alloc, point, by) else {
        return Err(NoMemory);
    };
    match Point::new(num, den) {
        Ok(point) => Ok(point),
        Err(_) => unreachable!(),
    }
}

/// The greatest common divisor of the denominator and all numbers.
fn greatest_divisor(point: &Point) -> i128
    ensures { IsGreatestDivisor result point.now }
{
    let mut shared = point.den();
    for v in 0..point.len() {
        shared = common(point.num(v), shared);
    }
    shared
}

/// The point's numbers, with a divisor taken out of each.
fn numbers_without(alloc: Global, point: &Point, by: i128) -> Result<Vec<i128>, AllocError>
    requires positive { pos 0 <ℤ by }
    requires divides { DividesPoint (unsigned_abs by) point.now }
    ensures { IfOk result (λ list. list.items ≡ map (λ n. int_div n by) point.now.num) }
{
    let mut list = Vec::new(alloc);
    for v in 0..point.len() {
        list.push(divided(point.num(v), by))?;
    }
    Ok(list)
}

/// The order of two points of as many numbers: that of the first values that differ.
pub(crate) fn order(left: &Point, right: &Point) -> Ordering
    requires { length left.now.num ≡ length right.now.num }
    ensures { IsPointOrder result left.now right.now }
{
    // Points keep the rules of points, and tell so with their denominators.
    let (_left, _right) = (left.den(), right.den());
    for v in 0..left.len() {
        match order_at(left, right, v) {
            Ordering::Equal => {}
            Ordering::Less => return Ordering::Less,
            Ordering::Greater => return Ordering::Greater,
        }
    }
    Ordering::Equal
}

/// The order of the values of variable `v`.
fn order_at(left: &Point, right: &Point, v: usize) -> Ordering
    requires left { v < length left.now.num }
    requires right { v < length right.now.num }
    ensures { IsValueOrder result (value_of left.now v) (value_of right.now v) }
{
    left.value(v).compare(right.value(v))
}
