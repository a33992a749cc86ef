ghost use Rattle.std.specs.Prelude.{◌≡◌, ◌*◌, ◌<◌, ◌*ℤ◌};
ghost use Rattle.std.specs.Ordering.{int_cmp, nat_cmp};
ghost use Rattle.zr_base.specs.Lowest.{IsRatio};

use std::cmp::Ordering;

/// The order of `a / b` and `c / d`, by Euclid's steps.
pub(crate) fn compare_ratios(a: u128, b: u128, c: u128, d: u128) -> Ordering
    requires below_left { 0 < b }
    requires below_right { 0 < d }
    ensures { result ≡ nat_cmp (a * d) (c * b) }
{
    let left = a / b;
    let right = c / d;
    if left != right {
        return left.cmp(&right);
    }
    let left_rest = a % b;
    let right_rest = c % d;
    if left_rest == 0 || right_rest == 0 {
        return left_rest.cmp(&right_rest);
    }
    compare_ratios(d, right_rest, b, left_rest)
}

/// The order of `a / b` and `c / d`.
pub(crate) fn order(a: i128, b: i128, c: i128, d: i128) -> Ordering
    requires left { IsRatio a b }
    requires right { IsRatio c d }
    ensures { result ≡ int_cmp (a *ℤ d) (c *ℤ b) }
{
    let (left, under) = (a.unsigned_abs(), b.unsigned_abs());
    let (right, over) = (c.unsigned_abs(), d.unsigned_abs());
    match (a < 0, c < 0) {
        (false, false) => compare_ratios(left, under, right, over),
        (false, true) => Ordering::Greater,
        (true, false) => Ordering::Less,
        (true, true) => compare_ratios(right, over, left, under),
    }
}
