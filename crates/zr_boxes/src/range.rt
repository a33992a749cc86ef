ghost use Rattle.std.specs.Prelude.{◌≡◌, ◌*ℤ◌, int_lt, pos, neg_ℤ};
ghost use Rattle.zr_base.specs.Steps.{IsNarrow, cross_of};
ghost use Rattle.zr_base.specs.Sums.{sum_step};
ghost use Rattle.zr_boxes.specs.GainSteps.{product_steps, way_range_steps};
ghost use Rattle.zr_boxes.specs.Ranges.{end_at as end_in, lesser_of};

use zr_base::{Wide, add_product, cross};

/// The numbers from `low` to `high`; none where `low` is above `high`.
#[derive(Clone, Copy)]
pub(crate) struct Range {
    pub(crate) low: i128,
    pub(crate) high: i128,
}

/// Which end of a range: where a multiple is least, or where it is greatest.
#[derive(Clone, Copy)]
pub(crate) enum End {
    Least,
    Greatest,
}

/// Of the two ends of the range the one at which `number` times it is least, or greatest.
pub(crate) fn end_at(end: End, number: i64, range: Range) -> i128
    ensures { result ≡ end_in end number range }
{
    match end {
        End::Least => if is_less_times(number, range.high, range.low) {
            range.high
        } else {
            range.low
        },
        End::Greatest => if is_less_times(number, range.low, range.high) {
            range.high
        } else {
            range.low
        },
    }
}

/// Whether `number` times `a` is less than `number` times `b`. No product is made.
fn is_less_times(number: i64, a: i128, b: i128) -> bool
    ensures { result ≡ int_lt (number *ℤ a) (number *ℤ b) }
{
    if number < 0 {
        return a > b;
    }
    number > 0 && a < b
}

/// Where x runs over the range, the ends of `den * x - num`.
pub(crate) fn shifted(den: i128, num: i128, range: Range) -> Result<Range, Wide>
    requires { IsNarrow num }
    ensures { result ≡ way_range_steps den num range }
{
    let low = way(den, num, range.low)?;
    let high = way(den, num, range.high)?;
    Ok(Range { low, high })
}

fn way(den: i128, num: i128, end: i128) -> Result<i128, Wide>
    requires { IsNarrow num }
    ensures { result ≡ sum_step (neg_ℤ num) (den, end) }
{
    add_product(-num, den, end)
}

/// The least of the four products of an end of the one range and an end of the other.
pub(crate) fn least_product(first: Range, second: Range) -> Result<i128, Wide>
    ensures { result ≡ product_steps first second }
{
    let a = product(first.low, second.low)?;
    let b = product(first.low, second.high)?;
    let c = product(first.high, second.low)?;
    let d = product(first.high, second.high)?;
    Ok(least_of(a, b, c, d))
}

fn product(a: i128, b: i128) -> Result<i128, Wide>
    ensures { result ≡ cross_of (a, b) (pos 0, pos 0) }
{
    cross((a, b), (0, 0))
}

fn least_of(a: i128, b: i128, c: i128, d: i128) -> i128
    ensures { result ≡ lesser_of (lesser_of a b) (lesser_of c d) }
{
    lesser(lesser(a, b), lesser(c, d))
}

fn lesser(a: i128, b: i128) -> i128
    ensures { result ≡ lesser_of a b }
{
    if b < a { b } else { a }
}
