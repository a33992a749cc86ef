ghost use Rattle.std.specs.Prelude.{◌≡◌, ◌↔◌, ◌<◌, pos, ◌<ℤ◌, length, IsOk, IfOk, IfErr, slice_index_or};
ghost use Rattle.zr_base.specs.Steps.{IsNarrow};
ghost use Rattle.zr_base.specs.Fractions.{IsSame};
ghost use Rattle.zr_base.specs.Lowest.{IsLowest, reduce};
ghost use Rattle.zr_base.specs.Points.{IsPoint, num_of, value_of};

use crate::frac::Frac;
use std::marker::Model;

/// A point: a list of numbers over one denominator, which is at least 1. No number is `i128::MIN`.
#[derive(Debug, Drop)]
pub struct Point {
    num: Vec<i128>,
    den: i128,
}

impl Model for Point {
    ghost use Rattle.zr_base.specs.Points.{IsPoint, PointOf};

    ghost Value = { PointOf };

    ghost view = { λ x. record { num = x.num.items; den = x.den } };

    ghost invariant = { λ x. IsPoint x.num.items x.den };
}

impl Point {
    /// The point with the values `num / den`.
    ///
    /// Hands the list back exactly where `den` is below 1 or a number is `i128::MIN`.
    pub fn new(num: Vec<i128>, den: i128) -> Result<Point, Vec<i128>>
        ensures valid { IsOk result ↔ IsPoint num.items den }
        ensures ok { IfOk result (λ x. (x.num ≡ num.items) × (x.den ≡ den)) }
        ensures kept { IfOk result (λ x. IsPoint x.num x.den) }
        ensures err { IfErr result (λ list. list.items ≡ num.items) }
    {
        if den < 1 || num.iter().any(|x| *x == i128::MIN) {
            Err(num)
        } else {
            Ok(Point { num, den })
        }
    }

    /// How many values the point has.
    #[allow(clippy::len_without_is_empty)]
    pub fn len(&self) -> usize
        ensures { result ≡ length self.now.num }
    {
        self.num.len()
    }

    /// The numerator of value `j`, which is below `len`.
    pub fn num(&self, j: usize) -> i128
        requires { j < length self.now.num }
        ensures value { result ≡ slice_index_or self.now.num j (pos 0) }
        ensures narrow { IsNarrow result }
        ensures kept { IsPoint self.now.num self.now.den }
    {
        self.num[j]
    }

    /// The denominator, at least 1.
    pub fn den(&self) -> i128
        ensures value { result ≡ self.now.den }
        ensures positive { pos 0 <ℤ result }
        ensures narrow { IsNarrow result }
        ensures kept { IsPoint self.now.num self.now.den }
    {
        self.den
    }

    /// Value `j`, which is below `len`, in lowest terms.
    pub fn value(&self, j: usize) -> Frac
        requires { j < length self.now.num }
        ensures value { result ≡ reduce (num_of self.now j) self.now.den }
        ensures same { IsSame result (value_of self.now j) }
        ensures lowest { IsLowest result }
    {
        Frac::new(self.num(j), self.den()).unwrap()
    }
}
