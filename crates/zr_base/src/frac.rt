ghost use Rattle.std.specs.Prelude.{◌≡◌, ◌≢◌, ◌↔◌, pos, ◌<ℤ◌, IsSome, IfSome, IfOk};
ghost use Rattle.zr_base.specs.Steps.{IsNarrow};
ghost use Rattle.zr_base.specs.Fractions.{IsSame, ratio, plus, minus, times, order_of};
ghost use Rattle.zr_base.specs.Lowest.{IsRatio, IsLowest, reduce, add_of, sub_of, mul_of, div_of, reciprocal};

use crate::compare::order;
use crate::euclid::lowest_terms;
use crate::step::{Wide, cross};
use std::cmp::Ordering;
use std::marker::Model;

/// A fraction in lowest terms: its denominator is at least 1, and neither number is `i128::MIN`.
#[derive(Clone, Copy, Debug, PartialEq, Eq)]
pub struct Frac {
    num: i128,
    den: i128,
}

impl Model for Frac {
    ghost use Rattle.zr_base.specs.Fractions.{Fraction};
    ghost use Rattle.zr_base.specs.Lowest.{IsLowest};

    ghost Value = { Fraction };

    ghost view = { λ f. record { num = f.num; den = f.den } };

    ghost invariant = { λ f. IsLowest (record { num = f.num; den = f.den }) };

    ghost inverse = { λ f. record { num = f.num; den = f.den } };
}

impl Frac {
    /// `num / den` in lowest terms.
    ///
    /// None exactly where `den` is below 1 or a number is `i128::MIN`.
    pub fn new(num: i128, den: i128) -> Option<Frac>
        ensures valid { IsSome result ↔ IsRatio num den }
        ensures value { IfSome result (λ f. f ≡ reduce num den) }
        ensures lowest { IfSome result IsLowest }
        ensures same { IfSome result (λ f. IsSame f (ratio num den)) }
    {
        if den < 1 || num == i128::MIN {
            None
        } else {
            Some(reduced(num, den))
        }
    }

    /// The numerator.
    pub fn num(self) -> i128
        ensures value { result ≡ self.num }
        ensures narrow { IsNarrow result }
        ensures kept { IsLowest self }
    {
        self.num
    }

    /// The denominator, at least 1.
    pub fn den(self) -> i128
        ensures value { result ≡ self.den }
        ensures positive { pos 0 <ℤ result }
        ensures narrow { IsNarrow result }
        ensures kept { IsLowest self }
    {
        self.den
    }

    /// The sum.
    ///
    /// Of `a / b + c / d`, where `g` is the greatest common divisor of `b` and `d`, the numerator
    /// `a * (d / g) + c * (b / g)` is made first, and then the denominator `b * (d / g)`; the
    /// fraction is then reduced. The answer is the first of these two steps that is too wide,
    /// where there is one.
    pub fn add(self, other: Frac) -> Result<Frac, Wide>
        ensures steps { result ≡ add_of self other }
        ensures exact { IfOk result (λ f. IsSame f (plus self other)) }
        ensures lowest { IfOk result IsLowest }
    {
        sum_of(self.num, self.den, other.num, other.den)
    }

    /// The difference: the sum of this and the other's negative, and too wide where that is.
    pub fn sub(self, other: Frac) -> Result<Frac, Wide>
        ensures steps { result ≡ sub_of self other }
        ensures exact { IfOk result (λ f. IsSame f (minus self other)) }
        ensures lowest { IfOk result IsLowest }
    {
        sum_of(self.num, self.den, -other.num, other.den)
    }

    /// The product.
    ///
    /// Of `a / b` and `c / d`, the greatest common divisor of `a` and `d` and that of `c` and `b`
    /// are taken out of these first; then the product of the numerators is made, and then that of
    /// the denominators. The answer is the first of these two steps that is too wide, where there
    /// is one.
    pub fn mul(self, other: Frac) -> Result<Frac, Wide>
        ensures steps { result ≡ mul_of self other }
        ensures exact { IfOk result (λ f. IsSame f (times self other)) }
        ensures lowest { IfOk result IsLowest }
    {
        product_of(self.num, self.den, other.num, other.den)
    }

    /// The quotient by a number other than 0: the product of this and the other's reciprocal, and
    /// too wide where that is.
    pub fn div(self, other: Frac) -> Result<Frac, Wide>
        requires { other.num ≢ pos 0 }
        ensures steps { result ≡ div_of self other }
        ensures exact { IfOk result (λ f. IsSame (times f other) self) }
        ensures lowest { IfOk result IsLowest }
    {
        let (num, den) = turned(other.num, other.den);
        product_of(self.num, self.den, num, den)
    }

    /// How the values compare, by Euclid's steps: never too wide.
    pub fn compare(self, other: Frac) -> Ordering
        ensures { result ≡ order_of self other }
    {
        order(self.num, self.den, other.num, other.den)
    }
}

/// A whole number over 1.
impl From<i64> for Frac {
    ghost use Rattle.std.specs.Prelude.{◌≡◌};
    ghost use Rattle.zr_base.specs.Fractions.{whole};
    ghost use Rattle.zr_base.specs.Lowest.{IsLowest};

    ghost from_gives = { λ z f. (f ≡ whole z) × IsLowest f };

    fn from(z: i64) -> Frac {
        Frac {
            num: i128::from(z),
            den: 1,
        }
    }
}

/// `num / den` in lowest terms.
fn reduced(num: i128, den: i128) -> Frac
    requires { IsRatio num den }
    ensures { result ≡ reduce num den }
{
    let (num, den) = lowest_terms(num, den);
    Frac { num, den }
}

/// `a / b + c / d`.
fn sum_of(a: i128, b: i128, c: i128, d: i128) -> Result<Frac, Wide>
    requires left { IsRatio a b }
    requires right { IsRatio c d }
    ensures { result ≡ add_of (ratio a b) (ratio c d) }
{
    let (left, right) = lowest_terms(b, d);
    let num = cross((a, right), (-c, left))?;
    let den = cross((b, right), (0, 0))?;
    Ok(reduced(num, den))
}

/// The product of `a / b` and `c / d`.
fn product_of(a: i128, b: i128, c: i128, d: i128) -> Result<Frac, Wide>
    requires left { IsRatio a b }
    requires right { IsRatio c d }
    ensures { result ≡ mul_of (ratio a b) (ratio c d) }
{
    let (a_left, d_left) = lowest_terms(a, d);
    let (c_left, b_left) = lowest_terms(c, b);
    let num = cross((a_left, c_left), (0, 0))?;
    let den = cross((b_left, d_left), (0, 0))?;
    Ok(reduced(num, den))
}

/// The numbers of `den / num`, with the sign at the numerator.
fn turned(num: i128, den: i128) -> (i128, i128)
    requires ratio { IsRatio num den }
    requires nonzero { num ≢ pos 0 }
    ensures value { ratio result.0 result.1 ≡ reciprocal (ratio num den) }
    ensures ratio { IsRatio result.0 result.1 }
{
    if num < 0 { (-den, -num) } else { (den, num) }
}
