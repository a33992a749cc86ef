ghost use Rattle.std.specs.Prelude.{◌≡◌, ◌*ℤ◌, ◌-ℤ◌, IfOk};
ghost use Rattle.zr_base.specs.Steps.{IsNarrow, cross_of, narrow, narrow_cross};
ghost use Rattle.zr_base.specs.Sums.{sum_step};

use thiserror::Error;

/// One step of arithmetic, `left.0 * left.1 - right.0 * right.1`, one of whose products, or whose
/// result, lies outside `±(2^127 - 1)`.
#[derive(Clone, Copy, Debug, PartialEq, Eq, Error)]
#[error("too wide: the products of {left:?} and of {right:?}, or their difference")]
pub struct Wide {
    pub left: (i128, i128),
    pub right: (i128, i128),
}

/// `left.0 * left.1 - right.0 * right.1`, exactly.
///
/// Where one of the two products or their difference lies outside `±(2^127 - 1)`, the answer is
/// the step itself.
#[tactic(auto, unfolding(crate::specs::Steps::cross_of))]
pub fn cross(left: (i128, i128), right: (i128, i128)) -> Result<i128, Wide>
    ensures { result ≡ cross_of left right }
{
    difference_of_products(left, right).ok_or(Wide { left, right })
}

#[tactic(auto, unfolding(crate::specs::Steps::narrow_cross))]
fn difference_of_products(left: (i128, i128), right: (i128, i128)) -> Option<i128>
    ensures { result ≡ narrow_cross left right }
{
    let first = product(left.0, left.1)?;
    let second = product(right.0, right.1)?;
    difference(first, second)
}

#[tactic(auto, unfolding(crate::specs::Steps::narrow), using(std::proofs::lemmas::Int::ints))]
fn product(a: i128, b: i128) -> Option<i128>
    ensures { result ≡ narrow (a *ℤ b) }
{
    a.checked_mul(b).filter(|value| *value != i128::MIN)
}

#[tactic(auto, unfolding(crate::specs::Steps::narrow), using(std::proofs::lemmas::Int::ints))]
fn difference(a: i128, b: i128) -> Option<i128>
    ensures { result ≡ narrow (a -ℤ b) }
{
    a.checked_sub(b).filter(|value| *value != i128::MIN)
}

/// `sum + a * b`: the one step of which all running sums are made.
pub fn add_product(sum: i128, a: i128, b: i128) -> Result<i128, Wide>
    requires { IsNarrow sum }
    ensures step { result ≡ sum_step sum (a, b) }
    ensures narrow { IfOk result IsNarrow }
{
    cross((a, b), (-sum, 1))
}
