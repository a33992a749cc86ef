ghost use Rattle.std.specs.Prelude.{◌≡◌, ℕ, length, IfOk};
ghost use Rattle.zr_base.specs.Fractions.{Fraction, IsSame, sum_below, times};
ghost use Rattle.zr_base.specs.Lowest.{IsLowest};
ghost use Rattle.zr_mix.specs.Steps.{value_steps};
ghost use Rattle.zr_mix.specs.Values.{AreReduced, IsReduced, item_of};

use zr_base::{Frac, Wide};

/// The sum of slope times mean, for a slope and a mean of the same length.
///
/// The products are added in the order of the variables, from 0. The answer is the first product
/// or sum that is too wide, where there is one.
pub fn value(slope: &[Frac], mean: &[Frac]) -> Result<Frac, Wide>
    requires { length slope.now ≡ length mean.now }
    ensures steps { result ≡ value_steps slope.now mean.now }
    ensures exact { IfOk result (λ f. IsSame f (sum_below (length slope.now) (λ v. times
        (item_of slope.now v) (item_of mean.now v)))) }
    ensures lowest { IfOk result IsLowest }
    ensures along { (f g : ℕ → Fraction) → AreReduced slope.now (length slope.now) f
        → AreReduced mean.now (length slope.now) g
        → IfOk result (λ r. IsReduced r (sum_below (length slope.now) (λ v. times (f v) (g v)))) }
{
    let mut sum = Frac::from(0);
    for v in 0..slope.len() {
        let term = slope[v].mul(mean[v])?;
        sum = sum.add(term)?;
    }
    Ok(sum)
}
