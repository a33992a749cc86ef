ghost use Rattle.std.specs.Prelude.{◌≡◌, ◌<◌, ◌≤ℤ◌, pos, length, map, IfOk, OnOk};
ghost use Rattle.std.specs.List.{All};
ghost use Rattle.zr_base.specs.Fractions.{IsSame, over, ratio, times};
ghost use Rattle.zr_base.specs.Lowest.{IsLowest, reduce};
ghost use Rattle.zr_base.specs.Made.{Writes, made_from};
ghost use Rattle.zr_base.specs.Points.{value_of};
ghost use Rattle.zr_game.specs.Profiles.{total as weights_of, weighted};
ghost use Rattle.zr_game.specs.Means.{mean as mean_of_strategy};
ghost use Rattle.zr_mix.specs.Mixtures.{part_of, parts_of};
ghost use Rattle.zr_mix.specs.Steps.{mean_steps, share};
ghost use Rattle.zr_mix.specs.Values.{AreReduced};

use crate::mixture::{Part, Strategy};
use zr_base::{Frac, Wide};

/// The strategy's mean of each variable, of which each point has as many values as `out` has
/// places.
///
/// A mean is the sum over the parts, in their order and from 0, of weight over total, in lowest
/// terms, times the value, in lowest terms. The answer is the first of these steps that is too
/// wide, variable by variable, where there is one; `out` is then of no use. What `out` held before
/// counts for nothing. Where `total` is the sum of the weights, these are the strategy's means.
pub fn means(strategy: &Strategy, out: &mut [Frac]) -> Result<(), Wide>
    requires total { pos 1 ≤ℤ strategy.now.total }
    requires weights { All (λ part. pos 1 ≤ℤ part.weight) (parts_of strategy.now) }
    requires lengths { All (λ part. length part.point.num ≡ length out.old)
        (parts_of strategy.now) }
    ensures steps { Writes (made_from (mean_steps strategy.now.total (parts_of strategy.now)) 0
        (length out.old)) result out.new }
    ensures exact { OnOk result (strategy.now.total ≡ weights_of (parts_of strategy.now)
        → AreReduced out.new (length out.old) (mean_of_strategy (parts_of strategy.now))) }
{
    for v in 0..out.len() {
        out[v] = mean_at(&strategy.parts, strategy.total, v)?;
    }
    Ok(())
}

/// The mean of variable `v`.
fn mean_at(parts: &[Part], total: i128, v: usize) -> Result<Frac, Wide>
    requires total { pos 1 ≤ℤ total }
    requires weights { All (λ part. pos 1 ≤ℤ part.weight) parts.now }
    requires places { All (λ part. v < length part.point.num) parts.now }
    ensures steps { result ≡ mean_steps total (map part_of parts.now) v }
    ensures exact { IfOk result (λ f. IsSame f (over (weighted (map part_of parts.now)
        (λ x. value_of x v)) total)) }
    ensures lowest { IfOk result IsLowest }
{
    let mut sum = Frac::from(0);
    for part in parts {
        let term = share_of(part, total, v)?;
        sum = sum.add(term)?;
    }
    Ok(sum)
}

/// A part's share of the mean of variable `v`.
fn share_of(part: &Part, total: i128, v: usize) -> Result<Frac, Wide>
    requires total { pos 1 ≤ℤ total }
    requires weight { pos 1 ≤ℤ part.now.weight }
    requires place { v < length part.now.point.num }
    ensures steps { result ≡ share total v (part_of part.now) }
    ensures exact { IfOk result (λ f. IsSame f (times (ratio part.now.weight total)
        (value_of part.now.point v))) }
    ensures lowest { IfOk result IsLowest }
{
    probability(part.weight, total).mul(part.point.value(v))
}

/// `weight / total`.
fn probability(weight: i128, total: i128) -> Frac
    requires weight { pos 1 ≤ℤ weight }
    requires total { pos 1 ≤ℤ total }
    ensures value { result ≡ reduce weight total }
    ensures same { IsSame result (ratio weight total) }
    ensures lowest { IsLowest result }
{
    Frac::new(weight, total).unwrap()
}
