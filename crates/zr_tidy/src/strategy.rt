ghost use Rattle.std.specs.Prelude.{◌≡◌, ◌<◌, pos, ◌<ℤ◌, ◌≤ℤ◌, unsigned_abs, length, map, IfOk};
ghost use Rattle.std.specs.List.{All};
ghost use Rattle.zr_base.specs.Steps.{IsNarrow};
ghost use Rattle.zr_game.specs.Profiles.{total as weights_of};
ghost use Rattle.zr_mix.specs.Mixtures.{part_of};
ghost use Rattle.zr_cert.specs.Certs.{mixture_of};
ghost use Rattle.zr_tidy.specs.Merges.{AreDivided};
ghost use Rattle.zr_tidy.specs.Tidy.{AreParts, DividesWeights, IsGreatestWeight, IsTidied};

use crate::merge::merged;
use std::alloc::Global;
use zr_base::{NoMemory, common, divided};
use zr_mix::{Part, Strategy};

/// The strategy of these parts as it is printed: points in lowest terms, each once and in ascending
/// order, and weights without a common divisor above 1.
///
/// There is at least one part. Weights are at least 1, and their sum is below 2^127; each point has
/// as many numbers as the first, at least one. The call fails for want of memory alone.
pub fn tidy(alloc: Global, raw: &[Part]) -> Result<Strategy, NoMemory>
    requires { AreParts (map part_of raw.now) }
    ensures { IfOk result (λ strategy. IsTidied (map part_of raw.now) (mixture_of strategy)) }
{
    let mut parts = merged(alloc, raw)?;
    let shared = greatest_divisor(&parts);
    divide(&mut parts, shared);
    let total = total(&parts);
    Ok(Strategy { total, parts })
}

/// The greatest common divisor of the weights.
fn greatest_divisor(parts: &[Part]) -> i128
    requires some { 0 < length parts.now }
    requires weights { All (λ part. pos 1 ≤ℤ part.weight) parts.now }
    ensures { IsGreatestWeight result (map part_of parts.now) }
{
    let mut shared = parts[0].weight;
    for part in parts {
        shared = common(part.weight, shared);
    }
    shared
}

/// Takes a divisor out of each weight.
fn divide(parts: &mut [Part], by: i128)
    requires positive { pos 0 <ℤ by }
    requires divides { DividesWeights (unsigned_abs by) (map part_of parts.old) }
    ensures { AreDivided by (map part_of parts.old) (map part_of parts.new) }
{
    for part in parts.iter_mut() {
        part.weight = divided(part.weight, by);
    }
}

/// The sum of the weights.
fn total(parts: &[Part]) -> i128
    requires weights { All (λ part. pos 1 ≤ℤ part.weight) parts.now }
    requires narrow { IsNarrow (weights_of (map part_of parts.now)) }
    ensures { result ≡ weights_of (map part_of parts.now) }
{
    let mut sum = 0;
    for part in parts {
        sum += part.weight;
    }
    sum
}
