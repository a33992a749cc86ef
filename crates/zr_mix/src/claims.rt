ghost use Rattle.std.specs.Prelude.{◌≡◌, ◌<◌, ◌∷◌, [], ℕ, ℤ, pos, ◌<ℤ◌, length, slice_index_or, IfOk, OnOk};
ghost use Rattle.std.specs.List.{All};
ghost use Rattle.zr_base.specs.Made.{Writes};
ghost use Rattle.zr_mix.specs.Steps.{GivesClaim, all_negated, claim_steps, multiple_steps, negated_over};
ghost use Rattle.zr_mix.specs.Claims.{IsClaim, IsMultipleOf};
ghost use Rattle.zr_mix.specs.Multiples.{IsLcm, IsLcmOf, IsNegatedOver};
ghost use Rattle.zr_mix.specs.Values.{item_of};

use zr_base::{Frac, Wide, common, cross, divided};

/// The claim `-m * slope * x <= -m * value`: its left side in `out`, which has a place for each
/// number of the slope, and its right side as the answer. Here m is the least common multiple of
/// all denominators.
///
/// A multiple is carried from 1 through the denominators of the slope, in their order, and then
/// that of the value; then the numbers of the left side are made in their order, and the right
/// side last. The answer is the first of these steps that is too wide, where there is one; `out`
/// is then of no use. What `out` held before counts for nothing.
pub fn claim(slope: &[Frac], value: Frac, out: &mut [i128]) -> Result<i128, Wide>
    requires { length out.old ≡ length slope.now }
    ensures steps { GivesClaim (claim_steps slope.now value) result out.new }
    ensures exact { IfOk result (λ right. (m : ℤ) × IsClaim slope.now value m out.new right) }
{
    let of_slope = multiple_of(slope)?;
    let shared = multiple_with(of_slope, value)?;
    write_left(slope, shared, out)?;
    negated(value, shared)
}

/// The least common multiple of the denominators.
fn multiple_of(slope: &[Frac]) -> Result<i128, Wide>
    ensures steps { result ≡ multiple_steps (pos 1) slope.now }
    ensures exact { IfOk result (IsLcmOf slope.now) }
{
    let mut shared = 1;
    for f in slope {
        shared = multiple_with(shared, *f)?;
    }
    Ok(shared)
}

/// The least common multiple of a number and a denominator.
fn multiple_with(m: i128, f: Frac) -> Result<i128, Wide>
    requires { pos 0 <ℤ m }
    ensures steps { result ≡ multiple_steps m (f ∷ []) }
    ensures exact { IfOk result (IsLcm m f.den) }
{
    let den = f.den();
    let shared = common(m, den);
    cross((m, divided(den, shared)), (0, 0))
}

/// Puts the numbers of the slope over `m`, negated, into `out`.
fn write_left(slope: &[Frac], m: i128, out: &mut [i128]) -> Result<(), Wide>
    requires len { length out.old ≡ length slope.now }
    requires positive { pos 0 <ℤ m }
    requires multiples { All (IsMultipleOf m) slope.now }
    ensures steps { Writes (all_negated m slope.now) result out.new }
    ensures exact { OnOk result ((v : ℕ) → v < length slope.now
        → IsNegatedOver m (item_of slope.now v) (slice_index_or out.new v (pos 0))) }
{
    for v in 0..slope.len() {
        out[v] = negated(slope[v], m)?;
    }
    Ok(())
}

/// The fraction's number over `m`, negated.
fn negated(f: Frac, m: i128) -> Result<i128, Wide>
    requires positive { pos 0 <ℤ m }
    requires multiple { IsMultipleOf m f }
    ensures steps { result ≡ negated_over m f }
    ensures exact { IfOk result (IsNegatedOver m f) }
{
    cross((-f.num(), divided(m, f.den())), (0, 0))
}
