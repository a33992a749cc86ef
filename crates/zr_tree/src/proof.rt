ghost use Rattle.std.specs.Prelude.{◌≡◌, ◌<◌, ◌≤◌, ℕ, pos, ◌*ℤ◌, ◌<ℤ◌, ◌≤ℤ◌, ◌⊎◌, ◌↔◌, IsTrue, length, slice_index_or};
ghost use Rattle.zr_base.specs.Steps.{cross_of};
ghost use Rattle.zr_base.specs.Tests.{Tells, first_wide, wide_in};
ghost use Rattle.zr_game.specs.Players.{player_of};
ghost use Rattle.zr_game.specs.Leaves.{bound_with, leaf_of};
ghost use Rattle.zr_tree.specs.Paths.{HasPlaces};
ghost use Rattle.zr_tree.specs.Right.{ArePositive};
ghost use Rattle.zr_tree.specs.Visits.{HasForms, ProofTells};

use crate::combination::combine;
use crate::slot::are_present;
use zr_base::{Wide, cross};
use zr_game::{Leaf, Player};

/// Whether the leaf's slots, multiplied, prove the row `coef * x <= le` or refute the leaf.
///
/// Where a slot isn't present no sum is made. Else all sums are made, and then `scale` times the
/// row; the answer is a step of these that is too wide, where there is one. `sums` is room for a
/// number per column.
pub(crate) fn proves(
    player: &Player,
    leaf: &Leaf,
    scale: i128,
    mult: &[(u32, i128)],
    coef: &[i128],
    le: i128,
    sums: &mut [i128],
) -> Result<bool, Wide>
    requires forms { HasForms (player_of player.now) }
    requires places { HasPlaces (player_of player.now) leaf.now }
    requires coef { length coef.now ≡ length (player_of player.now).vars }
    requires columns { length (player_of player.now).vars ≤ length sums.old }
    requires positive { ArePositive mult.now }
    ensures { ProofTells result (player_of player.now) (bound_with coef.now le)
        (leaf_of leaf.now) scale mult.now }
{
    evaluate(player, leaf, scale, mult, coef, le, &mut sums[..coef.len()])
}

fn evaluate(
    player: &Player,
    leaf: &Leaf,
    scale: i128,
    mult: &[(u32, i128)],
    coef: &[i128],
    le: i128,
    sums: &mut [i128],
) -> Result<bool, Wide>
    requires forms { HasForms (player_of player.now) }
    requires places { HasPlaces (player_of player.now) leaf.now }
    requires coef { length coef.now ≡ length (player_of player.now).vars }
    requires columns { length sums.old ≡ length (player_of player.now).vars }
    requires positive { ArePositive mult.now }
    ensures { ProofTells result (player_of player.now) (bound_with coef.now le)
        (leaf_of leaf.now) scale mult.now }
{
    if !are_present(player, leaf, mult) {
        return Ok(false);
    }
    let right = combine(player, leaf, mult, sums)?;
    let left = matches(scale, coef, sums)?;
    let below = is_below(scale, le, right)?;
    Ok(left & below)
}

/// Whether the sums are `scale` times the row's numbers.
fn matches(scale: i128, coef: &[i128], sums: &[i128]) -> Result<bool, Wide>
    requires { length sums.now ≡ length coef.now }
    ensures { Tells result ((j : ℕ) → j < length coef.now
        → slice_index_or sums.now j (pos 0) ≡ scale *ℤ slice_index_or coef.now j (pos 0))
        (first_wide (λ c. wide_in (cross_of (scale, c) (pos 0, pos 0))) coef.now) }
{
    let mut all = true;
    for (j, number) in coef.iter().enumerate() {
        all &= is_multiple(scale, *number, sums[j])?;
    }
    Ok(all)
}

fn is_multiple(scale: i128, number: i128, sum: i128) -> Result<bool, Wide>
    ensures { Tells result (sum ≡ scale *ℤ number)
        (wide_in (cross_of (scale, number) (pos 0, pos 0))) }
{
    let product = cross((scale, number), (0, 0))?;
    Ok(is_same(sum, product))
}

fn is_same(sum: i128, product: i128) -> bool
    ensures { IsTrue result ↔ (sum ≡ product) }
{
    sum == product
}

/// Whether the right side is at most `scale * le`, or below zero where the scale is 0.
fn is_below(scale: i128, le: i128, right: i128) -> Result<bool, Wide>
    ensures { Tells result (((pos 1 ≤ℤ scale) × (right ≤ℤ (scale *ℤ le)))
        ⊎ ((scale ≡ pos 0) × (right <ℤ (pos 0))))
        (wide_in (cross_of (scale, le) (pos 0, pos 0))) }
{
    let product = cross((scale, le), (0, 0))?;
    Ok(is_at_most(scale, product, right))
}

fn is_at_most(scale: i128, product: i128, right: i128) -> bool
    ensures { IsTrue result ↔ (((pos 1 ≤ℤ scale) × (right ≤ℤ product))
        ⊎ ((scale ≡ pos 0) × (right <ℤ (pos 0)))) }
{
    scale >= 1 && right <= product || scale == 0 && right < 0
}
