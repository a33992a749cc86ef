ghost use Rattle.std.specs.Prelude.{◌≡◌, ◌↔◌, ◌<◌, ◌≤◌, ◌+◌, ◌*◌, ◌^◌, ℕ, ℤ, pos, true, None, Some, Ok, IsTrue, length, map, slice_get, slice_index_or};
ghost use Rattle.std.specs.List.{All};
ghost use Rattle.zr_base.specs.Sums.{sum_steps};
ghost use Rattle.zr_base.specs.Rows.{products};
ghost use Rattle.zr_base.specs.Tests.{Tells};
ghost use Rattle.zr_game.specs.Players.{VarOf, player_of, var_of};
ghost use Rattle.zr_game.specs.Leaves.{Bound, BoundHolds, IsSettled, leaf_of, slot_of};
ghost use Rattle.zr_tree.specs.Covers.{KeepsCover};
ghost use Rattle.zr_tree.specs.CoverSteps.{IsWideForCover, SlotMet, bound_holds_of, known_wide, slot_wide};
ghost use Rattle.zr_tree.specs.Nodes.{KnownNode};
ghost use Rattle.zr_tree.specs.Paths.{HasPlaces};
ghost use Rattle.zr_tree.specs.SlotRows.{IsLeft, left_terms, rows_at, signed_terms, slot_bound};
ghost use Rattle.zr_tree.specs.Visits.{EndTells, HasForms};

use crate::combination::with_sign;
use crate::slot::{Left, SlotRow, slot_count, slot_row};
use zr_base::{Point, Wide, add_product, cross};
use zr_game::{Leaf, Pair, Player, Side, Var};

/// Whether the leaf is settled, and the point has a number for each variable and meets the row of
/// each slot that is present.
///
/// For a point of another length no sum is made. Else all sums are made; the answer is the first
/// step of these that is too wide, where there is one.
pub(crate) fn is_known(player: &Player, leaf: &Leaf, point: &Point) -> Result<bool, Wide>
    requires forms { HasForms (player_of player.now) }
    requires places { HasPlaces (player_of player.now) leaf.now }
    ensures { EndTells result (KeepsCover (player_of player.now))
        (IsWideForCover (player_of player.now)) (leaf_of leaf.now) (KnownNode point.now) }
{
    let _den = point.den();
    if point.len() != player.vars.len() {
        return Ok(false);
    }
    let meets = meets_slots(player, leaf, point)?;
    Ok(meets & is_settled(player, leaf))
}

/// Whether the point meets the row of each slot that is present.
fn meets_slots(player: &Player, leaf: &Leaf, point: &Point) -> Result<bool, Wide>
    requires forms { HasForms (player_of player.now) }
    requires places { HasPlaces (player_of player.now) leaf.now }
    requires len { length point.now.num ≡ length (player_of player.now).vars }
    ensures { Tells result ((k : ℕ) (row : Bound)
        → slot_of (rows_at player.now leaf.now) k ≡ Some row
        → BoundHolds (player_of player.now) point.now row)
        (known_wide (player_of player.now) (leaf_of leaf.now) point.now) }
{
    let mut all = true;
    for slot in 0..slot_count(player) {
        all &= meets_slot(player, leaf, slot, point)?;
    }
    Ok(all)
}

/// Whether the point meets the row of the slot, if that is present.
fn meets_slot(player: &Player, leaf: &Leaf, slot: usize, point: &Point) -> Result<bool, Wide>
    requires forms { HasForms (player_of player.now) }
    requires places { HasPlaces (player_of player.now) leaf.now }
    requires len { length point.now.num ≡ length (player_of player.now).vars }
    ensures { Tells result (SlotMet (player_of player.now) point.now
        (slot_of (rows_at player.now leaf.now) slot))
        (slot_wide (length (player_of player.now).vars) point.now
        (slot_of (rows_at player.now leaf.now) slot)) }
{
    match slot_row(player, leaf, slot) {
        None => Ok(true),
        Some(row) => meets_row(&row, point),
    }
}

fn meets_row(row: &SlotRow, point: &Point) -> Result<bool, Wide>
    requires { IsLeft (length point.now.num) row.now.left }
    ensures { result ≡ bound_holds_of (length point.now.num) point.now (slot_bound row.now) }
{
    let left = left_at(&row.left, point)?;
    let right = cross((row.le, point.den()), (0, 0))?;
    Ok(left <= right)
}

/// The left side of a slot's row at the point, times its denominator.
fn left_at(left: &Left, point: &Point) -> Result<i128, Wide>
    requires { IsLeft (length point.now.num) left.now }
    ensures { result ≡ sum_steps (pos 0) (products (left_terms left.now) point.now.num) }
{
    match left {
        Left::Terms { terms, negated } => terms_at(terms, *negated, point),
        Left::Column { var, number } => add_product(0, i128::from(*number), point.num(*var)),
    }
}

fn terms_at(terms: &[(u32, i64)], negated: bool, point: &Point) -> Result<i128, Wide>
    requires { All (λ t. t.0 < length point.now.num) terms.now }
    ensures { result ≡ sum_steps (pos 0)
        (products (signed_terms negated terms.now) point.now.num) }
{
    let mut sum = 0;
    for (column, number) in terms {
        let number = with_sign(negated, *number);
        sum = add_product(sum, number, point.num(*column as usize))?;
    }
    Ok(sum)
}

/// Whether each whole variable has one value at the leaf, and no pair is undecided.
fn is_settled(player: &Player, leaf: &Leaf) -> bool
    requires { HasPlaces (player_of player.now) leaf.now }
    ensures { IsTrue result ↔ IsSettled (player_of player.now) (leaf_of leaf.now) }
{
    let fixed = are_fixed(&player.vars, &leaf.low, &leaf.high);
    fixed & are_decided(&player.pairs, &leaf.sides)
}

fn are_fixed(vars: &[Var], low: &[Option<i64>], high: &[Option<i64>]) -> bool
    requires lows { length vars.now ≤ length low.now }
    requires highs { length vars.now ≤ length high.now }
    ensures { IsTrue result ↔ ((v : ℕ) (var : VarOf) → slice_get (map var_of vars.now) v ≡ Some var
        → var.whole ≡ true
        → (value : ℤ) × (slice_index_or low.now v None ≡ Some value)
        × (slice_index_or high.now v None ≡ Some value)) }
{
    let mut all = true;
    for (v, var) in vars.iter().enumerate() {
        all &= is_fixed(var, low[v], high[v]);
    }
    all
}

fn is_fixed(var: &Var, low: Option<i64>, high: Option<i64>) -> bool
    ensures { IsTrue result ↔ (var.now.whole ≡ true → (value : ℤ) × (low ≡ Some value)
        × (high ≡ Some value)) }
{
    !var.whole || low.is_some() && low == high
}

/// Whether the side of each pair is decided.
fn are_decided(pairs: &[Pair], sides: &[Side]) -> bool
    requires { length pairs.now ≤ length sides.now }
    ensures { IsTrue result ↔ ((p : ℕ) → p < length pairs.now
        → slice_index_or sides.now p Side.Undecided ≡ Side.Undecided → ⊥) }
{
    let mut all = true;
    for (p, _) in pairs.iter().enumerate() {
        all &= is_decided(sides[p]);
    }
    all
}

fn is_decided(side: Side) -> bool
    ensures { IsTrue result ↔ (side ≡ Side.Undecided → ⊥) }
{
    side != Side::Undecided
}
