ghost use Rattle.std.specs.Prelude.{◌≡◌, ◌<◌, ℕ, neg_ℤ, ◌≤ℤ◌, ◌<ℤ◌, None, Some, IfSome, MatchOption, true, false, length, map, slice_index_or};
ghost use Rattle.zr_game.specs.Players.{var_of};
ghost use Rattle.zr_bnb.specs.Splits.{IsNear, split_limit};
ghost use Rattle.zr_cover.specs.Splits.{AreUnequal, AreFixed, AreOneValue, IsWithinBounds, IsUnfixed, StaysNear};

use zr_game::{Side, Var};

/// Up to this size a variable is split where its values on the leaf end: 2^61.
const SPLIT_LIMIT: i128 = 2_305_843_009_213_693_952;

/// Where a leaf is split.
#[derive(Clone, Copy)]
pub(crate) enum Split {
    /// The whole variable `var` is at most `at`, or at least `at + 1`.
    Var { var: u32, at: i64 },
    /// The pair's variable is 0, or its row is.
    Pair { pair: u32 },
}

/// The first pair that is undecided.
pub(crate) fn first_undecided(sides: &[Side]) -> Option<usize>
    ensures { MatchOption result
        ((p : ℕ) → p < length sides.now
        → slice_index_or sides.now p Side.Undecided ≡ Side.Undecided → ⊥)
        (λ p. (p < length sides.now)
        × (slice_index_or sides.now p Side.Undecided ≡ Side.Undecided)) }
{
    for (p, side) in sides.iter().enumerate() {
        if *side == Side::Undecided {
            return Some(p);
        }
    }
    None
}

/// The first whole variable that lacks a bound, or else the first one whose bounds differ.
pub(crate) fn next_variable(
    vars: &[Var],
    low: &[Option<i64>],
    high: &[Option<i64>],
) -> Option<usize>
    requires lows { length low.now ≡ length vars.now }
    requires highs { length high.now ≡ length vars.now }
    ensures { MatchOption result (AreFixed (map var_of vars.now) low.now high.now)
        (IsUnfixed (map var_of vars.now) low.now high.now) }
{
    match first_endless(vars, low, high) {
        Some(v) => Some(v),
        None => first_unfixed(vars, low, high),
    }
}

/// The first whole variable that lacks a bound.
fn first_endless(vars: &[Var], low: &[Option<i64>], high: &[Option<i64>]) -> Option<usize>
    requires lows { length low.now ≡ length vars.now }
    requires highs { length high.now ≡ length vars.now }
    ensures { IfSome result (IsUnfixed (map var_of vars.now) low.now high.now) }
{
    for (v, var) in vars.iter().enumerate() {
        if is_endless(var, low[v], high[v]) {
            return Some(v);
        }
    }
    None
}

fn is_endless(var: &Var, low: Option<i64>, high: Option<i64>) -> bool
    ensures { result ≡ true → (var.now.whole ≡ true) × AreUnequal low high }
{
    var.whole && (low.is_none() || high.is_none())
}

/// The first whole variable that hasn't one value.
fn first_unfixed(vars: &[Var], low: &[Option<i64>], high: &[Option<i64>]) -> Option<usize>
    requires lows { length low.now ≡ length vars.now }
    requires highs { length high.now ≡ length vars.now }
    ensures { MatchOption result (AreFixed (map var_of vars.now) low.now high.now)
        (IsUnfixed (map var_of vars.now) low.now high.now) }
{
    for (v, var) in vars.iter().enumerate() {
        if is_unfixed(var, low[v], high[v]) {
            return Some(v);
        }
    }
    None
}

fn is_unfixed(var: &Var, low: Option<i64>, high: Option<i64>) -> bool
    ensures yes { result ≡ true → (var.now.whole ≡ true) × AreUnequal low high }
    ensures no { result ≡ false → var.now.whole ≡ true → AreOneValue low high }
{
    var.whole && !is_one_value(low, high)
}

fn is_one_value(low: Option<i64>, high: Option<i64>) -> bool
    ensures yes { result ≡ true → AreOneValue low high }
    ensures no { result ≡ false → AreUnequal low high }
{
    low.is_some() && low == high
}

/// The middle of two bounds, rounded down.
pub(crate) fn middle(low: i64, high: i64) -> i64
    requires order { low <ℤ high }
    requires low { IsNear 1000000000 low }
    requires high { IsNear 1000000000 high }
    ensures between { IsWithinBounds (Some low) (Some high) result }
    ensures near { StaysNear (Some low) (Some high) result }
{
    low + (high - low) / 2
}

/// The number, if it is within the limit and no lower than the bound; else the bound, or 0 where
/// there is none.
pub(crate) fn from_low(number: i128, low: Option<i64>) -> i64
    ensures between { IsWithinBounds low None result }
    ensures near { StaysNear low None result }
{
    match (within_limit(number), low) {
        (Some(number), Some(low)) => if number < low { low } else { number },
        (Some(number), None) => number,
        (None, Some(low)) => low,
        (None, None) => 0,
    }
}

/// The number, if it is within the limit and below the bound; else one less than the bound.
pub(crate) fn below_high(number: i128, high: i64) -> i64
    requires { IsNear 1000000000 high }
    ensures between { IsWithinBounds None (Some high) result }
    ensures near { StaysNear None (Some high) result }
{
    match within_limit(number) {
        Some(number) if number < high => number,
        _ => high - 1,
    }
}

/// The number, if it is no further from 0 than the limit.
fn within_limit(number: i128) -> Option<i64>
    ensures low { IfSome result (λ near. neg_ℤ split_limit ≤ℤ near) }
    ensures high { IfSome result (λ near. near ≤ℤ split_limit) }
{
    if -SPLIT_LIMIT <= number && number <= SPLIT_LIMIT {
        Some(number as i64)
    } else {
        None
    }
}
