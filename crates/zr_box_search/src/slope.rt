ghost use Rattle.std.specs.Prelude.{◌≡◌, ◌==◌, ◌<◌, ◌≤◌, ◌+◌, ◌*◌, ◌+ℤ◌, ◌*ℤ◌, int_lt, ℕ, pos, None, IfOk, if◌then◌else◌, length, slice_index_or};
ghost use Rattle.std.specs.List.{All};
ghost use Rattle.zr_base.specs.Steps.{IsNarrow};
ghost use Rattle.zr_base.specs.Sums.{sum_products};
ghost use Rattle.zr_base.specs.Terms.{coef_at};
ghost use Rattle.zr_game.specs.Players.{player_of};
ghost use Rattle.zr_simplex.specs.Programs.{numbers};
ghost use Rattle.zr_boxes.specs.Gains.{slope_range};
ghost use Rattle.zr_boxes.specs.Paths.{box_of};
ghost use Rattle.zr_boxes.specs.Ranges.{range_of};
ghost use Rattle.zr_box_search.specs.Sides.{end_of, end_pairs, high_end, low_end};
ghost use Rattle.zr_box_search.specs.Sizes.{IsNearPlayer, IsNearTerm, IsUpTo, number_size, product_size, slope_size};

use std::alloc::Global;
use zr_base::NoMemory;
use zr_game::{CrossTerm, Leaf, Player};

/// The least and the greatest value of something.
#[derive(Clone, Copy)]
pub(crate) struct Ends {
    pub(crate) low: i128,
    pub(crate) high: i128,
}

/// The lower bound of the variable of player `i` in the box; 0 stands for one that it hasn't.
pub(crate) fn low_at(leaves: &[Leaf], i: u32, var: usize) -> i64
    ensures { result ≡ (range_of (box_of leaves.now) i var).low }
{
    let i = i as usize;
    if i >= leaves.len() {
        return 0;
    }
    bound_at(&leaves[i].low, var).unwrap_or(0)
}

/// Its upper bound.
pub(crate) fn high_at(leaves: &[Leaf], i: u32, var: usize) -> i64
    ensures { result ≡ (range_of (box_of leaves.now) i var).high }
{
    let i = i as usize;
    if i >= leaves.len() {
        return 0;
    }
    bound_at(&leaves[i].high, var).unwrap_or(0)
}

/// The bound of the variable, if it has one.
pub(crate) fn bound_at(bounds: &[Option<i64>], var: usize) -> Option<i64>
    ensures { result ≡ slice_index_or bounds.now var None }
{
    if var < bounds.len() {
        bounds[var]
    } else {
        None
    }
}

/// The number of the variable in the terms; 0 where it stands in none.
pub(crate) fn number_at(terms: &[(u32, i64)], v: usize) -> i64
    ensures { result ≡ coef_at terms.now v }
{
    for (var, number) in terms {
        if *var as usize == v {
            return *number;
        }
    }
    0
}

/// A cross term's number times its other variable: the least and the greatest value in the box.
fn term_ends(term: &CrossTerm, leaves: &[Leaf]) -> Ends
    requires { IsNearTerm (box_of leaves.now) term.now }
    ensures low { result.low
        ≡ term.now.coef *ℤ end_of low_end (box_of leaves.now) term.now }
    ensures high { result.high
        ≡ term.now.coef *ℤ end_of high_end (box_of leaves.now) term.now }
    ensures least { IsUpTo product_size result.low }
    ensures greatest { IsUpTo product_size result.high }
{
    let low = low_at(leaves, term.player, term.var as usize);
    let high = high_at(leaves, term.player, term.var as usize);
    Ends {
        low: product(term.coef, least_end(term.coef, low, high)),
        high: product(term.coef, greatest_end(term.coef, low, high)),
    }
}

/// Of the two ends of a range the one at which the number times it is least.
fn least_end(number: i64, low: i64, high: i64) -> i64
    requires first { IsUpTo number_size low }
    requires second { IsUpTo number_size high }
    ensures value { result ≡ low_end number low high }
    ensures size { IsUpTo number_size result }
{
    if is_less_times(number, high, low) {
        high
    } else {
        low
    }
}

/// The one at which it is greatest.
fn greatest_end(number: i64, low: i64, high: i64) -> i64
    requires first { IsUpTo number_size low }
    requires second { IsUpTo number_size high }
    ensures value { result ≡ high_end number low high }
    ensures size { IsUpTo number_size result }
{
    if is_less_times(number, low, high) {
        high
    } else {
        low
    }
}

/// Whether `number` times `a` is less than `number` times `b`. No product is made.
fn is_less_times(number: i64, a: i64, b: i64) -> bool
    ensures { result ≡ int_lt (number *ℤ a) (number *ℤ b) }
{
    if number < 0 {
        return a > b;
    }
    number > 0 && a < b
}

fn product(a: i64, b: i64) -> i128
    requires first { IsUpTo number_size a }
    requires second { IsUpTo number_size b }
    ensures value { result ≡ a *ℤ b }
    ensures size { IsUpTo product_size result }
{
    i128::from(a) * i128::from(b)
}

/// The sums so far, and the term where it is one of variable `v`; `count` terms were looked at.
fn with_term(sum: Ends, term: &CrossTerm, leaves: &[Leaf], v: usize, count: usize) -> Ends
    requires term { IsNearTerm (box_of leaves.now) term.now }
    requires few { count < 65536 }
    requires least { IsUpTo (number_size + count * product_size) sum.low }
    requires greatest { IsUpTo (number_size + count * product_size) sum.high }
    ensures low { result.low ≡ sum.low +ℤ (if term.now.own == v
        then term.now.coef *ℤ end_of low_end (box_of leaves.now) term.now else pos 0) }
    ensures high { result.high ≡ sum.high +ℤ (if term.now.own == v
        then term.now.coef *ℤ end_of high_end (box_of leaves.now) term.now else pos 0) }
    ensures least { IsUpTo (number_size + (count + 1) * product_size) result.low }
    ensures greatest { IsUpTo (number_size + (count + 1) * product_size) result.high }
{
    if term.own as usize != v {
        return sum;
    }
    let ends = term_ends(term, leaves);
    Ends {
        low: sum.low + ends.low,
        high: sum.high + ends.high,
    }
}

/// The least and the greatest slope of the player's cost along variable `v` in the box.
pub(crate) fn slope_ends(player: &Player, leaves: &[Leaf], v: usize) -> Ends
    requires { (i : ℕ) × IsNearPlayer (player_of player.now) i (box_of leaves.now) }
    ensures low { result.low ≡ (slope_range (player_of player.now) (box_of leaves.now) v).low }
    ensures high { result.high ≡ (slope_range (player_of player.now) (box_of leaves.now) v).high }
    ensures least { IsUpTo slope_size result.low }
    ensures greatest { IsUpTo slope_size result.high }
{
    let own = i128::from(number_at(player.cost.as_slice(), v));
    cross_ends(own, &player.cross, leaves, v)
}

/// The number and the cross terms of variable `v`, each at its least or its greatest.
fn cross_ends(own: i128, cross: &[CrossTerm], leaves: &[Leaf], v: usize) -> Ends
    requires own { IsUpTo number_size own }
    requires few { length cross.now ≤ 65536 }
    requires cross { All (IsNearTerm (box_of leaves.now)) cross.now }
    ensures low { result.low
        ≡ own +ℤ sum_products (end_pairs low_end (box_of leaves.now) v cross.now) }
    ensures high { result.high
        ≡ own +ℤ sum_products (end_pairs high_end (box_of leaves.now) v cross.now) }
    ensures least { IsUpTo slope_size result.low }
    ensures greatest { IsUpTo slope_size result.high }
{
    let mut sum = Ends {
        low: own,
        high: own,
    };
    for (count, term) in cross.iter().enumerate() {
        sum = with_term(sum, term, leaves, v, count);
    }
    sum
}

/// The least slopes of the player's cost in the box, one for each of its variables.
pub(crate) fn slopes(alloc: Global, player: &Player, leaves: &[Leaf]) -> Result<Vec<i128>, NoMemory>
    requires { (i : ℕ) × IsNearPlayer (player_of player.now) i (box_of leaves.now) }
    ensures len { IfOk result (λ aim. length aim.items ≡ length (player_of player.now).vars) }
    ensures values { IfOk result (λ aim. (v : ℕ) → v < length (player_of player.now).vars
        → numbers aim.items v
        ≡ (slope_range (player_of player.now) (box_of leaves.now) v).low) }
    ensures narrow { IfOk result (λ aim. All IsNarrow aim.items) }
{
    let mut aim = Vec::new(alloc);
    for v in 0..player.vars.len() {
        let slope = slope_ends(player, leaves, v);
        let Ok(()) = aim.push(slope.low) else {
            return Err(NoMemory);
        };
    }
    Ok(aim)
}
