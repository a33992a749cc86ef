ghost use Rattle.std.specs.Prelude.{◌≡◌, ◌<◌, ◌+◌, ℕ, ℤ, pos, neg_ℤ, ◌+ℤ◌, ◌-ℤ◌, ◌*ℤ◌, ◌≤ℤ◌, ◌<ℤ◌, Some, IfSome, MatchOption, IsTrue, true, false, ◌↔◌, length, slice_get, slice_index_or, map};
ghost use Rattle.zr_base.specs.Points.{num_of};
ghost use Rattle.zr_game.specs.Players.{PairOf, VarOf, pair_of, player_of, var_of};
ghost use Rattle.zr_game.specs.Feasible.{IsMultiple};
ghost use Rattle.zr_game.specs.Leaves.{IsLeafOf, MeetsLeaf, leaf_of};
ghost use Rattle.zr_game.specs.Rays.{change_of};
ghost use Rattle.zr_branch.specs.Replies.{IsSomePlayer};
ghost use Rattle.zr_bnb.specs.Splits.{AreNear, IsDivision, IsNear, IsStill, IsWholePoint, split_limit};

use zr_base::Point;
use zr_game::{Leaf, Pair, Player, Side, Var};

/// Up to this size a variable is split at its value rounded down: 2^61.
const SPLIT_LIMIT: i128 = 2_305_843_009_213_693_952;

/// Where a leaf is split.
#[derive(Clone, Copy)]
pub(crate) enum Split {
    /// The whole variable `var` is at most `at`, or at least `at + 1`.
    Var { var: u32, at: i64 },
    /// The pair's variable is 0, or its row is.
    Pair { pair: u32 },
}

/// Where to split a leaf whose rows hold at the point: at the first pair that is undecided and
/// whose variable isn't 0 at the point or along the ray, or else at the first whole variable that
/// isn't whole at the point. An empty ray stands for zeros.
pub(crate) fn where_to_split(
    player: &Player,
    leaf: &Leaf,
    point: &Point,
    ray: &[i128],
) -> Option<Split>
    requires player { (i : ℕ) × IsSomePlayer i (player_of player.now) }
    requires lengths { IsLeafOf (player_of player.now) leaf.now }
    requires point { MeetsLeaf (player_of player.now) (leaf_of leaf.now) point.now }
    requires near { AreNear (leaf_of leaf.now) 1000000000 }
    ensures split { (more : ℕ) → AreNear (leaf_of leaf.now) more
        → IfSome result (IsDivision (player_of player.now) (leaf_of leaf.now) more) }
    ensures none { MatchOption result (IsWholePoint (player_of player.now) point.now
        × IsStill (player_of player.now) (leaf_of leaf.now) point.now ray.now) (λ split. Unit {0}) }
{
    if let Some(p) = first_open_pair(&player.pairs, &leaf.sides, point, ray) {
        return Some(Split::Pair { pair: p as u32 });
    }
    match first_fractional(&player.vars, point) {
        Some(v) => {
            let value = floor(point.num(v), point.den());
            let at = split_number(value, leaf.low[v], leaf.high[v]);
            Some(Split::Var { var: v as u32, at })
        }
        None => None,
    }
}

/// The first whole variable whose value isn't whole.
fn first_fractional(vars: &[Var], point: &Point) -> Option<usize>
    requires { length point.now.num ≡ length vars.now }
    ensures { MatchOption result ((v : ℕ) (var : VarOf)
        → slice_get (map var_of vars.now) v ≡ Some var → IsTrue var.whole
        → IsMultiple (num_of point.now v) point.now.den)
        (λ v. (v < length vars.now)
        × ((var : VarOf) × (slice_get (map var_of vars.now) v ≡ Some var) × (var.whole ≡ true))
        × (IsMultiple (num_of point.now v) point.now.den → ⊥)) }
{
    for (v, var) in vars.iter().enumerate() {
        if is_fractional(var, point.num(v), point.den()) {
            return Some(v);
        }
    }
    None
}

fn is_fractional(var: &Var, num: i128, den: i128) -> bool
    requires { pos 0 <ℤ den }
    ensures yes { result ≡ true → (var.now.whole ≡ true) × (IsMultiple num den → ⊥) }
    ensures no { result ≡ false → IsTrue var.now.whole → IsMultiple num den }
{
    if !var.whole {
        return false;
    }
    !is_multiple(num, den)
}

fn is_multiple(num: i128, den: i128) -> bool
    requires { pos 0 <ℤ den }
    ensures { IsTrue result ↔ IsMultiple num den }
{
    num.unsigned_abs() % den.unsigned_abs() == 0
}

/// The value rounded down.
fn floor(num: i128, den: i128) -> i128
    requires { pos 0 <ℤ den }
    ensures below { (result *ℤ den) ≤ℤ num }
    ensures above { num <ℤ ((result +ℤ pos 1) *ℤ den) }
{
    num.div_euclid(den)
}

/// A number to split at: the value rounded down, if it is within the limit; else the lower bound,
/// or one less than the upper one, or 0, as the variable has them.
fn split_number(floor: i128, low: Option<i64>, high: Option<i64>) -> i64
    requires low { IfSome low (λ l. l ≤ℤ floor) }
    requires high { IfSome high (λ h. floor <ℤ h) }
    requires near { IfSome high (IsNear 1000000000) }
    ensures low { IfSome low (λ l. l ≤ℤ result) }
    ensures high { IfSome high (λ h. result <ℤ h) }
    ensures near { (more : ℕ) → IfSome low (IsNear more) → IfSome high (IsNear more)
        → (neg_ℤ (split_limit +ℤ pos (more + 1)) ≤ℤ result)
        × (result ≤ℤ (split_limit +ℤ pos more)) }
{
    if -SPLIT_LIMIT <= floor && floor <= SPLIT_LIMIT {
        return floor as i64;
    }
    match low {
        Some(low) => low,
        None => below(high),
    }
}

/// One less than a bound, if there is one, and else 0.
fn below(high: Option<i64>) -> i64
    requires { IfSome high (IsNear 1000000000) }
    ensures { MatchOption high (result ≡ pos 0) (λ h. result ≡ h -ℤ pos 1) }
{
    match high {
        Some(high) => high - 1,
        None => 0,
    }
}

/// The first pair that is undecided and whose variable isn't 0 at the point or along the ray.
fn first_open_pair(pairs: &[Pair], sides: &[Side], point: &Point, ray: &[i128]) -> Option<usize>
    requires sides { length sides.now ≡ length pairs.now }
    requires vars { (p : ℕ) (pair : PairOf) → slice_get (map pair_of pairs.now) p ≡ Some pair
        → pair.var < length point.now.num }
    ensures { MatchOption result ((p : ℕ) (pair : PairOf)
        → slice_get (map pair_of pairs.now) p ≡ Some pair
        → slice_index_or sides.now p Side.Undecided ≡ Side.Undecided
        → (num_of point.now pair.var ≡ pos 0) × (change_of ray.now pair.var ≡ pos 0))
        (λ p. (p < length pairs.now)
        × (slice_index_or sides.now p Side.Undecided ≡ Side.Undecided)) }
{
    for (p, pair) in pairs.iter().enumerate() {
        let v = pair.var as usize;
        if is_open(sides[p], point.num(v), number_at(ray, v)) {
            return Some(p);
        }
    }
    None
}

fn is_open(side: Side, num: i128, change: i128) -> bool
    ensures yes { result ≡ true → side ≡ Side.Undecided }
    ensures no { result ≡ false → side ≡ Side.Undecided → (num ≡ pos 0) × (change ≡ pos 0) }
{
    if side != Side::Undecided {
        return false;
    }
    num != 0 || change != 0
}

/// The number at a place, or 0 past the end.
fn number_at(ray: &[i128], v: usize) -> i128
    ensures { result ≡ change_of ray.now v }
{
    if v < ray.len() { ray[v] } else { 0 }
}
