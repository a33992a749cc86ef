//! The tests of a leader's followers.
ghost use Rattle.std.specs.Prelude.{◌≡◌, ◌↔◌, ◌+◌, ◌<◌, ◌≤◌, pos, false, None, Some, IsTrue, drop, length, map};
ghost use Rattle.std.specs.List.{All, AllPairs};
ghost use Rattle.std.specs.declared.cmp.Ordering.TheVariants.{Less};
ghost use Rattle.zr_game.specs.Players.{PlayerOf, var_of};
ghost use Rattle.zr_source.specs.Sources.{IsOwn, follower_of};
ghost use Rattle.zr_source.specs.SourceForms.{AreFree, IsFollowerCross, IsFollowerForm, StandInOrder, first_of, follower_cross_order};

use crate::source::Follower;
use zr_game::{Var, are_rows, are_terms, is_coefficient};

/// Whether there are at most 16 followers, and a variable before theirs.
pub(crate) fn have_own_variable(followers: &[Follower], columns: usize) -> bool
    ensures { IsTrue result ↔ ((length (map follower_of followers.now) ≤ 16) ×
        (1 ≤ first_of columns (map follower_of followers.now))) }
{
    followers.len() <= 16 && 1 <= first_from(followers, 0, columns)
}

pub(crate) fn are_followers(followers: &[Follower], columns: usize) -> bool
    ensures { IsTrue result ↔ All (IsFollowerForm columns) (map follower_of followers.now) }
{
    let mut all = true;
    for follower in followers {
        all &= is_follower(follower, columns);
    }
    all
}

/// Whether a follower of a leader with so many variables keeps the rules.
fn is_follower(follower: &Follower, columns: usize) -> bool
    ensures { IsTrue result ↔ IsFollowerForm columns (follower_of follower.now) }
{
    have_place(follower, columns)
        & are_rows(&follower.rows, columns)
        & are_terms(follower.cost.as_slice(), columns)
        & are_cross_terms(&follower.cross, follower, columns)
        & ascend(&follower.cross)
}

fn have_place(follower: &Follower, columns: usize) -> bool
    ensures { IsTrue result ↔ ((follower.now.first + follower.now.count ≤ columns) ×
        (length (follower_of follower.now).rows ≤ 32) ×
        (length (follower_of follower.now).cross ≤ 65536)) }
{
    follower.first as usize + follower.count as usize <= columns
        && follower.rows.len() <= 32
        && follower.cross.len() <= 65536
}

fn are_cross_terms(cross: &[(u32, u32, i64)], follower: &Follower, columns: usize) -> bool
    ensures { IsTrue result ↔ All (IsFollowerCross (follower_of follower.now) columns) cross.now }
{
    let mut all = true;
    for (own, other, number) in cross {
        all &= is_cross_term(*own, *other, *number, follower, columns);
    }
    all
}

fn is_cross_term(own: u32, other: u32, number: i64, follower: &Follower, columns: usize) -> bool
    ensures { IsTrue result
        ↔ IsFollowerCross (follower_of follower.now) columns (own, other, number) }
{
    is_own(follower, own as usize)
        && (other as usize) < columns
        && !is_own(follower, other as usize)
        && is_coefficient(number)
}

/// Whether variable `v` is one of the follower's own.
fn is_own(follower: &Follower, v: usize) -> bool
    ensures { IsTrue result ↔ IsOwn (follower_of follower.now) v }
{
    follower.first as usize <= v && v < follower.first as usize + follower.count as usize
}

/// Whether cross terms stand in their order.
fn ascend(cross: &[(u32, u32, i64)]) -> bool
    ensures { IsTrue result ↔ AllPairs (λ s t. follower_cross_order s t ≡ Less) cross.now }
{
    let mut all = true;
    for k in 1..cross.len() {
        all &= is_before(cross[k - 1], cross[k]);
    }
    all
}

fn is_before(s: (u32, u32, i64), t: (u32, u32, i64)) -> bool
    ensures { IsTrue result ↔ (follower_cross_order s t ≡ Less) }
{
    s.0.cmp(&t.0).then(s.1.cmp(&t.1)).is_lt()
}

/// Whether the followers' variables stand one after another, and are the last.
pub(crate) fn stand_in_order(followers: &[Follower], columns: usize) -> bool
    ensures { IsTrue result ↔ StandInOrder columns (map follower_of followers.now) }
{
    let mut all = true;
    for (k, follower) in followers.iter().enumerate() {
        let next = first_from(followers, k + 1, columns);
        all &= follower.first as usize + follower.count as usize == next;
    }
    all
}

/// Where the variables of the followers from number `k` on begin.
fn first_from(followers: &[Follower], k: usize, columns: usize) -> usize
    ensures { result ≡ first_of columns (map follower_of (drop k followers.now)) }
{
    match followers.get(k) {
        Some(follower) => follower.first as usize,
        None => columns,
    }
}

/// Whether the followers' variables are continuous, with low 0 and without an upper bound.
pub(crate) fn are_free(vars: &[Var], followers: &[Follower]) -> bool
    ensures { (base : PlayerOf) → base.vars ≡ map var_of vars.now
        → (IsTrue result ↔ All (AreFree base) (map follower_of followers.now)) }
{
    let mut all = true;
    for follower in followers {
        all &= is_free(vars, follower);
    }
    all
}

fn is_free(vars: &[Var], follower: &Follower) -> bool
    ensures { (base : PlayerOf) → base.vars ≡ map var_of vars.now
        → (IsTrue result ↔ AreFree base (follower_of follower.now)) }
{
    let mut all = true;
    for (v, var) in vars.iter().enumerate() {
        all &= is_free_var(follower, v, var);
    }
    all
}

/// Whether a variable is free where it is the follower's own.
fn is_free_var(follower: &Follower, v: usize, var: &Var) -> bool
    ensures { IsTrue result ↔ (IsOwn (follower_of follower.now) v
        → (var.now.whole ≡ false) × (var.now.low ≡ Some (pos 0)) × (var.now.up ≡ None)) }
{
    !is_own(follower, v) || !var.whole && var.low == Some(0) && var.up.is_none()
}
