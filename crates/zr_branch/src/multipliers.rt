ghost use Rattle.std.specs.Prelude.{◌≡◌, ◌≢◌, ◌<◌, ◌≤◌, ◌+◌, ◌^◌, ℕ, ℤ, pos, ◌+ℤ◌, IfOk, Bool, true, false, IsTrue, length, slice_index, slice_index_or};
ghost use Rattle.zr_base.specs.Terms.{AscendWith, coef_at, value_at};
ghost use Rattle.zr_branch.specs.Merged.{AllPass, AreAtLeastOne, AreNames, renamed};

use std::alloc::{AllocError, Global};

/// The multipliers by other numbers: that of place `k` is named `names[k]`.
fn renamed(
    alloc: Global,
    mult: &[(u32, i128)],
    names: &[u32],
) -> Result<Vec<(u32, i128)>, AllocError>
    requires { AreAtLeastOne (length names.now) mult.now }
    ensures { IfOk result (λ list. list.items ≡ renamed (λ k. slice_index names.now k) mult.now) }
{
    let mut list = Vec::new(alloc);
    for (k, by) in mult {
        list.push((names[*k as usize], *by))?;
    }
    Ok(list)
}

/// Whether the next of the first list goes before the next of the second.
fn goes_left(left: &[(u32, i128)], right: &[(u32, i128)], i: usize, k: usize) -> bool
    requires left { i ≤ length left.now }
    requires right { k ≤ length right.now }
    requires some { i + k < length left.now + length right.now }
    ensures yes { result ≡ true → (i < length left.now) × (k < length right.now
        → (slice_index_or left.now i (0, pos 0)).0 < (slice_index_or right.now k (0, pos 0)).0) }
    ensures no { result ≡ false → (k < length right.now) × (i < length left.now
        → (slice_index_or right.now k (0, pos 0)).0 ≤ (slice_index_or left.now i (0, pos 0)).0) }
{
    if i == left.len() {
        return false;
    }
    if k == right.len() {
        return true;
    }
    left[i].0 < right[k].0
}

/// Two lists of multipliers, none of whose numbers is in both, as one.
fn merged(
    alloc: Global,
    left: &[(u32, i128)],
    right: &[(u32, i128)],
) -> Result<Vec<(u32, i128)>, AllocError>
    requires left { AreAtLeastOne (2 ^ 32) left.now }
    requires right { AreAtLeastOne (2 ^ 32) right.now }
    requires apart { (k : ℕ) → coef_at left.now k ≢ pos 0 → coef_at right.now k ≡ pos 0 }
    requires few { length left.now + length right.now < 2 ^ 63 }
    ensures form { IfOk result (λ list. AreAtLeastOne (2 ^ 32) list.items) }
    ensures sums { IfOk result (λ list. (c : ℕ → ℤ)
        → value_at list.items c ≡ value_at left.now c +ℤ value_at right.now c) }
    ensures tests { IfOk result (λ list. (test : ℕ → Bool)
        → AllPass test left.now → AllPass test right.now → AllPass test list.items) }
{
    let mut list = Vec::new(alloc);
    let mut i: usize = 0;
    let mut k: usize = 0;
    'merge: while i + k < left.len() + right.len() {
        if goes_left(left, right, i, k) {
            list.push(left[i])?;
            i += 1;
        } else {
            list.push(right[k])?;
            k += 1;
        }
    }
    Ok(list)
}

/// The multipliers of a branch's slots: those of its program's rows, which are the slots `places`,
/// and the extras of its columns, as multipliers of the slots `lows`.
pub(crate) fn by_slot(
    alloc: Global,
    places: &[u32],
    lows: &[u32],
    mult: &[(u32, i128)],
    extra: &[(u32, i128)],
) -> Result<Vec<(u32, i128)>, AllocError>
    requires mult { AreAtLeastOne (length places.now) mult.now }
    requires extra { AreAtLeastOne (length lows.now) extra.now }
    requires few { length places.now + length lows.now ≤ 1024 }
    requires rows { AreNames places.now mult.now }
    requires columns { AreNames lows.now extra.now }
    requires apart { (r c : ℕ) → r < length places.now → c < length lows.now
        → slice_index places.now r ≡ slice_index lows.now c → coef_at mult.now r ≢ pos 0
        → coef_at extra.now c ≡ pos 0 }
    ensures form { IfOk result (λ list. AreAtLeastOne (2 ^ 32) list.items) }
    ensures sums { IfOk result (λ list. (c : ℕ → ℤ) → value_at list.items c
        ≡ value_at mult.now (λ r. c (slice_index places.now r)) +ℤ
        value_at extra.now (λ k. c (slice_index lows.now k))) }
    ensures tests { IfOk result (λ list. (test : ℕ → Bool)
        → ((r : ℕ) → r < length places.now → coef_at mult.now r ≢ pos 0
        → IsTrue (test (slice_index places.now r)))
        → ((k : ℕ) → k < length lows.now → coef_at extra.now k ≢ pos 0
        → IsTrue (test (slice_index lows.now k)))
        → AllPass test list.items) }
{
    let rows = renamed(alloc, mult, places)?;
    let columns = renamed(alloc, extra, lows)?;
    merged(alloc, &rows, &columns)
}
