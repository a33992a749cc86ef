ghost use Rattle.std.specs.Prelude.{◌≡◌, ◌≢◌, ◌<◌, ◌≤◌, ◌+◌, ◌^◌, ℕ, ℤ, pos, ◌+ℤ◌, IfOk, OnOk, true, false, [], ◌∷◌, ◌++◌, length, slice_index, slice_index_or};
ghost use Rattle.zr_base.specs.Terms.{coef_at, value_at};
ghost use Rattle.zr_branch.specs.Merged as merged;
ghost use Rattle.zr_branch.specs.Merged.{AreAtLeastOne};
ghost use Rattle.zr_choices.specs.Merging.{AreRows, first_terms};

use std::alloc::{AllocError, Global};

/// Appends a multiplier by its other number, if there is one.
fn push_renamed(
    list: &mut Vec<(u32, i128)>,
    names: &[u32],
    k: u32,
    by: i128,
) -> Result<(), AllocError>
    ensures { OnOk result (list.new.items ≡ list.old.items ++ merged.renamed
        (slice_index names.now) (first_terms (length names.now) ((k, by) ∷ []))) }
{
    let k = k as usize;
    if k < names.len() {
        list.push((names[k], by))?;
    }
    Ok(())
}

/// The multipliers by other numbers: that of place `k` is named `names[k]`. Those of later places
/// are left out.
fn renamed(
    alloc: Global,
    mult: &[(u32, i128)],
    names: &[u32],
) -> Result<Vec<(u32, i128)>, AllocError>
    ensures { IfOk result (λ list. list.items
        ≡ merged.renamed (slice_index names.now) (first_terms (length names.now) mult.now)) }
{
    let mut list = Vec::new(alloc);
    for (k, by) in mult {
        push_renamed(&mut list, names, *k, *by)?;
    }
    Ok(list)
}

/// Whether the next of the first list goes before the next of the second.
fn goes_left(left: &[(u32, i128)], right: &[(u32, i128)], i: usize, k: usize) -> bool
    requires left { i ≤ length left.now }
    requires right { k ≤ length right.now }
    requires some { i + k < length left.now + length right.now }
    ensures yes { result ≡ true → (i < length left.now) × (k < length right.now
        → (slice_index_or left.now i (0, pos 0)).0 < (slice_index_or right.now k (0, pos 0)).0) }
    ensures no { result ≡ false → (k < length right.now) × (i < length left.now
        → (slice_index_or right.now k (0, pos 0)).0 ≤ (slice_index_or left.now i (0, pos 0)).0) }
{
    if i == left.len() {
        return false;
    }
    if k == right.len() {
        return true;
    }
    left[i].0 < right[k].0
}

/// Two lists of multipliers, none of whose numbers is in both, as one.
fn merged(
    alloc: Global,
    left: &[(u32, i128)],
    right: &[(u32, i128)],
) -> Result<Vec<(u32, i128)>, AllocError>
    requires left { AreAtLeastOne (2 ^ 32) left.now }
    requires right { AreAtLeastOne (2 ^ 32) right.now }
    requires apart { (k : ℕ) → coef_at left.now k ≢ pos 0 → coef_at right.now k ≡ pos 0 }
    requires few { length left.now + length right.now < 2 ^ 63 }
    ensures form { IfOk result (λ list. AreAtLeastOne (2 ^ 32) list.items) }
    ensures sums { IfOk result (λ list. (c : ℕ → ℤ)
        → value_at list.items c ≡ value_at left.now c +ℤ value_at right.now c) }
{
    let mut list = Vec::new(alloc);
    let mut i: usize = 0;
    let mut k: usize = 0;
    'merge: while i + k < left.len() + right.len() {
        if goes_left(left, right, i, k) {
            list.push(left[i])?;
            i += 1;
        } else {
            list.push(right[k])?;
            k += 1;
        }
    }
    Ok(list)
}

/// The multipliers of a system's rows: those of its program's rows, and the extras of columns as
/// multipliers of the rows `signs`, by column. An extra of the last column is left out.
pub(crate) fn by_row(
    alloc: Global,
    signs: &[u32],
    mult: &[(u32, i128)],
    extra: &[(u32, i128)],
) -> Result<Vec<(u32, i128)>, AllocError>
    requires mult { AreAtLeastOne (2 ^ 32) mult.now }
    requires extra { AreAtLeastOne (length signs.now + 1) extra.now }
    requires few { length signs.now < 2 ^ 32 }
    requires rows { AreRows signs.now mult.now extra.now }
    ensures form { IfOk result (λ list. AreAtLeastOne (2 ^ 32) list.items) }
    ensures sums { IfOk result (λ list. (c : ℕ → ℤ) → value_at list.items c
        ≡ value_at mult.now c +ℤ value_at (first_terms (length signs.now) extra.now)
        (λ k. c (slice_index signs.now k))) }
{
    let extras = renamed(alloc, extra, signs)?;
    merged(alloc, mult, &extras)
}
