ghost use Rattle.std.specs.Prelude.{◌≡◌, ◌<◌, ◌+◌, ◌≤◌, ℕ, ℤ, pos, ◌≤ℤ◌, length, IfOk};
ghost use Rattle.zr_base.specs.Steps.{IsNarrow};
ghost use Rattle.zr_base.specs.Terms.{Ascends, coef_at};
ghost use Rattle.zr_lin.specs.DenseRows.{AreMultipliers};
ghost use Rattle.zr_simplex.specs.Answers.{signed};
ghost use Rattle.zr_simplex.specs.Tableaus.{form_of};

use crate::tableau::Tableau;
use std::alloc::{AllocError, Global};

/// The numbers of an equation at `count` columns from `from` on, or their negations, as far as they
/// aren't zero.
pub(crate) fn listed(
    alloc: Global,
    tableau: &Tableau,
    row: usize,
    from: u32,
    count: u32,
    negated: bool,
) -> Result<Vec<(u32, i128)>, AllocError>
    requires row { row < length tableau.now.basis }
    requires columns { from + count ≤ tableau.now.width }
    requires sign { (k : ℕ) → k < count
        → pos 0 ≤ℤ signed negated (form_of tableau.now row (from + k)) }
    ensures ascends { IfOk result (λ list. Ascends 0 count list.items) }
    ensures multipliers { IfOk result (λ list. AreMultipliers count list.items) }
    ensures numbers { IfOk result (λ list. (k : ℕ) → k < count
        → coef_at list.items k ≡ signed negated (form_of tableau.now row (from + k))) }
{
    let mut list = Vec::new(alloc);
    for k in 0..count {
        let value = with_sign(tableau.number(row, from as usize + k as usize), negated);
        if value != 0 {
            list.push((k, value))?;
        }
    }
    Ok(list)
}

/// A number, or its negation.
pub(crate) fn with_sign(z: i128, negated: bool) -> i128
    requires { IsNarrow z }
    ensures value { result ≡ signed negated z }
    ensures narrow { IsNarrow result }
{
    if negated { -z } else { z }
}
