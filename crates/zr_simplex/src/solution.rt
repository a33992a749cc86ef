ghost use Rattle.std.specs.Prelude.{◌≡◌, ◌≢◌, ◌<◌, ◌+◌, ℕ, length, IfOk, IfErr, OnOk};
ghost use Rattle.std.specs.List.{All};
ghost use Rattle.zr_base.specs.Steps.{IsNarrow};
ghost use Rattle.zr_simplex.specs.Programs.{numbers};
ghost use Rattle.zr_simplex.specs.RowSteps.{IsSolved};
ghost use Rattle.zr_simplex.specs.StuckSteps.{IsLeastCommonMultiple, IsNumerator, IsWideMultiple, IsWideNumerator};
ghost use Rattle.zr_simplex.specs.Answers.{signed};
ghost use Rattle.zr_simplex.specs.Tableaus.{basis_of, form_of};

use crate::listed::with_sign;
use crate::row::{coprime_parts, quotient};
use crate::tableau::Tableau;
use zr_base::{Wide, cross};

/// A row at which a step was too wide.
#[derive(Clone, Copy)]
pub(crate) struct WideAt {
    pub row: usize,
    pub wide: Wide,
}

/// The least common multiple of the rows' numbers at their own columns; the last equation counts
/// for nothing.
pub(crate) fn common_multiple(tableau: &Tableau, rows: usize) -> Result<i128, WideAt>
    requires rows { rows + 1 ≡ length tableau.now.basis }
    requires solved { IsSolved (length tableau.now.basis) tableau.now.width (basis_of tableau.now)
        (form_of tableau.now) }
    ensures narrow { IfOk result IsNarrow }
    ensures multiple { IfOk result (IsLeastCommonMultiple (basis_of tableau.now)
        (form_of tableau.now) rows) }
    ensures err { IfErr result (λ at. (at.row < rows)
        × IsWideMultiple (basis_of tableau.now) (form_of tableau.now) at.row at.wide) }
{
    let mut den = 1;
    for i in 0..rows {
        let (by, _) = coprime_parts(tableau.number(i, tableau.own(i)), den);
        match cross((den, by), (0, 0)) {
            Ok(more) => den = more,
            Err(wide) => return Err(WideAt { row: i, wide }),
        }
    }
    Ok(den)
}

/// Puts numerators over `den` into the places of the basis: for each row that of its number at
/// column `from`, or of its negation.
pub(crate) fn fill(
    places: &mut [i128],
    tableau: &Tableau,
    rows: usize,
    from: usize,
    negated: bool,
    den: i128,
) -> Result<(), WideAt>
    requires rows { rows + 1 ≡ length tableau.now.basis }
    requires solved { IsSolved (length tableau.now.basis) tableau.now.width (basis_of tableau.now)
        (form_of tableau.now) }
    requires from { from < tableau.now.width }
    requires narrow { IsNarrow den }
    requires narrow_places { All IsNarrow places.old }
    requires multiple { IsLeastCommonMultiple (basis_of tableau.now)
        (form_of tableau.now) rows den }
    requires places { (i : ℕ) → i < rows → basis_of tableau.now i < length places.old }
    ensures len { length places.new ≡ length places.old }
    ensures on { OnOk result ((i : ℕ) → i < rows
        → IsNumerator (basis_of tableau.now) (form_of tableau.now) den
        (λ i. signed negated (form_of tableau.now i from)) i
        (numbers places.new (basis_of tableau.now i))) }
    ensures off { OnOk result ((j : ℕ) → ((i : ℕ) → i < rows → j ≢ basis_of tableau.now i)
        → numbers places.new j ≡ numbers places.old j) }
    ensures narrow { OnOk result (All IsNarrow places.new) }
    ensures err { IfErr result (λ at. (at.row < rows)
        × IsWideNumerator (basis_of tableau.now) (form_of tableau.now) rows
        (λ i. signed negated (form_of tableau.now i from)) at.row at.wide) }
{
    for i in 0..rows {
        let part = quotient(den, tableau.number(i, tableau.own(i)));
        match cross((with_sign(tableau.number(i, from), negated), part), (0, 0)) {
            Ok(numerator) => places[tableau.own(i)] = numerator,
            Err(wide) => return Err(WideAt { row: i, wide }),
        }
    }
    Ok(())
}
