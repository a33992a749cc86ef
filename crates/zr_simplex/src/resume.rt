ghost use Rattle.std.specs.Prelude.{◌≡◌, ◌<◌, ◌+◌, ◌++◌, ◌∷◌, [], ℕ, false, None, length, take, IfOk, IfErr, OnOk, OnErr, MatchOption};
ghost use Rattle.zr_lin.specs.Ineqs.{IsIneq, ineq_of};
ghost use Rattle.zr_basis.specs.BasicForms.{value_column};
ghost use Rattle.zr_basis.specs.Runs.{IsFromBasis};
ghost use Rattle.zr_basis.specs.Stages.{IsDualFeasibleForm};
ghost use Rattle.zr_simplex.specs.Programs.{IsLp, program_of};
ghost use Rattle.zr_simplex.specs.Answers.{IsAnswer, IsBasicAnswer};
ghost use Rattle.zr_simplex.specs.Causes.{CountsFew, IsCause, IsReachedAnswer};
ghost use Rattle.zr_simplex.specs.Tableaus.{basis_of, form_of};
ghost use Rattle.zr_simplex.specs.Dues.{IsTableau};
ghost use Rattle.zr_simplex.specs.Appends.{first_rows};
ghost use Rattle.zr_simplex.specs.Resumes.{CountsOpenFew, HasLeast, IsAppended, IsNoLeast, IsOpenAnswer, IsOpenCause, KeepsBasis, basis_kept};

use crate::append::append;
use crate::program::{Lp, LpAnswer, Stop};
use crate::solve::{solve_afresh, solve_from};
use crate::tableau::Tableau;
use std::alloc::{AllocError, Global};
use std::marker::Model;
use zr_io::Purse;
use zr_lin::Ineq;

/// A linear program to which rows are added between its solutions, each of which goes on from the
/// basis where the one before it ended at a least value.
#[derive(Drop)]
pub struct OpenLp {
    lp: Lp,
    tableau: Option<Tableau>,
}

impl Model for OpenLp {
    ghost use Rattle.std.specs.Prelude.{MatchOption};
    ghost use Rattle.zr_basis.specs.Stages.{IsDualFeasibleForm};
    ghost use Rattle.zr_simplex.specs.Programs.{IsLp, program_of};
    ghost use Rattle.zr_simplex.specs.Tableaus.{form_of};
    ghost use Rattle.zr_simplex.specs.Dues.{IsTableau};
    ghost use Rattle.zr_simplex.specs.Resumes.{OpenProgram, basis_kept};

    ghost Value = { OpenProgram };

    ghost view = { λ o. record { lp = o.lp; basis = basis_kept o.tableau } };

    ghost invariant = { λ o. IsLp o.lp
        × MatchOption o.tableau (Unit {0})
        (λ t. IsTableau (program_of o.lp) t × IsDualFeasibleForm (program_of o.lp) (form_of t)) };
}

impl OpenLp {
    /// A program that wasn't solved yet.
    pub fn new(lp: Lp) -> OpenLp
        requires { IsLp lp }
        ensures lp { result.lp ≡ lp }
        ensures basis { result.basis ≡ None }
    {
        OpenLp { lp, tableau: None }
    }

    /// The program.
    pub fn lp(&self) -> &Lp
        ensures value { result.now ≡ self.now.lp }
        ensures kept { IsLp self.now.lp }
    {
        &self.lp
    }

    /// Adds a row. Where appending it to the kept equations meets a step that is too wide, or wants
    /// memory, the next solution starts afresh.
    ///
    /// # Errors
    ///
    /// For want of memory for the row. The program is then unchanged.
    pub fn add_row(&mut self, alloc: Global, row: Ineq) -> Result<(), AllocError>
        requires row { IsIneq self.old.lp.columns (ineq_of row) }
        requires weak { row.strict ≡ false }
        requires size { self.old.lp.columns + length self.old.lp.rows.items + 1 < 4294967294 }
        ensures columns { self.new.lp.columns ≡ self.old.lp.columns }
        ensures aim { self.new.lp.aim.items ≡ self.old.lp.aim.items }
        ensures ok { OnOk result (self.new.lp.rows.items ≡ self.old.lp.rows.items ++ row ∷ []) }
        ensures basis { OnOk result (IsAppended
            (self.old.lp.columns + length self.old.lp.rows.items + 1) self.old.basis
            self.new.basis) }
        ensures err { OnErr result (self.new.lp.rows.items ≡ self.old.lp.rows.items) }
    {
        let tableau = self.tableau.take();
        self.lp.rows.push(row)?;
        self.tableau = with_last_row(alloc, &self.lp, tableau);
        Ok(())
    }

    /// The least value of the program with what shows it, or what shows that no point meets the
    /// rows, or that there is no least value.
    ///
    /// Where an earlier solution ended at a least value, it goes on from that basis by the dual
    /// method (C. Lemke, 1954): of the columns where the row is below zero that one enters by which
    /// the value rises least, and among these the lexicographic order decides, so that no basis
    /// comes twice. Where that meets a step that is too wide, or wants memory, the program is
    /// solved afresh.
    ///
    /// # Errors
    ///
    /// Those of `solve_lp`, from the solution afresh.
    pub fn solve(&mut self, alloc: Global, purse: &mut Purse) -> Result<LpAnswer, Stop>
        ensures same { self.new.lp ≡ self.old.lp }
        ensures answer { IfOk result (IsAnswer self.old.lp) }
        ensures basic { IfOk result (IsOpenAnswer
            (program_of self.old.lp) self.old.basis purse.old purse.new) }
        ensures cause { IfErr result (IsOpenCause
            (program_of self.old.lp) self.old.basis purse.old purse.new) }
        ensures few { CountsOpenFew (program_of self.old.lp) self.old.basis purse.old purse.new }
        ensures kept { IfOk result (KeepsBasis (program_of self.old.lp) self.new.basis) }
        ensures lost { OnErr result (self.new.basis ≡ None) }
    {
        let tableau = self.tableau.take();
        match solve_on(alloc, &self.lp, tableau, purse) {
            Ok((tableau, found)) => {
                self.tableau = least_kept(tableau, &found);
                Ok(found)
            }
            Err(stop) => Err(stop),
        }
    }
}

/// The tableau where the last solution ended, if that was at a least value.
fn least_kept(tableau: Tableau, found: &LpAnswer) -> Option<Tableau>
    ensures { MatchOption result (IsNoLeast found.now)
        (λ kept. (kept ≡ tableau) × HasLeast found.now) }
{
    match found {
        LpAnswer::Best { .. } => Some(tableau),
        _ => None,
    }
}

/// The tableau with the last row of the program appended, if there was one and it can be had.
fn with_last_row(alloc: Global, lp: &Lp, tableau: Option<Tableau>) -> Option<Tableau>
    requires lp { IsLp lp.now }
    requires some { 0 < length lp.now.rows.items }
    requires kept { (rows : ℕ) → rows + 1 ≡ length lp.now.rows.items
        → MatchOption tableau (Unit {0}) (λ t. IsTableau (first_rows (program_of lp.now) rows) t
        × IsDualFeasibleForm (first_rows (program_of lp.now) rows) (form_of t)) }
    ensures kept { MatchOption result (Unit {0})
        (λ t. IsTableau (program_of lp.now) t
        × IsDualFeasibleForm (program_of lp.now) (form_of t)) }
    ensures basis { IsAppended (value_column (program_of lp.now)) (basis_kept tableau)
        (basis_kept result) }
{
    append(alloc, lp, tableau?)
}

/// Goes on from a tableau, if there is one; where there is none, or going on stops, solves afresh.
fn solve_on(
    alloc: Global,
    lp: &Lp,
    tableau: Option<Tableau>,
    purse: &mut Purse,
) -> Result<(Tableau, LpAnswer), Stop>
    requires lp { IsLp lp.now }
    requires kept { MatchOption tableau (Unit {0})
        (λ t. IsTableau (program_of lp.now) t
        × IsDualFeasibleForm (program_of lp.now) (form_of t)) }
    ensures kept { IfOk result (λ found. IsTableau (program_of lp.now) found.0) }
    ensures answer { IfOk result (λ found. IsAnswer lp.now found.1) }
    ensures basic { IfOk result (λ found. IsBasicAnswer (program_of lp.now) (basis_of found.0)
        (form_of found.0) found.1) }
    ensures open { IfOk result (λ found. IsOpenAnswer (program_of lp.now)
        (basis_kept tableau) purse.old purse.new found.1) }
    ensures cause { IfErr result (IsOpenCause (program_of lp.now)
        (basis_kept tableau) purse.old purse.new) }
    ensures few { CountsOpenFew (program_of lp.now) (basis_kept tableau) purse.old purse.new }
{
    let tableau = match tableau {
        Some(tableau) => tableau,
        None => return solve_afresh(alloc, lp, purse),
    };
    match go_on(alloc, lp, tableau, purse) {
        Ok(found) => Ok(found),
        Err(_) => solve_afresh(alloc, lp, purse),
    }
}

/// Goes on from a basis where the value falls along no column.
fn go_on(
    alloc: Global,
    lp: &Lp,
    tableau: Tableau,
    purse: &mut Purse,
) -> Result<(Tableau, LpAnswer), Stop>
    requires lp { IsLp lp.now }
    requires kept { IsTableau (program_of lp.now) tableau }
    requires dual { IsDualFeasibleForm (program_of lp.now) (form_of tableau) }
    ensures kept { IfOk result (λ found. IsTableau (program_of lp.now) found.0) }
    ensures answer { IfOk result (λ found. IsAnswer lp.now found.1) }
    ensures basic { IfOk result (λ found. IsBasicAnswer (program_of lp.now) (basis_of found.0)
        (form_of found.0) found.1) }
    ensures reached { IfOk result (λ found. IsReachedAnswer (program_of lp.now)
        (IsFromBasis (program_of lp.now) (basis_of tableau)) purse.old purse.new found.1) }
    ensures cause { IfErr result (IsCause (program_of lp.now)
        (IsFromBasis (program_of lp.now) (basis_of tableau)) purse.old purse.new) }
    ensures few { CountsFew (program_of lp.now) purse.old purse.new }
{
    let order = match value_order(alloc, lp, &tableau) {
        Ok(order) => order,
        Err(_) => return Err(Stop::NoMemory),
    };
    solve_from(alloc, lp, tableau, &order, purse)
}

/// The value's column, then those off the basis, and then those of the rows.
fn value_order(alloc: Global, lp: &Lp, tableau: &Tableau) -> Result<Vec<u32>, AllocError>
    requires lp { IsLp lp.now }
    requires kept { IsTableau (program_of lp.now) tableau.now }
    ensures { IfOk result (λ order. order.items ≡ value_column
        (program_of lp.now) ∷ take lp.now.columns tableau.now.free ++ take
        (length lp.now.rows.items) tableau.now.basis) }
{
    let mut order = vec![in alloc; lp.columns + lp.rows.len() as u32]?;
    order.extend_from_slice(&tableau.off()[..lp.columns as usize])?;
    order.extend_from_slice(&tableau.basis()[..lp.rows.len()])?;
    Ok(order)
}
