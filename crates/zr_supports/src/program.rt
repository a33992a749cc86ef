ghost use Rattle.std.specs.Prelude.{◌≡◌, ◌++◌, ◌∷◌, [], false, length, map, IfOk, IfSome, OnOk};
ghost use Rattle.std.specs.List.{All};
ghost use Rattle.zr_base.specs.Steps.{IsNarrow};
ghost use Rattle.zr_base.specs.Terms.{Ascends};
ghost use Rattle.zr_lin.specs.Ineqs.{IsIneq, ineq_of};
ghost use Rattle.zr_simplex.specs.Programs.{IsLp};
ghost use Rattle.zr_system.specs.System.{listed};

use std::alloc::{AllocError, Global};
use zr_lin::Ineq;
use zr_simplex::Lp;

/// The most columns, and the most rows.
const SIZE_LIMIT: usize = 1_000_000;

/// A row of numbers by column, at most `le`.
#[derive(Drop)]
pub(crate) struct WeightRow {
    pub(crate) numbers: Vec<i128>,
    pub(crate) le: i128,
}

/// The number of a column; 0 past the last one, and in place of the one number that is too wide.
fn narrow_at(numbers: &[i128], j: u32) -> i128
    ensures { IsNarrow result }
{
    let j = j as usize;
    if j < numbers.len() {
        narrow(numbers[j])
    } else {
        0
    }
}

/// The number, or 0 in place of the one that is too wide.
fn narrow(z: i128) -> i128
    ensures { IsNarrow result }
{
    if z != i128::MIN { z } else { 0 }
}

/// Appends a column's number, unless it is 0.
fn push_term(list: &mut Vec<(u32, i128)>, j: u32, number: i128) -> Result<(), AllocError>
    ensures { OnOk result (list.new.items ≡ list.old.items ++ listed j number) }
{
    if number != 0 {
        list.push((j, number))?;
    }
    Ok(())
}

/// The numbers by column, as far as they aren't 0.
fn terms(alloc: Global, numbers: &[i128], columns: u32) -> Result<Vec<(u32, i128)>, AllocError>
    ensures { IfOk result (λ list. Ascends 0 columns list.items) }
{
    let mut list = Vec::new(alloc);
    for j in 0..columns {
        push_term(&mut list, j, narrow_at(numbers, j))?;
    }
    Ok(list)
}

/// The row over so many columns.
fn ineq(alloc: Global, line: &WeightRow, columns: u32) -> Result<Ineq, AllocError>
    ensures form { IfOk result (λ row. IsIneq columns (ineq_of row)) }
    ensures weak { IfOk result (λ row. row.strict ≡ false) }
{
    Ok(Ineq {
        coef: terms(alloc, &line.numbers, columns)?,
        le: narrow(line.le),
        strict: false,
    })
}

/// Appends a row.
#[tactic(auto, using(zr_system::proofs::Existence::map_more))]
fn push_row(list: &mut Vec<Ineq>, row: Ineq) -> Result<(), AllocError>
    ensures { OnOk result (map ineq_of list.new.items
        ≡ map ineq_of list.old.items ++ (ineq_of row ∷ [])) }
{
    match list.push(row) {
        Ok(()) => Ok(()),
        Err(_) => Err(AllocError),
    }
}

/// The rows over so many columns.
fn ineqs(alloc: Global, lines: &[WeightRow], columns: u32) -> Result<Vec<Ineq>, AllocError>
    ensures form { IfOk result (λ list. All (IsIneq columns) (map ineq_of list.items)) }
    ensures weak { IfOk result (λ list. All (λ row. row.strict ≡ false) (map ineq_of list.items)) }
    ensures len { IfOk result (λ list. length list.items ≡ length lines.now) }
{
    let mut list = Vec::new(alloc);
    for line in lines {
        let row = ineq(alloc, line, columns)?;
        push_row(&mut list, row)?;
    }
    Ok(list)
}

/// The program that asks for a point that meets the rows, if there aren't too many.
pub(crate) fn program(
    alloc: Global,
    lines: &[WeightRow],
    columns: usize,
) -> Result<Option<Lp>, AllocError>
    ensures { IfOk result (λ made. IfSome made IsLp) }
{
    if columns > SIZE_LIMIT || lines.len() > SIZE_LIMIT {
        return Ok(None);
    }
    let columns = columns as u32;
    let rows = ineqs(alloc, lines, columns)?;
    let aim = vec![in alloc; 0; columns as usize]?;
    Ok(Some(Lp { columns, rows, aim }))
}
