ghost use Rattle.std.specs.Prelude.{◌≡◌, ◌<◌, ◌+◌, ◌++◌, ◌∷◌, [], neg_ℤ, pos, length, map, IfOk, OnOk, if◌then◌else◌};
ghost use Rattle.std.specs.List.{All};
ghost use Rattle.zr_base.specs.Steps.{IsNarrow};
ghost use Rattle.zr_base.specs.Terms.{Ascends};
ghost use Rattle.zr_lin.specs.Ineqs.{IsIneq, ineq_of};
ghost use Rattle.zr_system.specs.Asked.{firsts};
ghost use Rattle.zr_choices.specs.Parted as form;
ghost use Rattle.zr_choices.specs.Parted.{place};
ghost use Rattle.zr_choices.specs.Programs.{free_in};

use crate::part::may_be_negative;
use std::alloc::{AllocError, Global};
use zr_lin::Ineq;
use zr_system::Unknown;

/// Appends the number of an unknown at its columns.
fn push_part(
    list: &mut Vec<(u32, i128)>,
    free: bool,
    place: u32,
    number: i128,
) -> Result<(), AllocError>
    requires narrow { IsNarrow number }
    requires few { place < 4294967295 }
    ensures { OnOk result (list.new.items ≡ list.old.items ++ (if free
        then (place, number) ∷ ((place + 1, neg_ℤ number) ∷ []) else (place, number) ∷ [])) }
{
    list.push((place, number))?;
    if free {
        list.push((place + 1, -number))?;
    }
    Ok(())
}

/// The numbers of a row, each at its unknown's columns.
fn parted_terms(
    alloc: Global,
    order: &[Unknown],
    places: &[u32],
    coef: &[(u32, i128)],
) -> Result<Vec<(u32, i128)>, AllocError>
    requires few { length order.now < 16777217 }
    requires places { places.now ≡ firsts (length order.now + 1) (place (free_in order.now)) }
    requires coef { Ascends 0 (length order.now) coef.now }
    ensures { IfOk result (λ list. list.items ≡ form.parted_terms (free_in order.now) coef.now) }
{
    let mut list = Vec::new(alloc);
    for (column, number) in coef {
        let j = *column as usize;
        push_part(&mut list, may_be_negative(order[j]), places[j], *number)?;
    }
    Ok(list)
}

/// Appends 1 at the last column of a strict row.
fn push_last(list: &mut Vec<(u32, i128)>, strict: bool, last: u32) -> Result<(), AllocError>
    ensures { OnOk result (list.new.items ≡ list.old.items
        ++ (if strict then (last, pos 1) ∷ [] else [])) }
{
    if strict {
        list.push((last, 1))?;
    }
    Ok(())
}

/// The row over the columns.
fn parted(
    alloc: Global,
    order: &[Unknown],
    places: &[u32],
    last: u32,
    row: &Ineq,
) -> Result<Ineq, AllocError>
    requires few { length order.now < 16777217 }
    requires places { places.now ≡ firsts (length order.now + 1) (place (free_in order.now)) }
    requires last { last ≡ place (free_in order.now) (length order.now) }
    requires row { IsIneq (length order.now) (ineq_of row.now) }
    ensures { IfOk result (λ made. ineq_of made
        ≡ form.parted (free_in order.now) (length order.now) (ineq_of row.now)) }
{
    let mut coef = parted_terms(alloc, order, places, &row.coef)?;
    push_last(&mut coef, row.strict, last)?;
    Ok(Ineq {
        coef,
        le: row.le,
        strict: false,
    })
}

/// Appends a row.
#[tactic(auto, using(zr_system::proofs::Existence::map_more))]
fn push_row(list: &mut Vec<Ineq>, row: Ineq) -> Result<(), AllocError>
    ensures { OnOk result (map ineq_of list.new.items
        ≡ map ineq_of list.old.items ++ (ineq_of row ∷ [])) }
{
    match list.push(row) {
        Ok(()) => Ok(()),
        Err(_) => Err(AllocError),
    }
}

/// The rows over the columns, without the one of the last column.
fn parted_rows(
    alloc: Global,
    order: &[Unknown],
    places: &[u32],
    last: u32,
    rows: &[Ineq],
) -> Result<Vec<Ineq>, AllocError>
    requires few { length order.now < 16777217 }
    requires places { places.now ≡ firsts (length order.now + 1) (place (free_in order.now)) }
    requires last { last ≡ place (free_in order.now) (length order.now) }
    requires rows { All (IsIneq (length order.now)) (map ineq_of rows.now) }
    ensures { IfOk result (λ list. map ineq_of list.items
        ≡ map (form.parted (free_in order.now) (length order.now)) (map ineq_of rows.now)) }
{
    let mut list = Vec::new(alloc);
    for row in rows {
        let made = parted(alloc, order, places, last, row)?;
        push_row(&mut list, made)?;
    }
    Ok(list)
}

/// That the last column is at most 1.
fn at_most_1(alloc: Global, last: u32) -> Result<Ineq, AllocError>
    ensures { IfOk result (λ made. ineq_of made ≡ form.at_most_1 last) }
{
    let mut coef = Vec::new(alloc);
    coef.push((last, 1))?;
    Ok(Ineq {
        coef,
        le: 1,
        strict: false,
    })
}

/// The rows of the program that asks for a solution of the rows.
pub(crate) fn asked_rows(
    alloc: Global,
    order: &[Unknown],
    places: &[u32],
    last: u32,
    rows: &[Ineq],
) -> Result<Vec<Ineq>, AllocError>
    requires few { length order.now < 16777217 }
    requires places { places.now ≡ firsts (length order.now + 1) (place (free_in order.now)) }
    requires last { last ≡ place (free_in order.now) (length order.now) }
    requires rows { All (IsIneq (length order.now)) (map ineq_of rows.now) }
    ensures { IfOk result (λ list. map ineq_of list.items ≡ form.parted_rows (free_in order.now)
        (length order.now) (map ineq_of rows.now)) }
{
    let mut list = parted_rows(alloc, order, places, last, rows)?;
    let end = at_most_1(alloc, last)?;
    push_row(&mut list, end)?;
    Ok(list)
}
