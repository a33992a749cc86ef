ghost use Rattle.std.specs.Prelude.{◌≡◌, ◌<◌, ◌^◌, ◌*ℤ◌, [], ◌∷◌, ◌++◌, IfOk, OnOk, length};
ghost use Rattle.std.specs.List.{All};
ghost use Rattle.zr_base.specs.Steps.{IsNarrow};
ghost use Rattle.zr_base.specs.Terms.{coef_at};
ghost use Rattle.zr_simplex.specs.Programs.{numbers};
ghost use Rattle.zr_tree.specs.SlotRows.{left_coef};
ghost use Rattle.zr_branch.specs.Columns.{listed_from, part_numbers, sign_of};

use crate::part::Part;
use std::alloc::{AllocError, Global};
use zr_tree::{Left, with_sign};

/// The number of a column where its variable has this one.
fn signed(part: Part, number: i128) -> i128
    requires { IsNarrow number }
    ensures value { result ≡ sign_of part.negative *ℤ number }
    ensures narrow { IsNarrow result }
{
    if part.negative { -number } else { number }
}

/// The number at a column, or 0 where none is listed.
fn term_at(terms: &[(u32, i64)], column: usize) -> i64
    ensures { result ≡ coef_at terms.now column }
{
    for (other, number) in terms {
        if *other as usize == column {
            return *number;
        }
    }
    0
}

/// The number of a slot's row at a variable.
fn left_number(left: Left<'_>, v: usize) -> i128
    ensures value { result ≡ left_coef left.entry v }
    ensures narrow { IsNarrow result }
{
    match left {
        Left::Terms { terms, negated } => with_sign(negated, term_at(terms, v)),
        Left::Column { var, number } => if var == v { i128::from(number) } else { 0 },
    }
}

/// The numbers of a slot's row by column.
pub(crate) fn row_by_part(
    alloc: Global,
    left: Left<'_>,
    parts: &[Part],
) -> Result<Vec<i128>, AllocError>
    ensures values { IfOk result (λ list.
        list.items ≡ part_numbers (left_coef left.entry) parts.now) }
    ensures narrow { IfOk result (λ list. All IsNarrow list.items) }
{
    let mut list = Vec::new(alloc);
    for part in parts {
        list.push(signed(*part, left_number(left, part.var)))?;
    }
    Ok(list)
}

/// The numbers of an aim by column.
pub(crate) fn aim_by_part(
    alloc: Global,
    aim: &[i128],
    parts: &[Part],
) -> Result<Vec<i128>, AllocError>
    requires { All IsNarrow aim.now }
    ensures values { IfOk result (λ list. list.items ≡ part_numbers (numbers aim.now) parts.now) }
    ensures narrow { IfOk result (λ list. All IsNarrow list.items) }
{
    let mut list = Vec::new(alloc);
    for part in parts {
        list.push(signed(*part, number_at(aim, part.var)))?;
    }
    Ok(list)
}

/// The number at a place, or 0 past the end.
fn number_at(list: &[i128], v: usize) -> i128
    requires { All IsNarrow list.now }
    ensures value { result ≡ numbers list.now v }
    ensures narrow { IsNarrow result }
{
    if v < list.len() { list[v] } else { 0 }
}

/// The numbers that aren't zero, with their places.
pub(crate) fn listed(alloc: Global, list: &[i128]) -> Result<Vec<(u32, i128)>, AllocError>
    requires { length list.now < 2 ^ 32 }
    ensures { IfOk result (λ terms. terms.items ≡ listed_from 0 list.now) }
{
    let mut terms = Vec::new(alloc);
    for (c, number) in list.iter().enumerate() {
        add_number(&mut terms, c as u32, *number)?;
    }
    Ok(terms)
}

fn add_number(terms: &mut Vec<(u32, i128)>, c: u32, number: i128) -> Result<(), AllocError>
    ensures { OnOk result (terms.new.items ≡ terms.old.items ++ listed_from c (number ∷ [])) }
{
    if number != 0 {
        terms.push((c, number))?;
    }
    Ok(())
}
