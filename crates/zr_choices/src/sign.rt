ghost use Rattle.std.specs.Prelude.{◌≡◌, ◌<◌, ◌++◌, ◌∷◌, [], IfOk, OnOk, if◌then◌else◌, length};
ghost use Rattle.zr_choices.specs.Signs as signs;
ghost use Rattle.zr_choices.specs.Signs.{is_up, numbers_of, spread};

use crate::part::may_be_negative;
use std::alloc::{AllocError, Global};
use zr_system::{Line, Unknown};

/// Whether the row says that an unknown is at least 0.
fn is_sign(line: Line) -> bool
    ensures { result ≡ signs.is_sign line }
{
    matches!(
        line,
        Line::Weight { negated: false, .. } | Line::Dual { negated: false, .. }
    )
}

/// Appends a row's number, if the row is one of these.
fn push_number(list: &mut Vec<u32>, is: bool, r: u32) -> Result<(), AllocError>
    ensures { OnOk result (list.new.items ≡ list.old.items ++ (if is then r ∷ [] else [])) }
{
    if is {
        list.push(r)?;
    }
    Ok(())
}

/// The numbers of the rows that say that an unknown is at least 0.
pub(crate) fn sign_rows(alloc: Global, lines: &[Line]) -> Result<Vec<u32>, AllocError>
    requires { length lines.now < 4294967296 }
    ensures { IfOk result (λ list. list.items ≡ signs.sign_rows lines.now) }
{
    let mut list = Vec::new(alloc);
    for r in 0..lines.len() {
        push_number(&mut list, is_sign(lines[r]), r as u32)?;
    }
    Ok(list)
}

/// The rows in turn, one at the column of each unknown that is at least 0, and 0 at the others'.
pub(crate) fn spread_rows(
    alloc: Global,
    order: &[Unknown],
    rows: &[u32],
) -> Result<Vec<u32>, AllocError>
    requires few { length order.now < 16777217 }
    requires count { length (numbers_of is_up 0 order.now) ≡ length rows.now }
    ensures { IfOk result (λ list. list.items ≡ spread order.now rows.now) }
{
    let mut list = Vec::new(alloc);
    let mut next = 0;
    for u in order {
        if may_be_negative(*u) {
            list.push(0)?;
            list.push(0)?;
        } else {
            list.push(rows[next])?;
            next += 1;
        }
    }
    Ok(list)
}
