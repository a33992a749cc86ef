ghost use Rattle.std.specs.Prelude.{◌≡◌, ◌<◌, ◌≤◌, ◌+◌, IfOk, if◌then◌else◌, length};
ghost use Rattle.zr_system.specs.Asked.{firsts};
ghost use Rattle.zr_choices.specs.Parted.{place};
ghost use Rattle.zr_choices.specs.Programs as program;
ghost use Rattle.zr_choices.specs.Programs.{free_in};

use std::alloc::{AllocError, Global};
use zr_system::Unknown;

/// Whether an unknown may be below zero.
pub(crate) fn may_be_negative(u: Unknown) -> bool
    ensures { result ≡ program.may_be_negative u }
{
    matches!(u, Unknown::Worth { .. } | Unknown::Share { .. })
}

/// How many columns an unknown takes.
pub(crate) fn width(u: Unknown) -> u32
    ensures value { result ≡ (if program.may_be_negative u then 2 else 1) }
    ensures few { result ≤ 2 }
{
    if may_be_negative(u) { 2 } else { 1 }
}

/// The columns of the unknowns, and after them the last column.
pub(crate) fn places(alloc: Global, order: &[Unknown]) -> Result<Vec<u32>, AllocError>
    requires { length order.now < 16777217 }
    ensures { IfOk result (λ list.
        list.items ≡ firsts (length order.now + 1) (place (free_in order.now))) }
{
    let mut list = Vec::new(alloc);
    let mut next = 0;
    for u in order {
        list.push(next)?;
        next += width(*u);
    }
    list.push(next)?;
    Ok(list)
}
