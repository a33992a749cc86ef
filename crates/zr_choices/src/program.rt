ghost use Rattle.std.specs.Prelude.{◌≡◌, ◌<◌, ◌+◌, ℕ, pos, negsuc, slice_index_or, length, map, IfOk};
ghost use Rattle.std.specs.List.{All};
ghost use Rattle.zr_base.specs.Steps.{IsNarrow};
ghost use Rattle.zr_lin.specs.Ineqs.{IsIneq, ineq_of};
ghost use Rattle.zr_simplex.specs.Programs.{IsLp};
ghost use Rattle.zr_choices.specs.Asking.{Asks};
ghost use Rattle.zr_choices.specs.Programs.{free_in};

use crate::part::places;
use crate::row::asked_rows;
use std::alloc::{AllocError, Global};
use zr_lin::Ineq;
use zr_simplex::Lp;
use zr_system::Unknown;

/// Columns and rows of a program are fewer than 2^32, and so are rows of these.
const ROWS: usize = 4_200_000_000;

/// The aim, to raise the last column.
fn aim(alloc: Global, last: u32) -> Result<Vec<i128>, AllocError>
    requires { last < 4294967295 }
    ensures len { IfOk result (λ list. length list.items ≡ last + 1) }
    ensures narrow { IfOk result (λ list. All IsNarrow list.items) }
    ensures others { IfOk result (λ list. (j : ℕ) → j < last
        → slice_index_or list.items j (pos 0) ≡ pos 0) }
    ensures last { IfOk result (λ list. slice_index_or list.items last (pos 0) ≡ negsuc 0) }
{
    let mut list = vec![in alloc; 0; last as usize]?;
    list.push(-1)?;
    Ok(list)
}

/// The program that asks for a solution of the rows.
///
/// There is no memory for 4,200,000,000 rows and more.
pub(crate) fn program(alloc: Global, order: &[Unknown], rows: &[Ineq]) -> Result<Lp, AllocError>
    requires few { length order.now < 16777217 }
    requires rows { All (IsIneq (length order.now)) (map ineq_of rows.now) }
    ensures asks { IfOk result (Asks (free_in order.now) (length order.now)
        (map ineq_of rows.now)) }
    ensures lp { IfOk result IsLp }
{
    let places = places(alloc, order)?;
    let last = places[order.len()];
    let rows = asked_rows(alloc, order, &places, last, rows)?;
    if rows.len() >= ROWS {
        return Err(AllocError);
    }
    let aim = aim(alloc, last)?;
    Ok(Lp {
        columns: last + 1,
        rows,
        aim,
    })
}
