//! Copies of a player's parts.
ghost use Rattle.std.specs.Prelude.{◌≡◌, ◌++◌, IfOk, OnOk, map, replicate};
ghost use Rattle.zr_base.specs.Rows.{row_of};
ghost use Rattle.zr_game.specs.Players.{pair_of, var_of};
ghost use Rattle.zr_follow.specs.Expansion.{unnamed};

use smallvec::SmallVec;
use std::alloc::{AllocError, Global};
use zr_base::Row;
use zr_game::{Pair, Var};

fn copied_var(var: &Var) -> Result<Var, AllocError>
    ensures { IfOk result (λ v. var_of v ≡ var_of var.now) }
{
    let name = var.name.clone()?;
    Ok(Var {
        name,
        whole: var.whole,
        low: var.low,
        up: var.up,
    })
}

pub(crate) fn copied_vars(alloc: Global, vars: &[Var]) -> Result<Vec<Var>, AllocError>
    ensures { IfOk result (λ list. map var_of list.items ≡ map var_of vars.now) }
{
    let mut list = Vec::new(alloc);
    for var in vars {
        list.push(copied_var(var)?)?;
    }
    Ok(list)
}

/// Adds multipliers: continuous variables with low 0, without an upper bound and without a name.
pub(crate) fn add_multipliers(
    alloc: Global,
    vars: &mut Vec<Var>,
    count: usize,
) -> Result<(), AllocError>
    ensures { OnOk result (map var_of vars.new.items ≡ map var_of vars.old.items
        ++ replicate count unnamed) }
{
    for _ in 0..count {
        vars.push(Var {
            name: String::new(alloc),
            whole: false,
            low: Some(0),
            up: None,
        })?;
    }
    Ok(())
}

fn copied_row(alloc: Global, row: &Row) -> Result<Row, AllocError>
    ensures { IfOk result (λ r. row_of r ≡ row_of row.now) }
{
    let coef = SmallVec::from_slice(alloc, row.coef.as_slice())?;
    Ok(Row { coef, le: row.le })
}

pub(crate) fn copied_rows(alloc: Global, rows: &[Row]) -> Result<Vec<Row>, AllocError>
    ensures { IfOk result (λ list. map row_of list.items ≡ map row_of rows.now) }
{
    let mut list = Vec::new(alloc);
    for row in rows {
        list.push(copied_row(alloc, row)?)?;
    }
    Ok(list)
}

fn copied_pair(alloc: Global, pair: &Pair) -> Result<Pair, AllocError>
    ensures { IfOk result (λ p. pair_of p ≡ pair_of pair.now) }
{
    let coef = SmallVec::from_slice(alloc, pair.coef.as_slice())?;
    Ok(Pair {
        var: pair.var,
        coef,
        add: pair.add,
    })
}

pub(crate) fn copied_pairs(alloc: Global, pairs: &[Pair]) -> Result<Vec<Pair>, AllocError>
    ensures { IfOk result (λ list. map pair_of list.items ≡ map pair_of pairs.now) }
{
    let mut list = Vec::new(alloc);
    for pair in pairs {
        list.push(copied_pair(alloc, pair)?)?;
    }
    Ok(list)
}
