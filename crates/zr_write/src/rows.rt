//! Terms, rows and pairs.
ghost use Rattle.std.specs.Prelude.{◌≡◌, IfOk, List, map};
ghost use Rattle.serde_json.specs.View.{view};
ghost use Rattle.zr_base.specs.Rows.{row_of};
ghost use Rattle.zr_game.specs.Players.{pair_of, var_of};
ghost use Rattle.zr_source.specs.Names.{var_name};
ghost use Rattle.zr_write.specs.Canonical.{list_data, pair_data, row_data, term_data, terms_data};

use crate::parts::variable_name;
use serde_json::{Value, json};
use std::alloc::{AllocError, Global};
use zr_base::Row;
use zr_game::{Pair, Var};

/// The list of terms over the variables.
pub(crate) fn terms_value(
    alloc: Global,
    vars: &[Var],
    terms: &[(u32, i64)],
) -> Result<Value, AllocError>
    ensures { IfOk result (λ value. view value
        ≡ terms_data (map var_name (map var_of vars.now)) terms.now) }
{
    let mut items = Vec::new(alloc);
    for (v, number) in terms {
        items.push(term_value(alloc, vars, *v, *number)?)?;
    }
    Ok(Value::Array(items))
}

fn term_value(alloc: Global, vars: &[Var], v: u32, number: i64) -> Result<Value, AllocError>
    ensures { IfOk result (λ value. view value
        ≡ term_data (map var_name (map var_of vars.now)) (v, number)) }
{
    json!(in alloc; [variable_name(vars, v), number])
}

/// The list of rows over the variables.
pub(crate) fn rows_value(alloc: Global, vars: &[Var], rows: &[Row]) -> Result<Value, AllocError>
    ensures { IfOk result (λ value. view value
        ≡ list_data (row_data (map var_name (map var_of vars.now))) (map row_of rows.now)) }
{
    let mut items = Vec::new(alloc);
    for row in rows {
        items.push(row_value(alloc, vars, row)?)?;
    }
    Ok(Value::Array(items))
}

fn row_value(alloc: Global, vars: &[Var], row: &Row) -> Result<Value, AllocError>
    ensures { IfOk result (λ value. view value
        ≡ row_data (map var_name (map var_of vars.now)) (row_of row.now)) }
{
    let terms = terms_value(alloc, vars, row.coef.as_slice())?;
    json!(in alloc; {"le": row.le, "terms": terms})
}

/// The list of pairs over the variables.
pub(crate) fn pairs_value(alloc: Global, vars: &[Var], pairs: &[Pair]) -> Result<Value, AllocError>
    ensures { IfOk result (λ value. view value
        ≡ list_data (pair_data (map var_name (map var_of vars.now))) (map pair_of pairs.now)) }
{
    let mut items = Vec::new(alloc);
    for pair in pairs {
        items.push(pair_value(alloc, vars, pair)?)?;
    }
    Ok(Value::Array(items))
}

fn pair_value(alloc: Global, vars: &[Var], pair: &Pair) -> Result<Value, AllocError>
    ensures { IfOk result (λ value. view value
        ≡ pair_data (map var_name (map var_of vars.now)) (pair_of pair.now)) }
{
    let terms = terms_value(alloc, vars, pair.coef.as_slice())?;
    json!(in alloc; {"add": pair.add, "terms": terms, "var": variable_name(vars, pair.var)})
}
