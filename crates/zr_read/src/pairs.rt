ghost use Rattle.std.specs.Prelude.{◌≡◌, ◌<◌, [], length, map, codes, slice_get, IfOk};
ghost use Rattle.serde_json.specs.View.{view};
ghost use Rattle.zr_game.specs.Players.{pair_of, var_of};
ghost use Rattle.zr_value.specs.Faults.{Reads};
ghost use Rattle.zr_value.specs.Values.{number_in, needed, optional, each};
ghost use Rattle.zr_read.specs.Rows.{is_from_zero, pair_variable_in, pair_in, add_pair, pairs_in};

use crate::rows::read_terms_member;
use serde_json::Value;
use std::alloc::Global;
use zr_game::{Pair, Var};
use zr_value::{
    GameError, GameFault, Names, at, missing, numbered, placed, read_known, read_listed,
    read_number, read_object,
};

/// Whether there is a variable v with the lower bound 0.
fn is_from_zero(vars: &[Var], v: usize) -> bool
    ensures { result ≡ is_from_zero (slice_get (map var_of vars.now) v) }
{
    v < vars.len() && vars[v].low == Some(0)
}

/// The variable of a pair.
fn read_pair_variable(
    alloc: Global,
    value: &Value,
    names: &Names<'_>,
    vars: &[Var],
) -> Result<u32, GameError>
    ensures { Reads (λ v. v) result
        (pair_variable_in names.now (map var_of vars.now) (view value.now)) }
{
    let v = read_known(alloc, value, names)?;
    if is_from_zero(vars, v as usize) {
        Ok(v)
    } else {
        Err(at(alloc, GameFault::PairLow))
    }
}

/// The member `var`.
fn read_var_member(
    alloc: Global,
    object: &Value,
    names: &Names<'_>,
    vars: &[Var],
) -> Result<u32, GameError>
    ensures { Reads (λ v. v) result (needed (codes "var")
        (pair_variable_in names.now (map var_of vars.now)) (view object.now)) }
{
    match object.get("var") {
        None => Err(missing(alloc, "var")),
        Some(value) => placed(alloc, "var", read_pair_variable(alloc, value, names, vars)),
    }
}

/// The member `add`.
fn read_add(alloc: Global, object: &Value) -> Result<i64, GameError>
    ensures { Reads (λ z. z) result (needed (codes "add") number_in (view object.now)) }
{
    match object.get("add") {
        None => Err(missing(alloc, "add")),
        Some(value) => placed(alloc, "add", read_number(alloc, value)),
    }
}

/// A pair.
fn read_pair(
    alloc: Global,
    value: &Value,
    names: &Names<'_>,
    vars: &[Var],
) -> Result<Pair, GameError>
    ensures { Reads pair_of result (pair_in names.now (map var_of vars.now) (view value.now)) }
{
    read_object(alloc, value)?;
    let var = read_var_member(alloc, value, names, vars)?;
    let coef = read_terms_member(alloc, value, names)?;
    let add = read_add(alloc, value)?;
    Ok(Pair { var, coef, add })
}

/// Adds a pair to those so far.
fn add_pair(
    alloc: Global,
    so_far: &mut Vec<Pair>,
    names: &Names<'_>,
    vars: &[Var],
    value: &Value,
) -> Result<(), GameError>
    ensures { Reads (λ _. map pair_of so_far.new.items) result
        (add_pair names.now (map var_of vars.now) (map pair_of so_far.old.items) (view value.now)) }
{
    let pair = read_pair(alloc, value, names, vars)?;
    so_far.push(pair)?;
    Ok(())
}

/// The pairs of the items of a list.
fn read_each_pair(
    alloc: Global,
    items: &[Value],
    names: &Names<'_>,
    vars: &[Var],
) -> Result<Vec<Pair>, GameError>
    ensures { Reads (λ v. map pair_of v.items) result
        (each (add_pair names.now (map var_of vars.now)) 0 [] (map view items.now)) }
{
    let mut list = Vec::new(alloc);
    for (i, item) in items.iter().enumerate() {
        let added = add_pair(alloc, &mut list, names, vars, item);
        if let Err(e) = numbered(alloc, i, added) {
            return Err(e);
        }
    }
    Ok(list)
}

/// The pairs of a list, at most 32.
fn read_pairs(
    alloc: Global,
    value: &Value,
    names: &Names<'_>,
    vars: &[Var],
) -> Result<Vec<Pair>, GameError>
    ensures { Reads (λ v. map pair_of v.items) result
        (pairs_in names.now (map var_of vars.now) (view value.now)) }
{
    let items = read_listed(alloc, value, 0, 32)?;
    read_each_pair(alloc, items, names, vars)
}

/// The member `pairs`.
pub(crate) fn read_pairs_member(
    alloc: Global,
    object: &Value,
    names: &Names<'_>,
    vars: &[Var],
) -> Result<Vec<Pair>, GameError>
    ensures { Reads (λ v. map pair_of v.items) result (optional (codes "pairs") []
        (pairs_in names.now (map var_of vars.now)) (view object.now)) }
{
    match object.get("pairs") {
        None => Ok(Vec::new(alloc)),
        Some(value) => placed(alloc, "pairs", read_pairs(alloc, value, names, vars)),
    }
}
