//! Followers.
ghost use Rattle.std.specs.Prelude.{◌≡◌, IfOk, List, drop, map, take};
ghost use Rattle.serde_json.specs.Data.{string};
ghost use Rattle.serde_json.specs.View.{view};
ghost use Rattle.zr_game.specs.Players.{var_of};
ghost use Rattle.zr_source.specs.Names.{var_name};
ghost use Rattle.zr_source.specs.Sources.{follower_of};
ghost use Rattle.zr_write.specs.Canonical.{follower_cross_data, follower_data, list_data};

use crate::parts::{run_of, variable_name};
use crate::rows::{rows_value, terms_value};
use serde_json::{Value, json};
use std::alloc::{AllocError, Global};
use zr_game::Var;
use zr_source::Follower;

/// The list of a leader's followers.
pub(crate) fn followers_value(
    alloc: Global,
    vars: &[Var],
    followers: &[Follower],
) -> Result<Value, AllocError>
    ensures { IfOk result (λ value. view value ≡ list_data
        (follower_data (map var_name (map var_of vars.now))) (map follower_of followers.now)) }
{
    let mut items = Vec::new(alloc);
    for follower in followers {
        items.push(follower_value(alloc, vars, follower)?)?;
    }
    Ok(Value::Array(items))
}

fn follower_value(alloc: Global, vars: &[Var], follower: &Follower) -> Result<Value, AllocError>
    ensures { IfOk result (λ value. view value
        ≡ follower_data (map var_name (map var_of vars.now)) (follower_of follower.now)) }
{
    let cost = terms_value(alloc, vars, follower.cost.as_slice())?;
    let cross = follower_cross_terms_value(alloc, vars, &follower.cross)?;
    let rows = rows_value(alloc, vars, &follower.rows)?;
    let names = own_names_value(alloc, vars, follower.first, follower.count)?;
    json!(in alloc; {"cost": cost, "cross": cross, "rows": rows, "vars": names})
}

fn follower_cross_terms_value(
    alloc: Global,
    vars: &[Var],
    terms: &[(u32, u32, i64)],
) -> Result<Value, AllocError>
    ensures { IfOk result (λ value. view value ≡ list_data
        (follower_cross_data (map var_name (map var_of vars.now))) terms.now) }
{
    let mut items = Vec::new(alloc);
    for (own, other, number) in terms {
        items.push(follower_cross_value(alloc, vars, (*own, *other, *number))?)?;
    }
    Ok(Value::Array(items))
}

fn follower_cross_value(
    alloc: Global,
    vars: &[Var],
    term: (u32, u32, i64),
) -> Result<Value, AllocError>
    ensures { IfOk result (λ value. view value
        ≡ follower_cross_data (map var_name (map var_of vars.now)) term) }
{
    let (own, other, number) = term;
    json!(in alloc; [variable_name(vars, own), variable_name(vars, other), number])
}

/// The list of the names of `count` variables from number `first` on.
fn own_names_value(alloc: Global, vars: &[Var], first: u32, count: u32) -> Result<Value, AllocError>
    ensures { IfOk result (λ value. view value ≡ list_data (λ name. string name)
        (take count (drop first (map var_name (map var_of vars.now))))) }
{
    names_value(alloc, run_of(vars, first as usize, count as usize))
}

/// The list of the names of the variables.
fn names_value(alloc: Global, vars: &[Var]) -> Result<Value, AllocError>
    ensures { IfOk result (λ value. view value
        ≡ list_data (λ name. string name) (map var_name (map var_of vars.now))) }
{
    let mut items = Vec::new(alloc);
    for var in vars {
        items.push(Value::try_from_str(alloc, &var.name)?)?;
    }
    Ok(Value::Array(items))
}
