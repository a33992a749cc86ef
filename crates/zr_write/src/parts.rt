//! Names, numbers and variables.
ghost use Rattle.std.specs.Prelude.{◌≡◌, IfOk, List, [], drop, map, take};
ghost use Rattle.serde_json.specs.View.{view};
ghost use Rattle.zr_game.specs.Players.{var_of};
ghost use Rattle.zr_source.specs.Names.{leader_name, var_name};
ghost use Rattle.zr_source.specs.Sources.{leaders_of};
ghost use Rattle.zr_write.specs.Canonical.{list_data, low_data, name_at, names_of, variable_data};

use serde_json::{Value, json};
use std::alloc::{AllocError, Global};
use zr_game::Var;
use zr_source::Leader;

/// The name of variable `v`.
pub(crate) fn variable_name(vars: &[Var], v: u32) -> &str
    ensures { result.now ≡ name_at (map var_name (map var_of vars.now)) v }
{
    match vars.get(v as usize) {
        Some(var) => var.name.as_str(),
        None => "",
    }
}

/// The name of leader `j`.
pub(crate) fn player_name(leaders: &[Leader], j: u32) -> &str
    ensures { result.now ≡ name_at (map leader_name (leaders_of leaders.now)) j }
{
    match leaders.get(j as usize) {
        Some(leader) => leader.base.name.as_str(),
        None => "",
    }
}

/// The name of variable `v` of leader `j`.
pub(crate) fn variable_name_of(leaders: &[Leader], j: usize, v: u32) -> &str
    ensures { result.now ≡ name_at (names_of (leaders_of leaders.now) j) v }
{
    match leaders.get(j) {
        Some(leader) => variable_name(&leader.base.vars, v),
        None => "",
    }
}

/// The list of the variables, with their lower bounds or without them.
pub(crate) fn variables_value(alloc: Global, vars: &[Var], lows: bool) -> Result<Value, AllocError>
    ensures { IfOk result (λ value. view value ≡ list_data (variable_data lows) (map var_of vars.now)) }
{
    let mut items = Vec::new(alloc);
    for var in vars {
        items.push(variable_value(alloc, var, lows)?)?;
    }
    Ok(Value::Array(items))
}

fn variable_value(alloc: Global, var: &Var, lows: bool) -> Result<Value, AllocError>
    ensures { IfOk result (λ value. view value ≡ variable_data lows (var_of var.now)) }
{
    let (name, int) = (&var.name, var.whole);
    match (lows, var.up) {
        (false, None) => json!(in alloc; {"int": int, "name": name}),
        (false, Some(up)) => json!(in alloc; {"int": int, "name": name, "up": up}),
        (true, None) => json!(in alloc; {"int": int, "low": low_value(var.low), "name": name}),
        (true, Some(up)) => {
            json!(in alloc; {"int": int, "low": low_value(var.low), "name": name, "up": up})
        }
    }
}

fn low_value(low: Option<i64>) -> Value
    ensures { view result ≡ low_data low }
{
    match low {
        Some(number) => Value::from(number),
        None => Value::Null,
    }
}

/// The `count` variables from number `first` on, or as many of them as there are.
pub(crate) fn run_of(vars: &[Var], first: usize, count: usize) -> &[Var]
    ensures { result.now ≡ take count (drop first vars.now) }
{
    let rest = &vars[first.min(vars.len())..];
    &rest[..count.min(rest.len())]
}
