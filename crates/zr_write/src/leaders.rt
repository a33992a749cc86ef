//! Leaders.
ghost use Rattle.std.specs.Prelude.{◌≡◌, IfOk, List, codes, length, map, take};
ghost use Rattle.serde_json.specs.Data.{member};
ghost use Rattle.serde_json.specs.View.{view};
ghost use Rattle.zr_game.specs.Players.{var_of};
ghost use Rattle.zr_source.specs.SourceForms.{first_of};
ghost use Rattle.zr_source.specs.Sources.{follower_of, leader_of, leaders_of};
ghost use Rattle.zr_write.specs.Canonical.{leader_data, leaders_data, list_data, parts_data, variable_data};
ghost use Rattle.zr_write.specs.Parts.{ArePartsOf, rest_of_leader, whole_leader};

use crate::costs::{cross_terms_value, others_value};
use crate::followers::followers_value;
use crate::parts::{run_of, variables_value};
use crate::rows::{pairs_value, rows_value, terms_value};
use serde_json::{Value, json};
use std::alloc::{AllocError, Global};
use zr_game::Var;
use zr_source::{Follower, Leader};

/// The list of the leaders, with lower bounds or without them.
pub(crate) fn leaders_value(
    alloc: Global,
    leaders: &[Leader],
    lows: bool,
) -> Result<Value, AllocError>
    ensures { IfOk result (λ value. view value
        ≡ parts_data (leaders_data lows (leaders_of leaders.now) 0 (leaders_of leaders.now))) }
{
    let mut items = Vec::new(alloc);
    for (i, leader) in leaders.iter().enumerate() {
        items.push(leader_value(alloc, leaders, i, leader, lows)?)?;
    }
    Ok(Value::Array(items))
}

/// What every leader's value has.
#[derive(Drop)]
struct Parts {
    cost: Value,
    cross: Value,
    followers: Value,
    name: Value,
    pairs: Value,
    rows: Value,
    vars: Value,
}

fn leader_value(
    alloc: Global,
    leaders: &[Leader],
    i: usize,
    leader: &Leader,
    lows: bool,
) -> Result<Value, AllocError>
    ensures { IfOk result (λ value. view value
        ≡ leader_data lows (leaders_of leaders.now) i (leader_of leader.now)) }
{
    let parts = parts_of(alloc, leaders, i, leader, lows)?;
    if leader.base.others.is_empty() {
        return without_others(alloc, parts);
    }
    let others = others_value(alloc, leaders, &leader.base.others)?;
    with_others(alloc, parts, others)
}

fn parts_of(
    alloc: Global,
    leaders: &[Leader],
    i: usize,
    leader: &Leader,
    lows: bool,
) -> Result<Parts, AllocError>
    ensures { IfOk result (ArePartsOf lows (leaders_of leaders.now) i (leader_of leader.now)) }
{
    let base = &leader.base;
    Ok(Parts {
        cost: terms_value(alloc, &base.vars, base.cost.as_slice())?,
        cross: cross_terms_value(alloc, leaders, i, &base.cross)?,
        followers: followers_value(alloc, &base.vars, &leader.followers)?,
        name: Value::try_from_str(alloc, &base.name)?,
        pairs: pairs_value(alloc, &base.vars, &base.pairs)?,
        rows: rows_value(alloc, &base.vars, &base.rows)?,
        vars: own_variables_value(alloc, &base.vars, &leader.followers, lows)?,
    })
}

fn without_others(alloc: Global, parts: Parts) -> Result<Value, AllocError>
    ensures { IfOk result (λ value. view value ≡ whole_leader parts (rest_of_leader parts)) }
{
    let Parts {
        cost,
        cross,
        followers,
        name,
        pairs,
        rows,
        vars,
    } = parts;
    json!(in alloc; {
        "cost": cost, "cross": cross, "followers": followers, "name": name,
        "pairs": pairs, "rows": rows, "vars": vars
    })
}

fn with_others(alloc: Global, parts: Parts, others: Value) -> Result<Value, AllocError>
    ensures { IfOk result (λ value. view value
        ≡ whole_leader parts (member (codes "others") (view others) (rest_of_leader parts))) }
{
    let Parts {
        cost,
        cross,
        followers,
        name,
        pairs,
        rows,
        vars,
    } = parts;
    json!(in alloc; {
        "cost": cost, "cross": cross, "followers": followers, "name": name, "others": others,
        "pairs": pairs, "rows": rows, "vars": vars
    })
}

/// The list of the variables before those of the followers.
fn own_variables_value(
    alloc: Global,
    vars: &[Var],
    followers: &[Follower],
    lows: bool,
) -> Result<Value, AllocError>
    ensures { IfOk result (λ value. view value ≡ list_data (variable_data lows)
        (take (first_of (length vars.now) (map follower_of followers.now)) (map var_of vars.now))) }
{
    let own = own_count(followers, vars.len());
    variables_value(alloc, run_of(vars, 0, own), lows)
}

/// Where the followers' variables begin.
fn own_count(followers: &[Follower], columns: usize) -> usize
    ensures { result ≡ first_of columns (map follower_of followers.now) }
{
    match followers.get(0) {
        Some(follower) => follower.first as usize,
        None => columns,
    }
}
