//! Cross terms, and terms in the others' variables.
ghost use Rattle.std.specs.Prelude.{◌≡◌, IfOk, List};
ghost use Rattle.serde_json.specs.View.{view};
ghost use Rattle.zr_source.specs.Sources.{leaders_of};
ghost use Rattle.zr_write.specs.Canonical.{cross_data, list_data, other_data};

use crate::parts::{player_name, variable_name_of};
use serde_json::{Value, json};
use std::alloc::{AllocError, Global};
use zr_game::{CrossTerm, Other};
use zr_source::Leader;

/// The list of leader `i`'s cross terms.
pub(crate) fn cross_terms_value(
    alloc: Global,
    leaders: &[Leader],
    i: usize,
    terms: &[CrossTerm],
) -> Result<Value, AllocError>
    ensures { IfOk result (λ value. view value
        ≡ list_data (cross_data (leaders_of leaders.now) i) terms.now) }
{
    let mut items = Vec::new(alloc);
    for term in terms {
        items.push(cross_value(alloc, leaders, i, *term)?)?;
    }
    Ok(Value::Array(items))
}

fn cross_value(
    alloc: Global,
    leaders: &[Leader],
    i: usize,
    term: CrossTerm,
) -> Result<Value, AllocError>
    ensures { IfOk result (λ value. view value ≡ cross_data (leaders_of leaders.now) i term) }
{
    let own = variable_name_of(leaders, i, term.own);
    let player = player_name(leaders, term.player);
    let other = variable_name_of(leaders, term.player as usize, term.var);
    json!(in alloc; [own, player, other, term.coef])
}

/// The list of terms in the others' variables.
pub(crate) fn others_value(
    alloc: Global,
    leaders: &[Leader],
    terms: &[Other],
) -> Result<Value, AllocError>
    ensures { IfOk result (λ value. view value
        ≡ list_data (other_data (leaders_of leaders.now)) terms.now) }
{
    let mut items = Vec::new(alloc);
    for term in terms {
        items.push(other_value(alloc, leaders, *term)?)?;
    }
    Ok(Value::Array(items))
}

fn other_value(alloc: Global, leaders: &[Leader], term: Other) -> Result<Value, AllocError>
    ensures { IfOk result (λ value. view value ≡ other_data (leaders_of leaders.now) term) }
{
    let (j, v) = term.first;
    let player = player_name(leaders, j);
    let variable = variable_name_of(leaders, j as usize, v);
    match term.second {
        None => json!(in alloc; [player, variable, term.coef]),
        Some((k, w)) => {
            let second = player_name(leaders, k);
            let other = variable_name_of(leaders, k as usize, w);
            json!(in alloc; [player, variable, second, other, term.coef])
        }
    }
}
