ghost use Rattle.std.specs.Prelude.{◌≡◌, ◌<◌, [], length, codes, IfOk};
ghost use Rattle.std.specs.List.{All};
ghost use Rattle.serde_json.specs.View.{view};
ghost use Rattle.zr_game.specs.Forms.{IsNumber};
ghost use Rattle.zr_value.specs.Faults.{Reads};
ghost use Rattle.zr_value.specs.Values.{optional};
ghost use Rattle.zr_value.specs.Names.{names_at};
ghost use Rattle.zr_value.specs.Terms.{terms_in};
ghost use Rattle.zr_value.specs.Formats.{aimed};
ghost use Rattle.zr_read.specs.Costs.{costs_in};
ghost use Rattle.zr_read.specs.Seen.{costs_of};

use crate::cross::read_cross_member;
use crate::others::read_others_member;
use serde_json::Value;
use smallvec::SmallVec;
use std::alloc::{AllocError, Global};
use zr_game::{CrossTerm, Other};
use zr_value::{Aim, GameError, Known, Names, opposite_terms, placed, read_terms};

/// What a player has to pay.
#[derive(Drop)]
pub(crate) struct Costs {
    pub(crate) cost: SmallVec<(u32, i64), 8>,
    pub(crate) cross: Vec<CrossTerm>,
    pub(crate) others: Vec<Other>,
}

/// The member `cost`.
pub(crate) fn read_cost_member(
    alloc: Global,
    object: &Value,
    names: &Names<'_>,
) -> Result<SmallVec<(u32, i64), 8>, GameError>
    ensures read { Reads (λ v. v.items) result
        (optional (codes "cost") [] (terms_in names.now) (view object.now)) }
    ensures numbers { IfOk result (λ v. All (λ t. IsNumber t.1) v.items) }
{
    match object.get("cost") {
        None => Ok(SmallVec::new(alloc)),
        Some(value) => placed(alloc, "cost", read_terms(alloc, value, names)),
    }
}

/// The terms of a cost under an aim.
pub(crate) fn aimed(
    alloc: Global,
    terms: SmallVec<(u32, i64), 8>,
    aim: Aim,
) -> Result<SmallVec<(u32, i64), 8>, AllocError>
    requires { All (λ t. IsNumber t.1) terms.items }
    ensures { IfOk result (λ made. made.items ≡ aimed aim terms.items) }
{
    match aim {
        Aim::Min => Ok(terms),
        Aim::Max => opposite_terms(alloc, terms.as_slice()),
    }
}

/// The costs of player i, with at most so many cross terms.
pub(crate) fn read_costs(
    alloc: Global,
    object: &Value,
    most: usize,
    known: &Known<'_>,
    i: u32,
    aim: Aim,
) -> Result<Costs, GameError>
    requires { i < length known.now.variables.items }
    ensures { Reads costs_of result
        (costs_in most known.now.players known.now.variables.items i aim (view object.now)) }
{
    let cost = read_own_cost(alloc, object, known, i)?;
    let cross = read_cross_member(alloc, object, most, known, i, aim)?;
    let others = read_others_member(alloc, object, known, i, aim)?;
    Ok(Costs {
        cost: aimed(alloc, cost, aim)?,
        cross,
        others,
    })
}

/// The member `cost` of player i.
fn read_own_cost(
    alloc: Global,
    object: &Value,
    known: &Known<'_>,
    i: u32,
) -> Result<SmallVec<(u32, i64), 8>, GameError>
    requires { i < length known.now.variables.items }
    ensures read { Reads (λ v. v.items) result
        (optional (codes "cost") [] (terms_in (names_at known.now.variables.items i))
        (view object.now)) }
    ensures numbers { IfOk result (λ v. All (λ t. IsNumber t.1) v.items) }
{
    read_cost_member(alloc, object, &known.variables[i as usize])
}
