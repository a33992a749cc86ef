ghost use Rattle.std.specs.Prelude.{◌≡◌, ◌<◌, ◌≤◌, [], filter, length, map, codes, IfOk};
ghost use Rattle.serde_json.specs.View.{view};
ghost use Rattle.zr_value.specs.Faults.{Reads};
ghost use Rattle.zr_value.specs.Values.{optional, part, each};
ghost use Rattle.zr_value.specs.Names.{known_in, names_at};
ghost use Rattle.zr_value.specs.Terms.{is_term};
ghost use Rattle.zr_read.specs.Costs.{other_player_in, other_variable_in, add_cross, cross_of, cross_in};

use serde_json::Value;
use std::alloc::{AllocError, Global};
use std::collections::BTreeMap;
use zr_game::CrossTerm;
use zr_value::{
    Aim, GameError, GameFault, Known, Names, at, missing_item, numbered, placed,
    read_cost_number_part, read_known, read_known_part, read_listed, read_tuple,
};

/// Numbers by own variable, other player and that player's variable.
type Products = BTreeMap<(u32, u32, u32), i64>;

/// Another player than i.
pub(crate) fn read_other_player(
    alloc: Global,
    value: &Value,
    players: &Names<'_>,
    i: u32,
) -> Result<u32, GameError>
    ensures read { Reads (λ j. j) result (other_player_in players.now i (view value.now)) }
    ensures below { IfOk result (λ j. j < length players.now) }
{
    let j = read_known(alloc, value, players)?;
    if j == i {
        Err(at(alloc, GameFault::OwnCross))
    } else {
        Ok(j)
    }
}

/// Part k of a list, which is another player than i.
pub(crate) fn read_player_part(
    alloc: Global,
    list: &Value,
    k: usize,
    players: &Names<'_>,
    i: u32,
) -> Result<u32, GameError>
    ensures read { Reads (λ j. j) result (part k (other_player_in players.now i) (view list.now)) }
    ensures below { IfOk result (λ j. j < length players.now) }
{
    match list.get(k) {
        None => Err(missing_item(alloc, k)),
        Some(value) => numbered(alloc, k, read_other_player(alloc, value, players, i)),
    }
}

/// Part k of a list, which is a variable of player j.
pub(crate) fn read_variable_part(
    alloc: Global,
    list: &Value,
    k: usize,
    known: &Known<'_>,
    j: u32,
) -> Result<u32, GameError>
    requires { j < length known.now.variables.items }
    ensures { Reads (λ v. v) result
        (part k (known_in (names_at known.now.variables.items j)) (view list.now)) }
{
    read_known_part(alloc, list, k, &known.variables[j as usize])
}

/// A variable of another player that has no number yet with `own`.
fn read_other_variable(
    alloc: Global,
    value: &Value,
    known: &Known<'_>,
    own: u32,
    j: u32,
    so_far: &Products,
) -> Result<u32, GameError>
    requires { j < length known.now.variables.items }
    ensures { Reads (λ v. v) result
        (other_variable_in (names_at known.now.variables.items j) own j
        so_far.now.entries (view value.now)) }
{
    let v = read_known(alloc, value, &known.variables[j as usize])?;
    if so_far.contains_key(&(own, j, v)) {
        Err(at(alloc, GameFault::Twice))
    } else {
        Ok(v)
    }
}

/// The other player's variable of a cross term.
fn read_cross_variable(
    alloc: Global,
    list: &Value,
    known: &Known<'_>,
    own: u32,
    j: u32,
    so_far: &Products,
) -> Result<u32, GameError>
    requires { j < length known.now.variables.items }
    ensures { Reads (λ v. v) result
        (part 2 (other_variable_in (names_at known.now.variables.items j) own j
        so_far.now.entries) (view list.now)) }
{
    match list.get(2usize) {
        None => Err(missing_item(alloc, 2)),
        Some(value) => numbered(
            alloc,
            2,
            read_other_variable(alloc, value, known, own, j, so_far),
        ),
    }
}

/// Adds a cross term of player i to those so far.
fn add_cross(
    alloc: Global,
    so_far: &mut Products,
    known: &Known<'_>,
    i: u32,
    aim: Aim,
    value: &Value,
) -> Result<(), GameError>
    requires { i < length known.now.variables.items }
    ensures { Reads (λ _. so_far.new.entries) result
        (add_cross known.now.players known.now.variables.items i aim
        so_far.old.entries (view value.now)) }
{
    read_tuple(alloc, value, 4)?;
    let own = read_variable_part(alloc, value, 0, known, i)?;
    let j = read_player_part(alloc, value, 1, &known.players, i)?;
    let v = read_cross_variable(alloc, value, known, own, j, so_far)?;
    let z = read_cost_number_part(alloc, value, 3, aim)?;
    so_far.insert((own, j, v), z)?;
    Ok(())
}

/// All cross terms of the items of a list of player p.
fn read_each_cross(
    alloc: Global,
    items: &[Value],
    known: &Known<'_>,
    p: u32,
    aim: Aim,
) -> Result<Products, GameError>
    requires { p < length known.now.variables.items }
    ensures { Reads (λ m. m.entries) result
        (each (add_cross known.now.players known.now.variables.items p aim) 0 []
        (map view items.now)) }
{
    let mut all = BTreeMap::new(alloc);
    for (i, item) in items.iter().enumerate() {
        let added = add_cross(alloc, &mut all, known, p, aim, item);
        if let Err(e) = numbered(alloc, i, added) {
            return Err(e);
        }
    }
    Ok(all)
}

/// The cross terms whose number isn't 0.
fn without_zeros(alloc: Global, all: Products) -> Result<Vec<CrossTerm>, AllocError>
    ensures { IfOk result (λ kept. kept.items ≡ map cross_of (filter is_term all.entries)) }
{
    let mut kept = Vec::new(alloc);
    for ((own, player, var), coef) in all {
        if coef != 0 {
            kept.push(CrossTerm {
                own,
                player,
                var,
                coef,
            })?;
        }
    }
    Ok(kept)
}

/// The cross terms of a list of player i, at most so many.
fn read_cross(
    alloc: Global,
    value: &Value,
    most: usize,
    known: &Known<'_>,
    i: u32,
    aim: Aim,
) -> Result<Vec<CrossTerm>, GameError>
    requires { i < length known.now.variables.items }
    ensures { Reads (λ v. v.items) result
        (cross_in most known.now.players known.now.variables.items i aim (view value.now)) }
{
    let items = read_listed(alloc, value, 0, most)?;
    let all = read_each_cross(alloc, items, known, i, aim)?;
    Ok(without_zeros(alloc, all)?)
}

/// The member `cross` of player i.
pub(crate) fn read_cross_member(
    alloc: Global,
    object: &Value,
    most: usize,
    known: &Known<'_>,
    i: u32,
    aim: Aim,
) -> Result<Vec<CrossTerm>, GameError>
    requires { i < length known.now.variables.items }
    ensures { Reads (λ v. v.items) result (optional (codes "cross") []
        (cross_in most known.now.players known.now.variables.items i aim) (view object.now)) }
{
    match object.get("cross") {
        None => Ok(Vec::new(alloc)),
        Some(value) => placed(
            alloc,
            "cross",
            read_cross(alloc, value, most, known, i, aim),
        ),
    }
}
