ghost use Rattle.std.specs.Prelude.{◌≡◌, ◌<◌, [], filter, length, map, codes, IfOk, OnOk};
ghost use Rattle.std.specs.BTreeMap.{insert_entry};
ghost use Rattle.serde_json.specs.View.{view};
ghost use Rattle.zr_value.specs.Faults.{Reads};
ghost use Rattle.zr_value.specs.Values.{optional, part, each};
ghost use Rattle.zr_value.specs.Names.{known_in, names_at};
ghost use Rattle.zr_value.specs.Terms.{is_term, taken};
ghost use Rattle.zr_read.specs.Costs.{in_order, places_order, no_others, single_variable_in, add_single, second_player_in, second_variable_in, add_product, add_other, single_of, product_of, others_in};
ghost use Rattle.zr_read.specs.Seen.{others_of};

use crate::cross::{read_other_player, read_player_part, read_variable_part};
use serde_json::Value;
use std::alloc::{AllocError, Global};
use std::collections::BTreeMap;
use zr_game::Other;
use zr_value::{
    Aim, GameError, GameFault, Known, at, missing_item, numbered, placed, read_cost_number_part,
    read_items, read_known, read_listed,
};

/// A player and a variable of that player.
type Place = (u32, u32);

/// Numbers of single variables, and of products of two.
#[derive(Drop)]
pub(crate) struct OtherTerms {
    singles: BTreeMap<Place, i64>,
    products: BTreeMap<(Place, Place), i64>,
}

/// Two places, that of the lower player first.
fn in_order(a: Place, b: Place) -> (Place, Place)
    ensures { result ≡ in_order a b }
{
    if a.0 < b.0 { (a, b) } else { (b, a) }
}

/// A variable of player j that has no number yet.
fn read_single_variable(
    alloc: Global,
    value: &Value,
    known: &Known<'_>,
    j: u32,
    so_far: &BTreeMap<Place, i64>,
) -> Result<u32, GameError>
    requires { j < length known.now.variables.items }
    ensures { Reads (λ v. v) result
        (single_variable_in (names_at known.now.variables.items j) j
        so_far.now.entries (view value.now)) }
{
    let v = read_known(alloc, value, &known.variables[j as usize])?;
    if so_far.contains_key(&(j, v)) {
        Err(at(alloc, GameFault::Twice))
    } else {
        Ok(v)
    }
}

/// The variable of a term in one variable.
fn read_single_part(
    alloc: Global,
    list: &Value,
    known: &Known<'_>,
    j: u32,
    so_far: &BTreeMap<Place, i64>,
) -> Result<u32, GameError>
    requires { j < length known.now.variables.items }
    ensures { Reads (λ v. v) result
        (part 1 (single_variable_in (names_at known.now.variables.items j) j
        so_far.now.entries) (view list.now)) }
{
    match list.get(1usize) {
        None => Err(missing_item(alloc, 1)),
        Some(value) => numbered(
            alloc,
            1,
            read_single_variable(alloc, value, known, j, so_far),
        ),
    }
}

/// Adds a term in one variable, of player i, to those so far.
fn add_single(
    alloc: Global,
    so_far: &mut BTreeMap<Place, i64>,
    known: &Known<'_>,
    i: u32,
    aim: Aim,
    value: &Value,
) -> Result<(), GameError>
    ensures { Reads (λ _. so_far.new.entries) result
        (add_single known.now.players known.now.variables.items i aim
        so_far.old.entries (view value.now)) }
{
    let j = read_player_part(alloc, value, 0, &known.players, i)?;
    let v = read_single_part(alloc, value, known, j, so_far)?;
    let z = read_cost_number_part(alloc, value, 2, aim)?;
    so_far.insert((j, v), z)?;
    Ok(())
}

/// Another player than i and the first one.
fn read_second_player(
    alloc: Global,
    value: &Value,
    known: &Known<'_>,
    i: u32,
    first: u32,
) -> Result<u32, GameError>
    ensures read { Reads (λ j. j) result
        (second_player_in known.now.players i first (view value.now)) }
    ensures below { IfOk result (λ j. j < length known.now.players) }
{
    let j = read_other_player(alloc, value, &known.players, i)?;
    if j == first {
        Err(at(alloc, GameFault::OwnCross))
    } else {
        Ok(j)
    }
}

/// The second player of a product.
fn read_second_player_part(
    alloc: Global,
    list: &Value,
    known: &Known<'_>,
    i: u32,
    first: u32,
) -> Result<u32, GameError>
    ensures read { Reads (λ j. j) result
        (part 2 (second_player_in known.now.players i first) (view list.now)) }
    ensures below { IfOk result (λ j. j < length known.now.players) }
{
    match list.get(2usize) {
        None => Err(missing_item(alloc, 2)),
        Some(value) => numbered(alloc, 2, read_second_player(alloc, value, known, i, first)),
    }
}

/// Whether a product of two variables has a number already.
fn has_product(so_far: &BTreeMap<(Place, Place), i64>, first: Place, second: Place) -> bool
    ensures { result ≡ taken places_order so_far.now.entries (in_order first second) }
{
    so_far.contains_key(&in_order(first, second))
}

/// Gives a product of two variables its number.
fn put_product(
    so_far: &mut BTreeMap<(Place, Place), i64>,
    first: Place,
    second: Place,
    z: i64,
) -> Result<(), AllocError>
    ensures { OnOk result (so_far.new.entries
        ≡ insert_entry places_order so_far.old.entries (in_order first second) z) }
{
    so_far.insert(in_order(first, second), z)?;
    Ok(())
}

/// A variable of player j that has no number yet together with the first one.
fn read_second_variable(
    alloc: Global,
    value: &Value,
    known: &Known<'_>,
    first: Place,
    j: u32,
    so_far: &BTreeMap<(Place, Place), i64>,
) -> Result<u32, GameError>
    requires { j < length known.now.variables.items }
    ensures { Reads (λ v. v) result
        (second_variable_in (names_at known.now.variables.items j) first j
        so_far.now.entries (view value.now)) }
{
    let v = read_known(alloc, value, &known.variables[j as usize])?;
    if has_product(so_far, first, (j, v)) {
        Err(at(alloc, GameFault::Twice))
    } else {
        Ok(v)
    }
}

/// The second variable of a product.
fn read_second_part(
    alloc: Global,
    list: &Value,
    known: &Known<'_>,
    first: Place,
    j: u32,
    so_far: &BTreeMap<(Place, Place), i64>,
) -> Result<u32, GameError>
    requires { j < length known.now.variables.items }
    ensures { Reads (λ v. v) result
        (part 3 (second_variable_in (names_at known.now.variables.items j) first j
        so_far.now.entries) (view list.now)) }
{
    match list.get(3usize) {
        None => Err(missing_item(alloc, 3)),
        Some(value) => numbered(
            alloc,
            3,
            read_second_variable(alloc, value, known, first, j, so_far),
        ),
    }
}

/// Adds a product of two variables, of player i, to those so far.
fn add_product(
    alloc: Global,
    so_far: &mut BTreeMap<(Place, Place), i64>,
    known: &Known<'_>,
    i: u32,
    aim: Aim,
    value: &Value,
) -> Result<(), GameError>
    ensures { Reads (λ _. so_far.new.entries) result
        (add_product known.now.players known.now.variables.items i aim
        so_far.old.entries (view value.now)) }
{
    let j = read_player_part(alloc, value, 0, &known.players, i)?;
    let v = read_variable_part(alloc, value, 1, known, j)?;
    let k = read_second_player_part(alloc, value, known, i, j)?;
    let w = read_second_part(alloc, value, known, (j, v), k, so_far)?;
    let z = read_cost_number_part(alloc, value, 4, aim)?;
    put_product(so_far, (j, v), (k, w), z)?;
    Ok(())
}

/// Adds a term in the others' variables, of player i, to those so far.
fn add_other(
    alloc: Global,
    so_far: &mut OtherTerms,
    known: &Known<'_>,
    i: u32,
    aim: Aim,
    value: &Value,
) -> Result<(), GameError>
    ensures { Reads (λ _. others_of so_far.new) result
        (add_other known.now.players known.now.variables.items i aim
        (others_of so_far.old) (view value.now)) }
{
    match read_items(alloc, value)?.len() {
        3 => add_single(alloc, &mut so_far.singles, known, i, aim, value),
        5 => add_product(alloc, &mut so_far.products, known, i, aim, value),
        _ => Err(at(alloc, GameFault::Kind)),
    }
}

/// All terms of the items of a list of player p.
fn read_each_other(
    alloc: Global,
    items: &[Value],
    known: &Known<'_>,
    p: u32,
    aim: Aim,
) -> Result<OtherTerms, GameError>
    ensures { Reads others_of result
        (each (add_other known.now.players known.now.variables.items p aim) 0 no_others
        (map view items.now)) }
{
    let mut all = OtherTerms {
        singles: BTreeMap::new(alloc),
        products: BTreeMap::new(alloc),
    };
    for (i, item) in items.iter().enumerate() {
        let added = add_other(alloc, &mut all, known, p, aim, item);
        if let Err(e) = numbered(alloc, i, added) {
            return Err(e);
        }
    }
    Ok(all)
}

/// The terms in one variable whose number isn't 0.
fn singles_without_zeros(alloc: Global, all: BTreeMap<Place, i64>) -> Result<Vec<Other>, AllocError>
    ensures { IfOk result (λ kept. kept.items ≡ map single_of (filter is_term all.entries)) }
{
    let mut kept = Vec::new(alloc);
    for (first, coef) in all {
        if coef != 0 {
            kept.push(Other {
                first,
                second: None,
                coef,
            })?;
        }
    }
    Ok(kept)
}

/// The products whose number isn't 0.
fn products_without_zeros(
    alloc: Global,
    all: BTreeMap<(Place, Place), i64>,
) -> Result<Vec<Other>, AllocError>
    ensures { IfOk result (λ kept. kept.items ≡ map product_of (filter is_term all.entries)) }
{
    let mut kept = Vec::new(alloc);
    for ((first, second), coef) in all {
        if coef != 0 {
            kept.push(Other {
                first,
                second: Some(second),
                coef,
            })?;
        }
    }
    Ok(kept)
}

/// The terms of a list of player i.
fn read_others(
    alloc: Global,
    value: &Value,
    known: &Known<'_>,
    i: u32,
    aim: Aim,
) -> Result<Vec<Other>, GameError>
    ensures { Reads (λ v. v.items) result
        (others_in known.now.players known.now.variables.items i aim (view value.now)) }
{
    let items = read_listed(alloc, value, 0, 65_536)?;
    let all = read_each_other(alloc, items, known, i, aim)?;
    let mut others = singles_without_zeros(alloc, all.singles)?;
    let mut products = products_without_zeros(alloc, all.products)?;
    others.append(&mut products)?;
    Ok(others)
}

/// The member `others` of player i.
pub(crate) fn read_others_member(
    alloc: Global,
    object: &Value,
    known: &Known<'_>,
    i: u32,
    aim: Aim,
) -> Result<Vec<Other>, GameError>
    ensures { Reads (λ v. v.items) result (optional (codes "others") []
        (others_in known.now.players known.now.variables.items i aim) (view object.now)) }
{
    match object.get("others") {
        None => Ok(Vec::new(alloc)),
        Some(value) => placed(alloc, "others", read_others(alloc, value, known, i, aim)),
    }
}
