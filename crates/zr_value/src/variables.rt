ghost use Rattle.std.specs.Prelude.{◌≡◌, [], false, None, Some, pos, map, codes, string_bytes, OnOk, IfOk};
ghost use Rattle.serde_json.specs.View.{view};
ghost use Rattle.zr_game.specs.Players.{var_of};
ghost use Rattle.zr_source.specs.Names.{var_name};
ghost use Rattle.zr_value.specs.Faults.{Reads};
ghost use Rattle.zr_value.specs.Values.{truth_in, optional, each};
ghost use Rattle.zr_value.specs.Formats.{since_second};
ghost use Rattle.zr_value.specs.Variables.{bound_in, low_in, least_up, variable_named, add_variable, variables_in};

use crate::fault::{GameError, numbered, placed};
use crate::format::GameFormat;
use crate::names::{Names, read_name_member};
use crate::values::{read_listed, read_object, read_truth, read_whole};
use serde_json::Value;
use std::alloc::Global;
use zr_game::Var;

/// The member `int`.
fn read_int(alloc: Global, object: &Value) -> Result<bool, GameError>
    ensures { Reads (λ b. b) result (optional (codes "int") false truth_in (view object.now)) }
{
    match object.get("int") {
        None => Ok(false),
        Some(value) => placed(alloc, "int", read_truth(alloc, value)),
    }
}

/// A bound from `least` on.
fn read_bound(alloc: Global, value: &Value, least: i64) -> Result<Option<i64>, GameError>
    ensures { Reads (λ o. o) result (bound_in least (view value.now)) }
{
    Ok(Some(read_whole(alloc, value, least)?))
}

/// A lower bound, or none for `null`.
fn read_low(alloc: Global, value: &Value) -> Result<Option<i64>, GameError>
    ensures { Reads (λ o. o) result (low_in (view value.now)) }
{
    match value {
        Value::Null => Ok(None),
        _ => read_bound(alloc, value, -1_000_000_000),
    }
}

/// The member `low`.
fn read_low_member(
    alloc: Global,
    object: &Value,
    format: GameFormat,
) -> Result<Option<i64>, GameError>
    ensures { Reads (λ o. o) result
        (since_second format (codes "low") (Some (pos 0)) low_in (view object.now)) }
{
    match (format, object.get("low")) {
        (GameFormat::Second, Some(value)) => placed(alloc, "low", read_low(alloc, value)),
        _ => Ok(Some(0)),
    }
}

/// The least upper bound over a lower one.
fn least_up(low: Option<i64>) -> i64
    ensures { result ≡ least_up low }
{
    match low {
        None => -1_000_000_000,
        Some(low) => low,
    }
}

/// The member `up`.
fn read_up(alloc: Global, object: &Value, low: Option<i64>) -> Result<Option<i64>, GameError>
    ensures { Reads (λ o. o) result
        (optional (codes "up") None (bound_in (least_up low)) (view object.now)) }
{
    match object.get("up") {
        None => Ok(None),
        Some(value) => placed(alloc, "up", read_bound(alloc, value, least_up(low))),
    }
}

/// The variable of a name.
fn read_variable(
    alloc: Global,
    name: &str,
    object: &Value,
    format: GameFormat,
) -> Result<Var, GameError>
    ensures read { Reads var_of result (variable_named format name.now (view object.now)) }
    ensures named { IfOk result (λ v. string_bytes v.name ≡ name.now) }
{
    let whole = read_int(alloc, object)?;
    let low = read_low_member(alloc, object, format)?;
    let up = read_up(alloc, object, low)?;
    let name = String::from_str(alloc, name)?;
    Ok(Var {
        name,
        whole,
        low,
        up,
    })
}

/// Adds a variable to those before it, and its name to theirs.
fn add_variable<'v>(
    alloc: Global,
    list: &mut Vec<Var>,
    names: &mut Names<'v>,
    value: &'v Value,
    format: GameFormat,
) -> Result<(), GameError>
    requires { names.old ≡ map var_name (map var_of list.old.items) }
    ensures read { Reads (λ _. map var_of list.new.items) result
        (add_variable format (map var_of list.old.items) (view value.now)) }
    ensures names { OnOk result (names.new ≡ map var_name (map var_of list.new.items)) }
{
    read_object(alloc, value)?;
    let name = read_name_member(alloc, value, names)?;
    let var = read_variable(alloc, name, value, format)?;
    names.push(name)?;
    list.push(var)?;
    Ok(())
}

/// Variables, and their names by number.
#[derive(Drop)]
pub struct Vars<'v> {
    pub list: Vec<Var>,
    pub names: Names<'v>,
}

/// The variables of the items of a list.
fn read_each_variable<'v>(
    alloc: Global,
    items: &'v [Value],
    format: GameFormat,
) -> Result<Vars<'v>, GameError>
    ensures read { Reads (λ v. map var_of v.list.items) result
        (each (add_variable format) 0 [] (map view items.now)) }
    ensures names { IfOk result (λ v. v.names ≡ map var_name (map var_of v.list.items)) }
{
    let mut list = Vec::new(alloc);
    let mut names = Names::new(alloc);
    for (i, item) in items.iter().enumerate() {
        let added = add_variable(alloc, &mut list, &mut names, item, format);
        if let Err(e) = numbered(alloc, i, added) {
            return Err(e);
        }
    }
    Ok(Vars { list, names })
}

/// The variables of a list.
pub fn read_variables<'v>(
    alloc: Global,
    value: &'v Value,
    format: GameFormat,
) -> Result<Vars<'v>, GameError>
    ensures read { Reads (λ v. map var_of v.list.items) result
        (variables_in format (view value.now)) }
    ensures names { IfOk result (λ v. v.names ≡ map var_name (map var_of v.list.items)) }
{
    let items = read_listed(alloc, value, 1, 64)?;
    read_each_variable(alloc, items, format)
}
