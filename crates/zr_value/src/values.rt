ghost use Rattle.std.specs.Prelude.{◌≡◌, ◌≤◌, ◌≤ℤ◌, ◌&&◌, ◌==◌, IsTrue, IfOk, length, map, nat_le};
ghost use Rattle.serde_json.specs.View.{view};
ghost use Rattle.zr_game.specs.Forms.{IsNumber, number_limit};
ghost use Rattle.zr_value.specs.Faults.{Reads};
ghost use Rattle.zr_value.specs.Values.{whole_in, number_in, truth_in, text_in, object_in, items_in, name_in, listed, tuple, part};

use crate::fault::{GameError, GameFault, at, missing_item, numbered};
use serde_json::Value;
use std::alloc::Global;
use zr_source::is_name;

/// The greatest number of a game.
const LIMIT: i64 = 1_000_000_000;

/// A whole number from `low` to the limit.
pub fn read_whole(alloc: Global, value: &Value, low: i64) -> Result<i64, GameError>
    ensures read { Reads (λ z. z) result (whole_in low (view value.now)) }
    ensures within { IfOk result (λ z. (low ≤ℤ z) × (z ≤ℤ number_limit)) }
{
    let Value::Number(number) = value else {
        return Err(at(alloc, GameFault::Kind));
    };
    match number.as_i128() {
        None => Err(at(alloc, GameFault::NotWhole)),
        Some(z) => if z < i128::from(low) || z > i128::from(LIMIT) {
            Err(at(alloc, GameFault::TooBig))
        } else {
            Ok(z as i64)
        },
    }
}

/// Any number of a game.
pub fn read_number(alloc: Global, value: &Value) -> Result<i64, GameError>
    ensures read { Reads (λ z. z) result (number_in (view value.now)) }
    ensures within { IfOk result IsNumber }
{
    read_whole(alloc, value, -LIMIT)
}

/// Part k of a list, which is a number of a game.
pub fn read_number_part(alloc: Global, list: &Value, k: usize) -> Result<i64, GameError>
    ensures read { Reads (λ z. z) result (part k number_in (view list.now)) }
    ensures within { IfOk result IsNumber }
{
    match list.get(k) {
        None => Err(missing_item(alloc, k)),
        Some(value) => numbered(alloc, k, read_number(alloc, value)),
    }
}

/// True or false.
pub fn read_truth(alloc: Global, value: &Value) -> Result<bool, GameError>
    ensures { Reads (λ b. b) result (truth_in (view value.now)) }
{
    match value {
        Value::Bool(b) => Ok(*b),
        _ => Err(at(alloc, GameFault::Kind)),
    }
}

/// A text.
pub fn read_text<'v>(alloc: Global, value: &'v Value) -> Result<&'v str, GameError>
    ensures { Reads (λ s. s.now) result (text_in (view value.now)) }
{
    match value {
        Value::String(s) => Ok(s.as_str()),
        _ => Err(at(alloc, GameFault::Kind)),
    }
}

/// An object.
pub fn read_object(alloc: Global, value: &Value) -> Result<(), GameError>
    ensures { Reads (λ _. tt) result (object_in (view value.now)) }
{
    match value {
        Value::Object(_) => Ok(()),
        _ => Err(at(alloc, GameFault::Kind)),
    }
}

/// The items of a list.
pub fn read_items<'v>(alloc: Global, value: &'v Value) -> Result<&'v [Value], GameError>
    ensures { Reads (λ v. map view v.now) result (items_in (view value.now)) }
{
    match value {
        Value::Array(list) => Ok(list.as_slice()),
        _ => Err(at(alloc, GameFault::Kind)),
    }
}

/// A name.
pub fn read_name<'v>(alloc: Global, value: &'v Value) -> Result<&'v str, GameError>
    ensures { Reads (λ s. s.now) result (name_in (view value.now)) }
{
    let s = read_text(alloc, value)?;
    if is_name(s) {
        Ok(s)
    } else {
        Err(at(alloc, GameFault::BadName))
    }
}

/// Whether a list has `least` to `most` items.
fn is_count_within(list: &[Value], least: usize, most: usize) -> bool
    ensures value { let n = length (map view list.now) in
        result ≡ (nat_le least n && nat_le n most) }
    ensures within { IsTrue result → length list.now ≤ most }
{
    least <= list.len() && list.len() <= most
}

/// The items of a list of `least` to `most` items.
pub fn read_listed<'v>(
    alloc: Global,
    value: &'v Value,
    least: usize,
    most: usize,
) -> Result<&'v [Value], GameError>
    ensures read { Reads (λ v. map view v.now) result (listed least most (view value.now)) }
    ensures within { IfOk result (λ v. length v.now ≤ most) }
{
    let list = read_items(alloc, value)?;
    if is_count_within(list, least, most) {
        Ok(list)
    } else {
        Err(at(alloc, GameFault::Count))
    }
}

/// A list of n items.
pub fn read_tuple(alloc: Global, value: &Value, n: usize) -> Result<(), GameError>
    ensures { Reads (λ _. tt) result (tuple n (view value.now)) }
{
    let list = read_items(alloc, value)?;
    if list.len() == n {
        Ok(())
    } else {
        Err(at(alloc, GameFault::Kind))
    }
}
