ghost use Rattle.std.specs.Prelude.{◌≡◌, ◌≤◌, ◌||◌, [], false, None, is_some, length, map, codes, nat_le, IfOk};
ghost use Rattle.std.specs.List.{All, sum_by};
ghost use Rattle.std.specs.Option.{ForSome};
ghost use Rattle.serde_json.specs.View.{view};
ghost use Rattle.zr_base.specs.Rows.{row_of};
ghost use Rattle.zr_game.specs.Forms.{IsNumber};
ghost use Rattle.zr_value.specs.Faults.{Reads};
ghost use Rattle.zr_value.specs.Values.{needed, optional, each};
ghost use Rattle.zr_value.specs.Terms.{terms_in};
ghost use Rattle.zr_value.specs.Formats.{since_second};
ghost use Rattle.zr_read.specs.Rows.{side_in, at_least, rows_of, row_in, add_rows, row_count, rows_in};

use serde_json::Value;
use smallvec::SmallVec;
use std::alloc::{AllocError, Global};
use zr_base::Row;
use zr_value::{
    GameError, GameFault, GameFormat, Names, at, missing, numbered, opposite_terms, placed,
    read_items, read_number, read_object, read_terms,
};

/// The member `terms`.
pub(crate) fn read_terms_member(
    alloc: Global,
    object: &Value,
    names: &Names<'_>,
) -> Result<SmallVec<(u32, i64), 8>, GameError>
    ensures read { Reads (λ v. v.items) result
        (needed (codes "terms") (terms_in names.now) (view object.now)) }
    ensures numbers { IfOk result (λ v. All (λ t. IsNumber t.1) v.items) }
{
    match object.get("terms") {
        None => Err(missing(alloc, "terms")),
        Some(value) => placed(alloc, "terms", read_terms(alloc, value, names)),
    }
}

/// A right side of a row, which may have one alone.
fn read_side(alloc: Global, value: &Value, has_one: bool) -> Result<Option<i64>, GameError>
    ensures read { Reads (λ o. o) result (side_in has_one (view value.now)) }
    ensures within { IfOk result (λ o. ForSome o IsNumber) }
{
    let z = read_number(alloc, value)?;
    if has_one {
        Err(at(alloc, GameFault::Twice))
    } else {
        Ok(Some(z))
    }
}

/// The member `le`.
fn read_le(alloc: Global, object: &Value) -> Result<Option<i64>, GameError>
    ensures { Reads (λ o. o) result (optional (codes "le") None (side_in false) (view object.now)) }
{
    match object.get("le") {
        None => Ok(None),
        Some(value) => placed(alloc, "le", read_side(alloc, value, false)),
    }
}

/// The member `ge` or `eq`, which the second format has.
fn read_later_side(
    alloc: Global,
    object: &Value,
    format: GameFormat,
    name: &str,
    has_one: bool,
) -> Result<Option<i64>, GameError>
    ensures read { Reads (λ o. o) result
        (since_second format name.now None (side_in has_one) (view object.now)) }
    ensures within { IfOk result (λ o. ForSome o IsNumber) }
{
    match (format, object.get(name)) {
        (GameFormat::Second, Some(value)) => {
            placed(alloc, name, read_side(alloc, value, has_one))
        }
        _ => Ok(None),
    }
}

/// The row of a sum that is at least z.
fn at_least(alloc: Global, terms: &[(u32, i64)], z: i64) -> Result<Row, AllocError>
    requires numbers { All (λ t. IsNumber t.1) terms.now }
    requires within { IsNumber z }
    ensures { IfOk result (λ row. row_of row ≡ at_least terms.now z) }
{
    let coef = opposite_terms(alloc, terms)?;
    Ok(Row { coef, le: -z })
}

/// The rows of the right sides `le`, `ge` and `eq`.
fn rows_of(
    alloc: Global,
    coef: SmallVec<(u32, i64), 8>,
    le: Option<i64>,
    ge: Option<i64>,
    eq: Option<i64>,
) -> Result<Vec<Row>, GameError>
    requires numbers { All (λ t. IsNumber t.1) coef.items }
    requires from_below { ForSome ge IsNumber }
    requires equal { ForSome eq IsNumber }
    ensures { Reads (λ v. map row_of v.items) result (rows_of coef.items le ge eq) }
{
    let mut rows = Vec::new(alloc);
    match (le, ge, eq) {
        (Some(z), _, _) => rows.push(Row { coef, le: z })?,
        (None, Some(z), _) => rows.push(at_least(alloc, coef.as_slice(), z)?)?,
        (None, None, Some(z)) => {
            let opposite = at_least(alloc, coef.as_slice(), z)?;
            rows.push(Row { coef, le: z })?;
            rows.push(opposite)?;
        }
        (None, None, None) => return Err(missing(alloc, "le")),
    }
    Ok(rows)
}

/// The row of an object, or the two that `eq` stands for.
fn read_row(
    alloc: Global,
    value: &Value,
    names: &Names<'_>,
    format: GameFormat,
) -> Result<Vec<Row>, GameError>
    ensures { Reads (λ v. map row_of v.items) result (row_in format names.now (view value.now)) }
{
    read_object(alloc, value)?;
    let coef = read_terms_member(alloc, value, names)?;
    let le = read_le(alloc, value)?;
    let ge = read_later_side(alloc, value, format, "ge", le.is_some())?;
    let eq = read_later_side(alloc, value, format, "eq", le.is_some() || ge.is_some())?;
    rows_of(alloc, coef, le, ge, eq)
}

/// Adds the rows of an object to those so far.
fn add_rows(
    alloc: Global,
    so_far: &mut Vec<Row>,
    names: &Names<'_>,
    value: &Value,
    format: GameFormat,
) -> Result<(), GameError>
    ensures { Reads (λ _. map row_of so_far.new.items) result
        (add_rows format names.now (map row_of so_far.old.items) (view value.now)) }
{
    let mut rows = read_row(alloc, value, names, format)?;
    so_far.append(&mut rows)?;
    Ok(())
}

/// The rows of the items of a list.
fn read_each_row(
    alloc: Global,
    items: &[Value],
    names: &Names<'_>,
    format: GameFormat,
) -> Result<Vec<Row>, GameError>
    ensures { Reads (λ v. map row_of v.items) result
        (each (add_rows format names.now) 0 [] (map view items.now)) }
{
    let mut list = Vec::new(alloc);
    for (i, item) in items.iter().enumerate() {
        let added = add_rows(alloc, &mut list, names, item, format);
        if let Err(e) = numbered(alloc, i, added) {
            return Err(e);
        }
    }
    Ok(list)
}

/// How many rows an item of a list of rows counts for.
fn row_count(item: &Value, format: GameFormat) -> usize
    ensures { result ≡ row_count format (view item.now) }
{
    match (format, item.get("eq")) {
        (GameFormat::Second, Some(_)) => 2,
        _ => 1,
    }
}

/// Whether the items of a list count for at most so many rows.
fn are_few_rows(items: &[Value], most: usize, format: GameFormat) -> bool
    ensures { result ≡ nat_le (sum_by (row_count format) (map view items.now)) most }
{
    let mut left = most;
    for item in items {
        let n = row_count(item, format);
        if n > left {
            return false;
        }
        left -= n;
    }
    true
}

/// The rows of a list, at most so many.
pub(crate) fn read_rows(
    alloc: Global,
    value: &Value,
    most: usize,
    names: &Names<'_>,
    format: GameFormat,
) -> Result<Vec<Row>, GameError>
    ensures { Reads (λ v. map row_of v.items) result
        (rows_in format most names.now (view value.now)) }
{
    let items = read_items(alloc, value)?;
    if are_few_rows(items, most, format) {
        read_each_row(alloc, items, names, format)
    } else {
        Err(at(alloc, GameFault::Count))
    }
}

/// The member `rows`.
pub(crate) fn read_rows_member(
    alloc: Global,
    object: &Value,
    most: usize,
    names: &Names<'_>,
    format: GameFormat,
) -> Result<Vec<Row>, GameError>
    ensures { Reads (λ v. map row_of v.items) result
        (optional (codes "rows") [] (rows_in format most names.now) (view object.now)) }
{
    match object.get("rows") {
        None => Ok(Vec::new(alloc)),
        Some(value) => placed(alloc, "rows", read_rows(alloc, value, most, names, format)),
    }
}
