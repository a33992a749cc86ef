ghost use Rattle.std.specs.Prelude.{◌≡◌, ◌<◌, [], filter, length, map, codes, IfOk};
ghost use Rattle.serde_json.specs.View.{view};
ghost use Rattle.zr_source.specs.Sources.{follower_of};
ghost use Rattle.zr_value.specs.Faults.{Reads};
ghost use Rattle.zr_value.specs.Values.{optional, part, each};
ghost use Rattle.zr_value.specs.Terms.{is_term};
ghost use Rattle.zr_read.specs.Followers.{is_own, own_variable_in, given_variable_in, add_follower_cross, follower_cross_of, follower_cross_in, follower_in, add_follower, followers_in};
ghost use Rattle.zr_read.specs.Seen.{follower_heading_of};

use crate::costs::{aimed, read_cost_member};
use crate::headings::FollowerHeading;
use crate::rows::read_rows_member;
use serde_json::Value;
use std::alloc::{AllocError, Global};
use std::collections::BTreeMap;
use zr_source::Follower;
use zr_value::{
    Aim, GameError, GameFault, GameFormat, Names, at, missing_item, numbered, placed,
    read_aim_member, read_cost_number_part, read_known, read_listed, read_tuple,
};

/// Numbers by own variable and other variable.
type Products = BTreeMap<(u32, u32), i64>;

/// Whether variable v is one of the follower's own.
fn is_own(heading: &FollowerHeading<'_>, v: u32) -> bool
    ensures { result ≡ is_own (follower_heading_of heading.now) v }
{
    heading.first <= v && (v as usize) < heading.first as usize + heading.count as usize
}

/// One of the follower's own variables.
fn read_own_variable(
    alloc: Global,
    value: &Value,
    names: &Names<'_>,
    heading: &FollowerHeading<'_>,
) -> Result<u32, GameError>
    ensures { Reads (λ v. v) result
        (own_variable_in names.now (follower_heading_of heading.now) (view value.now)) }
{
    let v = read_known(alloc, value, names)?;
    if is_own(heading, v) {
        Ok(v)
    } else {
        Err(at(alloc, GameFault::UnknownName))
    }
}

/// The own variable of a cross term.
fn read_own_part(
    alloc: Global,
    list: &Value,
    names: &Names<'_>,
    heading: &FollowerHeading<'_>,
) -> Result<u32, GameError>
    ensures { Reads (λ v. v) result
        (part 0 (own_variable_in names.now (follower_heading_of heading.now)) (view list.now)) }
{
    match list.get(0usize) {
        None => Err(missing_item(alloc, 0)),
        Some(value) => numbered(alloc, 0, read_own_variable(alloc, value, names, heading)),
    }
}

/// Another variable of the leader that has no number yet with `own`.
fn read_given_variable(
    alloc: Global,
    value: &Value,
    names: &Names<'_>,
    heading: &FollowerHeading<'_>,
    own: u32,
    so_far: &Products,
) -> Result<u32, GameError>
    ensures { Reads (λ v. v) result
        (given_variable_in names.now (follower_heading_of heading.now) own
        so_far.now.entries (view value.now)) }
{
    let v = read_known(alloc, value, names)?;
    if is_own(heading, v) {
        return Err(at(alloc, GameFault::OwnCross));
    }
    if so_far.contains_key(&(own, v)) {
        return Err(at(alloc, GameFault::Twice));
    }
    Ok(v)
}

/// The other variable of a cross term.
fn read_given_part(
    alloc: Global,
    list: &Value,
    names: &Names<'_>,
    heading: &FollowerHeading<'_>,
    own: u32,
    so_far: &Products,
) -> Result<u32, GameError>
    ensures { Reads (λ v. v) result
        (part 1 (given_variable_in names.now (follower_heading_of heading.now) own
        so_far.now.entries) (view list.now)) }
{
    match list.get(1usize) {
        None => Err(missing_item(alloc, 1)),
        Some(value) => numbered(
            alloc,
            1,
            read_given_variable(alloc, value, names, heading, own, so_far),
        ),
    }
}

/// Adds a cross term of a follower to those so far.
fn add_follower_cross(
    alloc: Global,
    so_far: &mut Products,
    names: &Names<'_>,
    heading: &FollowerHeading<'_>,
    aim: Aim,
    value: &Value,
) -> Result<(), GameError>
    ensures { Reads (λ _. so_far.new.entries) result
        (add_follower_cross names.now (follower_heading_of heading.now) aim
        so_far.old.entries (view value.now)) }
{
    read_tuple(alloc, value, 3)?;
    let own = read_own_part(alloc, value, names, heading)?;
    let v = read_given_part(alloc, value, names, heading, own, so_far)?;
    let z = read_cost_number_part(alloc, value, 2, aim)?;
    so_far.insert((own, v), z)?;
    Ok(())
}

/// All cross terms of the items of a list.
fn read_each_follower_cross(
    alloc: Global,
    items: &[Value],
    names: &Names<'_>,
    heading: &FollowerHeading<'_>,
    aim: Aim,
) -> Result<Products, GameError>
    ensures { Reads (λ m. m.entries) result
        (each (add_follower_cross names.now (follower_heading_of heading.now) aim) 0 []
        (map view items.now)) }
{
    let mut all = BTreeMap::new(alloc);
    for (i, item) in items.iter().enumerate() {
        let added = add_follower_cross(alloc, &mut all, names, heading, aim, item);
        if let Err(e) = numbered(alloc, i, added) {
            return Err(e);
        }
    }
    Ok(all)
}

/// The cross terms whose number isn't 0.
fn without_zeros(alloc: Global, all: Products) -> Result<Vec<(u32, u32, i64)>, AllocError>
    ensures { IfOk result (λ kept. kept.items
        ≡ map follower_cross_of (filter is_term all.entries)) }
{
    let mut kept = Vec::new(alloc);
    for ((own, other), number) in all {
        if number != 0 {
            kept.push((own, other, number))?;
        }
    }
    Ok(kept)
}

/// The cross terms of a list.
fn read_follower_cross(
    alloc: Global,
    value: &Value,
    names: &Names<'_>,
    heading: &FollowerHeading<'_>,
    aim: Aim,
) -> Result<Vec<(u32, u32, i64)>, GameError>
    ensures { Reads (λ v. v.items) result
        (follower_cross_in names.now (follower_heading_of heading.now) aim (view value.now)) }
{
    let items = read_listed(alloc, value, 0, 65_536)?;
    let all = read_each_follower_cross(alloc, items, names, heading, aim)?;
    Ok(without_zeros(alloc, all)?)
}

/// The member `cross` of a follower.
fn read_follower_cross_member(
    alloc: Global,
    object: &Value,
    names: &Names<'_>,
    heading: &FollowerHeading<'_>,
    aim: Aim,
) -> Result<Vec<(u32, u32, i64)>, GameError>
    ensures { Reads (λ v. v.items) result (optional (codes "cross") []
        (follower_cross_in names.now (follower_heading_of heading.now) aim) (view object.now)) }
{
    match object.get("cross") {
        None => Ok(Vec::new(alloc)),
        Some(value) => placed(
            alloc,
            "cross",
            read_follower_cross(alloc, value, names, heading, aim),
        ),
    }
}

/// A follower of a leader whose variables have these names.
fn read_follower(
    alloc: Global,
    heading: &FollowerHeading<'_>,
    names: &Names<'_>,
    format: GameFormat,
) -> Result<Follower, GameError>
    ensures { Reads follower_of result
        (follower_in format names.now (follower_heading_of heading.now)) }
{
    let aim = read_aim_member(alloc, heading.value, format)?;
    let rows = read_rows_member(alloc, heading.value, 32, names, format)?;
    let cost = read_cost_member(alloc, heading.value, names)?;
    let cross = read_follower_cross_member(alloc, heading.value, names, heading, aim)?;
    Ok(Follower {
        first: heading.first,
        count: heading.count,
        rows,
        cost: aimed(alloc, cost, aim)?,
        cross,
    })
}

/// Adds a follower to those so far.
fn add_follower(
    alloc: Global,
    so_far: &mut Vec<Follower>,
    heading: &FollowerHeading<'_>,
    names: &Names<'_>,
    format: GameFormat,
) -> Result<(), GameError>
    ensures { Reads (λ _. map follower_of so_far.new.items) result
        (add_follower format names.now (map follower_of so_far.old.items)
        (follower_heading_of heading.now)) }
{
    let follower = read_follower(alloc, heading, names, format)?;
    so_far.push(follower)?;
    Ok(())
}

/// The followers of these headings.
pub(crate) fn read_each_follower(
    alloc: Global,
    headings: &[FollowerHeading<'_>],
    names: &Names<'_>,
    format: GameFormat,
) -> Result<Vec<Follower>, GameError>
    ensures { Reads (λ v. map follower_of v.items) result
        (followers_in format names.now (map follower_heading_of headings.now)) }
{
    let mut list = Vec::new(alloc);
    for (i, heading) in headings.iter().enumerate() {
        let added = add_follower(alloc, &mut list, heading, names, format);
        if let Err(e) = numbered(alloc, i, added) {
            return Err(e);
        }
    }
    Ok(list)
}
