ghost use Rattle.std.specs.Prelude.{◌≡◌, ◌≤◌, ◌<◌, ◌+◌, [], length, map, codes, OnOk};
ghost use Rattle.serde_json.specs.View.{view};
ghost use Rattle.zr_game.specs.Players.{pair_of, player_of, var_of};
ghost use Rattle.zr_base.specs.Rows.{row_of};
ghost use Rattle.zr_source.specs.Sources.{follower_of, leader_of};
ghost use Rattle.zr_value.specs.Faults.{Reads, under};
ghost use Rattle.zr_value.specs.Names.{names_at};
ghost use Rattle.zr_value.specs.Values.{each, optional};
ghost use Rattle.zr_read.specs.Followers.{followers_in};
ghost use Rattle.zr_read.specs.Rows.{pairs_in, rows_in};
ghost use Rattle.zr_read.specs.Passes.{player_in, leader_in, add_leader, leaders_in};
ghost use Rattle.zr_read.specs.Seen.{body_of, follower_heading_of, heading_of, leader_from};

use crate::costs::{Costs, read_costs};
use crate::followers::read_each_follower;
use crate::headings::{FollowerHeading, Heading, read_each_heading};
use crate::pairs::read_pairs_member;
use crate::rows::read_rows_member;
use serde_json::Value;
use std::alloc::Global;
use zr_base::Row;
use zr_game::{Pair, Player, Var};
use zr_source::{Follower, Leader};
use zr_value::{GameError, GameFormat, Known, numbered, placed};

/// A player's rows, pairs and costs.
#[derive(Drop)]
pub(crate) struct Body {
    pub(crate) rows: Vec<Row>,
    pub(crate) pairs: Vec<Pair>,
    pub(crate) costs: Costs,
}

/// The member `rows` of player i.
fn read_own_rows(
    alloc: Global,
    object: &Value,
    known: &Known<'_>,
    i: u32,
    format: GameFormat,
) -> Result<Vec<Row>, GameError>
    requires { i < length known.now.variables.items }
    ensures { Reads (λ v. map row_of v.items) result (optional (codes "rows") []
        (rows_in format 256 (names_at known.now.variables.items i)) (view object.now)) }
{
    read_rows_member(alloc, object, 256, &known.variables[i as usize], format)
}

/// The member `pairs` of player i.
fn read_own_pairs(
    alloc: Global,
    object: &Value,
    known: &Known<'_>,
    i: u32,
    vars: &[Var],
) -> Result<Vec<Pair>, GameError>
    requires { i < length known.now.variables.items }
    ensures { Reads (λ v. map pair_of v.items) result (optional (codes "pairs") []
        (pairs_in (names_at known.now.variables.items i) (map var_of vars.now)) (view object.now)) }
{
    read_pairs_member(alloc, object, &known.variables[i as usize], vars)
}

/// The rows, pairs and costs of player i, with at most so many cross terms.
fn read_body(
    alloc: Global,
    heading: &Heading<'_>,
    known: &Known<'_>,
    i: u32,
    format: GameFormat,
    most: usize,
) -> Result<Body, GameError>
    requires { i < length known.now.variables.items }
    ensures { Reads (body_of (heading_of heading.now)) result
        (player_in format most known.now.players known.now.variables.items i
        (heading_of heading.now)) }
{
    let object = heading.value;
    let rows = read_own_rows(alloc, object, known, i, format)?;
    let pairs = read_own_pairs(alloc, object, known, i, &heading.vars)?;
    let costs = read_costs(alloc, object, most, known, i, heading.aim)?;
    Ok(Body { rows, pairs, costs })
}

/// The followers of player i.
fn read_followers(
    alloc: Global,
    headings: &[FollowerHeading<'_>],
    known: &Known<'_>,
    i: u32,
    format: GameFormat,
) -> Result<Vec<Follower>, GameError>
    requires { i < length known.now.variables.items }
    ensures { Reads (λ v. map follower_of v.items) result (under (codes "followers")
        (followers_in format (names_at known.now.variables.items i)
        (map follower_heading_of headings.now))) }
{
    let names = &known.variables[i as usize];
    placed(
        alloc,
        "followers",
        read_each_follower(alloc, headings, names, format),
    )
}

/// The leader of its parts.
fn leader_of(heading: Heading<'_>, body: Body, followers: Vec<Follower>) -> Leader
    ensures { leader_of result ≡ leader_from (body_of (heading_of heading.entry) body)
        (map follower_of followers.items) }
{
    Leader {
        base: Player {
            name: heading.name,
            vars: heading.vars,
            rows: body.rows,
            pairs: body.pairs,
            cost: body.costs.cost,
            cross: body.costs.cross,
            others: body.costs.others,
        },
        followers,
    }
}

/// Adds the next leader, with at most so many cross terms, to those so far.
fn add_leader(
    alloc: Global,
    so_far: &mut Vec<Leader>,
    heading: Heading<'_>,
    known: &Known<'_>,
    format: GameFormat,
    most: usize,
) -> Result<(), GameError>
    requires below { length so_far.old.items < length known.now.variables.items }
    requires few { length so_far.old.items < 16 }
    ensures read { Reads (λ _. map leader_of so_far.new.items) result
        (add_leader format most known.now.players known.now.variables.items
        (map leader_of so_far.old.items) (heading_of heading.entry)) }
    ensures one_more { OnOk result (length so_far.new.items ≡ length so_far.old.items + 1) }
{
    let i = so_far.len() as u32;
    let body = read_body(alloc, &heading, known, i, format, most)?;
    let followers = read_followers(alloc, &heading.followers, known, i, format)?;
    so_far.push(leader_of(heading, body, followers))?;
    Ok(())
}

/// The leaders of these headings, each with at most so many cross terms.
fn read_each_leader(
    alloc: Global,
    headings: Vec<Heading<'_>>,
    known: &Known<'_>,
    format: GameFormat,
    most: usize,
) -> Result<Vec<Leader>, GameError>
    requires all { length known.now.variables.items ≡ length headings.items }
    requires few { length headings.items ≤ 16 }
    ensures { Reads (λ v. map leader_of v.items) result
        (each (add_leader format most known.now.players known.now.variables.items) 0 []
        (map heading_of headings.entry.items)) }
{
    let mut list = Vec::new(alloc);
    for (i, heading) in headings.into_iter().enumerate() {
        let added = add_leader(alloc, &mut list, heading, known, format, most);
        if let Err(e) = numbered(alloc, i, added) {
            return Err(e);
        }
    }
    Ok(list)
}

/// The leaders of the items of a list of at most 16.
pub(crate) fn read_leaders(
    alloc: Global,
    items: &[Value],
    format: GameFormat,
    cross: usize,
    taken: &str,
) -> Result<Vec<Leader>, GameError>
    requires { length items.now ≤ 16 }
    ensures { Reads (λ v. map leader_of v.items) result
        (leaders_in format cross taken.now (map view items.now)) }
{
    let headings = read_each_heading(alloc, items, format, taken)?;
    read_each_leader(alloc, headings.list, &headings.known, format, cross)
}
