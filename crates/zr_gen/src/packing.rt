//! The knapsack game of a number.
ghost use Rattle.std.specs.Prelude.{◌≡◌, ◌≢◌, ◌<◌, ◌≤◌, ◌++◌, IfOk, OnOk, map};
ghost use Rattle.std.specs.List.{range_with_len};
ghost use Rattle.zr_base.specs.Rows.{row_of};
ghost use Rattle.zr_game.specs.Players.{var_of};
ghost use Rattle.zr_source.specs.Sources.{leader_of, leaders_of};
ghost use Rattle.zr_gen.specs.Packing.{capacity, cost_terms, item_meetings, item_var, knapsack_of, meeting_with, meetings, packer, weight_terms};

use crate::draws::{add_term, player_name};
use crate::item_draws::ItemDraws;
use smallvec::SmallVec;
use std::alloc::{AllocError, Global};
use zr_base::{NoMemory, Row};
use zr_game::{CrossTerm, Player, Var};
use zr_source::{Leader, Source};

/// The knapsack game of a number, of 1 to 16 players and 1 to 64 items.
///
/// The players are `p0`, `p1` and so on, and the items are binary variables `x0`, `x1` and so on.
/// Player by player draws a weight of 1 to 20 for each item, then a gain of 1 to 30 for each, and
/// then for each other player in order and each item the number, 0 to 10, of the cross term with
/// that player's item. The items that are taken weigh at most half of all, rounded down. A cross
/// term of number 0 is left out.
///
/// # Errors
///
/// `NoMemory` for want of memory.
pub fn knapsack(alloc: Global, players: u32, items: u32, number: u64) -> Result<Source, NoMemory>
    requires some_player { 1 ≤ players }
    requires players { players ≤ 16 }
    requires some_item { 1 ≤ items }
    requires items { items ≤ 64 }
    ensures { IfOk result (λ source.
        leaders_of source.leaders.items ≡ knapsack_of players items number) }
{
    match drawn_packers(alloc, players, items, number) {
        Ok(leaders) => Ok(Source { leaders }),
        Err(_) => Err(NoMemory),
    }
}

/// The players of the game of a number.
fn drawn_packers(
    alloc: Global,
    players: u32,
    items: u32,
    number: u64,
) -> Result<Vec<Leader>, AllocError>
    requires players { players ≤ 16 }
    requires items { items ≤ 64 }
    ensures { IfOk result (λ list.
        leaders_of list.items ≡ knapsack_of players items number) }
{
    let drawn = ItemDraws::new(alloc, players, items, number)?;
    packers(alloc, &drawn)
}

/// The players with these draws.
fn packers(alloc: Global, drawn: &ItemDraws) -> Result<Vec<Leader>, AllocError>
    ensures { IfOk result (λ list. leaders_of list.items
        ≡ knapsack_of drawn.now.players drawn.now.items drawn.now.draws.number) }
{
    let mut list = Vec::new(alloc);
    for i in 0..drawn.players {
        let leader = packer(alloc, drawn, i)?;
        list.push(leader)?;
    }
    Ok(list)
}

/// Player `i`.
fn packer(alloc: Global, drawn: &ItemDraws, i: u32) -> Result<Leader, AllocError>
    requires { i < drawn.now.players }
    ensures { IfOk result (λ leader. leader_of leader
        ≡ packer drawn.now.players drawn.now.items drawn.now.draws.number i) }
{
    let base = Player {
        name: player_name(alloc, i)?,
        vars: item_vars(alloc, drawn.items)?,
        rows: capacity_rows(alloc, drawn, i)?,
        pairs: Vec::new(alloc),
        cost: cost_terms(alloc, drawn, i)?,
        cross: meetings(alloc, drawn, i)?,
        others: Vec::new(alloc),
    };
    Ok(Leader {
        base,
        followers: Vec::new(alloc),
    })
}

fn item_vars(alloc: Global, items: u32) -> Result<Vec<Var>, AllocError>
    ensures { IfOk result (λ list. map var_of list.items ≡ map item_var (range_with_len 0 items)) }
{
    let mut list = Vec::new(alloc);
    for k in 0..items {
        let var = item_var(alloc, k)?;
        list.push(var)?;
    }
    Ok(list)
}

/// Whether item `k` is taken.
fn item_var(alloc: Global, k: u32) -> Result<Var, AllocError>
    ensures { IfOk result (λ var. var_of var ≡ item_var k) }
{
    let name = format!(in alloc; "x{k}")?;
    Ok(Var {
        name,
        whole: true,
        low: Some(0),
        up: Some(1),
    })
}

/// The row on the weights.
fn capacity_rows(alloc: Global, drawn: &ItemDraws, i: u32) -> Result<Vec<Row>, AllocError>
    requires { i < drawn.now.players }
    ensures { IfOk result (λ list. map row_of list.items
        ≡ (packer drawn.now.players drawn.now.items drawn.now.draws.number i).base.rows) }
{
    let coef = weight_terms(alloc, drawn, i)?;
    let le = i64::from(capacity(drawn, i));
    Ok(vec![in alloc; Row { coef, le }]?)
}

fn weight_terms(
    alloc: Global,
    drawn: &ItemDraws,
    i: u32,
) -> Result<SmallVec<(u32, i64), 8>, AllocError>
    requires { i < drawn.now.players }
    ensures { IfOk result (λ terms. terms.items
        ≡ weight_terms drawn.now.players drawn.now.items drawn.now.draws.number i) }
{
    let mut terms = SmallVec::new(alloc);
    for k in 0..drawn.items {
        let weight = i64::from(drawn.weight(i, k));
        terms.push((k, weight))?;
    }
    Ok(terms)
}

/// Half of all weights, rounded down.
fn capacity(drawn: &ItemDraws, i: u32) -> u32
    requires { i < drawn.now.players }
    ensures { result ≡ capacity drawn.now.players drawn.now.items drawn.now.draws.number i }
{
    let mut sum = 0;
    for k in 0..drawn.items {
        sum += drawn.weight(i, k);
    }
    sum / 2
}

fn cost_terms(
    alloc: Global,
    drawn: &ItemDraws,
    i: u32,
) -> Result<SmallVec<(u32, i64), 8>, AllocError>
    requires { i < drawn.now.players }
    ensures { IfOk result (λ terms. terms.items
        ≡ cost_terms drawn.now.players drawn.now.items drawn.now.draws.number i) }
{
    let mut terms = SmallVec::new(alloc);
    for k in 0..drawn.items {
        let gain = i64::from(drawn.gain(i, k));
        terms.push((k, -gain))?;
    }
    Ok(terms)
}

/// The cross terms of all items.
fn meetings(alloc: Global, drawn: &ItemDraws, i: u32) -> Result<Vec<CrossTerm>, AllocError>
    requires { i < drawn.now.players }
    ensures { IfOk result (λ terms. terms.items
        ≡ meetings drawn.now.players drawn.now.items drawn.now.draws.number i) }
{
    let mut terms = Vec::new(alloc);
    for k in 0..drawn.items {
        add_item_meetings(&mut terms, drawn, i, k)?;
    }
    Ok(terms)
}

/// Adds the cross terms of item `k`.
fn add_item_meetings(
    terms: &mut Vec<CrossTerm>,
    drawn: &ItemDraws,
    i: u32,
    k: u32,
) -> Result<(), AllocError>
    requires player { i < drawn.now.players }
    requires item { k < drawn.now.items }
    ensures { OnOk result (terms.new.items ≡ terms.old.items
        ++ item_meetings drawn.now.players drawn.now.items drawn.now.draws.number i k) }
{
    for j in 0..drawn.players {
        add_meeting(terms, drawn, i, k, j)?;
    }
    Ok(())
}

/// Adds the cross term of item `k` with that of player `j`, if there is one.
fn add_meeting(
    terms: &mut Vec<CrossTerm>,
    drawn: &ItemDraws,
    i: u32,
    k: u32,
    j: u32,
) -> Result<(), AllocError>
    requires player { i < drawn.now.players }
    requires item { k < drawn.now.items }
    requires other { j < drawn.now.players }
    ensures { OnOk result (terms.new.items ≡ terms.old.items
        ++ meeting_with drawn.now.players drawn.now.items drawn.now.draws.number i k j) }
{
    if j == i {
        return Ok(());
    }
    add_term(terms, k, j, drawn.meeting(i, j, k))
}
