//! The leaders' game of a number.
ghost use Rattle.std.specs.Prelude.{◌≡◌, ◌≢◌, ◌<◌, ◌≤◌, [], ◌∷◌, ◌++◌, pos, false, Some, IfOk, OnOk, map};
ghost use Rattle.zr_game.specs.Players.{var_of};
ghost use Rattle.zr_source.specs.Sources.{follower_of, leader_of, leaders_of};
ghost use Rattle.zr_gen.specs.Following.{answer_var, bound, follower, leader_with_follower, leaders_of_number, own_var, rivalry_with};

use crate::draws::{add_term, player_name};
use crate::leader_draws::LeaderDraws;
use smallvec::SmallVec;
use std::alloc::{AllocError, Global};
use zr_base::{NoMemory, Row};
use zr_game::{CrossTerm, Player, Var};
use zr_source::{Follower, Leader, Source};

/// The game of a number of 1 to 16 leaders with one follower each.
///
/// The leaders are `p0`, `p1` and so on. Each has a continuous variable `x` of at most 1 to 20, and
/// its follower a variable `f` with `f - x` at most 0 to 4, by each unit of which the follower gains
/// 1 to 3. For each unit of `x` the leader pays 1 to 9, and it gains 1 to 9 by each of `f`; each
/// product of `f` and that of another leader costs it 0 to 3. All these are drawn in this order,
/// leader by leader. A cross term of number 0 is left out.
///
/// # Errors
///
/// `NoMemory` for want of memory.
pub fn leaders(alloc: Global, players: u32, number: u64) -> Result<Source, NoMemory>
    requires some_player { 1 ≤ players }
    requires players { players ≤ 16 }
    ensures { IfOk result (λ source.
        leaders_of source.leaders.items ≡ leaders_of_number players number) }
{
    match drawn_leaders(alloc, players, number) {
        Ok(leaders) => Ok(Source { leaders }),
        Err(_) => Err(NoMemory),
    }
}

/// The leaders of the game of a number.
fn drawn_leaders(alloc: Global, players: u32, number: u64) -> Result<Vec<Leader>, AllocError>
    requires { players ≤ 16 }
    ensures { IfOk result (λ list. leaders_of list.items ≡ leaders_of_number players number) }
{
    let drawn = LeaderDraws::new(alloc, players, number)?;
    all_leaders(alloc, &drawn)
}

/// The leaders with these draws.
fn all_leaders(alloc: Global, drawn: &LeaderDraws) -> Result<Vec<Leader>, AllocError>
    ensures { IfOk result (λ list. leaders_of list.items
        ≡ leaders_of_number drawn.now.players drawn.now.draws.number) }
{
    let mut list = Vec::new(alloc);
    for i in 0..drawn.players {
        let leader = leader(alloc, drawn, i)?;
        list.push(leader)?;
    }
    Ok(list)
}

/// Leader `i`.
fn leader(alloc: Global, drawn: &LeaderDraws, i: u32) -> Result<Leader, AllocError>
    requires { i < drawn.now.players }
    ensures { IfOk result (λ leader. leader_of leader
        ≡ leader_with_follower drawn.now.players drawn.now.draws.number i) }
{
    let price = i64::from(drawn.price(i));
    let gain = i64::from(drawn.leader_gain(i));
    let base = Player {
        name: player_name(alloc, i)?,
        vars: both_vars(alloc, drawn.bound(i))?,
        rows: Vec::new(alloc),
        pairs: Vec::new(alloc),
        cost: SmallVec::from_slice(alloc, &[(0, price), (1, -gain)])?,
        cross: rivalries(alloc, drawn, i)?,
        others: Vec::new(alloc),
    };
    let follower = follower(alloc, drawn, i)?;
    Ok(Leader {
        base,
        followers: vec![in alloc; follower]?,
    })
}

/// The leader's variable, at most `bound`, and the follower's.
fn both_vars(alloc: Global, bound: u32) -> Result<Vec<Var>, AllocError>
    ensures { IfOk result (λ list. map var_of list.items ≡ own_var bound ∷ answer_var ∷ []) }
{
    let own = continuous(alloc, "x", Some(i64::from(bound)))?;
    let answer = continuous(alloc, "f", None)?;
    Ok(vec![in alloc; own, answer]?)
}

/// A continuous variable from 0 on.
fn continuous(alloc: Global, name: &str, up: Option<i64>) -> Result<Var, AllocError>
    ensures { IfOk result (λ var. var_of var
        ≡ record { name = name.now; whole = false; low = Some (pos 0); up = up }) }
{
    Ok(Var {
        name: String::from_str(alloc, name)?,
        whole: false,
        low: Some(0),
        up,
    })
}

fn follower(alloc: Global, drawn: &LeaderDraws, i: u32) -> Result<Follower, AllocError>
    requires { i < drawn.now.players }
    ensures { IfOk result (λ f. follower_of f
        ≡ follower drawn.now.players drawn.now.draws.number i) }
{
    let coef = SmallVec::from_slice(alloc, &[(0, -1), (1, 1)])?;
    let le = i64::from(drawn.lead(i));
    let gain = i64::from(drawn.answer_gain(i));
    Ok(Follower {
        first: 1,
        count: 1,
        rows: vec![in alloc; Row { coef, le }]?,
        cost: SmallVec::from_slice(alloc, &[(1, -gain)])?,
        cross: Vec::new(alloc),
    })
}

/// The cross terms of the follower's variable with those of the other leaders.
fn rivalries(alloc: Global, drawn: &LeaderDraws, i: u32) -> Result<Vec<CrossTerm>, AllocError>
    requires { i < drawn.now.players }
    ensures { IfOk result (λ terms. terms.items
        ≡ (leader_with_follower drawn.now.players drawn.now.draws.number i).base.cross) }
{
    let mut terms = Vec::new(alloc);
    for j in 0..drawn.players {
        add_rivalry(&mut terms, drawn, i, j)?;
    }
    Ok(terms)
}

/// Adds the cross term with leader `j`'s, if there is one.
fn add_rivalry(
    terms: &mut Vec<CrossTerm>,
    drawn: &LeaderDraws,
    i: u32,
    j: u32,
) -> Result<(), AllocError>
    requires player { i < drawn.now.players }
    requires other { j < drawn.now.players }
    ensures { OnOk result (terms.new.items ≡ terms.old.items
        ++ rivalry_with drawn.now.players drawn.now.draws.number i j) }
{
    if j == i {
        return Ok(());
    }
    add_term(terms, 1, j, drawn.rivalry(i, j))
}
