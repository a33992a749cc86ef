use super::*;
use smallvec::SmallVec;
use std::alloc::Global;
use std::test::Fail;
use zr_base::{Point, Row};
use zr_game::{CrossTerm, Game, Player, Var};
use zr_io::Purse;

/// A whole variable with these bounds.
fn variable(alloc: Global, low: i64, up: i64) -> Result<Var, Fail> {
    Ok(Var {
        name: String::from_str(alloc, "x")?,
        whole: true,
        low: Some(low),
        up: Some(up),
    })
}

fn row(alloc: Global, coef: &[(u32, i64)], le: i64) -> Result<Row, Fail> {
    Ok(Row {
        coef: SmallVec::from_slice(alloc, coef)?,
        le,
    })
}

/// A cross term with the variable of the same number of the other one of two players.
fn term(own: u32, player: u32, coef: i64) -> CrossTerm {
    CrossTerm {
        own,
        player,
        var: own,
        coef,
    }
}

fn player(
    alloc: Global,
    name: &str,
    vars: Vec<Var>,
    rows: Vec<Row>,
    cost: &[(u32, i64)],
    cross: Vec<CrossTerm>,
) -> Result<Player, Fail> {
    Ok(Player {
        name: String::from_str(alloc, name)?,
        vars,
        rows,
        pairs: Vec::new(alloc),
        cost: SmallVec::from_slice(alloc, cost)?,
        cross,
        others: Vec::new(alloc),
    })
}

fn game(alloc: Global, first: Player, second: Player) -> Result<Game, Fail> {
    match Game::new(vec![in alloc; first, second]?) {
        Ok(game) => Ok(game),
        Err(_) => Err(Fail::from("no game")),
    }
}

/// A player of one variable from `low` to `up`.
fn one_variable(
    alloc: Global,
    name: &str,
    low: i64,
    up: i64,
    cost: &[(u32, i64)],
    cross: CrossTerm,
) -> Result<Player, Fail> {
    player(
        alloc,
        name,
        vec![in alloc; variable(alloc, low, up)?]?,
        Vec::new(alloc),
        cost,
        vec![in alloc; cross]?,
    )
}

/// A point as text.
fn point_text(alloc: Global, point: &Point) -> Result<String, Fail> {
    let mut all = format!(in alloc; "{}", point.den())?;
    for v in 0..point.len() {
        all.push_str(&format!(in alloc; " {}", point.num(v))?)?;
    }
    Ok(all)
}

/// The nodes of a tree as text.
fn text(alloc: Global, tree: &BoxTree) -> Result<String, Fail> {
    let mut all = String::new(alloc);
    for node in &tree.nodes {
        match node {
            BNode::Split { player, var, at } => {
                all.push_str(&format!(in alloc; "split {player} {var} {at};")?)?;
            }
            BNode::Empty { player, mult } => {
                all.push_str(&format!(in alloc; "empty {player} {};", mult.len())?)?;
            }
            BNode::Deviate { player, point } => {
                let numbers = point_text(alloc, point)?;
                all.push_str(&format!(in alloc; "deviate {player} {};", numbers.as_str())?)?;
            }
        }
    }
    Ok(all)
}

/// The tree that is found within so many units, as text, and the units that were spent.
fn found(alloc: Global, game: &Game, limit: u64) -> Result<(String, u64), Fail> {
    if limit > 1000000000 {
        return Err(Fail::from("another limit"));
    }
    let mut purse = Purse::new(limit);
    match search(alloc, game, &mut purse) {
        Ok(BoxAnswer::Refuted(tree)) => Ok((text(alloc, &tree)?, purse.branches)),
        Ok(BoxAnswer::Unsettled) => Ok((String::from_str(alloc, "unsettled")?, 0)),
        Err(BoxStop::Spent) => Ok((String::from_str(alloc, "spent")?, purse.branches)),
        Err(_) => Err(Fail::from("no answer")),
    }
}

/// Matching pennies: the first player pays `-2x + 4xy`, the second one `2y - 4xy`.
fn pennies(alloc: Global) -> Result<Game, Fail> {
    let first = one_variable(alloc, "A", 0, 1, &[(0, -2)], term(0, 1, 4))?;
    let second = one_variable(alloc, "B", 0, 1, &[(0, 2)], term(0, 0, -4))?;
    game(alloc, first, second)
}

#[test]
fn pennies_have_no_pure_equilibrium(rt: HostRuntime) -> Result<(), Fail> {
    let alloc = rt.alloc();
    let (tree, units) = found(alloc, &pennies(alloc)?, 1000)?;
    assert_eq!(rt;
        tree.as_str(),
        "split 0 0 0;split 1 0 0;deviate 0 1 1;deviate 1 1 0;split 1 0 0;deviate 1 1 1;deviate 0 1 0;"
    );
    assert_eq!(rt; units, 3);
    Ok(())
}

#[test]
fn two_splits_are_too_few(rt: HostRuntime) -> Result<(), Fail> {
    let alloc = rt.alloc();
    let (answer, units) = found(alloc, &pennies(alloc)?, 2)?;
    assert_eq!(rt; (answer.as_str(), units), ("spent", 2));
    Ok(())
}

/// A player of two variables that are 0 or 1, with one row.
fn knapsack_player(
    alloc: Global,
    name: &str,
    bound: Row,
    cost: &[(u32, i64)],
    other: u32,
    shared: (i64, i64),
) -> Result<Player, Fail> {
    player(
        alloc,
        name,
        vec![in alloc; variable(alloc, 0, 1)?, variable(alloc, 0, 1)?]?,
        vec![in alloc; bound]?,
        cost,
        vec![in alloc; term(0, other, shared.0), term(1, other, shared.1)]?,
    )
}

#[test]
fn a_knapsack_game_has_a_pure_equilibrium(rt: HostRuntime) -> Result<(), Fail> {
    let alloc = rt.alloc();
    let bound = row(alloc, &[(0, 3), (1, 4)], 5)?;
    let first = knapsack_player(alloc, "A", bound, &[(0, -1), (1, -2)], 1, (2, 3))?;
    let bound = row(alloc, &[(0, 2), (1, 5)], 5)?;
    let second = knapsack_player(alloc, "B", bound, &[(0, -3), (1, -5)], 0, (5, 4))?;
    let (answer, _) = found(alloc, &game(alloc, first, second)?, 1000)?;
    assert_eq!(rt; answer.as_str(), "unsettled");
    Ok(())
}

/// Pennies over -1 and 0: the first player pays `2x + 4xy`, the second one `-2y - 4xy`.
#[test]
fn pennies_below_zero_have_none(rt: HostRuntime) -> Result<(), Fail> {
    let alloc = rt.alloc();
    let first = one_variable(alloc, "A", -1, 0, &[(0, 2)], term(0, 1, 4))?;
    let second = one_variable(alloc, "B", -1, 0, &[(0, -2)], term(0, 0, -4))?;
    let (tree, units) = found(alloc, &game(alloc, first, second)?, 1000)?;
    assert_eq!(rt;
        tree.as_str(),
        "split 0 0 -1;split 1 0 -1;deviate 0 1 0;deviate 1 1 -1;split 1 0 -1;deviate 1 1 0;deviate 0 1 -1;"
    );
    assert_eq!(rt; units, 3);
    Ok(())
}

/// Pennies where the first player has a second variable besides, and `3x + 2z` is at most 4: where
/// `x` is 1, the part with `z` at 1 is cut off as empty, and one deviation leaves both values of `z`.
#[test]
fn an_empty_part_is_cut_off(rt: HostRuntime) -> Result<(), Fail> {
    let alloc = rt.alloc();
    let first = player(
        alloc,
        "A",
        vec![in alloc; variable(alloc, 0, 1)?, variable(alloc, 0, 1)?]?,
        vec![in alloc; row(alloc, &[(0, 3), (1, 2)], 4)?]?,
        &[(0, -2)],
        vec![in alloc; term(0, 1, 4)]?,
    )?;
    let second = one_variable(alloc, "B", 0, 1, &[(0, 2)], term(0, 0, -4))?;
    let (tree, units) = found(alloc, &game(alloc, first, second)?, 1000)?;
    assert_eq!(rt;
        tree.as_str(),
        "split 0 0 0;split 1 0 0;deviate 0 1 1 0;deviate 1 1 0;split 0 1 0;split 1 0 0;deviate 1 1 1;deviate 0 1 0 0;empty 0 3;"
    );
    assert_eq!(rt; units, 4);
    Ok(())
}
