ghost use Rattle.std.specs.Prelude.{◌≤◌};
ghost use Rattle.std.specs.List.{All};
ghost use Rattle.zr_base.specs.Steps.{IsNarrow};

use super::*;
use smallvec::SmallVec;
use std::alloc::Global;
use std::test::Fail;
use zr_base::{Point, Row};
use zr_game::{Game, Pair, Player, Var};
use zr_io::Purse;
use zr_tree::{Node, Tree};

fn bounded(alloc: Global, whole: bool, low: Option<i64>, up: Option<i64>) -> Result<Var, Fail> {
    Ok(Var {
        name: String::from_str(alloc, "x")?,
        whole,
        low,
        up,
    })
}

/// A variable that is at least 0.
fn variable(alloc: Global, whole: bool, up: Option<i64>) -> Result<Var, Fail> {
    bounded(alloc, whole, Some(0), up)
}

fn row(alloc: Global, coef: &[(u32, i64)], le: i64) -> Result<Row, Fail> {
    Ok(Row {
        coef: SmallVec::from_slice(alloc, coef)?,
        le,
    })
}

fn one_player(
    alloc: Global,
    vars: Vec<Var>,
    rows: Vec<Row>,
    pairs: Vec<Pair>,
) -> Result<Game, Fail> {
    let player = Player {
        name: String::from_str(alloc, "A")?,
        vars,
        rows,
        pairs,
        cost: SmallVec::from_slice(alloc, &[])?,
        cross: Vec::new(alloc),
        others: Vec::new(alloc),
    };
    match Game::new(vec![in alloc; player]?) {
        Ok(game) => Ok(game),
        Err(_) => Err(Fail::from("no game")),
    }
}

/// What is found for the game's first player.
fn found(
    alloc: Global,
    game: &Game,
    aim: &[i128],
    purse: &mut Purse,
) -> Result<Result<LeastAnswer, BnbStop>, Fail>
    requires narrow { All IsNarrow aim.now }
    requires limit { purse.old.limit ≤ 1000000000 }
{
    if game.players.len() != 1 {
        return Err(Fail::from("another number of players"));
    }
    if game.players[0].vars.len() != aim.len() {
        return Err(Fail::from("another number of variables"));
    }
    Ok(least(alloc, game, 0, aim, purse))
}

/// A numerator of a point.
fn num(point: &Point, j: usize) -> i128 {
    if j < point.len() { point.num(j) } else { -1 }
}

/// A number of a direction.
fn number(dir: &[i128], j: usize) -> i128 {
    if j < dir.len() { dir[j] } else { -1 }
}

/// The nodes of a tree as text.
fn text(alloc: Global, tree: &Tree) -> Result<String, Fail> {
    let mut all = String::new(alloc);
    for node in &tree.nodes {
        match node {
            Node::Split { var, at } => {
                all.push_str(&format!(in alloc; "split {var} {at};")?)?;
            }
            Node::Choose { pair } => {
                all.push_str(&format!(in alloc; "choose {pair};")?)?;
            }
            Node::Leaf { scale, mult } => {
                all.push_str(&format!(in alloc; "leaf {scale}")?)?;
                for (slot, by) in mult {
                    all.push_str(&format!(in alloc; " {slot} {by}")?)?;
                }
                all.push_str(";")?;
            }
            _ => all.push_str("other;")?,
        }
    }
    Ok(all)
}

#[test]
fn a_whole_variable_is_rounded_down(rt: HostRuntime) -> Result<(), Fail> {
    let alloc = rt.alloc();
    let game = one_player(
        alloc,
        vec![in alloc; variable(alloc, true, None)?]?,
        vec![in alloc; row(alloc, &[(0, 2)], 5)?]?,
        vec![in alloc]?,
    )?;
    let mut purse = Purse::new(100);
    match found(alloc, &game, &[-1], &mut purse)? {
        Ok(LeastAnswer::At { point, tree, .. }) => {
            assert_eq!(rt; (num(&point, 0), point.den()), (2, 1));
            assert_eq!(rt;
                text(alloc, &tree)?.as_str(),
                "split 0 2;leaf 1 2 1;leaf 0 0 1 1 2;"
            );
            assert_eq!(rt; purse.branches, 1);
            Ok(())
        }
        _ => Err(Fail::from("not at a point")),
    }
}

#[test]
fn a_whole_variable_has_no_value(rt: HostRuntime) -> Result<(), Fail> {
    let alloc = rt.alloc();
    let game = one_player(
        alloc,
        vec![in alloc; variable(alloc, true, None)?]?,
        vec![in alloc; row(alloc, &[(0, 2)], 1)?, row(alloc, &[(0, -2)], -1)?]?,
        vec![in alloc]?,
    )?;
    let mut purse = Purse::new(100);
    match found(alloc, &game, &[0], &mut purse)? {
        Ok(LeastAnswer::Empty { tree }) => {
            assert_eq!(rt;
                text(alloc, &tree)?.as_str(),
                "split 0 0;leaf 0 1 1 3 2;leaf 0 0 1 2 2;"
            );
            Ok(())
        }
        _ => Err(Fail::from("not empty")),
    }
}

#[test]
fn an_aim_falls_without_end(rt: HostRuntime) -> Result<(), Fail> {
    let alloc = rt.alloc();
    let game = one_player(
        alloc,
        vec![in alloc; variable(alloc, true, None)?]?,
        vec![in alloc]?,
        vec![in alloc]?,
    )?;
    let mut purse = Purse::new(100);
    match found(alloc, &game, &[-1], &mut purse)? {
        Ok(LeastAnswer::Below { base, dir }) => {
            assert_eq!(rt; (num(&base, 0), base.den(), number(&dir, 0)), (0, 1, 1));
            Ok(())
        }
        _ => Err(Fail::from("not below")),
    }
}

#[test]
fn a_ray_of_the_relaxation_changes_a_whole_variable(rt: HostRuntime) -> Result<(), Fail> {
    let alloc = rt.alloc();
    let game = one_player(
        alloc,
        vec![in alloc; variable(alloc, true, None)?, variable(alloc, true, None)?]?,
        vec![in alloc;
            row(alloc, &[(0, 2), (1, -2)], 1)?,
            row(alloc, &[(0, -2), (1, 2)], -1)?,
        ]?,
        vec![in alloc]?,
    )?;
    let mut purse = Purse::new(100);
    match found(alloc, &game, &[1, 0], &mut purse)? {
        Err(BnbStop::Endless { var, dir }) => {
            assert_eq!(rt; var, 0);
            assert_eq!(rt; number(&dir, 0) > 0, true);
            Ok(())
        }
        _ => Err(Fail::from("not endless")),
    }
}

#[test]
fn a_pair_is_chosen(rt: HostRuntime) -> Result<(), Fail> {
    let alloc = rt.alloc();
    let pair = Pair {
        var: 0,
        coef: SmallVec::from_slice(alloc, &[(1, -1)])?,
        add: 1,
    };
    let game = one_player(
        alloc,
        vec![in alloc;
            variable(alloc, false, Some(1))?,
            variable(alloc, false, Some(1))?,
        ]?,
        vec![in alloc; row(alloc, &[(0, 1), (1, 2)], 2)?]?,
        vec![in alloc; pair]?,
    )?;
    let mut purse = Purse::new(100);
    match found(alloc, &game, &[-3, -4], &mut purse)? {
        Ok(LeastAnswer::At { point, tree, .. }) => {
            assert_eq!(rt; (num(&point, 0), num(&point, 1)), (0, point.den()));
            assert_eq!(rt;
                text(alloc, &tree)?.as_str(),
                "choose 0;leaf 1 5 4 6 3;leaf 1 0 3 6 2;"
            );
            Ok(())
        }
        _ => Err(Fail::from("not at a point")),
    }
}

#[test]
fn a_purse_at_its_limit_ends_the_search(rt: HostRuntime) -> Result<(), Fail> {
    let alloc = rt.alloc();
    let game = one_player(
        alloc,
        vec![in alloc; variable(alloc, true, None)?]?,
        vec![in alloc; row(alloc, &[(0, 2)], 5)?]?,
        vec![in alloc]?,
    )?;
    let mut purse = Purse::new(0);
    match found(alloc, &game, &[-1], &mut purse)? {
        Err(BnbStop::Spent) => Ok(()),
        _ => Err(Fail::from("not spent")),
    }
}

#[test]
fn a_variable_is_split_below_zero(rt: HostRuntime) -> Result<(), Fail> {
    let alloc = rt.alloc();
    let game = one_player(
        alloc,
        vec![in alloc; bounded(alloc, true, Some(-5), None)?]?,
        vec![in alloc; row(alloc, &[(0, 2)], -5)?]?,
        vec![in alloc]?,
    )?;
    let mut purse = Purse::new(100);
    match found(alloc, &game, &[-1], &mut purse)? {
        Ok(LeastAnswer::At { point, tree, .. }) => {
            assert_eq!(rt; (num(&point, 0), point.den()), (-3, 1));
            assert_eq!(rt;
                text(alloc, &tree)?.as_str(),
                "split 0 -3;leaf 1 2 1;leaf 0 0 1 1 2;"
            );
            Ok(())
        }
        _ => Err(Fail::from("not at a point")),
    }
}

#[test]
fn a_free_variable_has_a_least_value(rt: HostRuntime) -> Result<(), Fail> {
    let alloc = rt.alloc();
    let game = one_player(
        alloc,
        vec![in alloc; bounded(alloc, false, None, None)?]?,
        vec![in alloc; row(alloc, &[(0, 2)], -5)?]?,
        vec![in alloc]?,
    )?;
    let mut purse = Purse::new(0);
    match found(alloc, &game, &[-1], &mut purse)? {
        Ok(LeastAnswer::At { point, value, tree }) => {
            assert_eq!(rt; (num(&point, 0), point.den()), (-5, 2));
            assert_eq!(rt; (value.num(), value.den()), (5, 2));
            assert_eq!(rt; text(alloc, &tree)?.as_str(), "leaf 1 0 1;");
            Ok(())
        }
        _ => Err(Fail::from("not at a point")),
    }
}
