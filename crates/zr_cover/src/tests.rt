ghost use Rattle.std.specs.Prelude.{◌≤◌};

use super::*;
use smallvec::SmallVec;
use std::alloc::Global;
use std::test::Fail;
use zr_base::{Point, Row};
use zr_game::{Game, Pair, Player, Var};
use zr_io::Purse;
use zr_tree::{Node, Tree};

fn whole(alloc: Global, low: Option<i64>, up: Option<i64>) -> Result<Var, Fail> {
    Ok(Var {
        name: String::from_str(alloc, "x")?,
        whole: true,
        low,
        up,
    })
}

fn row(alloc: Global, coef: &[(u32, i64)], le: i64) -> Result<Row, Fail> {
    Ok(Row {
        coef: SmallVec::from_slice(alloc, coef)?,
        le,
    })
}

fn one_player(
    alloc: Global,
    vars: Vec<Var>,
    rows: Vec<Row>,
    pairs: Vec<Pair>,
) -> Result<Game, Fail> {
    let player = Player {
        name: String::from_str(alloc, "A")?,
        vars,
        rows,
        pairs,
        cost: SmallVec::from_slice(alloc, &[])?,
        cross: Vec::new(alloc),
        others: Vec::new(alloc),
    };
    match Game::new(vec![in alloc; player]?) {
        Ok(game) => Ok(game),
        Err(_) => Err(Fail::from("no game")),
    }
}

/// The cover of the game's first player.
fn cover(alloc: Global, game: &Game, purse: &mut Purse) -> Result<Result<Tree, CoverStop>, Fail>
    requires limit { purse.old.limit ≤ 1000000000 }
{
    if game.players.len() != 1 {
        return Err(Fail::from("another number of players"));
    }
    Ok(exact_cover(alloc, game, 0, purse))
}

/// The numerators of a point as text.
fn numbers(alloc: Global, point: &Point) -> Result<String, Fail> {
    let mut all = String::new(alloc);
    for j in 0..point.len() {
        let num = point.num(j);
        all.push_str(&format!(in alloc; " {num}")?)?;
    }
    Ok(all)
}

/// A number of a direction.
fn number(dir: &[i128], j: usize) -> i128 {
    if j < dir.len() { dir[j] } else { -1 }
}

/// The nodes of a tree as text.
fn text(alloc: Global, tree: &Tree) -> Result<String, Fail> {
    let mut all = String::new(alloc);
    for node in &tree.nodes {
        let one = line(alloc, node)?;
        all.push_str(&one)?;
    }
    Ok(all)
}

fn line(alloc: Global, node: &Node) -> Result<String, Fail> {
    match node {
        Node::Split { var, at } => Ok(format!(in alloc; "split {var} {at};")?),
        Node::Choose { pair } => Ok(format!(in alloc; "choose {pair};")?),
        Node::Leaf { scale, mult } => {
            let mut all = format!(in alloc; "leaf {scale}")?;
            for (slot, by) in mult {
                all.push_str(&format!(in alloc; " {slot} {by}")?)?;
            }
            all.push_str(";")?;
            Ok(all)
        }
        Node::Known { point } => {
            let den = point.den();
            let all = numbers(alloc, point)?;
            Ok(format!(in alloc; "known {den}{all};")?)
        }
        Node::Loose => Ok(String::from_str(alloc, "loose;")?),
    }
}

#[test]
fn a_player_without_a_point_has_no_leaf(rt: HostRuntime) -> Result<(), Fail> {
    let alloc = rt.alloc();
    let game = one_player(
        alloc,
        vec![in alloc; whole(alloc, Some(0), None)?]?,
        vec![in alloc; row(alloc, &[(0, 2)], 1)?, row(alloc, &[(0, -2)], -1)?]?,
        vec![in alloc]?,
    )?;
    let mut purse = Purse::new(100);
    match cover(alloc, &game, &mut purse)? {
        Ok(tree) => {
            assert_eq!(rt;
                text(alloc, &tree)?.as_str(),
                "split 0 0;leaf 0 1 1 3 2;leaf 0 0 1 2 2;"
            );
            assert_eq!(rt; purse.branches, 1);
            Ok(())
        }
        _ => Err(Fail::from("no cover")),
    }
}

#[test]
fn two_binaries_have_four_leaves(rt: HostRuntime) -> Result<(), Fail> {
    let alloc = rt.alloc();
    let game = one_player(
        alloc,
        vec![in alloc;
            whole(alloc, Some(0), Some(1))?,
            whole(alloc, Some(0), Some(1))?,
        ]?,
        vec![in alloc]?,
        vec![in alloc]?,
    )?;
    let mut purse = Purse::new(3);
    match cover(alloc, &game, &mut purse)? {
        Ok(tree) => {
            assert_eq!(rt;
                text(alloc, &tree)?.as_str(),
                "split 0 0;split 1 0;known 1 0 0;known 1 0 1;split 1 0;known 1 1 0;known 1 1 1;"
            );
            Ok(())
        }
        _ => Err(Fail::from("no cover")),
    }
}

#[test]
fn a_purse_at_its_limit_ends_the_cover(rt: HostRuntime) -> Result<(), Fail> {
    let alloc = rt.alloc();
    let game = one_player(
        alloc,
        vec![in alloc;
            whole(alloc, Some(0), Some(1))?,
            whole(alloc, Some(0), Some(1))?,
        ]?,
        vec![in alloc]?,
        vec![in alloc]?,
    )?;
    let mut purse = Purse::new(2);
    match cover(alloc, &game, &mut purse)? {
        Err(CoverStop::Spent) => Ok(()),
        _ => Err(Fail::from("not spent")),
    }
}

#[test]
fn a_whole_variable_without_end(rt: HostRuntime) -> Result<(), Fail> {
    let alloc = rt.alloc();
    let game = one_player(
        alloc,
        vec![in alloc;
            whole(alloc, Some(0), Some(1))?,
            whole(alloc, Some(0), None)?,
        ]?,
        vec![in alloc]?,
        vec![in alloc]?,
    )?;
    let mut purse = Purse::new(100);
    match cover(alloc, &game, &mut purse)? {
        Err(CoverStop::Endless { var, dir }) => {
            assert_eq!(rt; var, 1);
            assert_eq!(rt; (dir.len(), number(&dir, 0), number(&dir, 1)), (2, 0, 1));
            Ok(())
        }
        _ => Err(Fail::from("not endless")),
    }
}

#[test]
fn a_pair_is_chosen_and_a_variable_has_no_lower_bound(rt: HostRuntime) -> Result<(), Fail> {
    let alloc = rt.alloc();
    let pair = Pair {
        var: 0,
        coef: SmallVec::from_slice(alloc, &[(1, 1)])?,
        add: 2,
    };
    let game = one_player(
        alloc,
        vec![in alloc;
            whole(alloc, Some(0), Some(1))?,
            whole(alloc, None, Some(-1))?,
        ]?,
        vec![in alloc; row(alloc, &[(0, -2)], -1)?]?,
        vec![in alloc; pair]?,
    )?;
    let mut purse = Purse::new(100);
    match cover(alloc, &game, &mut purse)? {
        Ok(tree) => {
            assert_eq!(rt;
                text(alloc, &tree)?.as_str(),
                "choose 0;leaf 0 0 1 6 2;split 1 -3;leaf 0 4 1 5 1;\
split 0 0;leaf 0 0 1 2 2;split 1 -2;known 1 1 -2;leaf 0 3 1 6 1;"
            );
            Ok(())
        }
        _ => Err(Fail::from("no cover")),
    }
}
