ghost use Rattle.std.specs.Prelude.{◌≤◌};

use super::*;
use smallvec::SmallVec;
use std::alloc::Global;
use std::test::Fail;
use zr_base::{Frac, Point, Row};
use zr_cert::{Cert, Verdict};
use zr_check::{check_cert, scratch_for};
use zr_game::{CrossTerm, Game, Kind, Other, Player, Var};
use zr_io::Purse;
use zr_mix::{Part, Profile, Strategy};
use zr_tree::{Node, Tree};

/// A player with so many variables of 0 or 1.
fn player(
    alloc: Global,
    count: usize,
    rows: Vec<Row>,
    cost: &[(u32, i64)],
    cross: &[CrossTerm],
) -> Result<Player, Fail> {
    let mut vars = Vec::new(alloc);
    for _ in 0..count {
        vars.push(Var {
            name: String::new(alloc),
            whole: true,
            low: Some(0),
            up: Some(1),
        })?;
    }
    Ok(Player {
        name: String::new(alloc),
        vars,
        rows,
        pairs: Vec::new(alloc),
        cost: SmallVec::from_slice(alloc, cost)?,
        cross: Vec::from_slice(alloc, cross)?,
        others: Vec::new(alloc),
    })
}

fn row(alloc: Global, coef: &[(u32, i64)], le: i64) -> Result<Row, Fail> {
    Ok(Row {
        coef: SmallVec::from_slice(alloc, coef)?,
        le,
    })
}

fn shared(own: u32, player: u32, coef: i64) -> CrossTerm {
    CrossTerm {
        own,
        player,
        var: own,
        coef,
    }
}

fn game(players: Vec<Player>) -> Result<Game, Fail> {
    match Game::new(players) {
        Ok(game) => Ok(game),
        Err(_) => Err(Fail::from("no game")),
    }
}

/// Matching pennies with a tax: the first pays `-2x + 4xy + 6y`, the second `2y - 4xy`.
fn taxed(alloc: Global) -> Result<Game, Fail> {
    let none = Vec::new(alloc);
    let mut first = player(alloc, 1, none, &[(0, -2)], &[shared(0, 1, 4)])?;
    first.others.push(Other {
        first: (1, 0),
        second: None,
        coef: 6,
    })?;
    let none = Vec::new(alloc);
    let second = player(alloc, 1, none, &[(0, 2)], &[shared(0, 0, -4)])?;
    game(vec![in alloc; first, second]?)
}

/// Two players who pack two things each: `3x1 + 4x2 <= 5` and `2y1 + 5y2 <= 5`. A player's slot 0
/// is its row, and its variables have slots 1 and 2, and 3 and 4.
fn knapsack(alloc: Global) -> Result<Game, Fail> {
    let packs = vec![in alloc; row(alloc, &[(0, 3), (1, 4)], 5)?]?;
    let cross = [shared(0, 1, 2), shared(1, 1, 3)];
    let first = player(alloc, 2, packs, &[(0, -1), (1, -2)], &cross)?;
    let packs = vec![in alloc; row(alloc, &[(0, 2), (1, 5)], 5)?]?;
    let cross = [shared(0, 0, 5), shared(1, 0, 4)];
    let second = player(alloc, 2, packs, &[(0, -3), (1, -5)], &cross)?;
    game(vec![in alloc; first, second]?)
}

/// A node as a table writes it.
#[derive(Clone, Copy)]
enum Line<'a> {
    Split(u32, i64),
    Leaf(i128, &'a [(u32, i128)]),
}

/// A strategy as a table writes it: its total, and the weights and numbers of its parts.
type Written<'a> = (i128, &'a [(i128, &'a [i128])]);

/// A bound as a table writes it: the two numbers of its cost, and the nodes of its tree.
type Cost<'a> = (i128, i128, &'a [Line<'a>]);

fn strategy(alloc: Global, written: Written) -> Result<Strategy, Fail> {
    let (total, lines) = written;
    let mut parts = Vec::new(alloc);
    for (weight, num) in lines {
        let Ok(point) = Point::new(Vec::from_slice(alloc, num)?, 1) else {
            return Err(Fail::from("no point"));
        };
        parts.push(Part {
            weight: *weight,
            point,
        })?;
    }
    Ok(Strategy { total, parts })
}

fn tree(alloc: Global, lines: &[Line]) -> Result<Tree, Fail> {
    let mut nodes = Vec::new(alloc);
    for line in lines {
        nodes.push(match *line {
            Line::Split(var, at) => Node::Split { var, at },
            Line::Leaf(scale, mult) => Node::Leaf {
                scale,
                mult: Vec::from_slice(alloc, mult)?,
            },
        })?;
    }
    Tree::new(nodes).map_err(|_| Fail::from("no tree"))
}

/// The certificate of a mixed profile.
fn cert(alloc: Global, written: &[Written], costs: &[Cost]) -> Result<Cert, Fail> {
    let mut strategies = Vec::new(alloc);
    for one in written {
        strategies.push(strategy(alloc, *one)?)?;
    }
    let mut bounds = Vec::new(alloc);
    for (num, den, lines) in costs {
        bounds.push(Bound {
            cost: Frac::new(*num, *den).ok_or("no fraction")?,
            tree: tree(alloc, lines)?,
        })?;
    }
    let verdict = Verdict::Profile {
        profile: Profile { strategies },
        bounds,
    };
    Cert::new(Kind::Mixed, 2, verdict).map_err(|_| Fail::from("no certificate"))
}

/// The bounds of the certificate's profile, which is an equilibrium where the check accepts it.
fn again(
    alloc: Global,
    game: &Game,
    cert: &Cert,
    purse: &mut Purse,
) -> Result<Result<Vec<Bound>, CostStop>, Fail>
    requires { purse.old.limit ≤ 1000000000 }
{
    let Ok(mut room) = scratch_for(alloc, game, cert) else {
        return Err(Fail::from("no memory"));
    };
    let Ok(()) = check_cert(game, cert, &mut room) else {
        return Err(Fail::from("refused"));
    };
    match &cert.verdict {
        Verdict::Profile { profile, bounds: _ } => Ok(bounds(alloc, game, profile, purse)),
        _ => Err(Fail::from("no profile")),
    }
}

/// The costs of the bounds as text.
fn text(alloc: Global, bounds: &[Bound]) -> Result<String, Fail> {
    let mut all = String::new(alloc);
    for bound in bounds {
        let (num, den) = (bound.cost.num(), bound.cost.den());
        all.push_str(&format!(in alloc; "{num}/{den};")?)?;
    }
    Ok(all)
}

#[test]
fn matching_pennies_with_a_tax(rt: HostRuntime) -> Result<(), Fail> {
    let alloc = rt.alloc();
    let game = taxed(alloc)?;
    let fair: Written = (2, &[(1, &[0]), (1, &[1])]);
    let three: Cost = (3, 1, &[Line::Leaf(1, &[])]);
    let free: Cost = (0, 1, &[Line::Leaf(1, &[])]);
    let cert = cert(alloc, &[fair, fair], &[three, free])?;
    let mut purse = Purse::new(0);
    match again(alloc, &game, &cert, &mut purse)? {
        Ok(bounds) => {
            assert_eq!(rt; text(alloc, &bounds)?.as_str(), "3/1;0/1;");
            Ok(())
        }
        Err(_) => Err(Fail::from("no bounds")),
    }
}

#[test]
fn the_knapsack_game(rt: HostRuntime) -> Result<(), Fail> {
    use Line::{Leaf, Split};
    let alloc = rt.alloc();
    let game = knapsack(alloc)?;
    let written: [Written; 2] = [
        (9, &[(2, &[1, 0]), (7, &[0, 1])]),
        (5, &[(2, &[1, 0]), (3, &[0, 1])]),
    ];
    let first: Cost = (
        -1,
        5,
        &[
            Split(1, 0),
            Leaf(1, &[(2, 1), (4, 1)]),
            Split(0, 0),
            Leaf(1, &[(2, 1), (4, 1)]),
            Leaf(0, &[(0, 1), (1, 3), (3, 4)]),
        ],
    );
    let second: Cost = (
        -17,
        9,
        &[
            Split(1, 0),
            Leaf(1, &[(2, 17), (4, 17)]),
            Leaf(2, &[(0, 17), (3, 51)]),
        ],
    );
    let cert = cert(alloc, &written, &[first, second])?;
    let mut empty = Purse::new(0);
    match again(alloc, &game, &cert, &mut empty)? {
        Err(CostStop::Spent) => {}
        _ => return Err(Fail::from("a purse of nothing pays")),
    }
    let mut purse = Purse::new(100);
    match again(alloc, &game, &cert, &mut purse)? {
        Ok(bounds) => {
            assert_eq!(rt; text(alloc, &bounds)?.as_str(), "-1/5;-17/9;");
            Ok(())
        }
        Err(_) => Err(Fail::from("no bounds")),
    }
}
