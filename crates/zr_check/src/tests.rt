use super::*;
use smallvec::SmallVec;
use std::alloc::Global;
use std::test::Fail;
use zr_base::{Frac, Point, Row};
use zr_boxes::{BNode, BoxTree};
use zr_game::{CrossTerm, Game, Kind, Other, Player, Var};
use zr_mix::{Part, Profile, Strategy};
use zr_tree::{Node, Tree};

/// A player with so many whole variables, each up to this bound.
fn player(
    alloc: Global,
    count: usize,
    up: Option<i64>,
    rows: Vec<Row>,
    cost: &[(u32, i64)],
    cross: &[CrossTerm],
) -> Result<Player, Fail> {
    let mut vars = Vec::new(alloc);
    for _ in 0..count {
        vars.push(Var {
            name: String::new(alloc),
            whole: true,
            low: Some(0),
            up,
        })?;
    }
    Ok(Player {
        name: String::new(alloc),
        vars,
        rows,
        pairs: Vec::new(alloc),
        cost: SmallVec::from_slice(alloc, cost)?,
        cross: Vec::from_slice(alloc, cross)?,
        others: Vec::new(alloc),
    })
}

fn row(alloc: Global, coef: &[(u32, i64)], le: i64) -> Result<Row, Fail> {
    Ok(Row {
        coef: SmallVec::from_slice(alloc, coef)?,
        le,
    })
}

fn shared(own: u32, player: u32, coef: i64) -> CrossTerm {
    CrossTerm {
        own,
        player,
        var: own,
        coef,
    }
}

fn game(players: Vec<Player>) -> Result<Game, Fail> {
    match Game::new(players) {
        Ok(game) => Ok(game),
        Err(_) => Err(Fail::from("no game")),
    }
}

/// Matching pennies: the first pays `-2x + 4xy`, the second `2y - 4xy`, each at 0 or 1. A player's
/// slot 0 is `-x <= -low`, and slot 1 is `x <= high`.
fn pennies(alloc: Global) -> Result<Game, Fail> {
    let none = Vec::new(alloc);
    let first = player(alloc, 1, Some(1), none, &[(0, -2)], &[shared(0, 1, 4)])?;
    let none = Vec::new(alloc);
    let second = player(alloc, 1, Some(1), none, &[(0, 2)], &[shared(0, 0, -4)])?;
    game(vec![in alloc; first, second]?)
}

/// The same, where the first pays `6y` besides.
fn taxed(alloc: Global) -> Result<Game, Fail> {
    let none = Vec::new(alloc);
    let mut first = player(alloc, 1, Some(1), none, &[(0, -2)], &[shared(0, 1, 4)])?;
    first.others.push(Other {
        first: (1, 0),
        second: None,
        coef: 6,
    })?;
    let none = Vec::new(alloc);
    let second = player(alloc, 1, Some(1), none, &[(0, 2)], &[shared(0, 0, -4)])?;
    game(vec![in alloc; first, second]?)
}

/// Two players who pack two things each: `3x1 + 4x2 <= 5` and `2y1 + 5y2 <= 5`. A player's slot 0
/// is its row, and its variables have slots 1 and 2, and 3 and 4.
fn knapsack(alloc: Global) -> Result<Game, Fail> {
    let packs = vec![in alloc; row(alloc, &[(0, 3), (1, 4)], 5)?]?;
    let cross = [shared(0, 1, 2), shared(1, 1, 3)];
    let first = player(alloc, 2, Some(1), packs, &[(0, -1), (1, -2)], &cross)?;
    let packs = vec![in alloc; row(alloc, &[(0, 2), (1, 5)], 5)?]?;
    let cross = [shared(0, 0, 5), shared(1, 0, 4)];
    let second = player(alloc, 2, Some(1), packs, &[(0, -3), (1, -5)], &cross)?;
    game(vec![in alloc; first, second]?)
}

/// A whole variable that is one half: `2x <= 1` and `-2x <= -1`, which are slots 0 and 1. Slot 2 is
/// `-x <= -low`, and slot 3 is `x <= high`, where a split gives a high.
fn impossible(alloc: Global) -> Result<Game, Fail> {
    let rows = vec![in alloc; row(alloc, &[(0, 2)], 1)?, row(alloc, &[(0, -2)], -1)?]?;
    game(vec![in alloc; player(alloc, 1, None, rows, &[], &[])?]?)
}

/// A node as a table writes it.
#[derive(Clone, Copy)]
enum Line<'a> {
    Split(u32, i64),
    Leaf(i128, &'a [(u32, i128)]),
}

/// A strategy as a table writes it: its total, and the weights and numbers of its parts.
type Written<'a> = (i128, &'a [(i128, &'a [i128])]);

/// A bound as a table writes it: the two numbers of its cost, and the nodes of its tree.
type Cost<'a> = (i128, i128, &'a [Line<'a>]);

fn strategy(alloc: Global, written: Written) -> Result<Strategy, Fail> {
    let (total, lines) = written;
    let mut parts = Vec::new(alloc);
    for (weight, num) in lines {
        let Ok(point) = Point::new(Vec::from_slice(alloc, num)?, 1) else {
            return Err(Fail::from("no point"));
        };
        parts.push(Part {
            weight: *weight,
            point,
        })?;
    }
    Ok(Strategy { total, parts })
}

fn tree(alloc: Global, lines: &[Line]) -> Result<Tree, Fail> {
    let mut nodes = Vec::new(alloc);
    for line in lines {
        nodes.push(match *line {
            Line::Split(var, at) => Node::Split { var, at },
            Line::Leaf(scale, mult) => Node::Leaf {
                scale,
                mult: Vec::from_slice(alloc, mult)?,
            },
        })?;
    }
    Tree::new(nodes).map_err(|_| Fail::from("no tree"))
}

fn bound(alloc: Global, cost: Cost) -> Result<Bound, Fail> {
    let (num, den, lines) = cost;
    Ok(Bound {
        cost: Frac::new(num, den).ok_or("no fraction")?,
        tree: tree(alloc, lines)?,
    })
}

fn profile(alloc: Global, written: &[Written], costs: &[Cost]) -> Result<Verdict, Fail> {
    let mut strategies = Vec::new(alloc);
    for one in written {
        strategies.push(strategy(alloc, *one)?)?;
    }
    let mut bounds = Vec::new(alloc);
    for cost in costs {
        bounds.push(bound(alloc, *cost)?)?;
    }
    Ok(Verdict::Profile {
        profile: Profile { strategies },
        bounds,
    })
}

type Answer = Result<(), CertFault>;

/// What the check of the certificate answers, and then, in the same room, that of its profile.
fn answers(
    alloc: Global,
    game: &Game,
    kind: Kind,
    players: u32,
    verdict: Verdict,
) -> Result<(Answer, Answer), Fail> {
    let Ok(cert) = Cert::new(kind, players, verdict) else {
        return Err(Fail::from("no certificate"));
    };
    let Ok(mut room) = scratch_for(alloc, game, &cert) else {
        return Err(Fail::from("no memory"));
    };
    let whole = check_cert(game, &cert, &mut room);
    Ok((whole, check_profile(game, &cert, &mut room)))
}

/// The same of a mixed profile of two players.
fn mixed(
    alloc: Global,
    game: &Game,
    written: &[Written],
    costs: &[Cost],
) -> Result<(Answer, Answer), Fail> {
    answers(alloc, game, Kind::Mixed, 2, profile(alloc, written, costs)?)
}

const MOST: i128 = i128::MAX;

/// Two such weights make a sum that is too wide.
const HEAVY: i128 = 100_000_000_000_000_000_000_000_000_000_000_000_000;

/// 0 and 1, each as likely: lines 4 to 6 for the first player, and 7 to 9 for the second.
const FAIR: Written = (2, &[(1, &[0]), (1, &[1])]);

/// The cost of a player to whom both are the same, whose claim is `0 <= 0`.
const FREE: Cost = (0, 1, &[Line::Leaf(1, &[])]);

/// The same with a split, lines 11 to 13 for the first player.
const SPLIT: Cost = (
    0,
    1,
    &[
        Line::Split(0, 5),
        Line::Leaf(1, &[]),
        Line::Leaf(0, &[(0, 1), (1, 1)]),
    ],
);

/// A printed cost that isn't theirs.
const HALF: Cost = (1, 2, &[Line::Leaf(1, &[])]);

/// A leaf whose left side is `x`.
const UNEQUAL: Cost = (0, 1, &[Line::Leaf(1, &[(1, 1)])]);

/// A leaf whose right side is `-6` times the greatest number.
const WIDE: Cost = (
    0,
    1,
    &[
        Line::Split(0, 5),
        Line::Leaf(1, &[]),
        Line::Leaf(0, &[(0, MOST), (1, MOST)]),
    ],
);

/// 1 but for one part in the greatest number: four times this mean is too wide.
const NEARLY_SURE: Written = (MOST, &[(1, &[0]), (MOST - 1, &[1])]);

/// 1 for sure.
const ONE: Written = (1, &[(1, &[1])]);

/// Where both play 1 the first pays 2 and could pay 0: its claim is `-2x <= -2`, and this leaf
/// shows `-2x <= 0`.
const TOO_LOW: Cost = (2, 1, &[Line::Leaf(1, &[(0, 2)])]);

#[test]
fn strategies_of_matching_pennies(rt: HostRuntime) -> Result<(), Fail> {
    use CertFault::{Bad, Wide};
    use Kind::{Mixed, Pure};
    let game = pennies(rt.alloc())?;
    let table: [(Kind, &[Written], Answer); 8] = [
        (Mixed, &[FAIR, FAIR], Ok(())),
        (Pure, &[FAIR, FAIR], Err(Bad(6))),
        (Mixed, &[(2, &[(1, &[0]), (2, &[1])]), FAIR], Err(Bad(6))),
        (Mixed, &[(2, &[(1, &[0, 0]), (1, &[1])]), FAIR], Err(Bad(5))),
        (Mixed, &[(2, &[(1, &[2]), (1, &[1])]), FAIR], Err(Bad(5))),
        (Mixed, &[FAIR, (2, &[(1, &[2]), (1, &[1])])], Err(Bad(8))),
        (
            Mixed,
            &[(2, &[(HEAVY, &[0]), (HEAVY, &[1])]), FAIR],
            Err(Wide(6)),
        ),
        (
            Mixed,
            &[(2, &[(HEAVY, &[0]), (HEAVY, &[2])]), FAIR],
            Err(Wide(6)),
        ),
    ];
    for (kind, written, expected) in &table {
        let verdict = profile(rt.alloc(), written, &[FREE, FREE])?;
        let made = answers(rt.alloc(), &game, *kind, 2, verdict)?;
        assert_eq!(rt; made, (*expected, *expected));
    }
    let verdict = profile(rt.alloc(), &[FAIR, FAIR, FAIR], &[FREE, FREE, FREE])?;
    let made = answers(rt.alloc(), &game, Mixed, 3, verdict)?;
    assert_eq!(rt; made, (Err(Bad(2)), Err(Bad(2))));
    Ok(())
}

#[test]
fn costs_of_matching_pennies(rt: HostRuntime) -> Result<(), Fail> {
    use CertFault::{Bad, Wide};
    let game = pennies(rt.alloc())?;
    let table: [(&[Cost], Answer); 6] = [
        (&[SPLIT, FREE], Ok(())),
        (&[HALF, FREE], Err(Bad(10))),
        (&[UNEQUAL, FREE], Err(Bad(11))),
        (&[SPLIT, HALF], Err(Bad(14))),
        (&[SPLIT, UNEQUAL], Err(Bad(15))),
        (&[WIDE, FREE], Err(Wide(13))),
    ];
    for (costs, expected) in &table {
        let made = mixed(rt.alloc(), &game, &[FAIR, FAIR], costs)?;
        assert_eq!(rt; made, (*expected, Ok(())));
    }
    let made = mixed(rt.alloc(), &game, &[FAIR, NEARLY_SURE], &[FREE, FREE])?;
    assert_eq!(rt; made, (Err(Wide(10)), Ok(())));
    let made = mixed(rt.alloc(), &game, &[ONE, ONE], &[TOO_LOW, FREE])?;
    assert_eq!(rt; made, (Err(Bad(9)), Ok(())));
    Ok(())
}

#[test]
fn costs_in_others_variables(rt: HostRuntime) -> Result<(), Fail> {
    let game = taxed(rt.alloc())?;
    let three: Cost = (3, 1, &[Line::Leaf(1, &[])]);
    let made = mixed(rt.alloc(), &game, &[FAIR, FAIR], &[three, FREE])?;
    assert_eq!(rt; made, (Ok(()), Ok(())));
    let made = mixed(rt.alloc(), &game, &[FAIR, FAIR], &[FREE, FREE])?;
    assert_eq!(rt; made, (Err(CertFault::Bad(10)), Ok(())));
    Ok(())
}

#[test]
fn equilibrium_of_the_knapsack_game(rt: HostRuntime) -> Result<(), Fail> {
    use Line::{Leaf, Split};
    let game = knapsack(rt.alloc())?;
    let written: [Written; 2] = [
        (9, &[(2, &[1, 0]), (7, &[0, 1])]),
        (5, &[(2, &[1, 0]), (3, &[0, 1])]),
    ];
    let first: Cost = (
        -1,
        5,
        &[
            Split(1, 0),
            Leaf(1, &[(2, 1), (4, 1)]),
            Split(0, 0),
            Leaf(1, &[(2, 1), (4, 1)]),
            Leaf(0, &[(0, 1), (1, 3), (3, 4)]),
        ],
    );
    let table: [(i128, Answer); 2] = [(51, Ok(())), (50, Err(CertFault::Bad(19)))];
    for (last, expected) in table {
        let mult = [(0, 17), (3, last)];
        let lines = [Split(1, 0), Leaf(1, &[(2, 17), (4, 17)]), Leaf(2, &mult)];
        let made = mixed(rt.alloc(), &game, &written, &[first, (-17, 9, &lines)])?;
        assert_eq!(rt; made, (expected, Ok(())));
    }
    Ok(())
}

#[test]
fn a_player_without_a_point(rt: HostRuntime) -> Result<(), Fail> {
    use CertFault::{Bad, Wide};
    use Line::{Leaf, Split};
    let game = impossible(rt.alloc())?;
    let low = Leaf(0, &[(1, 1), (3, 2)]);
    let high = Leaf(0, &[(0, 1), (2, 2)]);
    let table: [(u32, &[Line], Answer); 6] = [
        (0, &[Split(0, 0), low, high], Ok(())),
        (1, &[Split(0, 0), low, high], Err(Bad(3))),
        (0, &[Leaf(0, &[(0, 1), (1, 1)])], Err(Bad(4))),
        (
            0,
            &[Split(0, 0), Leaf(0, &[(1, 1), (3, 1)]), high],
            Err(Bad(5)),
        ),
        (
            0,
            &[Split(0, 0), low, Leaf(0, &[(0, 1), (2, 1)])],
            Err(Bad(6)),
        ),
        (0, &[Split(0, 0), low, Leaf(0, &[(0, MOST)])], Err(Wide(6))),
    ];
    for (player, lines, expected) in table {
        let tree = tree(rt.alloc(), lines)?;
        let verdict = Verdict::NoneEmpty { player, tree };
        let made = answers(rt.alloc(), &game, Kind::Mixed, 1, verdict)?;
        assert_eq!(rt; made, (expected, Err(Bad(3))));
    }
    Ok(())
}

/// A node of a box tree as a table writes it: its player, and a split of its variable at a number,
/// or the point that it deviates to, over this denominator.
#[derive(Clone, Copy)]
enum Piece {
    Split(u32, i64),
    Deviate(u32, i128, i128),
}

fn box_tree(alloc: Global, pieces: &[Piece]) -> Result<BoxTree, Fail> {
    let mut nodes = Vec::new(alloc);
    for piece in pieces {
        nodes.push(match *piece {
            Piece::Split(player, at) => BNode::Split { player, var: 0, at },
            Piece::Deviate(player, num, den) => BNode::Deviate {
                player,
                point: Point::new(vec![in alloc; num]?, den).map_err(|_| Fail::from("no point"))?,
            },
        })?;
    }
    BoxTree::new(nodes).map_err(|_| Fail::from("no box tree"))
}

#[test]
fn boxes_of_matching_pennies(rt: HostRuntime) -> Result<(), Fail> {
    use CertFault::{Bad, Wide};
    use Kind::{Mixed, Pure};
    use Piece::{Deviate, Split};
    let game = pennies(rt.alloc())?;
    let last = Deviate(0, 0, 1);
    let wide = Deviate(0, MOST, MOST);
    let table: [(Kind, Piece, Piece, Answer); 5] = [
        (Pure, Deviate(0, 1, 1), last, Ok(())),
        (Mixed, Deviate(0, 1, 1), last, Err(Bad(3))),
        (Pure, Deviate(0, 1, 1), Deviate(1, 0, 1), Err(Bad(10))),
        (Pure, wide, last, Err(Wide(6))),
        (Mixed, wide, last, Err(Bad(3))),
    ];
    for (kind, first, last, expected) in table {
        let lines = [
            Split(0, 0),
            Split(1, 0),
            first,
            Deviate(1, 0, 1),
            Split(1, 0),
            Deviate(1, 1, 1),
            last,
        ];
        let tree = box_tree(rt.alloc(), &lines)?;
        let verdict = Verdict::NoneBoxes { tree };
        let made = answers(rt.alloc(), &game, kind, 2, verdict)?;
        assert_eq!(rt; made, (expected, Err(Bad(3))));
    }
    Ok(())
}
