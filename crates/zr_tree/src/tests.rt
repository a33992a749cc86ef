ghost use Rattle.std.specs.Prelude.{◌≡◌};

use super::*;
use smallvec::SmallVec;
use std::alloc::Global;
use std::test::Fail;
use zr_base::{Point, Row};
use zr_game::{Game, Leaf, Pair, Player, Side, Var};

/// A node as a table writes it.
#[derive(Clone, Copy)]
enum Line<'a> {
    Split(u32, i64),
    Choose(u32),
    Leaf(i128, &'a [(u32, i128)]),
    /// The point's numbers, and their denominator.
    Known(&'a [i128], i128),
    Loose,
}

fn node(alloc: Global, line: Line) -> Result<Node, Fail> {
    Ok(match line {
        Line::Split(var, at) => Node::Split { var, at },
        Line::Choose(pair) => Node::Choose { pair },
        Line::Leaf(scale, mult) => Node::Leaf {
            scale,
            mult: Vec::from_slice(alloc, mult)?,
        },
        Line::Known(num, den) => Node::Known {
            point: point(alloc, num, den)?,
        },
        Line::Loose => Node::Loose,
    })
}

fn point(alloc: Global, num: &[i128], den: i128) -> Result<Point, Fail> {
    Point::new(Vec::from_slice(alloc, num)?, den).map_err(|_| Fail::from("no point"))
}

fn tree(alloc: Global, lines: &[Line]) -> Result<Tree, Fail> {
    let mut nodes = Vec::new(alloc);
    for line in lines {
        nodes.push(node(alloc, *line)?)?;
    }
    Tree::new(nodes).map_err(|_| Fail::from("no tree"))
}

/// What the tree's check answers for a row of the game's first player.
fn answer(
    alloc: Global,
    game: &Game,
    lines: &[Line],
    coef: &[i128],
    le: i128,
) -> Result<Result<(), Fault>, Fail> {
    let tree = tree(alloc, lines)?;
    let Ok(mut scratch) = Scratch::new(alloc, game, tree.nodes.len(), coef.len()) else {
        return Err(Fail::from("no memory"));
    };
    if game.players[0].vars.len() != coef.len() {
        return Err(Fail::from("another number of columns"));
    }
    Ok(bounds(game, 0, &tree, coef, le, &mut scratch))
}

/// What the check of a cover of the first player's points answers.
fn answer_of_cover(alloc: Global, game: &Game, lines: &[Line]) -> Result<Result<(), Fault>, Fail> {
    let tree = tree(alloc, lines)?;
    let columns = game.players[0].vars.len();
    let Ok(mut scratch) = Scratch::new(alloc, game, tree.nodes.len(), columns) else {
        return Err(Fail::from("no memory"));
    };
    Ok(cover(game, 0, &tree, &mut scratch))
}

fn variable(alloc: Global, whole: bool, low: Option<i64>, up: Option<i64>) -> Result<Var, Fail> {
    Ok(Var {
        name: String::from_str(alloc, "x")?,
        whole,
        low,
        up,
    })
}

/// The game of one player.
fn game(alloc: Global, vars: Vec<Var>, rows: Vec<Row>, pairs: Vec<Pair>) -> Result<Game, Fail> {
    let player = Player {
        name: String::from_str(alloc, "p")?,
        vars,
        rows,
        pairs,
        cost: SmallVec::from_slice(alloc, &[(0, -1)])?,
        cross: Vec::new(alloc),
        others: Vec::new(alloc),
    };
    match Game::new(vec![in alloc; player]?) {
        Ok(game) => Ok(game),
        Err(_) => Err(Fail::from("no game")),
    }
}

/// A whole variable with `2x <= 5`.
fn whole_game(alloc: Global) -> Result<Game, Fail> {
    let vars = vec![in alloc; variable(alloc, true, Some(0), None)?]?;
    let coef = SmallVec::from_slice(alloc, &[(0, 2)])?;
    let rows = vec![in alloc; Row { coef, le: 5 }]?;
    game(alloc, vars, rows, Vec::new(alloc))
}

/// A whole variable up to 3 and another one, with `x + y <= 4`.
fn mixed_game(alloc: Global) -> Result<Game, Fail> {
    let x = variable(alloc, true, Some(0), Some(3))?;
    let y = variable(alloc, false, Some(0), None)?;
    let coef = SmallVec::from_slice(alloc, &[(0, 1), (1, 1)])?;
    let rows = vec![in alloc; Row { coef, le: 4 }]?;
    game(alloc, vec![in alloc; x, y]?, rows, Vec::new(alloc))
}

/// A variable that is 0 or 2, with `x - 2 >= 0`.
fn pair_game(alloc: Global) -> Result<Game, Fail> {
    let vars = vec![in alloc; variable(alloc, false, Some(0), None)?]?;
    let coef = SmallVec::from_slice(alloc, &[(0, 1)])?;
    let pairs = vec![in alloc;
        Pair {
            var: 0,
            coef,
            add: -2
        },
    ]?;
    game(alloc, vars, Vec::new(alloc), pairs)
}

/// A whole x up to 3 and a y up to 4, with `x + y <= 4`, where `x - 2 >= 0` and one of it and y is 0.
/// Slot 0 is the row's, 1 and 2 are x's, 3 and 4 are y's, 5 and 6 are the pair's.
fn mixed_pair_game(alloc: Global) -> Result<Game, Fail> {
    let x = variable(alloc, true, Some(0), Some(3))?;
    let y = variable(alloc, false, Some(0), Some(4))?;
    let coef = SmallVec::from_slice(alloc, &[(0, 1), (1, 1)])?;
    let rows = vec![in alloc; Row { coef, le: 4 }]?;
    let coef = SmallVec::from_slice(alloc, &[(0, 1)])?;
    let pairs = vec![in alloc;
        Pair {
            var: 1,
            coef,
            add: -2
        },
    ]?;
    game(alloc, vec![in alloc; x, y]?, rows, pairs)
}

/// A whole variable of this lower bound, with `2x >= -5`.
fn half_game(alloc: Global, low: Option<i64>) -> Result<Game, Fail> {
    let vars = vec![in alloc; variable(alloc, true, low, None)?]?;
    let coef = SmallVec::from_slice(alloc, &[(0, -2)])?;
    let rows = vec![in alloc; Row { coef, le: 5 }]?;
    game(alloc, vars, rows, Vec::new(alloc))
}

/// A whole variable of this lower bound, without an upper one, and no row.
fn ray_game(alloc: Global, low: Option<i64>) -> Result<Game, Fail> {
    let vars = vec![in alloc; variable(alloc, true, low, None)?]?;
    game(alloc, vars, Vec::new(alloc), Vec::new(alloc))
}

/// Lines, a row's numbers and its right side, and what the check answers.
type Case<'a> = (&'a [Line<'a>], &'a [i128], i128, Result<(), Fault>);

const MOST: i128 = i128::MAX;

#[test]
fn trees_over_a_whole_variable(rt: HostRuntime) -> Result<(), Fail> {
    use Fault::{Bad, Wide};
    use Line::{Leaf, Loose, Split};
    let game = whole_game(rt.alloc())?;
    let at_most_two = Leaf(1, &[(2, 1)]);
    let above_two = Leaf(0, &[(0, 1), (1, 2)]);
    let table: [Case; 16] = [
        (&[Split(0, 2), at_most_two, above_two], &[1], 2, Ok(())),
        (
            &[Split(0, 2), at_most_two, Leaf(0, &[(0, 1), (1, 1)])],
            &[1],
            2,
            Err(Bad(2)),
        ),
        (
            &[Split(0, 2), at_most_two, at_most_two],
            &[1],
            2,
            Err(Bad(2)),
        ),
        (&[Split(0, 1), at_most_two, above_two], &[1], 2, Err(Bad(2))),
        (&[Split(0, 2), Loose, above_two], &[1], 2, Err(Bad(1))),
        (&[Split(1, 2), at_most_two, above_two], &[1], 2, Err(Bad(0))),
        (
            &[Split(0, 0), Leaf(0, &[(1, 1), (2, 1)]), Loose],
            &[1],
            2,
            Err(Bad(1)),
        ),
        (&[Leaf(2, &[(0, 1)])], &[1], 3, Ok(())),
        (&[Leaf(2, &[(0, 1)])], &[1], 2, Err(Bad(0))),
        (&[Leaf(1, &[(0, 1)])], &[2], 5, Ok(())),
        (&[at_most_two], &[1], 2, Err(Bad(0))),
        (&[Leaf(1, &[(3, 1)])], &[1], 2, Err(Bad(0))),
        (&[Leaf(1, &[(0, MOST)])], &[1], 2, Err(Wide(0))),
        (&[Leaf(1, &[(0, MOST), (2, 1)])], &[1], 2, Err(Bad(0))),
        (&[Leaf(2, &[(0, 1)])], &[MOST], 3, Err(Wide(0))),
        (
            &[Split(0, 2), at_most_two, Leaf(1, &[(0, MOST)])],
            &[1],
            2,
            Err(Wide(2)),
        ),
    ];
    for (lines, coef, le, expected) in &table {
        assert_eq!(rt; answer(rt.alloc(), &game, lines, coef, *le)?, *expected);
    }
    Ok(())
}

#[test]
fn trees_over_two_variables(rt: HostRuntime) -> Result<(), Fail> {
    use Fault::Bad;
    use Line::{Leaf, Loose, Split};
    let game = mixed_game(rt.alloc())?;
    let table: [Case; 6] = [
        (&[Leaf(1, &[(2, 1)])], &[1, 0], 3, Ok(())),
        (&[Leaf(1, &[(0, 1), (3, 1)])], &[1, 0], 4, Ok(())),
        (&[Leaf(1, &[(0, 1)])], &[1, 0], 4, Err(Bad(0))),
        (
            &[Split(0, 5), Leaf(1, &[(2, 1)]), Leaf(0, &[(1, 1), (2, 1)])],
            &[1, 0],
            3,
            Ok(()),
        ),
        (
            &[
                Split(0, 1),
                Split(0, 0),
                Leaf(1, &[(2, 2)]),
                Leaf(1, &[(2, 1)]),
                Loose,
            ],
            &[2, 0],
            0,
            Err(Bad(3)),
        ),
        (&[Split(1, 1), Loose, Loose], &[1, 0], 3, Err(Bad(0))),
    ];
    for (lines, coef, le, expected) in &table {
        assert_eq!(rt; answer(rt.alloc(), &game, lines, coef, *le)?, *expected);
    }
    Ok(())
}

#[test]
fn trees_over_a_free_variable(rt: HostRuntime) -> Result<(), Fail> {
    use Fault::Bad;
    use Line::{Leaf, Split};
    let below_zero = ray_game(rt.alloc(), Some(-7))?;
    let least = Leaf(1, &[(0, 1)]);
    assert_eq!(rt;
        answer(rt.alloc(), &below_zero, &[least], &[-1], 7)?,
        Ok(())
    );
    assert_eq!(rt;
        answer(rt.alloc(), &below_zero, &[least], &[-1], 6)?,
        Err(Bad(0))
    );
    let free = ray_game(rt.alloc(), None)?;
    let high = Leaf(1, &[(1, 1)]);
    let table: [Case; 4] = [
        (&[least], &[-1], 7, Err(Bad(0))),
        (&[Split(0, -8), high, least], &[-1], 7, Err(Bad(1))),
        (&[Split(0, -8), high, least], &[1], 7, Err(Bad(2))),
        (
            &[
                Split(0, -8),
                Split(0, -9),
                high,
                Leaf(1, &[(0, 1), (1, 1)]),
                least,
            ],
            &[1],
            -9,
            Err(Bad(3)),
        ),
    ];
    for (lines, coef, le, expected) in &table {
        assert_eq!(rt; answer(rt.alloc(), &free, lines, coef, *le)?, *expected);
    }
    Ok(())
}

#[test]
fn trees_over_a_pair(rt: HostRuntime) -> Result<(), Fail> {
    use Fault::Bad;
    use Line::{Choose, Leaf, Loose};
    let game = pair_game(rt.alloc())?;
    let none = Leaf(0, &[(2, 1), (3, 1)]);
    let table: [Case; 6] = [
        (&[Choose(0), none, Leaf(1, &[(3, 1)])], &[1], 2, Ok(())),
        (&[Choose(0), none, none], &[1], 2, Err(Bad(2))),
        (
            &[Choose(0), Choose(0), Loose, Loose, Loose],
            &[1],
            2,
            Err(Bad(1)),
        ),
        (
            &[Choose(0), none, Choose(0), Loose, Loose],
            &[1],
            2,
            Err(Bad(2)),
        ),
        (&[Choose(1), Loose, Loose], &[1], 2, Err(Bad(0))),
        (&[Leaf(1, &[(2, 1)])], &[-1], -2, Ok(())),
    ];
    for (lines, coef, le, expected) in &table {
        assert_eq!(rt; answer(rt.alloc(), &game, lines, coef, *le)?, *expected);
    }
    Ok(())
}

#[test]
fn root_leaves(rt: HostRuntime) -> Result<(), Fail> {
    let whole = whole_game(rt.alloc())?;
    let Ok(leaf) = Leaf::root(rt.alloc(), &whole, 0) else {
        return Err(Fail::from("no memory"));
    };
    assert_eq!(rt; leaf.low.len(), 1);
    assert_eq!(rt; leaf.settled(&whole, 0), false);
    Ok(())
}

#[test]
fn trees_that_split_below_zero(rt: HostRuntime) -> Result<(), Fail> {
    use Fault::Bad;
    use Line::{Leaf, Split};
    let lines = [Split(0, -3), Leaf(0, &[(0, 1), (2, 2)]), Leaf(1, &[(1, 1)])];
    for low in [Some(-3), None] {
        let game = half_game(rt.alloc(), low)?;
        assert_eq!(rt; answer(rt.alloc(), &game, &lines, &[-1], 2)?, Ok(()));
        assert_eq!(rt; answer(rt.alloc(), &game, &lines, &[-1], 1)?, Err(Bad(2)));
    }
    Ok(())
}

const EMPTY: Line = Line::Leaf(0, &[(2, 1), (5, 1)]);

#[test]
fn covers(rt: HostRuntime) -> Result<(), Fail> {
    use Fault::{Bad, Wide};
    use Line::{Choose, Known, Leaf, Loose, Split};
    let game = mixed_pair_game(rt.alloc())?;
    let table: [(&[Line], Result<(), Fault>); 16] = [
        (
            &[
                Split(0, 1),
                EMPTY,
                Split(0, 2),
                Choose(0),
                Known(&[2, 0], 1),
                Known(&[4, 3], 2),
                Loose,
            ],
            Ok(()),
        ),
        (&[Loose], Ok(())),
        (
            &[
                Split(0, 1),
                EMPTY,
                Split(0, 2),
                Choose(0),
                Known(&[2, 1], 1),
                Known(&[2, 1], 1),
                Loose,
            ],
            Err(Bad(4)),
        ),
        (
            &[
                Split(0, 1),
                EMPTY,
                Split(0, 2),
                Choose(0),
                Known(&[2], 1),
                Loose,
                Loose,
            ],
            Err(Bad(4)),
        ),
        (
            &[Split(0, 1), EMPTY, Split(0, 2), Known(&[2, 0], 1), Loose],
            Err(Bad(3)),
        ),
        (
            &[
                Split(0, 1),
                EMPTY,
                Choose(0),
                Known(&[2, 0], 1),
                Known(&[2, 1], 1),
            ],
            Err(Bad(3)),
        ),
        (&[Split(0, 1), EMPTY, EMPTY], Err(Bad(2))),
        (
            &[Split(0, 1), Leaf(1, &[(2, 1), (5, 1)]), Loose],
            Err(Bad(1)),
        ),
        (
            &[Split(0, 1), Leaf(0, &[(2, 1), (6, 1)]), Loose],
            Err(Bad(1)),
        ),
        (
            &[Split(0, 1), Leaf(0, &[(2, MOST), (5, MOST)]), Loose],
            Err(Wide(1)),
        ),
        (&[Known(&[MOST, MOST], 1)], Err(Wide(0))),
        (&[Known(&[MOST, MOST, MOST], 1)], Err(Bad(0))),
        (&[Split(1, 1), Loose, Loose], Err(Bad(0))),
        (&[Split(2, 1), Loose, Loose], Err(Bad(0))),
        (&[Choose(1), Loose, Loose], Err(Bad(0))),
        (&[Choose(0), Loose, Choose(0), Loose, Loose], Err(Bad(2))),
    ];
    for (lines, expected) in &table {
        assert_eq!(rt; answer_of_cover(rt.alloc(), &game, lines)?, *expected);
    }
    Ok(())
}

#[test]
fn covers_of_a_free_variable(rt: HostRuntime) -> Result<(), Fail> {
    use Fault::Bad;
    use Line::{Known, Loose, Split};
    let game = ray_game(rt.alloc(), None)?;
    let table: [(&[Line], Result<(), Fault>); 4] = [
        (&[Split(0, -3), Loose, Loose], Ok(())),
        (
            &[Split(0, -3), Split(0, -4), Loose, Known(&[-3], 1), Loose],
            Ok(()),
        ),
        (
            &[Split(0, -3), Split(0, -4), Loose, Known(&[-2], 1), Loose],
            Err(Bad(3)),
        ),
        (&[Split(0, -3), Known(&[-3], 1), Loose], Err(Bad(1))),
    ];
    for (lines, expected) in &table {
        assert_eq!(rt; answer_of_cover(rt.alloc(), &game, lines)?, *expected);
    }
    Ok(())
}

/// The leaves at the tree's Known and Loose nodes.
fn leaves(alloc: Global, game: &Game, lines: &[Line]) -> Result<Vec<Leaf>, Fail> {
    let tree = tree(alloc, lines)?;
    let _player = &game.players[0];
    leaves_of(alloc, game, 0, &tree).map_err(|_| Fail::from("no memory"))
}

/// Low and high bounds by variable, and sides by pair.
type Bounds<'a> = (&'a [Option<i64>], &'a [Option<i64>], &'a [Side]);

#[test]
fn leaves_of_covers(rt: HostRuntime) -> Result<(), Fail> {
    use Line::{Choose, Known, Loose, Split};
    let game = mixed_pair_game(rt.alloc())?;
    let lines = [
        Split(0, 1),
        EMPTY,
        Split(0, 2),
        Choose(0),
        Known(&[2, 0], 1),
        Known(&[4, 3], 2),
        Loose,
    ];
    let two: &[Option<i64>] = &[Some(2), Some(0)];
    let up: &[Option<i64>] = &[Some(2), Some(4)];
    let expected: [Bounds; 3] = [
        (two, up, &[Side::VarZero]),
        (two, up, &[Side::RowZero]),
        (&[Some(3), Some(0)], &[Some(3), Some(4)], &[Side::Undecided]),
    ];
    let found = leaves(rt.alloc(), &game, &lines)?;
    assert_eq!(rt; found.len(), expected.len());
    for (leaf, (low, high, sides)) in found.iter().zip(&expected) {
        assert_eq!(rt; leaf.low.as_slice(), *low);
        assert_eq!(rt; leaf.high.as_slice(), *high);
        assert_eq!(rt; leaf.sides.as_slice(), *sides);
    }
    Ok(())
}

#[test]
fn leaves_of_a_free_variable(rt: HostRuntime) -> Result<(), Fail> {
    use Line::{Loose, Split};
    let game = ray_game(rt.alloc(), None)?;
    let found = leaves(rt.alloc(), &game, &[Split(0, -3), Loose, Loose])?;
    assert_eq!(rt; found.len(), 2);
    assert_eq!(rt; found[0].low.as_slice(), [None].as_slice());
    assert_eq!(rt; found[0].high.as_slice(), [Some(-3)].as_slice());
    assert_eq!(rt; found[1].low.as_slice(), [Some(-2)].as_slice());
    assert_eq!(rt; found[1].high.as_slice(), [None].as_slice());
    Ok(())
}

#[test]
fn copies_of_leaves(rt: HostRuntime) -> Result<(), Fail> {
    let game = mixed_pair_game(rt.alloc())?;
    let root = Leaf::root(rt.alloc(), &game, 0).map_err(|_| Fail::from("no memory"))?;
    let copy = copy_leaf(rt.alloc(), &root)?;
    assert_eq!(rt; copy.low.as_slice(), [Some(0), Some(0)].as_slice());
    assert_eq!(rt; copy.high.as_slice(), [Some(3), Some(4)].as_slice());
    assert_eq!(rt; copy.sides.as_slice(), [Side::Undecided].as_slice());
    Ok(())
}
