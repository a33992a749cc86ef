use super::*;
use smallvec::SmallVec;
use std::alloc::Global;
use std::test::Fail;
use zr_base::{Point, Row};
use zr_game::{CrossTerm, Game, Pair, Player, Var};

/// A node as a table writes it.
#[derive(Clone, Copy)]
enum Line<'a> {
    Split(u32, u32, i64),
    Empty(u32, &'a [(u32, i128)]),
    Deviate(u32, i128, &'a [i128]),
}

fn node(alloc: Global, line: Line) -> Result<BNode, Fail> {
    Ok(match line {
        Line::Split(player, var, at) => BNode::Split { player, var, at },
        Line::Empty(player, mult) => BNode::Empty {
            player,
            mult: Vec::from_slice(alloc, mult)?,
        },
        Line::Deviate(player, den, num) => BNode::Deviate {
            player,
            point: Point::new(Vec::from_slice(alloc, num)?, den).map_err(|_| Fail::from(
                "no point",
            ))?,
        },
    })
}

/// What the check answers.
fn answer(alloc: Global, game: &Game, lines: &[Line]) -> Result<Result<(), Fault>, Fail> {
    let mut nodes = Vec::new(alloc);
    for line in lines {
        nodes.push(node(alloc, *line)?)?;
    }
    let Ok(tree) = BoxTree::new(nodes) else {
        return Err(Fail::from("no tree"));
    };
    let Ok(mut scratch) = BoxScratch::new(alloc, game, tree.nodes.len()) else {
        return Err(Fail::from("no memory"));
    };
    Ok(box_refuted(game, &tree, &mut scratch))
}

/// A whole variable with these bounds.
fn variable(alloc: Global, low: Option<i64>, up: Option<i64>) -> Result<Var, Fail> {
    Ok(Var {
        name: String::from_str(alloc, "x")?,
        whole: true,
        low,
        up,
    })
}

/// A player of one variable, which costs `own` and `cross` times the other player's variable.
fn player(
    alloc: Global,
    name: &str,
    var: Var,
    own: &[(u32, i64)],
    other: u32,
    cross: i64,
) -> Result<Player, Fail> {
    let term = CrossTerm {
        own: 0,
        player: other,
        var: 0,
        coef: cross,
    };
    Ok(Player {
        name: String::from_str(alloc, name)?,
        vars: vec![in alloc; var]?,
        rows: Vec::new(alloc),
        pairs: Vec::new(alloc),
        cost: SmallVec::from_slice(alloc, own)?,
        cross: vec![in alloc; term]?,
        others: Vec::new(alloc),
    })
}

fn game_with(alloc: Global, first: Player, second: Player) -> Result<Game, Fail> {
    match Game::new(vec![in alloc; first, second]?) {
        Ok(game) => Ok(game),
        Err(_) => Err(Fail::from("no game")),
    }
}

/// Matching pennies: the first player pays `-2x + 4xy`, the second one `2y - 4xy`.
fn pennies(alloc: Global) -> Result<Game, Fail> {
    let x = variable(alloc, Some(0), Some(1))?;
    let y = variable(alloc, Some(0), Some(1))?;
    let first = player(alloc, "A", x, &[(0, -2)], 1, 4)?;
    let second = player(alloc, "B", y, &[(0, 2)], 0, -4)?;
    game_with(alloc, first, second)
}

/// The first player, with x from -2 to 1, pays `xy`, and the second one, with y at most -1, pays
/// `xy` too; `low` is y's lower bound.
fn below_zero(alloc: Global, low: Option<i64>) -> Result<Game, Fail> {
    let x = variable(alloc, Some(-2), Some(1))?;
    let y = variable(alloc, low, Some(-1))?;
    let first = player(alloc, "A", x, &[], 1, 1)?;
    let second = player(alloc, "B", y, &[], 0, 1)?;
    game_with(alloc, first, second)
}

/// One player with `2x <= 1` and `-2x <= -1`, which no whole x meets.
fn empty(alloc: Global) -> Result<Game, Fail> {
    let above = Row {
        coef: SmallVec::from_slice(alloc, &[(0, 2)])?,
        le: 1,
    };
    let below = Row {
        coef: SmallVec::from_slice(alloc, &[(0, -2)])?,
        le: -1,
    };
    let only = Player {
        name: String::from_str(alloc, "A")?,
        vars: vec![in alloc; variable(alloc, Some(0), Some(1))?]?,
        rows: vec![in alloc; above, below]?,
        pairs: Vec::new(alloc),
        cost: SmallVec::new(alloc),
        cross: Vec::new(alloc),
        others: Vec::new(alloc),
    };
    match Game::new(vec![in alloc; only]?) {
        Ok(game) => Ok(game),
        Err(_) => Err(Fail::from("no game")),
    }
}

/// Lines, and what the check answers.
type Case<'a> = (&'a [Line<'a>], Result<(), Fault>);

#[test]
fn pennies_have_no_pure_equilibrium(rt: HostRuntime) -> Result<(), Fail> {
    use Fault::{Bad, Wide};
    use Line::{Deviate, Empty, Split};
    let game = pennies(rt.alloc())?;
    let to_one = Deviate(0, 1, &[1]);
    let to_half = Deviate(0, 2, &[1]);
    let back = Deviate(1, 1, &[0]);
    let halves = [Split(0, 0, 0), Split(1, 0, 0)];
    let most = i128::MAX;
    let table: [Case; 11] = [
        (
            &[
                halves[0],
                halves[1],
                to_one,
                back,
                halves[1],
                Deviate(1, 1, &[1]),
                Deviate(0, 1, &[0]),
            ],
            Ok(()),
        ),
        (
            &[
                halves[0],
                halves[1],
                to_one,
                back,
                halves[1],
                Deviate(1, 1, &[1]),
                back,
            ],
            Err(Bad(6)),
        ),
        (&[halves[0], halves[1], to_one, to_one, back], Err(Bad(3))),
        (&[halves[0], halves[1], to_half, back, back], Err(Bad(2))),
        (&[halves[0], to_one, to_one], Err(Bad(1))),
        (
            &[halves[0], halves[1], Deviate(0, most, &[most]), back, back],
            Err(Wide(2)),
        ),
        (&[Split(2, 0, 0), to_one, to_one], Err(Bad(0))),
        (&[Split(0, 1, 0), to_one, to_one], Err(Bad(0))),
        (&[Deviate(2, 1, &[0])], Err(Bad(0))),
        (&[Deviate(0, 1, &[0, 0])], Err(Bad(0))),
        (&[Empty(2, &[(0, 1)])], Err(Bad(0))),
    ];
    for (lines, expected) in &table {
        assert_eq!(rt; answer(rt.alloc(), &game, lines)?, *expected);
    }
    Ok(())
}

#[test]
fn ranges_below_zero(rt: HostRuntime) -> Result<(), Fail> {
    use Fault::Bad;
    use Line::{Deviate, Split};
    let up = Deviate(0, 1, &[1]);
    let down = Deviate(1, 1, &[-3]);
    let halves = Split(0, 0, 0);
    let bounded = below_zero(rt.alloc(), Some(-3))?;
    let table: [Case; 3] = [
        (&[halves, up, up], Err(Bad(2))),
        (
            &[Split(0, 0, -1), up, Split(1, 0, -3), up, down],
            Err(Bad(3)),
        ),
        (&[halves, up, Split(1, 0, -2), down, down], Err(Bad(3))),
    ];
    for (lines, expected) in &table {
        assert_eq!(rt; answer(rt.alloc(), &bounded, lines)?, *expected);
    }
    let free = below_zero(rt.alloc(), None)?;
    let open: [Case; 2] = [
        (&[halves, up, up], Err(Bad(1))),
        (&[Split(1, 0, -9), up, Split(0, 0, 0), up, up], Err(Bad(1))),
    ];
    for (lines, expected) in &open {
        assert_eq!(rt; answer(rt.alloc(), &free, lines)?, *expected);
    }
    Ok(())
}

#[test]
fn boxes_without_points(rt: HostRuntime) -> Result<(), Fail> {
    use Fault::{Bad, Wide};
    use Line::{Empty, Split};
    let game = empty(rt.alloc())?;
    let halves = Split(0, 0, 0);
    let low = Empty(0, &[(1, 1), (3, 2)]);
    let high = Empty(0, &[(0, 1), (2, 2)]);
    let table: [Case; 6] = [
        (&[halves, low, high], Ok(())),
        (&[halves, high, low], Err(Bad(1))),
        (&[low], Err(Bad(0))),
        (&[halves, low, Empty(0, &[(0, 1), (2, 1)])], Err(Bad(2))),
        (&[halves, low, Empty(0, &[(4, 1)])], Err(Bad(2))),
        (&[halves, low, Empty(0, &[(0, i128::MAX)])], Err(Wide(2))),
    ];
    for (lines, expected) in &table {
        assert_eq!(rt; answer(rt.alloc(), &game, lines)?, *expected);
    }
    Ok(())
}

/// A continuous variable without bounds.
fn unbounded(alloc: Global) -> Result<Var, Fail> {
    Ok(Var {
        name: String::from_str(alloc, "w")?,
        whole: false,
        low: None,
        up: None,
    })
}

/// A player alone, of one variable, with these rows and pairs, which pays its variable.
fn lone(alloc: Global, var: Var, rows: Vec<Row>, pairs: Vec<Pair>) -> Result<Game, Fail> {
    let only = Player {
        name: String::from_str(alloc, "A")?,
        vars: vec![in alloc; var]?,
        rows,
        pairs,
        cost: SmallVec::from_slice(alloc, &[(0, 1)])?,
        cross: Vec::new(alloc),
        others: Vec::new(alloc),
    };
    match Game::new(vec![in alloc; only]?) {
        Ok(game) => Ok(game),
        Err(_) => Err(Fail::from("no game")),
    }
}

fn row(alloc: Global, number: i64, le: i64) -> Result<Row, Fail> {
    Ok(Row {
        coef: SmallVec::from_slice(alloc, &[(0, number)])?,
        le,
    })
}

/// The first player, with x from 0 to 1, pays `own x + number xy + number xz`; the second one has y
/// and z from 0 to 1.
fn two_terms(alloc: Global, own: i64, number: i64) -> Result<Game, Fail> {
    let x = variable(alloc, Some(0), Some(1))?;
    let mut first = player(alloc, "A", x, &[(0, own)], 1, number)?;
    first.cross.push(CrossTerm {
        own: 0,
        player: 1,
        var: 1,
        coef: number,
    })?;
    let y = variable(alloc, Some(0), Some(1))?;
    let mut second = player(alloc, "B", y, &[], 0, 1)?;
    second.vars.push(variable(alloc, Some(0), Some(1))?)?;
    game_with(alloc, first, second)
}

/// Matching pennies, where the first player has an unbounded variable w too and pays `own w` for
/// it; `low` is y's lower bound.
fn pennies_beside(alloc: Global, own: &[(u32, i64)], low: Option<i64>) -> Result<Game, Fail> {
    let x = variable(alloc, Some(0), Some(1))?;
    let y = variable(alloc, low, Some(1))?;
    let mut first = player(alloc, "A", x, own, 1, 4)?;
    first.vars.push(unbounded(alloc)?)?;
    let second = player(alloc, "B", y, &[(0, 2)], 0, -4)?;
    game_with(alloc, first, second)
}

/// The first player, with x from 0 to `up`, pays `-x + xy`, and the second one, with y from 0 to 1,
/// `xy`.
fn up_to(alloc: Global, up: i64) -> Result<Game, Fail> {
    let x = variable(alloc, Some(0), Some(up))?;
    let y = variable(alloc, Some(0), Some(1))?;
    let first = player(alloc, "A", x, &[(0, -1)], 1, 1)?;
    let second = player(alloc, "B", y, &[], 0, 1)?;
    game_with(alloc, first, second)
}

#[test]
fn two_cross_terms_and_crossed_bounds(rt: HostRuntime) -> Result<(), Fail> {
    use Fault::Bad;
    use Line::{Deviate, Split};
    let to_one = Deviate(0, 1, &[1]);
    let lines = [Split(0, 0, 0), Split(1, 0, -1), to_one, to_one, to_one];
    let table: [(i64, i64, u32); 4] = [(-1, 1, 2), (-1, -1, 2), (-2, 1, 3), (-2, -1, 4)];
    for (own, number, at) in &table {
        let game = two_terms(rt.alloc(), *own, *number)?;
        assert_eq!(rt; answer(rt.alloc(), &game, &lines)?, Err(Bad(*at)));
    }
    Ok(())
}

#[test]
fn variables_without_bounds(rt: HostRuntime) -> Result<(), Fail> {
    use Fault::Bad;
    use Line::{Deviate, Split};
    let to_one = Deviate(0, 1, &[1, 0]);
    let lines = [
        Split(0, 0, 0),
        Split(1, 0, 0),
        to_one,
        Deviate(1, 1, &[0]),
        Split(1, 0, 0),
        Deviate(1, 1, &[1]),
        Deviate(0, 1, &[0, 0]),
    ];
    let beside = pennies_beside(rt.alloc(), &[(0, -2)], Some(0))?;
    let counted = pennies_beside(rt.alloc(), &[(0, -2), (1, 1)], Some(0))?;
    let other = pennies_beside(rt.alloc(), &[(0, -2)], None)?;
    assert_eq!(rt; answer(rt.alloc(), &beside, &lines)?, Ok(()));
    assert_eq!(rt; answer(rt.alloc(), &counted, &lines)?, Err(Bad(2)));
    assert_eq!(rt; answer(rt.alloc(), &other, &lines)?, Err(Bad(2)));
    let continuous = [Split(0, 1, 0), to_one, to_one];
    assert_eq!(rt; answer(rt.alloc(), &beside, &continuous)?, Err(Bad(0)));
    Ok(())
}

#[test]
fn wide_steps(rt: HostRuntime) -> Result<(), Fail> {
    use Fault::{Bad, Wide};
    use Line::{Deviate, Split};
    let most = i128::MAX;
    let one = up_to(rt.alloc(), 1)?;
    let two = up_to(rt.alloc(), 2)?;
    let to_one = Deviate(0, most, &[most]);
    let at_one = [Split(0, 0, 0), to_one, to_one];
    let below = [Deviate(0, most, &[-most])];
    assert_eq!(rt; answer(rt.alloc(), &one, &at_one)?, Err(Bad(1)));
    assert_eq!(rt; answer(rt.alloc(), &two, &at_one)?, Err(Wide(1)));
    assert_eq!(rt; answer(rt.alloc(), &one, &below)?, Err(Wide(0)));
    assert_eq!(rt;
        answer(rt.alloc(), &one, &[Deviate(0, 1, &[-1])])?,
        Err(Bad(0))
    );
    Ok(())
}

#[test]
fn rows_below_zero_and_pairs(rt: HostRuntime) -> Result<(), Fail> {
    use Fault::Bad;
    use Line::{Deviate, Empty, Split};
    let alloc = rt.alloc();
    let none = Vec::new(alloc);
    let at_least = vec![in alloc; row(alloc, -2, 5)?]?;
    let open = lone(alloc, variable(alloc, Some(-3), None)?, at_least, none)?;
    let first = Split(0, 0, -3);
    let low = Empty(0, &[(0, 1), (2, 2)]);
    let back = Deviate(0, 1, &[-2]);
    assert_eq!(rt; answer(alloc, &open, &[first, low, back])?, Err(Bad(2)));
    let to_end = [first, low, Split(0, 0, -2), back, back];
    assert_eq!(rt; answer(alloc, &open, &to_end)?, Err(Bad(3)));

    let none = Vec::new(alloc);
    let exact = vec![in alloc; row(alloc, 2, -3)?, row(alloc, -2, 3)?]?;
    let odd = lone(alloc, variable(alloc, Some(-5), Some(0))?, exact, none)?;
    let halves = [
        Split(0, 0, -2),
        Empty(0, &[(1, 1), (3, 2)]),
        Empty(0, &[(0, 1), (2, 2)]),
    ];
    assert_eq!(rt; answer(alloc, &odd, &halves)?, Ok(()));

    let none = Vec::new(alloc);
    let pair = Pair {
        var: 0,
        coef: SmallVec::from_slice(alloc, &[(0, 1)])?,
        add: -2,
    };
    let pairs = vec![in alloc; pair]?;
    let apart = lone(alloc, variable(alloc, Some(0), Some(1))?, none, pairs)?;
    assert_eq!(rt;
        answer(alloc, &apart, &[Empty(0, &[(1, 1), (2, 1)])])?,
        Ok(())
    );
    assert_eq!(rt;
        answer(alloc, &apart, &[Empty(0, &[(1, 1), (3, 1)])])?,
        Err(Bad(0))
    );
    Ok(())
}
