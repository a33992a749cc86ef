use super::*;
use std::alloc::Global;
use std::test::Fail;
use zr_base::{Frac, Point};
use zr_game::Kind;
use zr_mix::{Part, Profile, Strategy};
use zr_tree::{Node, Tree};

/// The one node of a tree, as a table writes it.
#[derive(Clone, Copy)]
enum Line {
    Leaf(i128),
    Loose,
}

fn tree(alloc: Global, line: Line) -> Result<Tree, Fail> {
    let node = match line {
        Line::Leaf(scale) => Node::Leaf {
            scale,
            mult: vec![in alloc; (0, 1)]?,
        },
        Line::Loose => Node::Loose,
    };
    Tree::new(vec![in alloc; node]?).map_err(|_| Fail::from("no tree"))
}

/// A strategy as a table writes it: its total, and the weights and numbers of its parts.
type Written<'a> = (i128, &'a [(i128, &'a [i128])]);

fn part(alloc: Global, weight: i128, num: &[i128]) -> Result<Part, Fail> {
    match Point::new(Vec::from_slice(alloc, num)?, 1) {
        Ok(point) => Ok(Part { weight, point }),
        Err(_) => Err(Fail::from("no point")),
    }
}

fn strategy(alloc: Global, written: Written) -> Result<Strategy, Fail> {
    let (total, lines) = written;
    let mut parts = Vec::new(alloc);
    for (weight, num) in lines {
        parts.push(part(alloc, *weight, num)?)?;
    }
    Ok(Strategy { total, parts })
}

fn bound(alloc: Global, line: Line) -> Result<Bound, Fail> {
    Ok(Bound {
        cost: Frac::new(1, 2).ok_or("no fraction")?,
        tree: tree(alloc, line)?,
    })
}

/// The verdict on a profile of these strategies, with so many bounds of one tree.
fn profile(alloc: Global, written: &[Written], count: usize, line: Line) -> Result<Verdict, Fail> {
    let mut strategies = Vec::new(alloc);
    for one in written {
        strategies.push(strategy(alloc, *one)?)?;
    }
    let mut bounds = Vec::new(alloc);
    for _ in 0..count {
        bounds.push(bound(alloc, line)?)?;
    }
    Ok(Verdict::Profile {
        profile: Profile { strategies },
        bounds,
    })
}

const SURE: Written = (1, &[(1, &[0])]);

#[test]
fn profiles_for_each_player(rt: HostRuntime) -> Result<(), Fail> {
    use Line::{Leaf, Loose};
    let table: [(u32, &[Written], usize, Line, bool); 13] = [
        (1, &[SURE], 1, Leaf(1), true),
        (1, &[(3, &[(1, &[0]), (2, &[-1])])], 1, Leaf(0), true),
        (16, &[SURE; 16], 16, Leaf(1), true),
        (17, &[SURE; 17], 17, Leaf(1), false),
        (0, &[], 0, Leaf(1), false),
        (2, &[SURE], 2, Leaf(1), false),
        (1, &[SURE, SURE], 1, Leaf(1), false),
        (1, &[SURE], 0, Leaf(1), false),
        (1, &[(1, &[(0, &[0])])], 1, Leaf(1), false),
        (1, &[(0, &[(1, &[0])])], 1, Leaf(1), false),
        (1, &[(1, &[])], 1, Leaf(1), false),
        (1, &[(1, &[(1, &[])])], 1, Leaf(1), false),
        (1, &[SURE], 1, Loose, false),
    ];
    for (players, written, count, line, expected) in &table {
        let verdict = profile(rt.alloc(), written, *count, *line)?;
        let made = Cert::new(Kind::Mixed, *players, verdict);
        assert_eq!(rt; made.is_ok(), *expected);
    }
    Ok(())
}

#[test]
fn empty_players(rt: HostRuntime) -> Result<(), Fail> {
    use Line::{Leaf, Loose};
    let table: [(u32, Line, bool); 4] = [
        (1, Leaf(0), true),
        (1, Leaf(1), false),
        (1, Loose, false),
        (0, Leaf(0), false),
    ];
    for (players, line, expected) in table {
        let verdict = Verdict::NoneEmpty {
            player: 0,
            tree: tree(rt.alloc(), line)?,
        };
        let made = Cert::new(Kind::Pure, players, verdict);
        assert_eq!(rt; made.is_ok(), expected);
    }
    Ok(())
}
