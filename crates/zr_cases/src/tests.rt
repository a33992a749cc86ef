use super::*;
use std::alloc::Global;
use std::test::Fail;
use zr_base::Point;

/// A node of a refutation, as a table writes it.
#[derive(Clone, Copy)]
enum Line {
    OnOff,
    RowSplit,
    Which(u32),
    Close(i128),
}

fn case(alloc: Global, written: Line) -> Result<RNode, Fail> {
    Ok(match written {
        Line::OnOff => RNode::OnOff { player: 0, leaf: 1 },
        Line::RowSplit => RNode::RowSplit {
            player: 0,
            leaf: 1,
            slot: 2,
        },
        Line::Which(player) => RNode::Which { player },
        Line::Close(by) => RNode::Close {
            mult: vec![in alloc; (4, 1), (6, by)]?,
        },
    })
}

#[test]
fn refutations_are_whole_over_leaves(rt: HostRuntime) -> Result<(), Fail> {
    use Line::{Close, OnOff, RowSplit, Which};
    let table: [(&[Line], bool); 9] = [
        (&[Close(1)], true),
        (&[OnOff, Close(1), Close(1)], true),
        (&[OnOff, RowSplit, Close(1), Close(1), Close(1)], true),
        (&[Which(1), Close(1), Close(1), Close(1)], true),
        (&[Which(0)], true),
        (&[Which(1), Close(1), Close(1)], false),
        (&[Which(2), Close(1)], false),
        (&[Close(1), Close(1)], false),
        (&[], false),
    ];
    for (written, expected) in &table {
        let mut nodes = Vec::new(rt.alloc());
        for one in *written {
            nodes.push(case(rt.alloc(), *one)?)?;
        }
        let proof = Refutation::new(nodes).map_err(|_| Fail::from("no refutation"))?;
        assert_eq!(rt; proof.is_whole([0, 3].as_slice()), *expected);
    }
    let nodes = vec![in rt.alloc(); case(rt.alloc(), Close(0))?]?;
    assert!(rt; Refutation::new(nodes).is_err());
    Ok(())
}

/// A node of a box tree, as a table writes it.
#[derive(Clone, Copy)]
enum Piece {
    Split(i64),
    Empty(i128),
    Deviate(usize),
}

fn node(alloc: Global, written: Piece) -> Result<BNode, Fail> {
    Ok(match written {
        Piece::Split(at) => BNode::Split {
            player: 0,
            var: 0,
            at,
        },
        Piece::Empty(by) => BNode::Empty {
            player: 1,
            mult: vec![in alloc; (0, by)]?,
        },
        Piece::Deviate(len) => BNode::Deviate {
            player: 0,
            point: Point::new(vec![in alloc; 0; len]?, 1).map_err(|_| Fail::from("no point"))?,
        },
    })
}

#[test]
fn box_trees_keep_their_rules(rt: HostRuntime) -> Result<(), Fail> {
    use Piece::{Deviate, Empty, Split};
    let table: [(&[Piece], bool); 8] = [
        (&[Deviate(1)], true),
        (&[Split(0), Empty(1), Deviate(2)], true),
        (
            &[Split(-4_611_686_018_427_387_904), Empty(1), Empty(1)],
            true,
        ),
        (
            &[Split(4_611_686_018_427_387_904), Empty(1), Empty(1)],
            false,
        ),
        (&[Empty(0)], false),
        (&[Deviate(0)], false),
        (&[Split(0), Empty(1)], false),
        (&[Empty(1), Empty(1)], false),
    ];
    for (written, expected) in &table {
        let mut nodes = Vec::new(rt.alloc());
        for one in *written {
            nodes.push(node(rt.alloc(), *one)?)?;
        }
        assert_eq!(rt; BoxTree::new(nodes).is_ok(), *expected);
    }
    Ok(())
}
