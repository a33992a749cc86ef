use super::*;
use std::test::Fail;
use zr_tree::Node;

#[test]
fn trees_are_read_up_to_their_last_line(rt: HostRuntime) -> Result<(), Fail> {
    let text = b"split 0 -3\nknown 2 1 -1\nloose\nend\n".as_slice();
    let (tree, rest) = take_tree(rt.alloc(), text, Ends::Covered).map_err(|_| Fail::from(
        "no cover",
    ))?;
    assert_eq!(rt; tree.nodes.len(), 3);
    assert!(rt; matches!(&tree.nodes[1], Node::Known { point } if point.len() == 2));
    assert_eq!(rt; rest, b"end\n".as_slice());
    assert!(rt; take_tree(rt.alloc(), text, Ends::Refuted).is_err());
    Ok(())
}

#[test]
fn proofs_by_cases_are_read(rt: HostRuntime) -> Result<(), Fail> {
    let text = b"which 0\nclose 0\nclose 1 3 1\nend\n".as_slice();
    let (proof, rest) = take_refutation(rt.alloc(), text, [2].as_slice()).map_err(|_| Fail::from(
        "no refutation",
    ))?;
    assert_eq!(rt; proof.nodes.len(), 3);
    assert_eq!(rt; rest, b"end\n".as_slice());
    assert!(rt; take_refutation(rt.alloc(), text, [3].as_slice()).is_err());
    let boxes = b"split 0 0 0\nempty 0 1 0 1\ndeviate 1 1 0\nend\n".as_slice();
    let (tree, rest) = take_box_tree(rt.alloc(), boxes).map_err(|_| Fail::from("no box tree"))?;
    assert_eq!(rt; tree.nodes.len(), 3);
    assert_eq!(rt; rest, b"end\n".as_slice());
    Ok(())
}

#[test]
fn named_points_and_rays_are_read(rt: HostRuntime) -> Result<(), Fail> {
    let text = b"named 2\npoint 1 0\nray 1 0 1\nend\n".as_slice();
    let (named, rest) = take_named(rt.alloc(), text).map_err(|_| Fail::from("no list"))?;
    assert_eq!(rt; named.len(), 2);
    assert_eq!(rt; rest, b"end\n".as_slice());
    assert!(rt; take_named(rt.alloc(), b"named 1\nray 1 0 1 2\n".as_slice()).is_err());
    Ok(())
}
