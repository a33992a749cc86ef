ghost use Rattle.std.specs.Prelude.{◌≡◌, [], ◌∷◌, length, IfOk, OnOk};
ghost use Rattle.zr_nodes.specs.Forests.{IsForest};

use crate::{Forest, NodeId};
use std::test::Fail;

/// The root `a` with its children `b`, `c` and `d`, which are left to do.
fn three_children(rt: &HostRuntime) -> Result<Forest<char>, Fail>
    ensures left { IfOk result (λ f. f.left ≡ 1 ∷ 2 ∷ 3 ∷ []) }
    ensures size { IfOk result (λ f. length f.items ≡ 4) }
{
    let alloc = rt.alloc();
    let Ok(mut forest) = Forest::new(alloc, 'a') else {
        return Err(Fail::from("no memory for a forest"));
    };
    let items = vec![in alloc; 'b', 'c', 'd']?;
    let root = forest.root();
    match forest.split(root, items) {
        Ok(()) => Ok(forest),
        Err(_) => Err(Fail::from("no memory for three children")),
    }
}

/// Closes `c`, moves `d` to the front and makes room for three nodes.
fn close_and_move(forest: &mut Forest<char>) -> Result<(), Fail>
    requires left { forest.old.left ≡ 1 ∷ 2 ∷ 3 ∷ [] }
    requires size { length forest.old.items ≡ 4 }
    ensures left { forest.new.left ≡ 3 ∷ 1 ∷ [] }
    ensures size { length forest.new.items ≡ 4 }
{
    forest.close(NodeId::new(2));
    forest.move_front(NodeId::new(3));
    match forest.reserve(3) {
        Ok(()) => Ok(()),
        Err(_) => Err(Fail::from("no room for three nodes")),
    }
}

/// Makes `e` the child of `d`.
fn split_again(rt: &HostRuntime, forest: &mut Forest<char>) -> Result<(), Fail>
    requires left { forest.old.left ≡ 3 ∷ 1 ∷ [] }
    requires size { length forest.old.items ≡ 4 }
    ensures left { OnOk result (forest.new.left ≡ 4 ∷ 1 ∷ []) }
    ensures size { OnOk result (length forest.new.items ≡ 5) }
{
    let items = vec![in rt.alloc(); 'e']?;
    match forest.split(NodeId::new(3), items) {
        Ok(()) => Ok(()),
        Err(_) => Err(Fail::from("no memory for a child")),
    }
}

/// The items of the first two leaves left, if there are two.
fn two_left(forest: &Forest<char>) -> Option<(char, char)> {
    let first = forest.first_left()?;
    let second = forest.next_left(first)?;
    Some((*forest.get(first), *forest.get(second)))
}

#[test]
fn children_take_the_place_of_their_parent(rt: HostRuntime) -> Result<(), Fail> {
    let forest = three_children(&rt)?;
    assert_eq!(rt; two_left(&forest), Some(('b', 'c')));
    assert_eq!(rt; forest.next_left(NodeId::new(2)), Some(NodeId::new(3)));
    assert_eq!(rt; forest.next_left(NodeId::new(3)), None);
    Ok(())
}

#[test]
fn leaves_are_closed_and_moved(rt: HostRuntime) -> Result<(), Fail> {
    let mut forest = three_children(&rt)?;
    close_and_move(&mut forest)?;
    assert_eq!(rt; two_left(&forest), Some(('d', 'b')));
    assert_eq!(rt; forest.next_left(NodeId::new(1)), None);
    assert_eq!(rt; forest.is_leaf_left(NodeId::new(2)), false);
    Ok(())
}

#[test]
fn a_child_has_its_parent(rt: HostRuntime) -> Result<(), Fail> {
    let mut forest = three_children(&rt)?;
    close_and_move(&mut forest)?;
    split_again(&rt, &mut forest)?;
    assert_eq!(rt; two_left(&forest), Some(('e', 'b')));
    assert_eq!(rt; forest.parent(NodeId::new(4)), Some(NodeId::new(3)));
    assert_eq!(rt; forest.first_child(NodeId::new(3)), Some(NodeId::new(4)));
    assert_eq!(rt; forest.next_sibling(NodeId::new(2)), Some(NodeId::new(3)));
    assert_eq!(rt; forest.len(), 5);
    Ok(())
}
