ghost use Rattle.std.specs.Prelude.{◌≡◌, ◌≢◌, ◌<◌, ◌≤◌, ◌+◌, ◌^◌, ◌∷◌, ◌↔◌, ◌⊎◌, ℕ, Some, length, max, slice_get, IsTrue, IsOk, IfSome, IfOk, IfErr, OnOk, OnErr, vec_len};
ghost use Rattle.zr_nodes.specs.Lists.{numbers, first, after, without, Has};
ghost use Rattle.zr_nodes.specs.Forests.{planted, grown, with_left, children, siblings, parent_of, IsChild, IsNextSibling, IsClosed, IsForest};

use crate::NodeId;
use crate::branches::Branches;
use crate::leaves::Leaves;
use std::alloc::Global;
use std::marker::Model;
use zr_base::NoMemory;

/// A tree of items, whose nodes are named by numbers, with the list of its leaves that are left to
/// do.
///
/// Each leaf was closed or stands once in the list. A node's number stays as it is for good. The
/// links are those of D. Knuth (1968) for trees and for lists in both directions, by numbers in
/// place of addresses. There are fewer than 2^32 nodes.
#[derive(Debug, Drop)]
pub struct Forest<T> {
    items: Vec<T>,
    branches: Branches,
    leaves: Leaves,
    spare: u32,
}

impl<T> Model for Forest<T> {
    ghost use Rattle.std.specs.Prelude.{vec_capacity};
    ghost use Rattle.zr_nodes.specs.Forests.{Forest as Seen, forest_code};
    ghost use Rattle.zr_nodes.specs.Whole.{seen, IsWhole};

    ghost Value = { Seen T };

    ghost coded = { forest_code T.code };

    ghost view = { λ f. seen f.items.items f.branches f.leaves f.spare };

    ghost invariant = { λ f.
        IsWhole f.items.items (vec_capacity f.items) f.branches f.leaves f.spare };
}

impl<T: Drop> Forest<T> {
    /// A forest of one node, the root, which is left to do.
    ///
    /// # Errors
    ///
    /// The item comes back for want of memory.
    pub fn new(alloc: Global, root: T) -> Result<Forest<T>, T>
        ensures ok { IfOk result (λ f. f ≡ planted root) }
        ensures kept { IfOk result IsForest }
        ensures none_closed { IfOk result (λ f. (k : ℕ) → ¬ IsClosed f k) }
        ensures err { IfErr result (λ item. item ≡ root) }
    {
        let Ok(branches) = Branches::new(alloc) else {
            return Err(root);
        };
        let Ok(leaves) = Leaves::new(alloc) else {
            return Err(root);
        };
        let mut items = Vec::new(alloc);
        match items.push(root) {
            Ok(()) => Ok(Forest {
                items,
                branches,
                leaves,
                spare: 0,
            }),
            Err(failed) => Err(failed.value),
        }
    }

    /// Makes room for `n` nodes more, which a split then takes with no need for memory.
    ///
    /// # Errors
    ///
    /// `NoMemory` for want of memory. The forest is then unchanged.
    pub fn reserve(&mut self, n: u32) -> Result<(), NoMemory>
        requires { length self.old.items + n < 2 ^ 32 }
        ensures ok { OnOk result (self.new ≡ record self.old { spare = max self.old.spare n }) }
        ensures err { OnErr result (self.new ≡ self.old) }
        ensures kept { IsForest self.new }
        ensures had_room { n ≤ self.old.spare → IsOk result }
    {
        if n <= self.spare {
            return Ok(());
        }
        self.branches.reserve(n)?;
        self.leaves.reserve(n)?;
        match self.items.reserve(n as usize) {
            Ok(()) => {
                self.spare = n;
                Ok(())
            }
            Err(_) => Err(NoMemory),
        }
    }

    /// Makes the items the children of a leaf that is left to do. They take its place in the list,
    /// in order.
    ///
    /// # Errors
    ///
    /// The items come back for want of memory, and never where there was room for so many nodes.
    /// The forest is then unchanged.
    pub fn split(&mut self, node: NodeId, mut items: Vec<T>) -> Result<(), Vec<T>>
        requires left { Has self.old.left node }
        requires some { 0 < vec_len items }
        requires few { length self.old.items + vec_len items < 2 ^ 32 }
        ensures ok { OnOk result (self.new ≡ grown self.old node items.items) }
        ensures children { OnOk result (children self.new.parents node
            ≡ numbers (length self.old.items) (vec_len items)) }
        ensures others { OnOk result ((k : ℕ) → k ≢ node
            → children self.new.parents k ≡ children self.old.parents k) }
        ensures closed { OnOk result ((k : ℕ) → IsClosed self.new k ↔ IsClosed self.old k) }
        ensures kept { IsForest self.new }
        ensures back { IfErr result (λ back. back.items ≡ items.items) }
        ensures err { OnErr result (self.new ≡ self.old) }
        ensures had_room { vec_len items ≤ self.old.spare → IsOk result }
    {
        let count = items.len() as u32;
        let Ok(()) = self.reserve(count) else {
            return Err(items);
        };
        let Ok(()) = self.items.append(&mut items) else {
            unreachable!();
        };
        self.branches.add_children(node, count);
        self.leaves.replace(node, count);
        self.spare -= count;
        Ok(())
    }

    /// Takes a leaf that is left to do off the list. It stays in the tree.
    pub fn close(&mut self, node: NodeId)
        requires { Has self.old.left node }
        ensures left { self.new ≡ with_left self.old (without node self.old.left) }
        ensures closed { (k : ℕ) → IsClosed self.new k ↔ (IsClosed self.old k ⊎ (k ≡ node)) }
        ensures kept { IsForest self.new }
    {
        self.leaves.replace(node, 0);
    }

    /// Moves a leaf that is left to do to the front of the list.
    pub fn move_front(&mut self, node: NodeId)
        requires { Has self.old.left node }
        ensures left { self.new ≡ with_left self.old (node ∷ without node self.old.left) }
        ensures closed { (k : ℕ) → IsClosed self.new k ↔ IsClosed self.old k }
        ensures kept { IsForest self.new }
    {
        self.leaves.move_front(node);
    }

    /// The number of the root.
    pub fn root(&self) -> NodeId
        ensures { result ≡ 0 }
    {
        NodeId::new(0)
    }

    /// Whether a node is a leaf that is left to do.
    pub fn is_leaf_left(&self, node: NodeId) -> bool
        requires { node < length self.now.items }
        ensures { IsTrue result ↔ Has self.now.left node }
    {
        self.leaves.contains(node)
    }

    /// The first leaf left to do.
    pub fn first_left(&self) -> Option<NodeId>
        ensures first { result ≡ first self.now.left }
        ensures listed { IfSome result (Has self.now.left) }
        ensures inside { IfSome result (λ leaf. leaf < length self.now.items) }
        ensures kept { IsForest self.now }
    {
        self.leaves.first()
    }

    /// The leaf left to do that comes after one.
    pub fn next_left(&self, node: NodeId) -> Option<NodeId>
        requires { Has self.now.left node }
        ensures after { result ≡ after node self.now.left }
        ensures listed { IfSome result (Has self.now.left) }
        ensures inside { IfSome result (λ leaf. leaf < length self.now.items) }
    {
        self.leaves.next(node)
    }

    /// The parent of a node; the root alone has none.
    pub fn parent(&self, node: NodeId) -> Option<NodeId>
        requires { node < length self.now.items }
        ensures parent { result ≡ parent_of self.now.parents node }
        ensures child { IfSome result (λ parent. IsChild self.now node parent) }
    {
        self.branches.parent(node)
    }

    /// The first child of a node.
    pub fn first_child(&self, node: NodeId) -> Option<NodeId>
        requires { node < length self.now.items }
        ensures first { result ≡ first (children self.now.parents node) }
        ensures child { IfSome result (λ child. IsChild self.now child node) }
    {
        self.branches.first_child(node)
    }

    /// The child after a node among the children of its parent.
    pub fn next_sibling(&self, node: NodeId) -> Option<NodeId>
        requires { node < length self.now.items }
        ensures after { result ≡ after node (siblings self.now.parents node) }
        ensures sibling { IfSome result (λ other. IsNextSibling self.now other node) }
    {
        self.branches.next_sibling(node)
    }

    /// The item of a node.
    pub fn get(&self, node: NodeId) -> &T
        requires { node < length self.now.items }
        ensures { slice_get self.now.items node ≡ Some result.now }
    {
        &self.items[node.index()]
    }

    /// How many nodes there are: their numbers are those below.
    pub fn len(&self) -> u32
        ensures value { result ≡ length self.now.items }
        ensures kept { IsForest self.now }
    {
        self.items.len() as u32
    }
}
