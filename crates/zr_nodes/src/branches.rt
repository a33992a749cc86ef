ghost use Rattle.std.specs.Prelude.{◌≡◌, ◌<◌, ◌≤◌, ◌+◌, ◌^◌, ◌++◌, ◌∷◌, [], ℕ, None, Some, length, replicate, IfOk, OnOk, vec_len, vec_capacity};
ghost use Rattle.zr_nodes.specs.Lists.{first, after};
ghost use Rattle.zr_nodes.specs.Forests.{children, siblings, parent_of, IsTree};
ghost use Rattle.zr_nodes.specs.Kin.{brood};

use crate::NodeId;
use std::alloc::Global;
use std::marker::Model;
use zr_base::NoMemory;

/// The tree's links of a node.
#[derive(Clone, Copy, Debug)]
pub(crate) struct Branch {
    /// The parent; the root alone has none.
    parent: Option<NodeId>,
    /// The first of the children.
    first_child: Option<NodeId>,
    /// The next of the parent's children.
    next_sibling: Option<NodeId>,
}

/// Adds so many children of a node, one after another, and says nothing of its first child.
fn push_brood(nodes: &mut Vec<Branch>, parent: NodeId, count: u32)
    requires room { vec_len nodes.old + count ≤ vec_capacity nodes.old }
    requires few { vec_len nodes.old + count < 2 ^ 32 }
    ensures items { nodes.new.items ≡ nodes.old.items ++ brood parent (vec_len nodes.old) count }
    ensures capacity { vec_capacity nodes.old ≤ vec_capacity nodes.new }
{
    for i in 0..count {
        let next_sibling = if i + 1 == count {
            None
        } else {
            Some(NodeId::new(nodes.len() as u32 + 1))
        };
        let branch = Branch {
            parent: Some(parent),
            first_child: None,
            next_sibling,
        };
        let Ok(()) = nodes.push(branch) else {
            unreachable!();
        };
    }
}

/// A tree's links, by the numbers of its nodes.
#[derive(Debug, Drop)]
pub(crate) struct Branches {
    nodes: Vec<Branch>,
}

impl Model for Branches {
    ghost use Rattle.std.specs.Prelude.{vec_capacity};
    ghost use Rattle.zr_nodes.specs.Kin.{Kin, parents_of, IsKin};

    ghost Value = { Kin };

    ghost view = { λ a. record {
      parents = parents_of a.nodes.items;
      room = vec_capacity a.nodes;
    } };

    ghost invariant = { λ a. IsKin a.nodes.items };
}

impl Branches {
    /// The root of a new tree.
    pub(crate) fn new(alloc: Global) -> Result<Branches, NoMemory>
        ensures parents { IfOk result (λ a. a.parents ≡ None ∷ []) }
        ensures room { IfOk result (λ a. 1 ≤ a.room) }
    {
        let mut nodes = Vec::new(alloc);
        let root = Branch {
            parent: None,
            first_child: None,
            next_sibling: None,
        };
        match nodes.push(root) {
            Ok(()) => Ok(Branches { nodes }),
            Err(_) => Err(NoMemory),
        }
    }

    /// Makes room for so many nodes more.
    pub(crate) fn reserve(&mut self, count: u32) -> Result<(), NoMemory>
        ensures parents { self.new.parents ≡ self.old.parents }
        ensures room { OnOk result (length self.old.parents + count ≤ self.new.room) }
        ensures capacity { self.old.room ≤ self.new.room }
    {
        match self.nodes.reserve(count as usize) {
            Ok(()) => Ok(()),
            Err(_) => Err(NoMemory),
        }
    }

    /// The parent of a node.
    pub(crate) fn parent(&self, node: NodeId) -> Option<NodeId>
        requires { node < length self.now.parents }
        ensures { result ≡ parent_of self.now.parents node }
    {
        self.nodes[node.index()].parent
    }

    /// The first child of a node.
    pub(crate) fn first_child(&self, node: NodeId) -> Option<NodeId>
        requires { node < length self.now.parents }
        ensures { result ≡ first (children self.now.parents node) }
    {
        self.nodes[node.index()].first_child
    }

    /// The next of the children of a node's parent.
    pub(crate) fn next_sibling(&self, node: NodeId) -> Option<NodeId>
        requires { node < length self.now.parents }
        ensures { result ≡ after node (siblings self.now.parents node) }
    {
        self.nodes[node.index()].next_sibling
    }

    /// Adds so many children of a node that has none yet.
    pub(crate) fn add_children(&mut self, node: NodeId, count: u32)
        requires inside { node < length self.old.parents }
        requires childless { children self.old.parents node ≡ [] }
        requires some { 0 < count }
        requires room { length self.old.parents + count ≤ self.old.room }
        requires few { length self.old.parents + count < 2 ^ 32 }
        ensures parents { self.new.parents ≡ self.old.parents ++ replicate count (Some node) }
        ensures capacity { self.old.room ≤ self.new.room }
    {
        let first = NodeId::new(self.nodes.len() as u32);
        push_brood(&mut self.nodes, node, count);
        self.nodes[node.index()].first_child = Some(first);
    }
}
