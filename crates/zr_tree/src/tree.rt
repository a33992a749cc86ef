ghost use Rattle.std.specs.Prelude.{◌≡◌, ◌↔◌, IsOk, IfOk, IfErr, map};
ghost use Rattle.zr_tree.specs.Nodes.{node_of};
ghost use Rattle.zr_tree.specs.Form.{IsTree};
ghost use Rattle.zr_tree.specs.FormLaws.{IsTree-prop};

use crate::form::is_tree;
use crate::node::Node;

/// A tree: its nodes, each before its children. There are fewer than 2^32; multipliers are at least
/// 1, and their slots ascend.
#[derive(Debug, Drop)]
pub struct Tree {
    pub nodes: Vec<Node>,
    ghost whole: { IsTree (map node_of nodes.items) } by { IsTree-prop (map node_of nodes.items) },
}

impl Tree {
    /// The tree of these nodes.
    ///
    /// Hands the list back exactly where the nodes aren't one whole tree of fewer than 2^32 nodes
    /// or break a rule: each `at` is -2^62 to 2^62 - 1, each `scale` is at least 0, multipliers are
    /// at least 1, and their slots ascend.
    pub fn new(nodes: Vec<Node>) -> Result<Tree, Vec<Node>>
        ensures valid { IsOk result ↔ IsTree (map node_of nodes.items) }
        ensures ok { IfOk result (λ tree. tree.nodes.items ≡ nodes.items) }
        ensures err { IfErr result (λ list. list.items ≡ nodes.items) }
    {
        if is_tree(&nodes) {
            Ok(Tree { nodes })
        } else {
            Err(nodes)
        }
    }
}
