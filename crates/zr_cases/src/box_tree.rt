ghost use Rattle.std.specs.Prelude.{◌≡◌, ◌↔◌, IsOk, IfOk, IfErr, map};
ghost use Rattle.zr_cases.specs.Cases.{bnode_of};
ghost use Rattle.zr_cases.specs.Forms.{IsBoxTree};
ghost use Rattle.zr_cases.specs.FormLaws.{IsBoxTree-prop};

use crate::bnode::BNode;
use crate::form::is_box_tree;

/// A box tree: its nodes, each before its children. There are fewer than 2^32; each `at` is -2^62
/// to 2^62 - 1; multipliers are at least 1, and their rows ascend; each list of them has fewer than
/// 2^32; each point has a number.
#[derive(Debug, Drop)]
pub struct BoxTree {
    pub nodes: Vec<BNode>,
    ghost whole: { IsBoxTree (map bnode_of nodes.items) } by { IsBoxTree-prop (map bnode_of nodes.items) },
}

impl BoxTree {
    /// The box tree of these nodes.
    ///
    /// Hands the list back exactly where the nodes aren't one whole tree of fewer than 2^32 nodes
    /// or break a rule: each `at` is -2^62 to 2^62 - 1, multipliers are at least 1, their rows
    /// ascend, there are fewer than 2^32 of them, and each point has a number.
    pub fn new(nodes: Vec<BNode>) -> Result<BoxTree, Vec<BNode>>
        ensures valid { IsOk result ↔ IsBoxTree (map bnode_of nodes.items) }
        ensures ok { IfOk result (λ tree. tree.nodes.items ≡ nodes.items) }
        ensures err { IfErr result (λ list. list.items ≡ nodes.items) }
    {
        if is_box_tree(&nodes) {
            Ok(BoxTree { nodes })
        } else {
            Err(nodes)
        }
    }
}
