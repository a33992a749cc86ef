ghost use Rattle.std.specs.Prelude.{◌≡◌, ◌↔◌, IsOk, IfOk, IfErr, IsTrue, map};
ghost use Rattle.zr_cases.specs.Cases.{rnode_of};
ghost use Rattle.zr_cases.specs.Forms.{AreCases, IsWhole};
ghost use Rattle.zr_cases.specs.FormLaws.{AreCases-prop};

use crate::form::{are_cases, are_players, is_one_tree};
use crate::rnode::RNode;

/// A refutation: its nodes, each before its children. There are fewer than 2^32; multipliers are
/// at least 1, and their rows ascend; each list of them has fewer than 2^32.
///
/// How many children a `Which` has depends on the player's leaves, so that the nodes are one whole
/// tree is said of them and of the players' numbers of leaves: `is_whole` tells.
#[derive(Debug, Drop)]
pub struct Refutation {
    pub nodes: Vec<RNode>,
    ghost kept: { AreCases (map rnode_of nodes.items) } by { AreCases-prop (map rnode_of nodes.items) },
}

impl Refutation {
    /// The refutation of these nodes.
    ///
    /// Hands the list back exactly where there are 2^32 nodes or more, or one breaks a rule:
    /// multipliers are at least 1, their rows ascend, and there are fewer than 2^32.
    pub fn new(nodes: Vec<RNode>) -> Result<Refutation, Vec<RNode>>
        ensures valid { IsOk result ↔ AreCases (map rnode_of nodes.items) }
        ensures ok { IfOk result (λ proof. proof.nodes.items ≡ nodes.items) }
        ensures err { IfErr result (λ list. list.items ≡ nodes.items) }
    {
        if are_cases(&nodes) {
            Ok(Refutation { nodes })
        } else {
            Err(nodes)
        }
    }

    /// Whether the nodes are one whole tree, where player `i` has `leaves[i]` leaves, and each
    /// `Which` names one of these players.
    pub fn is_whole(&self, leaves: &[u32]) -> bool
        ensures { IsTrue result ↔ IsWhole leaves.now (map rnode_of self.now.nodes.items) }
    {
        is_one_tree(&self.nodes, leaves) & are_players(&self.nodes, leaves.len())
    }
}
