//! Trees, line after line.

ghost use Rattle.std.specs.Prelude.{◌≡◌, ◌^◌, ◌<◌, length, map, true, false};
ghost use Rattle.zr_tree.specs.Nodes.{node_of};
ghost use Rattle.zr_tree.specs.Form.{child_count};
ghost use Rattle.zr_cert.specs.Certs.{nodes_of};
ghost use Rattle.zr_form.specs.Lines.{lines_of};
ghost use Rattle.zr_form.specs.Stops.{Gives};
ghost use Rattle.zr_lines.specs.Reader.{tree_read};

use crate::ends::Ends;
use crate::node::node_line;
use std::alloc::Global;
use zr_form::{ReadError, first_line, placed};
use zr_tree::{Node, Tree};

fn count_of_children(node: &Node) -> usize
    ensures { result ≡ child_count (node_of node.now) }
{
    match node {
        Node::Split { var: _, at: _ } | Node::Choose { pair: _ } => 2,
        Node::Leaf { scale: _, mult: _ } | Node::Known { point: _ } | Node::Loose => 0,
    }
}

/// The nodes of the tree at the front, and what follows them. They end with the line that leaves no
/// child due.
fn take_nodes(alloc: Global, bytes: &[u8], ends: Ends) -> Result<(Vec<Node>, &[u8]), ReadError>
    ensures { Gives (λ nodes. map node_of nodes.items) result (tree_read true ends (lines_of bytes.now)) (tree_read false ends (lines_of bytes.now)) }
{
    let mut nodes = Vec::new(alloc);
    let mut rest = bytes;
    let mut due: usize = 1;
    while due > 0 {
        let (line, after) = first_line(rest)?;
        let node = placed(node_line(alloc, line, ends)?, rest.len())?;
        due = due - 1 + count_of_children(&node);
        nodes.push(node)?;
        rest = after;
    }
    Ok((nodes, rest))
}

/// The tree with such ends at the front, and what follows it. There are fewer than 2^32 bytes.
pub fn take_tree(alloc: Global, bytes: &[u8], ends: Ends) -> Result<(Tree, &[u8]), ReadError>
    requires { length bytes.now < 2 ^ 32 }
    ensures { Gives nodes_of result (tree_read true ends (lines_of bytes.now)) (tree_read false ends (lines_of bytes.now)) }
{
    let (nodes, rest) = take_nodes(alloc, bytes, ends)?;
    match Tree::new(nodes) {
        Ok(tree) => Ok((tree, rest)),
        Err(_) => unreachable!(),
    }
}
