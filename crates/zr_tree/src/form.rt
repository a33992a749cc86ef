ghost use Rattle.std.specs.Prelude.{◌≡◌, ◌↔◌, ◌+◌, ◌^◌, ◌<◌, ◌≤◌, pos, ◌≤ℤ◌, IsTrue, map};
ghost use Rattle.std.specs.List.{All};
ghost use Rattle.zr_base.specs.Steps.{IsNarrow};
ghost use Rattle.zr_tree.specs.Nodes.{node_of};
ghost use Rattle.zr_tree.specs.Form.{AreMultipliers, IsNodeForm, IsTree, child_count, greatest_split, is_forest, least_split};

use crate::node::Node;

/// The least number that a variable is split at: -2^62.
pub const LEAST_SPLIT: i64 = -4_611_686_018_427_387_904;

/// The greatest number that a variable is split at: 2^62 - 1.
pub const GREATEST_SPLIT: i64 = 4_611_686_018_427_387_903;

/// There are fewer nodes than this in a tree: 2^32.
pub const COUNT_LIMIT: usize = 1 << 32;

/// Whether the nodes are a tree.
pub(crate) fn is_tree(nodes: &[Node]) -> bool
    ensures { IsTrue result ↔ IsTree (map node_of nodes.now) }
{
    let few = nodes.len() < COUNT_LIMIT;
    is_one_tree(nodes) & few & are_forms(nodes)
}

/// Whether the nodes are one tree, with nothing after it.
fn is_one_tree(nodes: &[Node]) -> bool
    ensures { result ≡ is_forest 1 (map node_of nodes.now) }
{
    let mut due = 1;
    for node in nodes {
        if due == 0 {
            return false;
        }
        due = due - 1 + count_of_children(node);
    }
    due == 0
}

fn count_of_children(node: &Node) -> usize
    ensures { result ≡ child_count (node_of node.now) }
{
    match node {
        Node::Split { var: _, at: _ } | Node::Choose { pair: _ } => 2,
        Node::Leaf { scale: _, mult: _ } | Node::Known { point: _ } | Node::Loose => 0,
    }
}

fn are_forms(nodes: &[Node]) -> bool
    ensures { IsTrue result ↔ All IsNodeForm (map node_of nodes.now) }
{
    let mut all = true;
    for node in nodes {
        all &= is_form(node);
    }
    all
}

fn is_form(node: &Node) -> bool
    ensures { IsTrue result ↔ IsNodeForm (node_of node.now) }
{
    match node {
        Node::Split { var: _, at } => is_number_to_split_at(*at),
        Node::Leaf { scale, mult } => is_scale(*scale) && are_multipliers(mult),
        Node::Choose { pair: _ } | Node::Known { point: _ } | Node::Loose => true,
    }
}

/// Whether a variable may be split at this number, which is -2^62 to 2^62 - 1.
pub fn is_number_to_split_at(at: i64) -> bool
    ensures { IsTrue result ↔ ((least_split ≤ℤ at) × (at ≤ℤ greatest_split)) }
{
    LEAST_SPLIT <= at && at <= GREATEST_SPLIT
}

fn is_scale(scale: i128) -> bool
    ensures { IsTrue result ↔ ((pos 0 ≤ℤ scale) × IsNarrow scale) }
{
    scale >= 0
}

/// Whether multipliers are at least 1 and the numbers that they stand at ascend.
pub fn are_multipliers(mult: &[(u32, i128)]) -> bool
    ensures { IsTrue result ↔ AreMultipliers mult.now }
{
    let mut low = 0;
    let mut all = true;
    for (number, by) in mult {
        all &= is_next(low, *number, *by);
        low = *number as usize + 1;
    }
    all
}

fn is_next(low: usize, number: u32, by: i128) -> bool
    ensures { IsTrue result
        ↔ ((low ≤ number) × (number < 2 ^ 32) × ((pos 1 ≤ℤ by) × IsNarrow by)) }
{
    low <= number as usize && by >= 1
}
