ghost use Rattle.std.specs.Prelude.{◌≡◌, ◌↔◌, ◌+◌, ◌^◌, ◌<◌, ◌≤◌, IsTrue, length, map};
ghost use Rattle.std.specs.List.{All};
ghost use Rattle.zr_cases.specs.Cases.{bnode_of, rnode_of};
ghost use Rattle.zr_cases.specs.Forms.{AreCases, AreCounted, IsAmong, IsBoxForm, IsBoxTree, IsCaseForm, IsSomePoint, box_count, case_count, is_forest_by};

use crate::bnode::BNode;
use crate::rnode::RNode;
use zr_base::Point;
use zr_tree::{COUNT_LIMIT, are_multipliers, is_number_to_split_at};

/// Whether the nodes may be a refutation's.
pub(crate) fn are_cases(nodes: &[RNode]) -> bool
    ensures { IsTrue result ↔ AreCases (map rnode_of nodes.now) }
{
    let few = nodes.len() < COUNT_LIMIT;
    few & are_case_forms(nodes)
}

fn are_case_forms(nodes: &[RNode]) -> bool
    ensures { IsTrue result ↔ All IsCaseForm (map rnode_of nodes.now) }
{
    let mut all = true;
    for node in nodes {
        all &= is_case_form(node);
    }
    all
}

fn is_case_form(node: &RNode) -> bool
    ensures { IsTrue result ↔ IsCaseForm (rnode_of node.now) }
{
    // What is read fits its type: any `u32` may be an index.
    match node {
        RNode::OnOff { player, leaf } => {
            let _indices = (*player, *leaf);
            true
        }
        RNode::RowSplit { player, leaf, slot } => {
            let _indices = (*player, *leaf, *slot);
            true
        }
        RNode::Which { player } => {
            let _index = *player;
            true
        }
        RNode::Close { mult } => are_counted(mult),
    }
}

/// Whether the nodes are one tree, with nothing after it, where the players have so many leaves.
/// There are fewer than 2^32 nodes.
pub(crate) fn is_one_tree(nodes: &[RNode], leaves: &[u32]) -> bool
    requires { length nodes.now < 2 ^ 32 }
    ensures { result ≡ is_forest_by (case_count leaves.now) 1 (map rnode_of nodes.now) }
{
    let mut due: usize = 1;
    for node in nodes {
        if due == 0 {
            return false;
        }
        due = due - 1 + count_of_cases(node, leaves);
    }
    due == 0
}

/// How many cases the node makes, where player `i` has `leaves[i]` leaves.
pub fn count_of_cases(node: &RNode, leaves: &[u32]) -> usize
    ensures value { result ≡ case_count leaves.now (rnode_of node.now) }
    ensures below { result < 2 ^ 32 }
{
    match node {
        RNode::OnOff { player: _, leaf: _ }
        | RNode::RowSplit {
            player: _,
            leaf: _,
            slot: _,
        } => 2,
        RNode::Which { player } => leaf_count_of(leaves, *player),
        RNode::Close { mult: _ } => 0,
    }
}

/// How many leaves the player has, 0 where there is no such player.
fn leaf_count_of(leaves: &[u32], player: u32) -> usize
    ensures value { result ≡ case_count leaves.now (rnode_of (RNode.Which player)) }
    ensures below { result < 2 ^ 32 }
{
    let i = player as usize;
    if i < leaves.len() {
        leaves[i] as usize
    } else {
        0
    }
}

/// Whether each choice among leaves names one of so many players.
pub(crate) fn are_players(nodes: &[RNode], players: usize) -> bool
    ensures { IsTrue result ↔ All (IsAmong players) (map rnode_of nodes.now) }
{
    let mut all = true;
    for node in nodes {
        all &= is_player(node, players);
    }
    all
}

fn is_player(node: &RNode, players: usize) -> bool
    ensures { IsTrue result ↔ IsAmong players (rnode_of node.now) }
{
    match node {
        RNode::Which { player } => (*player as usize) < players,
        RNode::OnOff { player: _, leaf: _ }
        | RNode::RowSplit {
            player: _,
            leaf: _,
            slot: _,
        }
        | RNode::Close { mult: _ } => true,
    }
}

/// Whether the nodes are a box tree.
pub(crate) fn is_box_tree(nodes: &[BNode]) -> bool
    ensures { IsTrue result ↔ IsBoxTree (map bnode_of nodes.now) }
{
    let few = nodes.len() < COUNT_LIMIT;
    is_one_box_tree(nodes) & few & are_box_forms(nodes)
}

/// Whether the nodes are one tree, with nothing after it.
fn is_one_box_tree(nodes: &[BNode]) -> bool
    ensures { result ≡ is_forest_by box_count 1 (map bnode_of nodes.now) }
{
    let mut due: usize = 1;
    for node in nodes {
        if due == 0 {
            return false;
        }
        due = due - 1 + count_of_boxes(node);
    }
    due == 0
}

fn count_of_boxes(node: &BNode) -> usize
    ensures value { result ≡ box_count (bnode_of node.now) }
    ensures most { result ≤ 2 }
{
    match node {
        BNode::Split {
            player: _,
            var: _,
            at: _,
        } => 2,
        BNode::Empty { player: _, mult: _ }
        | BNode::Deviate {
            player: _,
            point: _,
        } => 0,
    }
}

fn are_box_forms(nodes: &[BNode]) -> bool
    ensures { IsTrue result ↔ All IsBoxForm (map bnode_of nodes.now) }
{
    let mut all = true;
    for node in nodes {
        all &= is_box_form(node);
    }
    all
}

fn is_box_form(node: &BNode) -> bool
    ensures { IsTrue result ↔ IsBoxForm (bnode_of node.now) }
{
    // What is read fits its type: any `u32` may be an index.
    match node {
        BNode::Split { player, var, at } => {
            let _indices = (*player, *var);
            is_number_to_split_at(*at)
        }
        BNode::Empty { player, mult } => {
            let _index = *player;
            are_counted(mult)
        }
        BNode::Deviate { player, point } => {
            let _index = *player;
            has_number(point)
        }
    }
}

fn has_number(point: &Point) -> bool
    ensures { IsTrue result ↔ IsSomePoint point.now }
{
    // A point keeps the rules of points, and tells so with its denominator.
    let _den = point.den();
    point.len() > 0
}

/// Whether multipliers are at least 1 and their rows ascend, and there are few enough.
fn are_counted(mult: &[(u32, i128)]) -> bool
    ensures { IsTrue result ↔ AreCounted mult.now }
{
    let few = mult.len() < COUNT_LIMIT;
    few & are_multipliers(mult)
}
