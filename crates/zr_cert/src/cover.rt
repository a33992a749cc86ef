//! Covers, named points and rays, and the refutation over them.

ghost use Rattle.std.specs.Prelude.{◌≡◌, ◌↔◌, ◌-◌, ◌^◌, ◌<◌, ◌≤◌, IsTrue, length, map, min};
ghost use Rattle.std.specs.List.{All};
ghost use Rattle.zr_base.specs.Points.{PointOf};
ghost use Rattle.zr_base.specs.Steps.{IsNarrow};
ghost use Rattle.zr_game.specs.Named.{named_of};
ghost use Rattle.zr_tree.specs.Nodes.{node_of};
ghost use Rattle.zr_cases.specs.Forms.{IsSomePoint, IsWhole};
ghost use Rattle.zr_cert.specs.Certs.{cases_of, named_list, nodes_of};
ghost use Rattle.zr_cert.specs.Forms.{AreNamed, IsCoverForm, IsCoverNode, IsDirectionForm, IsNamedForm, IsTreeWith, leaf_count, leaf_number};
ghost use Rattle.zr_cert.specs.Lines.{named_lines, sum_lines, tree_lines};

use crate::form::{COUNT_LIMIT, are_counts};
use zr_base::Point;
use zr_cases::Refutation;
use zr_game::Named;
use zr_tree::{Node, Tree};

/// A certificate has no more players than this.
const MOST_PLAYERS: usize = 16;

/// Whether covers, named points and rays and a refutation keep the rules for so many players, at
/// most 16.
pub(crate) fn is_cover_proof(
    players: usize,
    covers: &[Tree],
    named: &[Vec<Named>],
    proof: &Refutation,
) -> bool
    requires { players ≤ 16 }
    ensures { IsTrue result ↔ IsCoverForm players (map nodes_of covers.now)
        (map named_list named.now) (cases_of proof.now) }
{
    are_counts(players, covers.len(), named.len())
        && are_covers(covers)
        && are_named_lists(named)
        && is_whole_over(proof, covers)
}

/// Whether the refutation is one whole tree over the leaves of the covers, at most 16.
fn is_whole_over(proof: &Refutation, covers: &[Tree]) -> bool
    requires { length covers.now ≤ 16 }
    ensures { IsTrue result ↔ IsWhole (map leaf_count (map nodes_of covers.now))
        (cases_of proof.now) }
{
    let mut leaves = [0; MOST_PLAYERS];
    let leaves = &mut leaves[..covers.len()];
    count_leaves(covers, leaves);
    proof.is_whole(leaves)
}

/// Puts the numbers of leaves of the covers, known and loose ones, into as many places.
pub fn count_leaves(covers: &[Tree], leaves: &mut [u32])
    requires { length leaves.old ≡ length covers.now }
    ensures { leaves.new ≡ map leaf_count (map nodes_of covers.now) }
{
    for i in 0..covers.len() {
        leaves[i] = count_of_leaves(&covers[i].nodes);
    }
}

fn count_of_leaves(nodes: &[Node]) -> u32
    requires { length nodes.now < 2 ^ 32 }
    ensures { result ≡ leaf_count (map node_of nodes.now) }
{
    let mut count: u32 = 0;
    for node in nodes {
        count += leaf_number(node);
    }
    count
}

/// 1 for a known or a loose leaf, else 0.
fn leaf_number(node: &Node) -> u32
    ensures value { result ≡ leaf_number (node_of node.now) }
    ensures most { result ≤ 1 }
{
    match node {
        Node::Known { point: _ } | Node::Loose => 1,
        Node::Split { var: _, at: _ }
        | Node::Choose { pair: _ }
        | Node::Leaf { scale: _, mult: _ } => 0,
    }
}

fn are_covers(covers: &[Tree]) -> bool
    ensures { IsTrue result ↔ All (IsTreeWith IsCoverNode) (map nodes_of covers.now) }
{
    let mut all = true;
    for cover in covers {
        all &= is_cover(cover);
    }
    all
}

fn is_cover(cover: &Tree) -> bool
    ensures { IsTrue result ↔ IsTreeWith IsCoverNode (nodes_of cover.now) }
{
    are_cover_nodes(&cover.nodes)
}

fn are_cover_nodes(nodes: &[Node]) -> bool
    ensures { IsTrue result ↔ All IsCoverNode (map node_of nodes.now) }
{
    let mut all = true;
    for node in nodes {
        all &= is_cover_node(node);
    }
    all
}

fn is_cover_node(node: &Node) -> bool
    ensures { IsTrue result ↔ IsCoverNode (node_of node.now) }
{
    match node {
        Node::Split { var: index, at: _ } | Node::Choose { pair: index } => {
            // What is read fits its type: any `u32` may be an index.
            let _index = *index;
            true
        }
        Node::Leaf { scale, mult } => *scale == 0 && mult.len() < COUNT_LIMIT,
        Node::Known { point } => has_number(point),
        Node::Loose => true,
    }
}

fn has_number(point: &Point) -> bool
    ensures { IsTrue result ↔ IsSomePoint point.now }
{
    // A point keeps the rules of points, and tells so with its denominator.
    let _den = point.den();
    point.len() > 0
}

fn are_named_lists(named: &[Vec<Named>]) -> bool
    ensures { IsTrue result ↔ All AreNamed (map named_list named.now) }
{
    let mut all = true;
    for items in named {
        all &= are_named(items);
    }
    all
}

fn are_named(items: &[Named]) -> bool
    ensures { IsTrue result ↔ AreNamed (map named_of items.now) }
{
    let mut all = true;
    for item in items {
        all &= is_named(item);
    }
    all
}

fn is_named(item: &Named) -> bool
    ensures { IsTrue result ↔ IsNamedForm (named_of item.now) }
{
    match item {
        Named::Point(point) => has_number(point),
        Named::Ray { base, dir } => has_number(base) && is_direction(base, dir),
    }
}

/// Whether a direction has as many numbers as the point, none of which is `i128::MIN`.
fn is_direction(base: &Point, dir: &[i128]) -> bool
    ensures { IsTrue result ↔ IsDirectionForm base.now dir.now }
{
    dir.len() == base.len() && are_narrow(dir)
}

fn are_narrow(nums: &[i128]) -> bool
    ensures { IsTrue result ↔ All IsNarrow nums.now }
{
    nums.iter().all(|n| *n != i128::MIN)
}

/// How many lines the covers have, or `usize::MAX` where they have more.
pub(crate) fn lines_of_covers(covers: &[Tree]) -> usize
    ensures { result ≡ min (sum_lines tree_lines (map nodes_of covers.now)) (2 ^ 64 - 1) }
{
    let mut lines: usize = 0;
    for cover in covers {
        lines = lines.saturating_add(cover.nodes.len());
    }
    lines
}

/// How many lines the lists of named points and rays have, or `usize::MAX` where they have more.
pub(crate) fn lines_of_named(named: &[Vec<Named>]) -> usize
    ensures { result ≡ min (sum_lines named_lines (map named_list named.now)) (2 ^ 64 - 1) }
{
    let mut lines: usize = 0;
    for items in named {
        lines = lines.saturating_add(1 + items.len());
    }
    lines
}
