ghost use Rattle.std.specs.Prelude.{◌≡◌, ◌↔◌, ◌-◌, ◌^◌, ◌≤◌, IsTrue, map, min};
ghost use Rattle.std.specs.List.{All};
ghost use Rattle.zr_game.specs.declared.kind.Kind.{Kind};
ghost use Rattle.zr_mix.specs.Mixtures.{part_of};
ghost use Rattle.zr_tree.specs.Nodes.{node_of};
ghost use Rattle.zr_cert.specs.Certs.{bound_of, cert_with, mixture_of, verdict_of};
ghost use Rattle.zr_cert.specs.Forms.{IsBoundForm, IsBoundNode, IsCert, IsEmptyNode, IsMixtureForm, IsPartForm, IsVerdictForm, IsWeight};
ghost use Rattle.zr_cert.specs.Lines.{bound_lines, mixture_lines, sum_lines, verdict_lines};

use crate::cert::{Bound, Verdict};
use crate::cover::{is_cover_proof, lines_of_covers, lines_of_named};
use zr_mix::{Part, Strategy};
use zr_tree::Node;

/// The text of a certificate has fewer lines than this.
const LINE_LIMIT: usize = 1 << 32;

/// What a text names or counts is below this.
pub(crate) const COUNT_LIMIT: usize = 1 << 32;

/// Whether the verdict makes a certificate for so many players, of either kind.
pub(crate) fn is_cert(players: u32, verdict: &Verdict) -> bool
    ensures { (kind : Kind) → IsTrue result ↔ IsCert (cert_with kind players verdict.now) }
{
    1 <= players
        && players <= 16
        && is_verdict(players as usize, verdict)
        && lines_of_verdict(verdict) < LINE_LIMIT - 4
}

/// Whether the verdict keeps the rules for so many players, at most 16, but for the number of its
/// lines.
fn is_verdict(players: usize, verdict: &Verdict) -> bool
    requires { players ≤ 16 }
    ensures { IsTrue result ↔ IsVerdictForm players (verdict_of verdict.now) }
{
    match verdict {
        Verdict::Profile { profile, bounds } => {
            are_counts(players, profile.strategies.len(), bounds.len())
                && are_strategies(&profile.strategies)
                && are_bounds(bounds)
        }
        Verdict::NoneCover {
            covers,
            named,
            proof,
        } => is_cover_proof(players, covers, named, proof),
        Verdict::NoneEmpty { player, tree } => {
            // What is read fits its type: any `u32` may be the player's number.
            let _player = *player;
            are_empty_nodes(&tree.nodes)
        }
        // A box tree keeps all rules by itself.
        Verdict::NoneBoxes { tree: _ } => true,
    }
}

pub(crate) fn are_counts(players: usize, first: usize, second: usize) -> bool
    ensures { IsTrue result ↔ ((first ≡ players) × (second ≡ players)) }
{
    first == players && second == players
}

fn are_strategies(strategies: &[Strategy]) -> bool
    ensures { IsTrue result ↔ All IsMixtureForm (map mixture_of strategies.now) }
{
    let mut all = true;
    for strategy in strategies {
        all &= is_strategy(strategy);
    }
    all
}

fn is_strategy(strategy: &Strategy) -> bool
    ensures { IsTrue result ↔ IsMixtureForm (mixture_of strategy.now) }
{
    is_weight(strategy.total) && !strategy.parts.is_empty() && are_parts(&strategy.parts)
}

fn are_parts(parts: &[Part]) -> bool
    ensures { IsTrue result ↔ All IsPartForm (map part_of parts.now) }
{
    let mut all = true;
    for part in parts {
        all &= is_part(part);
    }
    all
}

fn is_part(part: &Part) -> bool
    ensures { IsTrue result ↔ IsPartForm (part_of part.now) }
{
    // A point keeps the rules of points, and tells so with its denominator.
    let _den = part.point.den();
    is_weight(part.weight) && part.point.len() > 0
}

fn is_weight(z: i128) -> bool
    ensures { IsTrue result ↔ IsWeight z }
{
    z >= 1
}

fn are_bounds(bounds: &[Bound]) -> bool
    ensures { IsTrue result ↔ All IsBoundForm (map bound_of bounds.now) }
{
    let mut all = true;
    for bound in bounds {
        all &= is_bound(bound);
    }
    all
}

fn is_bound(bound: &Bound) -> bool
    ensures { IsTrue result ↔ IsBoundForm (bound_of bound.now) }
{
    // A fraction is in lowest terms, and tells so with its numerator.
    let _num = bound.cost.num();
    are_bound_nodes(&bound.tree.nodes)
}

fn are_bound_nodes(nodes: &[Node]) -> bool
    ensures { IsTrue result ↔ All IsBoundNode (map node_of nodes.now) }
{
    let mut all = true;
    for node in nodes {
        all &= is_bound_node(node);
    }
    all
}

fn is_bound_node(node: &Node) -> bool
    ensures { IsTrue result ↔ IsBoundNode (node_of node.now) }
{
    match node {
        Node::Split { var: index, at: _ } | Node::Choose { pair: index } => {
            // What is read fits its type: any `u32` may be an index.
            let _index = *index;
            true
        }
        Node::Leaf { scale: _, mult } => mult.len() < COUNT_LIMIT,
        Node::Known { point: _ } | Node::Loose => false,
    }
}

/// Whether they are nodes of an empty player's tree.
fn are_empty_nodes(nodes: &[Node]) -> bool
    ensures { IsTrue result ↔ All IsEmptyNode (map node_of nodes.now) }
{
    let mut all = true;
    for node in nodes {
        all &= is_empty_node(node);
    }
    all
}

fn is_empty_node(node: &Node) -> bool
    ensures { IsTrue result ↔ IsEmptyNode (node_of node.now) }
{
    match node {
        Node::Split { var: index, at: _ } | Node::Choose { pair: index } => {
            // What is read fits its type: any `u32` may be an index.
            let _index = *index;
            true
        }
        Node::Leaf { scale, mult } => *scale == 0 && mult.len() < COUNT_LIMIT,
        Node::Known { point: _ } | Node::Loose => false,
    }
}

/// How many lines the verdict has, or `usize::MAX` where it has more.
fn lines_of_verdict(verdict: &Verdict) -> usize
    ensures { result ≡ min (verdict_lines (verdict_of verdict.now)) (2 ^ 64 - 1) }
{
    match verdict {
        Verdict::Profile { profile, bounds } => {
            lines_of_strategies(&profile.strategies).saturating_add(lines_of_bounds(bounds))
        }
        Verdict::NoneCover {
            covers,
            named,
            proof,
        } => lines_of_covers(covers).saturating_add(lines_of_named(named).saturating_add(
            proof.nodes.len(),
        )),
        Verdict::NoneEmpty { player: _, tree } => tree.nodes.len(),
        Verdict::NoneBoxes { tree } => tree.nodes.len(),
    }
}

/// How many lines the strategies have, or `usize::MAX` where they have more.
fn lines_of_strategies(strategies: &[Strategy]) -> usize
    ensures { result ≡ min (sum_lines mixture_lines (map mixture_of strategies.now)) (2 ^ 64 - 1) }
{
    let mut lines: usize = 0;
    for strategy in strategies {
        lines = lines.saturating_add(1 + strategy.parts.len());
    }
    lines
}

/// How many lines the bounds have, or `usize::MAX` where they have more.
fn lines_of_bounds(bounds: &[Bound]) -> usize
    ensures { result ≡ min (sum_lines bound_lines (map bound_of bounds.now)) (2 ^ 64 - 1) }
{
    let mut lines: usize = 0;
    for bound in bounds {
        lines = lines.saturating_add(1 + bound.tree.nodes.len());
    }
    lines
}
