//! Lines of a tree, one for each node.

ghost use Rattle.std.specs.Prelude.{◌≡◌, option_map, option_copied, Bool, IfOk, true, false};
ghost use Rattle.zr_tree.specs.Nodes.{node_of};
ghost use Rattle.zr_form.specs.Fields.{integer_read};
ghost use Rattle.zr_form.specs.Lines.{fields_of};
ghost use Rattle.zr_form.specs.Code.{left_of, Takes};
ghost use Rattle.zr_form.specs.Stops.{ReadsLine};
ghost use Rattle.zr_lines.specs.Fits.{is_at, is_scale};
ghost use Rattle.zr_lines.specs.Reader.{node_at, node_rest};
ghost use Rattle.zr_lines.specs.declared.ends.Ends.{Ends as TheEnds};
ghost use Rattle.zr_lines.specs.declared.words.NodeWord.TheVariants as word;

use crate::ends::Ends;
use crate::field::{INDEX_LIMIT, ended};
use crate::loose_node::is_node;
use crate::multiplier_fields::counted;
use crate::point_fields::point;
use crate::words::{NodeWord, node_word};
use std::alloc::{AllocError, Global};
use zr_form::{LineFault, next_field, signed, small};
use zr_tree::Node;

/// The least number that a variable is split at, and the greatest.
const LEAST_SPLIT: i128 = zr_tree::LEAST_SPLIT as i128;

const GREATEST_SPLIT: i128 = zr_tree::GREATEST_SPLIT as i128;

/// A number that a variable is split at.
pub(crate) fn at(left: Option<&[u8]>) -> Option<(i64, Option<&[u8]>)>
    ensures { Takes (λ z. z) left.entry result (integer_read (is_at true) (left_of (option_copied left.entry))) }
{
    let (n, rest) = signed(left)?;
    if n < LEAST_SPLIT || n > GREATEST_SPLIT {
        return None;
    }
    Some((n as i64, rest))
}

/// A number from 0 on, which is 0 in a refuting tree.
fn scale(left: Option<&[u8]>, refuting: bool) -> Option<(i128, Option<&[u8]>)>
    ensures { Takes (λ z. z) left.entry result (integer_read (is_scale true refuting) (left_of (option_copied left.entry))) }
{
    let (n, rest) = signed(left)?;
    if n < 0 || refuting && n > 0 {
        return None;
    }
    Some((n, rest))
}

#[tactic(auto, unfolding(crate::specs::Reader::node_rest))]
fn split(left: Option<&[u8]>) -> Option<Node>
    ensures { (ends : TheEnds) → option_map node_of result ≡ node_rest true ends word.Split (left_of (option_copied left.entry)) }
{
    let (var, rest) = small(left, INDEX_LIMIT)?;
    let (at, rest) = at(rest)?;
    ended(rest)?;
    Some(Node::Split {
        var: var as u32,
        at,
    })
}

#[tactic(auto, unfolding(crate::specs::Reader::node_rest))]
fn choose(left: Option<&[u8]>) -> Option<Node>
    ensures { (ends : TheEnds) → option_map node_of result ≡ node_rest true ends word.Choose (left_of (option_copied left.entry)) }
{
    let (pair, rest) = small(left, INDEX_LIMIT)?;
    ended(rest)?;
    Some(Node::Choose { pair: pair as u32 })
}

#[tactic(auto, unfolding(crate::specs::Reader::node_rest))]
fn leaf(alloc: Global, left: Option<&[u8]>, ends: Ends) -> Result<Option<Node>, AllocError>
    ensures { IfOk result (λ o. option_map node_of o ≡ node_rest true ends word.Leaf (left_of (option_copied left.entry))) }
{
    let Some((scale, rest)) = scale(left, ends.are_refuted()) else {
        return Ok(None);
    };
    let Some((count, rest)) = small(rest, INDEX_LIMIT) else {
        return Ok(None);
    };
    let Some(mult) = counted(alloc, rest, count)? else {
        return Ok(None);
    };
    Ok(Some(Node::Leaf { scale, mult }))
}

#[tactic(auto, unfolding(crate::specs::Reader::node_rest))]
fn known(alloc: Global, left: Option<&[u8]>, ends: Ends) -> Result<Option<Node>, AllocError>
    ensures { IfOk result (λ o. option_map node_of o ≡ node_rest true ends word.Known (left_of (option_copied left.entry))) }
{
    let Some(point) = point(alloc, left)? else {
        return Ok(None);
    };
    if ends.are_covered() {
        Ok(Some(Node::Known { point }))
    } else {
        Ok(None)
    }
}

#[tactic(auto, unfolding(crate::specs::Reader::node_rest))]
fn loose(left: Option<&[u8]>, ends: Ends) -> Option<Node>
    ensures { option_map node_of result ≡ node_rest true ends word.Loose (left_of (option_copied left.entry)) }
{
    ended(left)?;
    if ends.are_covered() {
        Some(Node::Loose)
    } else {
        None
    }
}

/// The node of the line, in a tree with such ends.
pub(crate) fn node_line(
    alloc: Global,
    line: &[u8],
    ends: Ends,
) -> Result<Result<Node, LineFault>, AllocError>
    ensures { IfOk result (λ node. ReadsLine node_of node (node_at true ends (fields_of line.now)) (node_at false ends (fields_of line.now))) }
{
    match node(alloc, line, ends)? {
        Some(node) => Ok(Ok(node)),
        None => Ok(Err(LineFault::of_line(is_node(line, ends)))),
    }
}

/// The node of the line, with numbers within the upper bounds.
fn node(alloc: Global, line: &[u8], ends: Ends) -> Result<Option<Node>, AllocError>
    ensures { IfOk result (λ o. option_map node_of o ≡ node_at true ends (fields_of line.now)) }
{
    let (field, rest) = next_field(line);
    let Some(word) = node_word(field) else {
        return Ok(None);
    };
    match word {
        NodeWord::Split => Ok(split(rest)),
        NodeWord::Choose => Ok(choose(rest)),
        NodeWord::Leaf => leaf(alloc, rest, ends),
        NodeWord::Known => known(alloc, rest, ends),
        NodeWord::Loose => Ok(loose(rest, ends)),
    }
}
