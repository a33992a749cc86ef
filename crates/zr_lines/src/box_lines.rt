//! Box trees: a line for each node.

ghost use Rattle.std.specs.Prelude.{◌≡◌, ◌^◌, ◌<◌, length, map, option_map, option_copied, IfOk, true, false};
ghost use Rattle.zr_cases.specs.Cases.{bnode_of};
ghost use Rattle.zr_cases.specs.Forms.{box_count};
ghost use Rattle.zr_cert.specs.Certs.{boxes_of};
ghost use Rattle.zr_form.specs.Code.{left_of};
ghost use Rattle.zr_form.specs.Lines.{fields_of, lines_of};
ghost use Rattle.zr_form.specs.Stops.{Gives, ReadsLine};
ghost use Rattle.zr_lines.specs.Reader.{box_at, box_rest, boxes_read};
ghost use Rattle.zr_lines.specs.declared.words.BoxWord.TheVariants as word;

use crate::field::{INDEX_LIMIT, ended};
use crate::loose_boxes::is_box;
use crate::multiplier_fields::counting;
use crate::node::at;
use crate::point_fields::point;
use crate::words::{BoxWord, box_word};
use std::alloc::{AllocError, Global};
use zr_cases::{BNode, BoxTree};
use zr_form::{LineFault, ReadError, first_line, next_field, placed, small};

#[tactic(auto, unfolding(crate::specs::Reader::box_rest))]
fn split(left: Option<&[u8]>) -> Option<BNode>
    ensures { option_map bnode_of result ≡ box_rest true word.Split (left_of (option_copied left.entry)) }
{
    let (player, rest) = small(left, INDEX_LIMIT)?;
    let (var, rest) = small(rest, INDEX_LIMIT)?;
    let (at, rest) = at(rest)?;
    ended(rest)?;
    Some(BNode::Split {
        player: player as u32,
        var: var as u32,
        at,
    })
}

#[tactic(auto, unfolding(crate::specs::Reader::box_rest))]
fn empty(alloc: Global, left: Option<&[u8]>) -> Result<Option<BNode>, AllocError>
    ensures { IfOk result (λ o. option_map bnode_of o ≡ box_rest true word.Empty (left_of (option_copied left.entry))) }
{
    let Some((player, rest)) = small(left, INDEX_LIMIT) else {
        return Ok(None);
    };
    let Some(mult) = counting(alloc, rest)? else {
        return Ok(None);
    };
    let player = player as u32;
    Ok(Some(BNode::Empty { player, mult }))
}

#[tactic(auto, unfolding(crate::specs::Reader::box_rest))]
fn deviate(alloc: Global, left: Option<&[u8]>) -> Result<Option<BNode>, AllocError>
    ensures { IfOk result (λ o. option_map bnode_of o ≡ box_rest true word.Deviate (left_of (option_copied left.entry))) }
{
    let Some((player, rest)) = small(left, INDEX_LIMIT) else {
        return Ok(None);
    };
    let Some(point) = point(alloc, rest)? else {
        return Ok(None);
    };
    let player = player as u32;
    Ok(Some(BNode::Deviate { player, point }))
}

/// The node of the line, with numbers within the upper bounds.
fn box_node(alloc: Global, line: &[u8]) -> Result<Option<BNode>, AllocError>
    ensures { IfOk result (λ o. option_map bnode_of o ≡ box_at true (fields_of line.now)) }
{
    let (field, rest) = next_field(line);
    let Some(word) = box_word(field) else {
        return Ok(None);
    };
    match word {
        BoxWord::Split => Ok(split(rest)),
        BoxWord::Empty => empty(alloc, rest),
        BoxWord::Deviate => deviate(alloc, rest),
    }
}

/// The node of the line.
fn box_line(alloc: Global, line: &[u8]) -> Result<Result<BNode, LineFault>, AllocError>
    ensures { IfOk result (λ node. ReadsLine bnode_of node (box_at true (fields_of line.now)) (box_at false (fields_of line.now))) }
{
    match box_node(alloc, line)? {
        Some(node) => Ok(Ok(node)),
        None => Ok(Err(LineFault::of_line(is_box(line)))),
    }
}

fn count_of_boxes(node: &BNode) -> usize
    ensures { result ≡ box_count (bnode_of node.now) }
{
    match node {
        BNode::Split {
            player: _,
            var: _,
            at: _,
        } => 2,
        BNode::Empty { player: _, mult: _ }
        | BNode::Deviate {
            player: _,
            point: _,
        } => 0,
    }
}

/// The nodes of the box tree at the front, and what follows them. They end with the line that
/// leaves no child due.
fn take_boxes(alloc: Global, bytes: &[u8]) -> Result<(Vec<BNode>, &[u8]), ReadError>
    ensures { Gives (λ nodes. map bnode_of nodes.items) result (boxes_read true (lines_of bytes.now)) (boxes_read false (lines_of bytes.now)) }
{
    let mut nodes = Vec::new(alloc);
    let mut rest = bytes;
    let mut due: usize = 1;
    while due > 0 {
        let (line, after) = first_line(rest)?;
        let node = placed(box_line(alloc, line)?, rest.len())?;
        due = due - 1 + count_of_boxes(&node);
        nodes.push(node)?;
        rest = after;
    }
    Ok((nodes, rest))
}

/// The box tree at the front, and what follows it. There are fewer than 2^32 bytes.
pub fn take_box_tree(alloc: Global, bytes: &[u8]) -> Result<(BoxTree, &[u8]), ReadError>
    requires { length bytes.now < 2 ^ 32 }
    ensures { Gives boxes_of result (boxes_read true (lines_of bytes.now)) (boxes_read false (lines_of bytes.now)) }
{
    let (nodes, rest) = take_boxes(alloc, bytes)?;
    match BoxTree::new(nodes) {
        Ok(tree) => Ok((tree, rest)),
        Err(_) => unreachable!(),
    }
}
