//! Refutations: a line for each node.

ghost use Rattle.std.specs.Prelude.{◌≡◌, ◌^◌, ◌<◌, ℕ, length, map, option_map, option_copied, IfOk, true, false};
ghost use Rattle.zr_cases.specs.Cases.{rnode_of};
ghost use Rattle.zr_cert.specs.Certs.{cases_of};
ghost use Rattle.zr_form.specs.Code.{left_of};
ghost use Rattle.zr_form.specs.Lines.{fields_of, lines_of};
ghost use Rattle.zr_form.specs.Stops.{Gives, ReadsLine};
ghost use Rattle.zr_lines.specs.Reader.{case_at, case_rest, cases_read};
ghost use Rattle.zr_lines.specs.declared.words.CaseWord.TheVariants as word;

use crate::field::{INDEX_LIMIT, ended};
use crate::loose_cases::is_case;
use crate::multiplier_fields::counting;
use crate::words::{CaseWord, case_word};
use std::alloc::{AllocError, Global};
use zr_cases::{RNode, Refutation, count_of_cases};
use zr_form::{LineFault, ReadError, first_line, next_field, placed, small};

#[tactic(auto, unfolding(crate::specs::Reader::case_rest))]
fn on_off(left: Option<&[u8]>) -> Option<RNode>
    ensures { (players : ℕ) → option_map rnode_of result ≡ case_rest true players word.OnOff (left_of (option_copied left.entry)) }
{
    let (player, rest) = small(left, INDEX_LIMIT)?;
    let (leaf, rest) = small(rest, INDEX_LIMIT)?;
    ended(rest)?;
    Some(RNode::OnOff {
        player: player as u32,
        leaf: leaf as u32,
    })
}

#[tactic(auto, unfolding(crate::specs::Reader::case_rest))]
fn row(left: Option<&[u8]>) -> Option<RNode>
    ensures { (players : ℕ) → option_map rnode_of result ≡ case_rest true players word.Row (left_of (option_copied left.entry)) }
{
    let (player, rest) = small(left, INDEX_LIMIT)?;
    let (leaf, rest) = small(rest, INDEX_LIMIT)?;
    let (slot, rest) = small(rest, INDEX_LIMIT)?;
    ended(rest)?;
    Some(RNode::RowSplit {
        player: player as u32,
        leaf: leaf as u32,
        slot: slot as u32,
    })
}

/// A choice among the leaves of one of so many players.
#[tactic(auto, unfolding(crate::specs::Reader::case_rest))]
fn which(left: Option<&[u8]>, players: u32) -> Option<RNode>
    ensures { option_map rnode_of result ≡ case_rest true players word.Which (left_of (option_copied left.entry)) }
{
    let (player, rest) = small(left, players as u64)?;
    ended(rest)?;
    Some(RNode::Which {
        player: player as u32,
    })
}

#[tactic(auto, unfolding(crate::specs::Reader::case_rest))]
fn close(alloc: Global, left: Option<&[u8]>) -> Result<Option<RNode>, AllocError>
    ensures { (players : ℕ) → IfOk result (λ o. option_map rnode_of o ≡ case_rest true players word.Close (left_of (option_copied left.entry))) }
{
    let Some(mult) = counting(alloc, left)? else {
        return Ok(None);
    };
    Ok(Some(RNode::Close { mult }))
}

/// The node of the line, with numbers within the upper bounds, in a refutation for so many players.
fn case(alloc: Global, line: &[u8], players: u32) -> Result<Option<RNode>, AllocError>
    ensures { IfOk result (λ o. option_map rnode_of o ≡ case_at true players (fields_of line.now)) }
{
    let (field, rest) = next_field(line);
    let Some(word) = case_word(field) else {
        return Ok(None);
    };
    match word {
        CaseWord::OnOff => Ok(on_off(rest)),
        CaseWord::Row => Ok(row(rest)),
        CaseWord::Which => Ok(which(rest, players)),
        CaseWord::Close => close(alloc, rest),
    }
}

/// The node of the line, in a refutation for so many players.
fn case_line(
    alloc: Global,
    line: &[u8],
    players: u32,
) -> Result<Result<RNode, LineFault>, AllocError>
    ensures { IfOk result (λ node. ReadsLine rnode_of node (case_at true players (fields_of line.now)) (case_at false players (fields_of line.now))) }
{
    match case(alloc, line, players)? {
        Some(node) => Ok(Ok(node)),
        None => Ok(Err(LineFault::of_line(is_case(line, players)))),
    }
}

/// The nodes of the refutation at the front, and what follows them. They end with the line that
/// leaves no child due.
fn take_cases<'a>(
    alloc: Global,
    bytes: &'a [u8],
    leaves: &[u32],
) -> Result<(Vec<RNode>, &'a [u8]), ReadError>
    requires bytes { length bytes.now < 2 ^ 32 }
    requires players { length leaves.now < 2 ^ 32 }
    ensures { Gives (λ nodes. map rnode_of nodes.items) result (cases_read true leaves.now (lines_of bytes.now)) (cases_read false leaves.now (lines_of bytes.now)) }
{
    let mut nodes = Vec::new(alloc);
    let mut rest = bytes;
    let mut due: usize = 1;
    let players = leaves.len() as u32;
    while due > 0 {
        let (line, after) = first_line(rest)?;
        let node = placed(case_line(alloc, line, players)?, rest.len())?;
        due = due - 1 + count_of_cases(&node, leaves);
        nodes.push(node)?;
        rest = after;
    }
    Ok((nodes, rest))
}

/// The refutation at the front, and what follows it, where player `i` has `leaves[i]` leaves. There
/// are fewer than 2^32 bytes.
pub fn take_refutation<'a>(
    alloc: Global,
    bytes: &'a [u8],
    leaves: &[u32],
) -> Result<(Refutation, &'a [u8]), ReadError>
    requires bytes { length bytes.now < 2 ^ 32 }
    requires players { length leaves.now < 2 ^ 32 }
    ensures { Gives cases_of result (cases_read true leaves.now (lines_of bytes.now)) (cases_read false leaves.now (lines_of bytes.now)) }
{
    let (nodes, rest) = take_cases(alloc, bytes, leaves)?;
    match Refutation::new(nodes) {
        Ok(proof) => Ok((proof, rest)),
        Err(_) => unreachable!(),
    }
}
