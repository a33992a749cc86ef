//! Lines of points, nodes and trees are written, each at the end of the text so far.

ghost use Rattle.std.specs.Prelude.{◌≡◌, ◌++◌, ◌∷◌, OnOk, map};
ghost use Rattle.zr_game.specs.Named.{NamedPoint, NamedRay, named_of};
ghost use Rattle.zr_tree.specs.Nodes.{ChooseNode, KnownNode, ProofNode, SplitNode, node_of};
ghost use Rattle.zr_cases.specs.Cases.{CloseNode, CutNode, DeviateNode, EmptyNode, OnOffNode, RowNode, WhichNode, bnode_of, rnode_of};
ghost use Rattle.zr_form.specs.Lines.{concat, spaced};
ghost use Rattle.zr_form.specs.Numbers.{decimal, signed};
ghost use Rattle.zr_lines.specs.Spelling.{box_line, case_line, counting_fields, multiplier_fields, named_count_line, named_line, named_lines, node_line, point_fields};

use std::alloc::{AllocError, Global};
use zr_base::Point;
use zr_cases::{BNode, RNode};
use zr_form::{put_integer, put_natural};
use zr_game::Named;
use zr_tree::Node;

/// Writes the lines of a tree's nodes.
pub fn put_tree(alloc: Global, out: &mut Vec<u8>, nodes: &[Node]) -> Result<(), AllocError>
    ensures { OnOk result (out.new.items ≡ out.old.items ++ concat (map node_line (map node_of nodes.now))) }
{
    for node in nodes {
        put_node(alloc, out, node)?;
    }
    Ok(())
}

fn put_node(alloc: Global, out: &mut Vec<u8>, node: &Node) -> Result<(), AllocError>
    ensures { OnOk result (out.new.items ≡ out.old.items ++ node_line (node_of node.now)) }
{
    match node {
        Node::Split { var, at } => put_split(alloc, out, *var, *at),
        Node::Choose { pair } => put_choose(alloc, out, *pair),
        Node::Leaf { scale, mult } => put_leaf(alloc, out, *scale, mult),
        Node::Known { point } => put_known(alloc, out, point),
        Node::Loose => out.extend_from_slice(b"loose\n".as_slice()),
    }
}

fn put_split(alloc: Global, out: &mut Vec<u8>, var: u32, at: i64) -> Result<(), AllocError>
    ensures { OnOk result (out.new.items ≡ out.old.items ++ node_line (SplitNode var at)) }
{
    out.extend_from_slice(b"split".as_slice())?;
    put_natural_field(alloc, out, u128::from(var))?;
    put_integer_field(alloc, out, i128::from(at))?;
    out.push(b'\n')?;
    Ok(())
}

fn put_choose(alloc: Global, out: &mut Vec<u8>, pair: u32) -> Result<(), AllocError>
    ensures { OnOk result (out.new.items ≡ out.old.items ++ node_line (ChooseNode pair)) }
{
    out.extend_from_slice(b"choose".as_slice())?;
    put_natural_field(alloc, out, u128::from(pair))?;
    out.push(b'\n')?;
    Ok(())
}

fn put_leaf(
    alloc: Global,
    out: &mut Vec<u8>,
    scale: i128,
    mult: &[(u32, i128)],
) -> Result<(), AllocError>
    ensures { OnOk result (out.new.items ≡ out.old.items ++ node_line (ProofNode scale mult.now)) }
{
    out.extend_from_slice(b"leaf".as_slice())?;
    put_integer_field(alloc, out, scale)?;
    put_counting(alloc, out, mult)?;
    out.push(b'\n')?;
    Ok(())
}

fn put_known(alloc: Global, out: &mut Vec<u8>, point: &Point) -> Result<(), AllocError>
    ensures { OnOk result (out.new.items ≡ out.old.items ++ node_line (KnownNode point.now)) }
{
    out.extend_from_slice(b"known".as_slice())?;
    put_point(alloc, out, point)?;
    out.push(b'\n')?;
    Ok(())
}

/// Writes the line of a count and the lines of named points and rays.
pub fn put_named(alloc: Global, out: &mut Vec<u8>, items: &[Named]) -> Result<(), AllocError>
    ensures { OnOk result (out.new.items ≡ out.old.items ++ concat (named_lines (map named_of items.now))) }
{
    put_named_count(alloc, out, items.len())?;
    put_items(alloc, out, items)
}

fn put_named_count(alloc: Global, out: &mut Vec<u8>, count: usize) -> Result<(), AllocError>
    ensures { OnOk result (out.new.items ≡ out.old.items ++ named_count_line count) }
{
    out.extend_from_slice(b"named".as_slice())?;
    put_natural_field(alloc, out, count as u128)?;
    out.push(b'\n')?;
    Ok(())
}

fn put_items(alloc: Global, out: &mut Vec<u8>, items: &[Named]) -> Result<(), AllocError>
    ensures { OnOk result (out.new.items ≡ out.old.items ++ concat (map named_line (map named_of items.now))) }
{
    for item in items {
        put_item(alloc, out, item)?;
    }
    Ok(())
}

fn put_item(alloc: Global, out: &mut Vec<u8>, item: &Named) -> Result<(), AllocError>
    ensures { OnOk result (out.new.items ≡ out.old.items ++ named_line (named_of item.now)) }
{
    match item {
        Named::Point(point) => put_named_point(alloc, out, point),
        Named::Ray { base, dir } => put_ray(alloc, out, base, dir),
    }
}

fn put_named_point(alloc: Global, out: &mut Vec<u8>, point: &Point) -> Result<(), AllocError>
    ensures { OnOk result (out.new.items ≡ out.old.items ++ named_line (NamedPoint point.now)) }
{
    out.extend_from_slice(b"point".as_slice())?;
    put_point(alloc, out, point)?;
    out.push(b'\n')?;
    Ok(())
}

fn put_ray(alloc: Global, out: &mut Vec<u8>, base: &Point, dir: &[i128]) -> Result<(), AllocError>
    ensures { OnOk result (out.new.items ≡ out.old.items ++ named_line (NamedRay base.now dir.now)) }
{
    out.extend_from_slice(b"ray".as_slice())?;
    put_point(alloc, out, base)?;
    put_direction(alloc, out, dir)?;
    out.push(b'\n')?;
    Ok(())
}

/// Writes a direction's numbers.
pub fn put_direction(alloc: Global, out: &mut Vec<u8>, dir: &[i128]) -> Result<(), AllocError>
    ensures { OnOk result (out.new.items ≡ out.old.items ++ spaced (map signed dir.now)) }
{
    for n in dir {
        put_integer_field(alloc, out, *n)?;
    }
    Ok(())
}

/// Writes the lines of a refutation's nodes.
pub(crate) fn put_cases(alloc: Global, out: &mut Vec<u8>, nodes: &[RNode]) -> Result<(), AllocError>
    ensures { OnOk result (out.new.items ≡ out.old.items ++ concat (map case_line (map rnode_of nodes.now))) }
{
    for node in nodes {
        put_case(alloc, out, node)?;
    }
    Ok(())
}

fn put_case(alloc: Global, out: &mut Vec<u8>, node: &RNode) -> Result<(), AllocError>
    ensures { OnOk result (out.new.items ≡ out.old.items ++ case_line (rnode_of node.now)) }
{
    match node {
        RNode::OnOff { player, leaf } => put_on_off(alloc, out, *player, *leaf),
        RNode::RowSplit { player, leaf, slot } => put_row(alloc, out, *player, *leaf, *slot),
        RNode::Which { player } => put_which(alloc, out, *player),
        RNode::Close { mult } => put_close(alloc, out, mult),
    }
}

fn put_on_off(alloc: Global, out: &mut Vec<u8>, player: u32, leaf: u32) -> Result<(), AllocError>
    ensures { OnOk result (out.new.items ≡ out.old.items ++ case_line (OnOffNode player leaf)) }
{
    out.extend_from_slice(b"onoff".as_slice())?;
    put_natural_field(alloc, out, u128::from(player))?;
    put_natural_field(alloc, out, u128::from(leaf))?;
    out.push(b'\n')?;
    Ok(())
}

fn put_row(
    alloc: Global,
    out: &mut Vec<u8>,
    player: u32,
    leaf: u32,
    slot: u32,
) -> Result<(), AllocError>
    ensures { OnOk result (out.new.items ≡ out.old.items ++ case_line (RowNode player leaf slot)) }
{
    out.extend_from_slice(b"row".as_slice())?;
    put_natural_field(alloc, out, u128::from(player))?;
    put_natural_field(alloc, out, u128::from(leaf))?;
    put_natural_field(alloc, out, u128::from(slot))?;
    out.push(b'\n')?;
    Ok(())
}

fn put_which(alloc: Global, out: &mut Vec<u8>, player: u32) -> Result<(), AllocError>
    ensures { OnOk result (out.new.items ≡ out.old.items ++ case_line (WhichNode player)) }
{
    out.extend_from_slice(b"which".as_slice())?;
    put_natural_field(alloc, out, u128::from(player))?;
    out.push(b'\n')?;
    Ok(())
}

fn put_close(alloc: Global, out: &mut Vec<u8>, mult: &[(u32, i128)]) -> Result<(), AllocError>
    ensures { OnOk result (out.new.items ≡ out.old.items ++ case_line (CloseNode mult.now)) }
{
    out.extend_from_slice(b"close".as_slice())?;
    put_counting(alloc, out, mult)?;
    out.push(b'\n')?;
    Ok(())
}

/// Writes the lines of a box tree's nodes.
pub(crate) fn put_boxes(alloc: Global, out: &mut Vec<u8>, nodes: &[BNode]) -> Result<(), AllocError>
    ensures { OnOk result (out.new.items ≡ out.old.items ++ concat (map box_line (map bnode_of nodes.now))) }
{
    for node in nodes {
        put_box(alloc, out, node)?;
    }
    Ok(())
}

fn put_box(alloc: Global, out: &mut Vec<u8>, node: &BNode) -> Result<(), AllocError>
    ensures { OnOk result (out.new.items ≡ out.old.items ++ box_line (bnode_of node.now)) }
{
    match node {
        BNode::Split { player, var, at } => put_cut(alloc, out, *player, *var, *at),
        BNode::Empty { player, mult } => put_empty_box(alloc, out, *player, mult),
        BNode::Deviate { player, point } => put_deviate(alloc, out, *player, point),
    }
}

fn put_cut(
    alloc: Global,
    out: &mut Vec<u8>,
    player: u32,
    var: u32,
    at: i64,
) -> Result<(), AllocError>
    ensures { OnOk result (out.new.items ≡ out.old.items ++ box_line (CutNode player var at)) }
{
    out.extend_from_slice(b"split".as_slice())?;
    put_natural_field(alloc, out, u128::from(player))?;
    put_natural_field(alloc, out, u128::from(var))?;
    put_integer_field(alloc, out, i128::from(at))?;
    out.push(b'\n')?;
    Ok(())
}

fn put_empty_box(
    alloc: Global,
    out: &mut Vec<u8>,
    player: u32,
    mult: &[(u32, i128)],
) -> Result<(), AllocError>
    ensures { OnOk result (out.new.items ≡ out.old.items ++ box_line (EmptyNode player mult.now)) }
{
    out.extend_from_slice(b"empty".as_slice())?;
    put_natural_field(alloc, out, u128::from(player))?;
    put_counting(alloc, out, mult)?;
    out.push(b'\n')?;
    Ok(())
}

fn put_deviate(
    alloc: Global,
    out: &mut Vec<u8>,
    player: u32,
    point: &Point,
) -> Result<(), AllocError>
    ensures { OnOk result (out.new.items ≡ out.old.items ++ box_line (DeviateNode player point.now)) }
{
    out.extend_from_slice(b"deviate".as_slice())?;
    put_natural_field(alloc, out, u128::from(player))?;
    put_point(alloc, out, point)?;
    out.push(b'\n')?;
    Ok(())
}

/// Writes how many multipliers there are, and rows with their multipliers.
fn put_counting(alloc: Global, out: &mut Vec<u8>, mult: &[(u32, i128)]) -> Result<(), AllocError>
    ensures { OnOk result (out.new.items ≡ out.old.items ++ spaced (counting_fields mult.now)) }
{
    put_natural_field(alloc, out, mult.len() as u128)?;
    put_multipliers(alloc, out, mult)
}

/// Writes rows with their multipliers.
fn put_multipliers(alloc: Global, out: &mut Vec<u8>, mult: &[(u32, i128)]) -> Result<(), AllocError>
    ensures { OnOk result (out.new.items ≡ out.old.items ++ spaced (multiplier_fields mult.now)) }
{
    for (row, by) in mult {
        put_natural_field(alloc, out, u128::from(*row))?;
        put_integer_field(alloc, out, *by)?;
    }
    Ok(())
}

/// Writes a point's denominator, and then its numbers.
pub fn put_point(alloc: Global, out: &mut Vec<u8>, point: &Point) -> Result<(), AllocError>
    ensures { OnOk result (out.new.items ≡ out.old.items ++ spaced (point_fields point.now)) }
{
    put_integer_field(alloc, out, point.den())?;
    put_numbers(alloc, out, point)
}

/// Writes a point's numbers.
fn put_numbers(alloc: Global, out: &mut Vec<u8>, point: &Point) -> Result<(), AllocError>
    ensures { OnOk result (out.new.items ≡ out.old.items ++ spaced (map signed point.now.num)) }
{
    for j in 0..point.len() {
        put_integer_field(alloc, out, point.num(j))?;
    }
    Ok(())
}

/// Writes a space, and a number from 0 on.
pub fn put_natural_field(alloc: Global, out: &mut Vec<u8>, n: u128) -> Result<(), AllocError>
    ensures { OnOk result (out.new.items ≡ out.old.items ++ 32 ∷ decimal n) }
{
    out.push(b' ')?;
    put_natural(alloc, out, n)
}

/// Writes a space and a number.
pub fn put_integer_field(alloc: Global, out: &mut Vec<u8>, n: i128) -> Result<(), AllocError>
    ensures { OnOk result (out.new.items ≡ out.old.items ++ 32 ∷ signed n) }
{
    out.push(b' ')?;
    put_integer(alloc, out, n)
}
