ghost use Rattle.std.specs.Prelude.{◌≡◌, ◌<◌, ◌≤◌, ◌^◌, ◌++◌, List, [], IfOk, OnOk, Some, length, map, replicate, slice_get};
ghost use Rattle.std.specs.List.{All};
ghost use Rattle.zr_game.specs.Players.{PlayerOf};
ghost use Rattle.zr_game.specs.Games.{game_of};
ghost use Rattle.zr_game.specs.Forms.{IsPlayer};
ghost use Rattle.zr_game.specs.Leaves.{IsLeafOf, leaf_of};
ghost use Rattle.zr_game.specs.Named.{named_of};
ghost use Rattle.zr_tree.specs.Listed.{IsTreeOf};
ghost use Rattle.zr_tree.specs.Nodes.{node_of};
ghost use Rattle.zr_tree.specs.Trees.{TreeOf, preorder};
ghost use Rattle.zr_system.specs.Asked.{AreLeaves, IsNamedForm};
ghost use Rattle.zr_system.specs.Regions as content;
ghost use Rattle.zr_system.specs.Regions.{cut_of, region_of};
ghost use Rattle.zr_refute.specs.Covered.{cover_regions, covered, regions_with};
ghost use Rattle.zr_refute.specs.Flags.{flag_of, flags_in, regions_by};

use std::alloc::{AllocError, Global};
use zr_base::{Cut, NoMemory, Point};
use zr_game::{Game, Leaf, Named};
use zr_system::{Leaves, Region};
use zr_tree::{Node, Tree, copy_leaf, leaves_of};

/// The leaves of the players' covers, with what is named of each player, and no cuts.
///
/// There is a cover and a list of named points and rays for each player. Each point, base and
/// direction has a number for each of the player's variables, no number of a direction is
/// `i128::MIN`, and no list has 2^32 items. The call fails for want of memory alone.
pub fn leaves_over(
    alloc: Global,
    game: &Game,
    covers: &[Tree],
    named: &[Vec<Named>],
) -> Result<Leaves, NoMemory>
    requires covers { length covers.now ≡ length (game_of game.now) }
    requires named { length named.now ≡ length (game_of game.now) }
    requires few { All (λ list. length list.items < 2 ^ 32) named.now }
    requires items { (i : _) (player : PlayerOf) → IsPlayer (game_of game.now) i player
        → (list : _) → slice_get named.now i ≡ Some list
        → All (λ item. IsNamedForm (length player.vars) (named_of item)) list.items }
    ensures leaves { IfOk result (AreLeaves (game_of game.now)) }
    ensures content { (trees : List TreeOf)
        → map preorder trees ≡ map (λ cover. map node_of cover.nodes.items) covers.now
        → IfOk result (λ leaves. content.leaves_of leaves ≡ covered (game_of game.now) trees
        (map (λ list. map named_of list.items) named.now)) }
{
    let regions = regions_over(alloc, game, covers)?;
    let Ok(named) = copy_lists(alloc, named) else {
        return Err(NoMemory);
    };
    let Ok(cuts) = no_cuts(alloc, game.players.len()) else {
        return Err(NoMemory);
    };
    Ok(Leaves {
        regions,
        named,
        cuts,
    })
}

/// The leaves of each player's cover.
fn regions_over(alloc: Global, game: &Game, covers: &[Tree]) -> Result<Vec<Vec<Region>>, NoMemory>
    requires { length covers.now ≡ length (game_of game.now) }
    ensures count { IfOk result (λ lists. length lists.items ≡ length (game_of game.now)) }
    ensures few { IfOk result (λ lists. All (λ list. length list.items < 2 ^ 32) lists.items) }
    ensures leaf { (i : _) (player : PlayerOf) → IsPlayer (game_of game.now) i player
        → (list : _) → IfOk result (λ lists. slice_get lists.items i ≡ Some list
        → All (λ region. IsLeafOf player region.leaf) list.items) }
    ensures content { (trees : List TreeOf)
        → map preorder trees ≡ map (λ cover. map node_of cover.nodes.items) covers.now
        → IfOk result (λ lists. map (λ list. map region_of list.items) lists.items
        ≡ regions_with (game_of game.now) trees) }
{
    let mut lists = Vec::new(alloc);
    for i in 0..covers.len() {
        let list = regions_of(alloc, game, i as u32, &covers[i])?;
        if lists.push(list).is_err() {
            return Err(NoMemory);
        }
    }
    Ok(lists)
}

/// The leaves of the cover of player `i`. One at a known point counts as exact.
fn regions_of(alloc: Global, game: &Game, i: u32, cover: &Tree) -> Result<Vec<Region>, NoMemory>
    requires { i < length (game_of game.now) }
    ensures few { IfOk result (λ list. length list.items < 2 ^ 32) }
    ensures leaf { (player : PlayerOf) → IsPlayer (game_of game.now) i player
        → IfOk result (λ list. All (λ region. IsLeafOf player region.leaf) list.items) }
    ensures content { (player : PlayerOf) → IsPlayer (game_of game.now) i player
        → (t : TreeOf) → IsTreeOf cover.now t
        → IfOk result (λ list. map region_of list.items ≡ cover_regions player t) }
{
    let leaves = leaves_of(alloc, game, i, cover)?;
    match exact_and_not(alloc, &leaves, &cover.nodes) {
        Ok(list) => Ok(list),
        Err(_) => Err(NoMemory),
    }
}

/// The leaves at the Known and Loose nodes, each with its flag.
fn exact_and_not(alloc: Global, leaves: &[Leaf], nodes: &[Node]) -> Result<Vec<Region>, AllocError>
    requires { length leaves.now ≡ length (flags_in (map node_of nodes.now)) }
    ensures leaf { (player : PlayerOf) → All (IsLeafOf player) leaves.now
        → IfOk result (λ list. All (λ region. IsLeafOf player region.leaf) list.items) }
    ensures content { IfOk result (λ list. map region_of list.items
        ≡ regions_by (map leaf_of leaves.now) (flags_in (map node_of nodes.now))) }
{
    let exact = flags(alloc, nodes)?;
    flagged(alloc, leaves, &exact)
}

/// For each Known and Loose node, in order, whether it is a Known one.
fn flags(alloc: Global, nodes: &[Node]) -> Result<Vec<bool>, AllocError>
    ensures { IfOk result (λ list. list.items ≡ flags_in (map node_of nodes.now)) }
{
    let mut list = Vec::new(alloc);
    for node in nodes {
        push_flag(&mut list, node)?;
    }
    Ok(list)
}

fn push_flag(list: &mut Vec<bool>, node: &Node) -> Result<(), AllocError>
    ensures { OnOk result (list.new.items ≡ list.old.items ++ flag_of (node_of node.now)) }
{
    match node {
        Node::Known { point: _ } => list.push(true)?,
        Node::Loose => list.push(false)?,
        Node::Split { var: _, at: _ }
        | Node::Choose { pair: _ }
        | Node::Leaf { scale: _, mult: _ } => {}
    }
    Ok(())
}

/// The leaves, each with its flag.
fn flagged(alloc: Global, leaves: &[Leaf], exact: &[bool]) -> Result<Vec<Region>, AllocError>
    requires { length leaves.now ≡ length exact.now }
    ensures leaf { (player : PlayerOf) → All (IsLeafOf player) leaves.now
        → IfOk result (λ list. All (λ region. IsLeafOf player region.leaf) list.items) }
    ensures content { IfOk result (λ list. map region_of list.items
        ≡ regions_by (map leaf_of leaves.now) exact.now) }
{
    let mut list = Vec::new(alloc);
    for k in 0..leaves.len() {
        let leaf = copy_leaf(alloc, &leaves[k])?;
        let exact = exact[k];
        list.push(Region { leaf, exact })?;
    }
    Ok(list)
}

fn no_cuts(alloc: Global, players: usize) -> Result<Vec<Vec<Cut>>, AllocError>
    ensures { IfOk result (λ lists. map (λ list. map cut_of list.items) lists.items
        ≡ replicate players []) }
{
    let mut lists = Vec::new(alloc);
    for _ in 0..players {
        lists.push(Vec::new(alloc))?;
    }
    Ok(lists)
}

fn copy_lists(alloc: Global, lists: &[Vec<Named>]) -> Result<Vec<Vec<Named>>, AllocError>
    ensures { IfOk result (λ copy. map (λ list. map named_of list.items) copy.items
        ≡ map (λ list. map named_of list.items) lists.now) }
{
    let mut copy = Vec::new(alloc);
    for items in lists {
        copy.push(copy_items(alloc, items)?)?;
    }
    Ok(copy)
}

fn copy_items(alloc: Global, items: &[Named]) -> Result<Vec<Named>, AllocError>
    ensures { IfOk result (λ copy. map named_of copy.items ≡ map named_of items.now) }
{
    let mut copy = Vec::new(alloc);
    for item in items {
        copy.push(copy_item(alloc, item)?)?;
    }
    Ok(copy)
}

fn copy_item(alloc: Global, item: &Named) -> Result<Named, AllocError>
    ensures { IfOk result (λ copy. named_of copy ≡ named_of item.now) }
{
    match item {
        Named::Point(point) => Ok(Named::Point(copy_point(alloc, point)?)),
        Named::Ray { base, dir } => Ok(Named::Ray {
            base: copy_point(alloc, base)?,
            dir: dir.to_vec(alloc)?,
        }),
    }
}

fn copy_point(alloc: Global, point: &Point) -> Result<Point, AllocError>
    ensures { IfOk result (λ copy. copy ≡ point.now) }
{
    let den = point.den();
    let num = numerators(alloc, point)?;
    match Point::new(num, den) {
        Ok(copy) => Ok(copy),
        Err(_) => unreachable!(),
    }
}

fn numerators(alloc: Global, point: &Point) -> Result<Vec<i128>, AllocError>
    ensures { IfOk result (λ list. list.items ≡ point.now.num) }
{
    let mut list = Vec::new(alloc);
    for j in 0..point.len() {
        list.push(point.num(j))?;
    }
    Ok(list)
}
