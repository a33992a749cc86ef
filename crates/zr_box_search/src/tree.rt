ghost use Rattle.std.specs.Prelude.{◌≡◌, ◌<◌, ◌≤◌, ◌++◌, ◌∷◌, [], Ok, IfOk, IfErr, IfSome, IfNone, OnOk, length, map};
ghost use Rattle.zr_game.specs.Games.{game_of};
ghost use Rattle.zr_cases.specs.Cases.{CutNode, bnode_of};
ghost use Rattle.zr_cases.specs.Forms.{IsBoxTree};
ghost use Rattle.zr_box_search.specs.Answers.{HasPureEquilibrium, IsBoxAnswer};
ghost use Rattle.zr_box_search.specs.Causes.{IsBoxCause, SpendsBoxWork};
ghost use Rattle.zr_box_search.specs.Dues.{AddsRoot, due_of, moves_of};
ghost use Rattle.zr_box_search.specs.Fates.{AddsChildren, AreSearched};
ghost use Rattle.zr_box_search.specs.Whole.{HasOpenPlayer, IsBoxGame};

use crate::answer::{BoxAnswer, BoxStop};
use crate::boxes::{child_paths, put_next, root_paths, take_next};
use crate::split::BoxSplit;
use crate::visit::{BoxFate, visit};
use crate::whole::is_box_game;
use std::alloc::{AllocError, Global};
use zr_asked::Move;
use zr_cases::{BNode, BoxTree};
use zr_game::Game;
use zr_io::{Purse, Unit};

/// A box tree that shows that no pure profile is an equilibrium.
///
/// The boxes are searched depth first, from that of all profiles. A box in which a player's rows
/// have no solution is empty; a single profile is left by a player that has a better point; any
/// other box is split. `Unsettled` comes at once where a player has a pair, or a variable isn't
/// whole or lacks a bound; else only where the game has a pure equilibrium. The purse pays each
/// split, of a box or in the search for a player's better point, and its limit is at most
/// 1,000,000,000.
///
/// # Errors
///
/// `Spent` where a split is due and the purse is at its limit: an open box tree, with one open tree
/// per player in each single profile, then has more units than the purse had left. `Wide` where a
/// linear program over a player's branch is stuck, whose aim is zero, plus or minus one variable or
/// the slope at a pure profile. `NoMemory` for want of memory.
pub fn search(alloc: Global, game: &Game, purse: &mut Purse) -> Result<BoxAnswer, BoxStop>
    requires limit { purse.old.limit ≤ 1000000000 }
    ensures answer { IfOk result (IsBoxAnswer (game_of game.now) purse.old purse.new) }
    ensures at_once { HasOpenPlayer (game_of game.now)
        → (result ≡ Ok BoxAnswer.Unsettled) × (purse.new ≡ purse.old) }
    ensures cause { IfErr result (IsBoxCause (game_of game.now) purse.old purse.new) }
    ensures spends { SpendsBoxWork (game_of game.now) purse.old purse.new }
{
    if !is_box_game(game) {
        return Ok(BoxAnswer::Unsettled);
    }
    match grow(alloc, game, purse) {
        Err(stop) => Err(stop),
        Ok(Some(nodes)) => Ok(BoxAnswer::Refuted(tree_of(nodes))),
        Ok(None) => Ok(BoxAnswer::Unsettled),
    }
}

/// A list of nodes that is known to be a tree.
fn tree_of(nodes: Vec<BNode>) -> BoxTree
    requires { IsBoxTree (map bnode_of nodes.items) }
    ensures { result.nodes.items ≡ nodes.items }
{
    match BoxTree::new(nodes) {
        Ok(tree) => tree,
        Err(_) => unreachable!(),
    }
}

/// Notes the node that closes a box, and lets its paths go.
fn close(nodes: &mut Vec<BNode>, node: BNode, _paths: Vec<Vec<Move>>) -> Result<(), AllocError>
    ensures { OnOk result (nodes.new.items ≡ nodes.old.items ++ node ∷ []) }
{
    nodes.push(node)?;
    Ok(())
}

/// Notes a split of a box, and makes its two parts the next boxes.
fn divide(
    alloc: Global,
    due: &mut Vec<Vec<Vec<Move>>>,
    nodes: &mut Vec<BNode>,
    paths: &[Vec<Move>],
    split: BoxSplit,
) -> Result<(), AllocError>
    requires { split.player < length paths.now }
    ensures nodes { OnOk result (map bnode_of nodes.new.items
        ≡ map bnode_of nodes.old.items ++ CutNode split.player split.var split.at ∷ []) }
    ensures due { OnOk result (AddsChildren (moves_of paths.now) split (due_of due.old.items)
        (due_of due.new.items)) }
{
    let BoxSplit { player, var, at } = split;
    nodes.push(BNode::Split { player, var, at })?;
    let lower = child_paths(alloc, paths, player, Move::Low { var, at })?;
    let upper = child_paths(alloc, paths, player, Move::High { var, at })?;
    put_next(due, upper)?;
    put_next(due, lower)
}

/// Goes through the boxes, depth first: the nodes of a box tree, or `None` where a profile is an
/// equilibrium.
fn grow(alloc: Global, game: &Game, purse: &mut Purse) -> Result<Option<Vec<BNode>>, BoxStop>
    requires whole { IsBoxGame (game_of game.now) }
    requires limit { purse.old.limit ≤ 1000000000 }
    ensures nodes { IfOk result (λ o. IfSome o (λ nodes.
        AreSearched (game_of game.now) purse.old purse.new (map bnode_of nodes.items))) }
    ensures none { IfOk result (λ o. IfNone o (HasPureEquilibrium (game_of game.now))) }
    ensures cause { IfErr result (IsBoxCause (game_of game.now) purse.old purse.new) }
    ensures spends { SpendsBoxWork (game_of game.now) purse.old purse.new }
{
    let mut nodes = Vec::new(alloc);
    let mut due = Vec::new(alloc);
    let Ok(()) = put_root(alloc, game.players.len(), &mut due) else {
        return Err(BoxStop::NoMemory);
    };
    'boxes: while let Some(paths) = take_next(&mut due) {
        match visit(alloc, game, &paths, purse) {
            Err(stop) => return Err(stop),
            Ok(BoxFate::Stable) => return Ok(None),
            Ok(BoxFate::Closed { node }) => {
                let Ok(()) = close(&mut nodes, node, paths) else {
                    return Err(BoxStop::NoMemory);
                };
            }
            Ok(BoxFate::Divided { split }) => {
                let Ok(()) = divide(alloc, &mut due, &mut nodes, &paths, split) else {
                    return Err(BoxStop::NoMemory);
                };
                let Ok(()) = purse.spend(Unit::Branch) else {
                    return Err(BoxStop::Spent);
                };
            }
        }
    }
    Ok(Some(nodes))
}

/// Makes the box of all profiles the next one.
fn put_root(alloc: Global, count: usize, due: &mut Vec<Vec<Vec<Move>>>) -> Result<(), AllocError>
    ensures { OnOk result (AddsRoot count (due_of due.old.items) (due_of due.new.items)) }
{
    let paths = root_paths(alloc, count)?;
    put_next(due, paths)
}
