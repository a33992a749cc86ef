ghost use Rattle.std.specs.Prelude.{◌≡◌, ◌<◌, ◌≤◌, ◌+◌, ◌*◌, ◌++◌, ◌∷◌, [], List, length, map, IfOk, IfErr, OnOk, OnErr};
ghost use Rattle.std.specs.List.{All};
ghost use Rattle.zr_io.specs.Purses.{counted};
ghost use Rattle.zr_game.specs.Games.{game_of};
ghost use Rattle.zr_cases.specs.Cases.{rnode_of};
ghost use Rattle.zr_cases.specs.Forms.{AreCases, IsCaseForm};
ghost use Rattle.zr_system.specs.Asked.{AreLeaves};
ghost use Rattle.zr_system.specs.Regions.{leaves_of};
ghost use Rattle.zr_system.specs.System.{cell_count};
ghost use Rattle.zr_refute.specs.Walks.{children};
ghost use Rattle.zr_comp.specs.Answers.{IsFound};
ghost use Rattle.zr_comp.specs.Cases.{AreFewSlots, PlayerExists, case_node, case_price, due_paths};
ghost use Rattle.zr_comp.specs.Causes.{IsCompCause, SpendsCases};
ghost use Rattle.zr_comp.specs.OpenCases.{which_units};
ghost use Rattle.zr_comp.specs.Spending.{SpendsUpTo};

use crate::answer::{CompStop, Found};
use crate::case::Case;
use crate::path::{put_child, put_leaves, put_next, take_next};
use crate::visit::{Fate, tried, visit};
use std::alloc::{AllocError, Global};
use zr_cases::{RNode, Refutation};
use zr_game::{Choice, Game, Kind};
use zr_io::{Purse, Spent, Unit};
use zr_system::{Leaves, leaf_count};

/// Spends so many branches, one after the other.
fn pay(purse: &mut Purse, branches: u32) -> Result<(), Spent>
    ensures spends { SpendsUpTo purse.old purse.new branches }
    ensures ok { OnOk result (purse.new.branches ≡ purse.old.branches + branches) }
    ensures err { OnErr result ((counted purse.new ≡ purse.new.limit)
        × (purse.new.branches < purse.old.branches + branches)) }
{
    for paid in 0..branches {
        let Ok(()) = purse.spend(Unit::Branch) else {
            return Err(Spent);
        };
    }
    Ok(())
}

/// The units that a case costs: 1, or for a choice among the leaves of a player one less than
/// their number, and 1 for one leaf.
fn price(game: &Game, leaves: &Leaves, case: Case) -> u32
    requires leaves { AreLeaves (game_of game.now) leaves.now }
    requires case { PlayerExists (game_of game.now) case }
    ensures { result ≡ case_price (leaves_of leaves.now) case }
{
    match case {
        Case::Player { player } => which_price(leaf_count(game, leaves, player as usize) as u32),
        _ => 1,
    }
}

fn which_price(leaves: u32) -> u32
    ensures { result ≡ which_units leaves }
{
    match leaves {
        0 => 0,
        1 => 1,
        _ => leaves - 1,
    }
}

/// The node of a case.
fn node_of(case: Case) -> RNode
    ensures node { rnode_of result ≡ case_node case }
    ensures form { IsCaseForm (rnode_of result) }
{
    match case {
        Case::Leaf { player, leaf } => RNode::OnOff { player, leaf },
        Case::Slot { player, leaf, slot } => RNode::RowSplit { player, leaf, slot },
        Case::Player { player } => RNode::Which { player },
    }
}

/// Appends a node.
fn push_node(nodes: &mut Vec<RNode>, node: RNode) -> Result<(), AllocError>
    ensures { OnOk result (map rnode_of nodes.new.items
        ≡ map rnode_of nodes.old.items ++ rnode_of node ∷ []) }
{
    nodes.push(node)?;
    Ok(())
}

/// Makes the paths of a case's choices the next ones.
fn put_children(
    alloc: Global,
    game: &Game,
    leaves: &Leaves,
    due: &mut Vec<Vec<Choice>>,
    path: &[Choice],
    case: Case,
) -> Result<(), AllocError>
    requires leaves { AreLeaves (game_of game.now) leaves.now }
    requires case { PlayerExists (game_of game.now) case }
    ensures { OnOk result (due_paths due.new.items
        ≡ children (leaves_of leaves.now) path.now (case_node case) ++ due_paths due.old.items) }
{
    match case {
        Case::Leaf { player, leaf } => {
            put_child(alloc, due, path, Choice::Off { player, leaf })?;
            put_child(alloc, due, path, Choice::On { player, leaf })
        }
        Case::Slot { player, leaf, slot } => {
            put_child(alloc, due, path, Choice::Tight { player, leaf, slot })?;
            put_child(alloc, due, path, Choice::Zero { player, leaf, slot })
        }
        Case::Player { player } => {
            let count = leaf_count(game, leaves, player as usize) as u32;
            put_leaves(alloc, due, path, player, count)
        }
    }
}

/// Appends the node of a case, and makes the paths of its choices the next ones.
fn divide(
    alloc: Global,
    game: &Game,
    leaves: &Leaves,
    nodes: &mut Vec<RNode>,
    due: &mut Vec<Vec<Choice>>,
    path: Vec<Choice>,
    case: Case,
) -> Result<(), AllocError>
    requires leaves { AreLeaves (game_of game.now) leaves.now }
    requires case { PlayerExists (game_of game.now) case }
    ensures nodes { OnOk result (map rnode_of nodes.new.items
        ≡ map rnode_of nodes.old.items ++ case_node case ∷ []) }
    ensures due { OnOk result (due_paths due.new.items
        ≡ children (leaves_of leaves.now) path.items (case_node case) ++ due_paths due.old.items) }
    ensures form { OnOk result (IsCaseForm (case_node case)) }
{
    push_node(nodes, node_of(case))?;
    put_children(alloc, game, leaves, due, &path, case)
}

/// A list of nodes that is known to keep the rules of refutations.
fn refutation_of(nodes: Vec<RNode>) -> Refutation
    requires { AreCases (map rnode_of nodes.items) }
    ensures { result.nodes.items ≡ nodes.items }
{
    match Refutation::new(nodes) {
        Ok(proof) => proof,
        Err(_) => unreachable!(),
    }
}

/// What `search` finds by cases.
fn search_cases(
    alloc: Global,
    game: &Game,
    leaves: &Leaves,
    kind: Kind,
    purse: &mut Purse,
) -> Result<Found, CompStop>
    requires leaves { AreLeaves (game_of game.now) leaves.now }
    requires slots { AreFewSlots (game_of game.now) (leaves_of leaves.now) }
    requires cells { cell_count (game_of game.now) (leaves_of leaves.now) ≤ 16777216 }
    requires limit { purse.old.limit ≤ 1000000000 }
    ensures found { IfOk result
        (IsFound (game_of game.now) (leaves_of leaves.now) kind purse.old purse.new) }
    ensures cause { IfErr result
        (IsCompCause (game_of game.now) (leaves_of leaves.now) kind purse.old purse.new) }
    ensures spends { SpendsCases (game_of game.now) (leaves_of leaves.now) kind purse.old
        purse.new }
{
    let mut nodes = Vec::new(alloc);
    let mut due = Vec::new(alloc);
    let Ok(()) = put_next(&mut due, Vec::new(alloc)) else {
        return Err(CompStop::NoMemory);
    };
    'paths: while let Some(path) = take_next(&mut due) {
        match visit(alloc, game, leaves, kind, &path, purse) {
            Err(stop) => return Err(stop),
            Ok(Fate::Solved(point)) => return Ok(Found::Solved(point)),
            Ok(Fate::Closed(mult)) => {
                let Ok(()) = push_node(&mut nodes, RNode::Close { mult }) else {
                    return Err(CompStop::NoMemory);
                };
                drop(path);
            }
            Ok(Fate::Divided(case)) => {
                let Ok(()) = divide(alloc, game, leaves, &mut nodes, &mut due, path, case) else {
                    return Err(CompStop::NoMemory);
                };
                let Ok(()) = pay(purse, price(game, leaves, case)) else {
                    return Err(CompStop::Spent);
                };
            }
        }
    }
    Ok(Found::Refuted(refutation_of(nodes)))
}

/// A solution of the system of the game over the leaves under a complete list of choices, or a
/// refutation of the system, for the kind.
///
/// The leaves are those of the game, each with fewer than 2^31 slots, and the system has at most
/// 16,777,216 cells where no choice is made. The purse pays the cases, and its limit is at most
/// 1,000,000,000.
///
/// # Errors
///
/// `Spent` where a case is due and the purse is at its limit: an open tree then has more units
/// than the purse had left. `Wide` where the question of a path is stuck. `WideRow` where a step
/// of a coefficient of the system is too wide. `NoMemory` for want of memory.
pub fn search(
    alloc: Global,
    game: &Game,
    leaves: &Leaves,
    kind: Kind,
    purse: &mut Purse,
) -> Result<Found, CompStop>
    requires leaves { AreLeaves (game_of game.now) leaves.now }
    requires slots { AreFewSlots (game_of game.now) (leaves_of leaves.now) }
    requires cells { cell_count (game_of game.now) (leaves_of leaves.now) ≤ 16777216 }
    requires limit { purse.old.limit ≤ 1000000000 }
    ensures found { IfOk result
        (IsFound (game_of game.now) (leaves_of leaves.now) kind purse.old purse.new) }
    ensures cause { IfErr result
        (IsCompCause (game_of game.now) (leaves_of leaves.now) kind purse.old purse.new) }
    ensures spends { SpendsCases (game_of game.now) (leaves_of leaves.now) kind purse.old
        purse.new }
{
    match tried(alloc, game, leaves, kind, purse) {
        Err(stop) => Err(stop),
        Ok(Some(point)) => Ok(Found::Solved(point)),
        Ok(None) => search_cases(alloc, game, leaves, kind, purse),
    }
}
