ghost use Rattle.std.specs.Prelude.{◌≡◌, ◌<◌, ◌≤◌, ◌+◌, ◌-◌, ◌*◌, [], ◌∷◌, ◌++◌, IfOk, IfErr, OnOk, MatchOption, length, map};
ghost use Rattle.std.specs.List.{All};
ghost use Rattle.zr_game.specs.Players.{PlayerOf, player_of};
ghost use Rattle.zr_game.specs.Games.{game_of};
ghost use Rattle.zr_game.specs.Forms.{IsPlayer};
ghost use Rattle.zr_tree.specs.Form.{IsNodeForm, IsTree};
ghost use Rattle.zr_tree.specs.Nodes.{node_of};
ghost use Rattle.zr_branch.specs.Replies.{IsSomePlayer};
ghost use Rattle.zr_bnb.specs.Causes.{SpendsWork};
ghost use Rattle.zr_sizes.specs.Sizes.{AreBounded, leaf_choices};
ghost use Rattle.zr_cover.specs.Causes.{IsCoverCause};
ghost use Rattle.zr_cover.specs.Covers.{IsExactCoverOf};
ghost use Rattle.zr_cover.specs.Fates.{AreCoverNodes, due_paths};
ghost use Rattle.zr_cover.specs.Splits.{first_step, second_step, split_node};

use crate::split::Split;
use crate::stop::CoverStop;
use crate::visit::{Fate, visit};
use std::alloc::{AllocError, Global};
use zr_asked::Move;
use zr_branch::with_move;
use zr_game::{Game, Player};
use zr_io::{Purse, Unit};
use zr_tree::{Node, Tree};

/// An exact cover of the points of player `i`, which is below the number of players: a tree each of
/// whose ends is a settled leaf with a point that is known, or a leaf that has none, with
/// multipliers that show it.
///
/// By branching (A. H. Land and A. G. Doig, 1960). The purse pays each split, and its limit is at
/// most 1,000,000,000. The tree has at most one node more than twice the branches that were spent.
/// Where each whole variable has both bounds, fewer branches are spent than there are ways to give
/// each whole variable a value and each pair a side.
///
/// # Errors
///
/// `Spent` where a split is due and the purse is at its limit: an open tree then has more units
/// than the purse had left. `Wide` where a linear program over a branch is stuck. `Endless` where a
/// ray of the relaxation, which has a point, changes a whole variable. `NoMemory` for want of
/// memory.
pub fn exact_cover(alloc: Global, game: &Game, i: u32, purse: &mut Purse) -> Result<Tree, CoverStop>
    requires number { i < length (game_of game.now) }
    requires limit { purse.old.limit ≤ 1000000000 }
    ensures cover { (player : PlayerOf) → IsPlayer (game_of game.now) i player
        → IfOk result (IsExactCoverOf player purse.old purse.new) }
    ensures few { IfOk result (λ tree.
        length tree.nodes.items ≤ 1 + 2 * (purse.new.branches - purse.old.branches)) }
    ensures cause { (player : PlayerOf) → IsPlayer (game_of game.now) i player
        → IfErr result (IsCoverCause i player purse.old purse.new) }
    ensures spends { (player : PlayerOf) → IsPlayer (game_of game.now) i player
        → SpendsWork player purse.old purse.new }
    ensures small { (player : PlayerOf) → IsPlayer (game_of game.now) i player → AreBounded player
        → purse.new.branches + 1 ≤ purse.old.branches + leaf_choices player }
{
    let player = &game.players[i as usize];
    cover_of(alloc, game, i, player, purse)
}

/// The same, for the player itself.
fn cover_of(
    alloc: Global,
    game: &Game,
    i: u32,
    player: &Player,
    purse: &mut Purse,
) -> Result<Tree, CoverStop>
    requires number { i < length (game_of game.now) }
    requires player { IsPlayer (game_of game.now) i (player_of player.now) }
    requires some { IsSomePlayer i (player_of player.now) }
    requires limit { purse.old.limit ≤ 1000000000 }
    ensures cover { IfOk result
        (IsExactCoverOf (player_of player.now) purse.old purse.new) }
    ensures few { IfOk result (λ tree.
        length tree.nodes.items ≤ 1 + 2 * (purse.new.branches - purse.old.branches)) }
    ensures cause { IfErr result
        (IsCoverCause i (player_of player.now) purse.old purse.new) }
    ensures spends { SpendsWork (player_of player.now) purse.old purse.new }
{
    match nodes_of(alloc, game, i, player, purse) {
        Err(stop) => Err(stop),
        Ok(nodes) => Ok(tree_of(nodes)),
    }
}

/// A list of nodes that is known to be a tree.
fn tree_of(nodes: Vec<Node>) -> Tree
    requires { IsTree (map node_of nodes.items) }
    ensures { result.nodes.items ≡ nodes.items }
{
    match Tree::new(nodes) {
        Ok(tree) => tree,
        Err(_) => unreachable!(),
    }
}

/// The nodes of the cover: goes through the branches, depth first, until none is left.
fn nodes_of(
    alloc: Global,
    game: &Game,
    i: u32,
    player: &Player,
    purse: &mut Purse,
) -> Result<Vec<Node>, CoverStop>
    requires number { i < length (game_of game.now) }
    requires player { IsPlayer (game_of game.now) i (player_of player.now) }
    requires some { IsSomePlayer i (player_of player.now) }
    requires limit { purse.old.limit ≤ 1000000000 }
    ensures nodes { IfOk result (λ nodes. AreCoverNodes (player_of player.now)
        purse.old purse.new (map node_of nodes.items)) }
    ensures forms { IfOk result (λ nodes. All IsNodeForm (map node_of nodes.items)) }
    ensures few { IfOk result (λ nodes. length nodes.items
        ≤ 1 + 2 * (purse.new.branches - purse.old.branches)) }
    ensures cause { IfErr result
        (IsCoverCause i (player_of player.now) purse.old purse.new) }
    ensures spends { SpendsWork (player_of player.now) purse.old purse.new }
{
    let mut nodes = Vec::new(alloc);
    let mut due = Vec::new(alloc);
    let Ok(()) = put_next(&mut due, Vec::new(alloc)) else {
        return Err(CoverStop::NoMemory);
    };
    'branches: while let Some(path) = take_next(&mut due) {
        match visit(alloc, game, i, player, &path, purse) {
            Err(stop) => return Err(stop),
            Ok(Fate::End(node)) => {
                let Ok(()) = nodes.push(node) else {
                    return Err(CoverStop::NoMemory);
                };
                continue 'branches;
            }
            Ok(Fate::Divided(split)) => {
                let Ok(()) = divide(alloc, &mut due, &mut nodes, &path, split) else {
                    return Err(CoverStop::NoMemory);
                };
                let Ok(()) = purse.spend(Unit::Branch) else {
                    return Err(CoverStop::Spent);
                };
            }
        }
    }
    Ok(nodes)
}

/// Takes the branch that is next.
fn take_next(due: &mut Vec<Vec<Move>>) -> Option<Vec<Move>>
    ensures { MatchOption result (due_paths due.old.items ≡ [])
        (λ path. due_paths due.old.items ≡ path.items ∷ due_paths due.new.items) }
{
    due.pop()
}

/// Makes a branch the next one.
fn put_next(due: &mut Vec<Vec<Move>>, path: Vec<Move>) -> Result<(), AllocError>
    ensures { OnOk result (due_paths due.new.items ≡ path.items ∷ due_paths due.old.items) }
{
    due.push(path)?;
    Ok(())
}

/// Notes a split, and makes its two sides the next branches.
fn divide(
    alloc: Global,
    due: &mut Vec<Vec<Move>>,
    nodes: &mut Vec<Node>,
    path: &[Move],
    split: Split,
) -> Result<(), AllocError>
    ensures due { OnOk result (due_paths due.new.items ≡ (path.now ++ first_step split ∷ [])
        ∷ (path.now ++ second_step split ∷ []) ∷ due_paths due.old.items) }
    ensures nodes { OnOk result (map node_of nodes.new.items
        ≡ map node_of nodes.old.items ++ split_node split ∷ []) }
{
    let (node, first, second) = sides_of(split);
    nodes.push(node)?;
    let lower = with_move(alloc, path, first)?;
    let upper = with_move(alloc, path, second)?;
    put_next(due, upper)?;
    put_next(due, lower)
}

/// The node of a split, and the moves to its two sides.
fn sides_of(split: Split) -> (Node, Move, Move)
    ensures node { node_of result.0 ≡ split_node split }
    ensures first { result.1 ≡ first_step split }
    ensures second { result.2 ≡ second_step split }
{
    match split {
        Split::Var { var, at } => (
            Node::Split { var, at },
            Move::Low { var, at },
            Move::High { var, at },
        ),
        Split::Pair { pair } => (
            Node::Choose { pair },
            Move::VarZero { pair },
            Move::RowZero { pair },
        ),
    }
}
