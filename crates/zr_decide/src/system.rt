ghost use Rattle.std.specs.Prelude.{◌≡◌, ◌<◌, ◌≤◌, [], IfErr, IfOk, List, length, map, set};
ghost use Rattle.std.specs.List.{All};
ghost use Rattle.zr_game.specs.Games.{game_of};
ghost use Rattle.zr_tree.specs.Trees.{TreeOf, Loose, preorder};
ghost use Rattle.zr_cert.specs.Certs.{named_list, nodes_of};
ghost use Rattle.zr_comp.specs.Answers.{IsFound};
ghost use Rattle.zr_comp.specs.Cases.{AreFewSlots};
ghost use Rattle.zr_comp.specs.Causes.{SpendsCases};
ghost use Rattle.zr_base.specs.declared.step.Wide.{Wide as AWide};
ghost use Rattle.zr_branch.specs.Replies.{CountsPivotsAlone};
ghost use Rattle.zr_system.specs.Asked.{AreLeaves, HasWideCoefficient};
ghost use Rattle.zr_system.specs.Regions as content;
ghost use Rattle.zr_system.specs.System.{cell_count};
ghost use Rattle.zr_decide.specs.Decided.{AreDecidedCovers, decided_leaves};
ghost use Rattle.zr_decide.specs.Later.{IsSearchStop, IsSizeStop};
ghost use Rattle.zr_decide.specs.NamedCovers.{AreNamedOver};
ghost use Rattle.zr_decide.specs.Naming.{IsNamedSystem, IsNamingStop};

use crate::covers::loose_tree;
use crate::names::{CELL_LIMIT, names_over};
use crate::stop::DecideStop;
use std::alloc::{AllocError, Global};
use zr_comp::{CompStop, Found, search};
use zr_game::{Game, Kind, Named};
use zr_io::Purse;
use zr_refute::leaves_over;
use zr_system::{Leaves, cells};
use zr_tree::Tree;

/// So many empty lists.
fn no_names(alloc: Global, players: usize) -> Result<Vec<Vec<Named>>, AllocError>
    ensures len { IfOk result (λ lists. length lists.items ≡ players) }
    ensures empty { IfOk result (λ lists. All (λ list. list.items ≡ []) lists.items) }
{
    let mut lists = Vec::new(alloc);
    for _ in 0..players {
        lists.push(Vec::new(alloc))?;
    }
    Ok(lists)
}

/// What is named of the players, as far as the limit of cells allows, and the leaves of their covers
/// with it.
///
/// # Errors
///
/// `TooLarge` where the system over the leaves has too many cells with nothing named. `Wide` where
/// a question of what is named is stuck. `NoMemory` for want of memory.
pub(crate) fn named_system(
    alloc: Global,
    game: &Game,
    covers: &[Tree],
    purse: &mut Purse,
) -> Result<(Vec<Vec<Named>>, Leaves), DecideStop>
    requires covers { length covers.now ≡ length (game_of game.now) }
    ensures leaves { IfOk result (λ system. AreLeaves (game_of game.now) system.1) }
    ensures system { (trees : List TreeOf) → map preorder trees ≡ map nodes_of covers.now
        → AreDecidedCovers (game_of game.now) trees
        → IfOk result (λ system. IsNamedSystem (game_of game.now) trees
        (map named_list system.0.items) (content.leaves_of system.1)) }
    ensures cause { (trees : List TreeOf) → map preorder trees ≡ map nodes_of covers.now
        → IfErr result (IsSizeStop (game_of game.now) trees) }
    ensures purse { CountsPivotsAlone purse.old purse.new }
{
    // What is read fits its type: the count so far is a `u64`.
    let _pivots = purse.pivots;
    let Ok(none) = no_names(alloc, game.players.len()) else {
        return Err(DecideStop::NoMemory);
    };
    let leaves = match leaves_of(alloc, game, covers, &none) {
        Ok(leaves) => leaves,
        Err(stop) => return Err(stop),
    };
    let named = match names_over(alloc, game, covers, &leaves, purse) {
        Ok(named) => named,
        Err(stop) => return Err(stop),
    };
    match leaves_over(alloc, game, covers, &named) {
        Ok(leaves) => Ok((named, leaves)),
        Err(_) => Err(DecideStop::NoMemory),
    }
}

/// The leaves of the covers of all players, where their system hasn't too many cells.
fn leaves_of(
    alloc: Global,
    game: &Game,
    covers: &[Tree],
    named: &[Vec<Named>],
) -> Result<Leaves, DecideStop>
    requires covers { length covers.now ≡ length (game_of game.now) }
    requires named { length named.now ≡ length (game_of game.now) }
    requires empty { All (λ list. list.items ≡ []) named.now }
    ensures leaves { IfOk result (AreLeaves (game_of game.now)) }
    ensures content { (trees : List TreeOf) → map preorder trees ≡ map nodes_of covers.now
        → IfOk result (λ leaves.
        content.leaves_of leaves ≡ decided_leaves (game_of game.now) trees) }
    ensures cells { IfOk result (λ leaves.
        cell_count (game_of game.now) (content.leaves_of leaves) ≤ 16777216) }
    ensures cause { (trees : List TreeOf) → map preorder trees ≡ map nodes_of covers.now
        → IfErr result (IsSizeStop (game_of game.now) trees) }
{
    let leaves = match leaves_over(alloc, game, covers, named) {
        Ok(leaves) => leaves,
        Err(_) => return Err(DecideStop::NoMemory),
    };
    let cells = cells(game, &leaves);
    if cells > CELL_LIMIT {
        return Err(DecideStop::TooLarge { cells });
    }
    Ok(leaves)
}

/// What is named of the players where one loose leaf takes the place of player `i`'s cover.
///
/// # Errors
///
/// `Wide` where a question of what is named is stuck. `NoMemory` for want of memory.
pub(crate) fn loosened(
    alloc: Global,
    game: &Game,
    covers: Vec<Tree>,
    i: u32,
    purse: &mut Purse,
) -> Result<Vec<Vec<Named>>, DecideStop>
    requires number { i < length (game_of game.now) }
    requires covers { length covers.items ≡ length (game_of game.now) }
    ensures named { (trees : List TreeOf) → map preorder trees ≡ map nodes_of covers.items
        → IfOk result (λ lists. AreNamedOver (game_of game.now) (set trees i Loose)
        (map named_list lists.items)) }
    ensures cause { IfErr result (IsNamingStop (game_of game.now)) }
    ensures purse { CountsPivotsAlone purse.old purse.new }
{
    // What is read fits its type: the count so far is a `u64`.
    let _pivots = purse.pivots;
    let mut covers = covers;
    let Ok(tree) = loose_tree(alloc) else {
        return Err(DecideStop::NoMemory);
    };
    put_tree(&mut covers, i as usize, tree);
    let Ok(none) = no_names(alloc, game.players.len()) else {
        return Err(DecideStop::NoMemory);
    };
    match leaves_over(alloc, game, &covers, &none) {
        Ok(leaves) => names_over(alloc, game, &covers, &leaves, purse),
        Err(_) => Err(DecideStop::NoMemory),
    }
}

/// Puts the tree in place of number `i`.
fn put_tree(covers: &mut Vec<Tree>, i: usize, tree: Tree)
    requires { i < length covers.old.items }
    ensures { covers.new.items ≡ set covers.old.items i tree }
{
    covers[i] = tree;
}

/// A solution of the system over the leaves, whose named items have narrow rows, or a refutation.
pub(crate) fn solve(
    alloc: Global,
    game: &Game,
    leaves: &Leaves,
    kind: Kind,
    purse: &mut Purse,
) -> Result<Found, DecideStop>
    requires leaves { AreLeaves (game_of game.now) leaves.now }
    requires slots { AreFewSlots (game_of game.now) (content.leaves_of leaves.now) }
    requires cells { cell_count (game_of game.now) (content.leaves_of leaves.now) ≤ 16777216 }
    requires narrow { (w : AWide) → HasWideCoefficient (game_of game.now)
        (content.leaves_of leaves.now) w → ⊥ }
    requires limit { purse.old.limit ≤ 1000000000 }
    ensures found { IfOk result (IsFound (game_of game.now) (content.leaves_of leaves.now) kind
        purse.old purse.new) }
    ensures cause { IfErr result (IsSearchStop (game_of game.now) (content.leaves_of leaves.now)
        kind purse.old purse.new) }
    ensures spends { SpendsCases (game_of game.now) (content.leaves_of leaves.now) kind purse.old
        purse.new }
{
    match search(alloc, game, leaves, kind, purse) {
        Ok(found) => Ok(found),
        Err(CompStop::Spent) => Err(DecideStop::Spent),
        Err(CompStop::Wide(asked)) => Err(DecideStop::Wide(asked)),
        Err(CompStop::NoMemory) => Err(DecideStop::NoMemory),
        // No step of a named item's row is too wide, and no other row has a sum.
        Err(CompStop::WideRow(_)) => unreachable!(),
    }
}
