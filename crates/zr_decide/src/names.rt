ghost use Rattle.std.specs.Prelude.{◌≡◌, ◌+◌, ◌*◌, ◌<◌, ◌≤◌, ℕ, IfErr, IfOk, List, true, false, length, map};
ghost use Rattle.zr_game.specs.Games.{game_of};
ghost use Rattle.zr_game.specs.Forms.{IsPlayer};
ghost use Rattle.zr_game.specs.Named.{named_of};
ghost use Rattle.zr_game.specs.Players.{GameOf, PlayerOf};
ghost use Rattle.zr_tree.specs.Nodes.{NodeOf, node_of};
ghost use Rattle.zr_branch.specs.Replies.{CountsPivotsAlone};
ghost use Rattle.zr_cert.specs.Certs.{named_list, nodes_of};
ghost use Rattle.zr_system.specs.Asked.{AreLeaves};
ghost use Rattle.zr_system.specs.Regions.{leaves_of};
ghost use Rattle.zr_system.specs.System.{cell_count};
ghost use Rattle.zr_system.specs.Unknowns.{columns};
ghost use Rattle.zr_decide.specs.Naming.{AreNamings, AreNamingsOver, IsCutNaming, IsLooseList, IsNaming, IsNamingStop};

use crate::stop::DecideStop;
use std::alloc::Global;
use zr_base::NoMemory;
use zr_game::{Game, Named};
use zr_io::Purse;
use zr_naming::{NamingStop, named_items};
use zr_system::{Leaves, cells, unknowns};
use zr_tree::{Node, Tree};

/// The system of a game with more cells isn't built.
pub(crate) const CELL_LIMIT: u128 = 16_777_216;

/// What is named of each player whose cover is one loose leaf, as much as there is room for over
/// the leaves, of which nothing is named.
pub(crate) fn names_over(
    alloc: Global,
    game: &Game,
    covers: &[Tree],
    leaves: &Leaves,
    purse: &mut Purse,
) -> Result<Vec<Vec<Named>>, DecideStop>
    requires covers { length covers.now ≡ length (game_of game.now) }
    requires leaves { AreLeaves (game_of game.now) leaves.now }
    ensures named { IfOk result (λ lists. AreNamingsOver (game_of game.now)
        (map nodes_of covers.now) (leaves_of leaves.now) (map named_list lists.items)) }
    ensures cause { IfErr result (IsNamingStop (game_of game.now)) }
    ensures purse { CountsPivotsAlone purse.old purse.new }
{
    // What is read fits its type: the count so far is a `u64`.
    let _pivots = purse.pivots;
    let Ok(room) = room_in(alloc, game, leaves) else {
        return Err(DecideStop::NoMemory);
    };
    namings(alloc, game, covers, room, purse)
}

/// How many rows more the system over the leaves may have.
fn room_in(alloc: Global, game: &Game, leaves: &Leaves) -> Result<usize, NoMemory>
    requires leaves { AreLeaves (game_of game.now) leaves.now }
    ensures within { IfOk result (λ room.
        cell_count (game_of game.now) (leaves_of leaves.now) ≤ 16777216
        → cell_count (game_of game.now) (leaves_of leaves.now)
        + room * length (columns (game_of game.now) (leaves_of leaves.now)) ≤ 16777216) }
    ensures most { IfOk result (λ room. 16777216
        < cell_count (game_of game.now) (leaves_of leaves.now)
        + room * length (columns (game_of game.now) (leaves_of leaves.now))
        + length (columns (game_of game.now) (leaves_of leaves.now))) }
{
    let order = unknowns(alloc, game, leaves)?;
    let rest = CELL_LIMIT.saturating_sub(cells(game, leaves));
    Ok(rest as usize / order.len())
}

/// What is named of each player whose cover is one loose leaf, as far as there is room in rows.
fn namings(
    alloc: Global,
    game: &Game,
    covers: &[Tree],
    room: usize,
    purse: &mut Purse,
) -> Result<Vec<Vec<Named>>, DecideStop>
    requires covers { length covers.now ≡ length (game_of game.now) }
    ensures named { IfOk result (λ lists. AreNamings (game_of game.now)
        (map nodes_of covers.now) room (map named_list lists.items)) }
    ensures cause { IfErr result (IsNamingStop (game_of game.now)) }
    ensures purse { CountsPivotsAlone purse.old purse.new }
{
    let mut lists = Vec::new(alloc);
    let mut left = room;
    for i in 0..covers.len() {
        let items = match naming(alloc, game, i as u32, &covers[i].nodes, purse) {
            Ok(items) => items,
            Err(stop) => return Err(stop),
        };
        let items = cut(items, left);
        left -= items.len();
        let Ok(()) = lists.push(items) else {
            return Err(DecideStop::NoMemory);
        };
    }
    Ok(lists)
}

/// The first items of the list, at most so many.
fn cut(items: Vec<Named>, most: usize) -> Vec<Named>
    ensures few { length result.items ≤ most }
    ensures cut { (left : ℕ) (game : GameOf) (i : ℕ) (player : PlayerOf) (nodes : List NodeOf)
        → most ≡ length result.items + left
        → IsNaming game i player nodes (map named_of items.items)
        → IsCutNaming left game i player nodes (map named_of result.items) }
{
    let mut items = items;
    items.truncate(most);
    items
}

/// What is named of player `i`, whose cover has these nodes.
fn naming(
    alloc: Global,
    game: &Game,
    i: u32,
    nodes: &[Node],
    purse: &mut Purse,
) -> Result<Vec<Named>, DecideStop>
    requires number { i < length (game_of game.now) }
    ensures named { (player : PlayerOf) → IsPlayer (game_of game.now) i player
        → IfOk result (λ list. IsNaming (game_of game.now) i player (map node_of nodes.now)
        (map named_of list.items)) }
    ensures cause { IfErr result (IsNamingStop (game_of game.now)) }
    ensures purse { CountsPivotsAlone purse.old purse.new }
{
    // What is read fits its type: the count so far is a `u64`.
    let _pivots = purse.pivots;
    if !is_loose(nodes) {
        return Ok(Vec::new(alloc));
    }
    match named_items(alloc, game, i, purse) {
        Ok(items) => Ok(items),
        Err(NamingStop::Wide(asked)) => Err(DecideStop::Wide(asked)),
        Err(NamingStop::NoMemory) => Err(DecideStop::NoMemory),
    }
}

/// Whether the cover is one loose leaf.
fn is_loose(nodes: &[Node]) -> bool
    ensures yes { result ≡ true → IsLooseList (map node_of nodes.now) }
    ensures no { result ≡ false → IsLooseList (map node_of nodes.now) → ⊥ }
{
    nodes.len() == 1 && matches!(nodes[0], Node::Loose)
}
