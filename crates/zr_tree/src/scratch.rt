ghost use Rattle.std.specs.Prelude.{◌≡◌, ◌≤◌, IfOk, length};
ghost use Rattle.zr_game.specs.Players.{players_of};
ghost use Rattle.zr_game.specs.Games.{game_of};
ghost use Rattle.zr_tree.specs.Scratches.{most_pairs, most_vars};

use crate::path::{Frame, Path};
use std::alloc::Global;
use std::marker::Model;
use zr_base::NoMemory;
use zr_game::{Game, Leaf, Player, Side};

/// Room for the calls that check trees: it takes memory once and serves many calls.
#[derive(Drop)]
pub struct Scratch {
    pub(crate) room: Room,
}

#[derive(Drop)]
pub(crate) struct Room {
    pub(crate) path: Path,
    /// A sum for each column.
    pub(crate) sums: Vec<i128>,
}

impl Model for Scratch {
    ghost use Rattle.zr_tree.specs.Scratches.{Places};
    ghost use Rattle.zr_tree.specs.Rooms.{IsRoom, places_of};

    ghost Value = { Places };

    ghost view = { λ s. places_of s.room };

    ghost invariant = { λ s. IsRoom s.room };
}

impl Scratch {
    /// Room for trees of so many nodes over the players of the game, and for rows of so many
    /// columns.
    pub fn new(
        alloc: Global,
        game: &Game,
        nodes: usize,
        columns: usize,
    ) -> Result<Scratch, NoMemory>
        ensures { IfOk result (λ scratch. scratch ≡ record {
          nodes = nodes;
          columns = columns;
          vars = most_vars (game_of game.now);
          pairs = most_pairs (game_of game.now);
        }) }
    {
        let vars = greatest_vars(&game.players);
        let pairs = greatest_pairs(&game.players);
        let low = vec![in alloc; None; vars].map_err(|_| NoMemory)?;
        let high = vec![in alloc; None; vars].map_err(|_| NoMemory)?;
        let sides = vec![in alloc; Side::Undecided; pairs].map_err(|_| NoMemory)?;
        let frames = vec![in alloc; Frame::SecondOfChoice { pair: 0 }; nodes].map_err(
            |_| NoMemory,
        )?;
        let sums = vec![in alloc; 0; columns].map_err(|_| NoMemory)?;
        let leaf = Leaf { low, high, sides };
        let path = Path {
            leaf,
            frames,
            depth: 0,
        };
        Ok(Scratch {
            room: Room { path, sums },
        })
    }
}

/// The greatest number of variables among the players.
fn greatest_vars(players: &[Player]) -> usize
    ensures { result ≡ most_vars (players_of players.now) }
{
    let mut most = 0;
    for player in players {
        most = player.vars.len().max(most);
    }
    most
}

/// The greatest number of pairs among the players.
fn greatest_pairs(players: &[Player]) -> usize
    ensures { result ≡ most_pairs (players_of players.now) }
{
    let mut most = 0;
    for player in players {
        most = player.pairs.len().max(most);
    }
    most
}
