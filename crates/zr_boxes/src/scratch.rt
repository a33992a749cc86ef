ghost use Rattle.std.specs.Prelude.{◌≡◌, IfOk, map};
ghost use Rattle.zr_game.specs.Games.{game_of};
ghost use Rattle.zr_boxes.specs.Places.{leaf_size, player_size};

use crate::path::{Frame, Path};
use std::alloc::Global;
use std::marker::Model;
use zr_base::NoMemory;
use zr_game::{Game, Leaf};

/// Room for the checks of box trees: it takes memory once and serves many calls.
#[derive(Drop)]
pub struct BoxScratch {
    pub(crate) path: Path,
}

impl Model for BoxScratch {
    ghost use Rattle.zr_boxes.specs.Places.{BoxPlaces};
    ghost use Rattle.zr_boxes.specs.Paths.{places_of};

    ghost Value = { BoxPlaces };

    ghost view = { λ s. places_of s.path };
}

impl BoxScratch {
    /// Room for box trees of so many nodes over the players of the game.
    pub fn new(alloc: Global, game: &Game, nodes: usize) -> Result<BoxScratch, NoMemory>
        ensures { IfOk result (λ scratch. scratch ≡ record {
          nodes = nodes;
          leaves = map player_size (game_of game.now);
        }) }
    {
        let leaves = root_leaves(alloc, game)?;
        let first = Frame::Second {
            player: 0,
            var: 0,
            low: None,
        };
        let frames = vec![in alloc; first; nodes].map_err(|_| NoMemory)?;
        let path = Path {
            leaves,
            frames,
            depth: 0,
        };
        Ok(BoxScratch { path })
    }
}

/// A leaf of each player.
fn root_leaves(alloc: Global, game: &Game) -> Result<Vec<Leaf>, NoMemory>
    ensures { IfOk result (λ leaves. map leaf_size leaves.items
        ≡ map player_size (game_of game.now)) }
{
    let mut leaves = Vec::new(alloc);
    for i in 0..game.players.len() {
        let leaf = Leaf::root(alloc, game, i as u32)?;
        let Ok(()) = leaves.push(leaf) else {
            return Err(NoMemory);
        };
    }
    Ok(leaves)
}
