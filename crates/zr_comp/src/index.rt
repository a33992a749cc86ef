ghost use Rattle.std.specs.Prelude.{◌≡◌, ◌<◌, length};
ghost use Rattle.zr_game.specs.Games.{game_of};
ghost use Rattle.zr_system.specs.Regions as content;
ghost use Rattle.zr_system.specs.Regions.{leaves_of};
ghost use Rattle.zr_system.specs.Asked.{AreLeaves, LeafExists};
ghost use Rattle.zr_comp.specs.Cases.{AreFewSlots};

use zr_game::Game;
use zr_system::{Leaves, leaf_count, player_count, slot_count};

/// A player's number as choices have it.
pub(crate) fn player_index(game: &Game, i: usize) -> u32
    requires { i < length (game_of game.now) }
    ensures { result ≡ i }
{
    let _count = player_count(game);
    i as u32
}

/// A leaf's number as choices have it.
pub(crate) fn leaf_index(game: &Game, leaves: &Leaves, i: usize, k: usize) -> u32
    requires leaves { AreLeaves (game_of game.now) leaves.now }
    requires leaf { LeafExists (game_of game.now) (leaves_of leaves.now) i k }
    ensures { result ≡ k }
{
    let _count = leaf_count(game, leaves, i);
    k as u32
}

/// A slot's number as choices have it.
pub(crate) fn slot_index(game: &Game, leaves: &Leaves, i: usize, k: usize, s: usize) -> u32
    requires leaves { AreLeaves (game_of game.now) leaves.now }
    requires few { AreFewSlots (game_of game.now) (leaves_of leaves.now) }
    requires leaf { LeafExists (game_of game.now) (leaves_of leaves.now) i k }
    requires slot { s < content.slot_count (game_of game.now) (leaves_of leaves.now) i k }
    ensures { result ≡ s }
{
    let _count = slot_count(game, leaves, i, k);
    s as u32
}
