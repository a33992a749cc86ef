ghost use Rattle.std.specs.Prelude.{◌≡◌, ◌<◌, ◌≤◌, ◌^◌, length};
ghost use Rattle.zr_game.specs.Games.{game_of};
ghost use Rattle.zr_mix.specs.Steps.{mean_in, place_of};
ghost use Rattle.zr_mix.specs.Values.{HasMean};

use zr_base::Frac;
use zr_game::Game;

/// The mean of a player's variable, in the list of the means of all players, one after another.
pub(crate) fn mean_of(game: &Game, means: &[Frac], at: (u32, u32)) -> Frac
    requires { HasMean (game_of game.now) means.now at }
    ensures { result ≡ mean_in (game_of game.now) means.now at }
{
    means[place(game, at.0 as usize, at.1 as usize)]
}

/// The place of variable `v` of player `k` among the variables of all players.
fn place(game: &Game, k: usize, v: usize) -> usize
    requires player { k ≤ length (game_of game.now) }
    requires fits { place_of (game_of game.now) k v < 2 ^ 64 }
    ensures { result ≡ place_of (game_of game.now) k v }
{
    let mut before = 0;
    for player in &game.players[..k] {
        before += player.vars.len();
    }
    before + v
}
