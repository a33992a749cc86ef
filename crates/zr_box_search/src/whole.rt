ghost use Rattle.std.specs.Prelude.{◌≡◌, true, false};
ghost use Rattle.zr_game.specs.Games.{game_of};
ghost use Rattle.zr_game.specs.Players.{player_of, var_of};
ghost use Rattle.zr_box_search.specs.Whole.{HasOpenPlayer, IsBoxGame, IsBoxPlayer, IsBoxVar, IsOpenPlayer, IsOpenVar};

use zr_game::{Game, Player, Var};

/// Whether box trees are searched for the game: each variable is whole and has both bounds, and
/// there is no pair.
pub(crate) fn is_box_game(game: &Game) -> bool
    ensures yes { result ≡ true → IsBoxGame (game_of game.now) }
    ensures no { result ≡ false → HasOpenPlayer (game_of game.now) }
{
    for player in &game.players {
        if !is_box_player(player) {
            return false;
        }
    }
    true
}

fn is_box_player(player: &Player) -> bool
    ensures yes { result ≡ true → IsBoxPlayer (player_of player.now) }
    ensures no { result ≡ false → IsOpenPlayer (player_of player.now) }
{
    if !player.pairs.is_empty() {
        return false;
    }
    for var in &player.vars {
        if !is_box_var(var) {
            return false;
        }
    }
    true
}

fn is_box_var(var: &Var) -> bool
    ensures yes { result ≡ true → IsBoxVar (var_of var.now) }
    ensures no { result ≡ false → IsOpenVar (var_of var.now) }
{
    if !var.whole {
        return false;
    }
    var.low.is_some() && var.up.is_some()
}
