ghost use Rattle.std.specs.Prelude.{◌≡◌, ◌↔◌, IsOk, IfOk, IfErr};
ghost use Rattle.zr_game.specs.Players.{players_of};
ghost use Rattle.zr_game.specs.Forms.{IsGame};
ghost use Rattle.zr_game.specs.FormLaws.{IsGame-prop};

use crate::form::is_game;
use crate::player::Player;

/// A game of 1 to 16 players, each of whose numbers names something that exists and is within
/// ±1,000,000,000.
#[derive(Debug, Drop)]
pub struct Game {
    /// The players in the order of their numbers.
    pub players: Vec<Player>,
    ghost sound: { IsGame (players_of players.items) } by { IsGame-prop (players_of players.items) },
}

impl Game {
    /// The game of these players.
    ///
    /// Hands the list back exactly where the players break a rule of games: there are 1 to 16
    /// players; each has 1 to 64 variables, at most 256 rows, 32 pairs, 65,536 cross terms and
    /// 65,536 terms in the others' variables; numbers are within ±1,000,000,000, and no upper bound
    /// is below the lower one; terms stand in the order of their variables, which exist, and cross
    /// terms in the order of own variable, player and variable, which exist, with another player;
    /// the others' terms stand in their order, and name variables of other players, a product those
    /// of two; the variable of a pair has the lower bound 0; and no number of a term is 0.
    pub fn new(players: Vec<Player>) -> Result<Game, Vec<Player>>
        ensures valid { IsOk result ↔ IsGame (players_of players.items) }
        ensures ok { IfOk result (λ game. game.players.items ≡ players.items) }
        ensures err { IfErr result (λ list. list.items ≡ players.items) }
    {
        if is_game(&players) {
            Ok(Game { players })
        } else {
            Err(players)
        }
    }
}
