ghost use Rattle.std.specs.Prelude.{◌≡◌, ◌≤◌, ◌<◌, Ok, length, IfErr, IfOk, map};
ghost use Rattle.zr_game.specs.Games.{game_of};
ghost use Rattle.zr_game.specs.Forms.{IsPlayer};
ghost use Rattle.zr_game.specs.Players.{PlayerOf};
ghost use Rattle.zr_game.specs.Profiles.{IsStrategy};
ghost use Rattle.zr_mix.specs.Mixtures.{parts_of};
ghost use Rattle.zr_mix.specs.Steps.{place_of, var_total};
ghost use Rattle.zr_cert.specs.Certs.{mixture_of};
ghost use Rattle.zr_cert.specs.Forms.{IsMixtureForm};
ghost use Rattle.zr_check.specs.Bounds.{all_means, own_means as means_of_player};
ghost use Rattle.zr_check.specs.Parts.{mean_list};
ghost use Rattle.zr_best.specs.Best.{ArePlayed};
ghost use Rattle.zr_costs.specs.Halts.{IsHalt};

use crate::stop::Halt;
use std::alloc::{AllocError, Global};
use zr_base::Frac;
use zr_game::Game;
use zr_mix::{Strategy, means};

/// The means of all players, one after another.
pub(crate) fn means_of(
    alloc: Global,
    game: &Game,
    strategies: &[Strategy],
) -> Result<Vec<Frac>, Halt>
    requires { ArePlayed (game_of game.now) (map mixture_of strategies.now) }
    ensures ok { IfOk result (λ list. all_means (game_of game.now)
        (map mixture_of strategies.now) ≡ Ok list.items) }
    ensures len { IfOk result (λ list. length list.items ≡ var_total (game_of game.now)) }
    ensures err { IfErr result (IsHalt (all_means (game_of game.now)
        (map mixture_of strategies.now))) }
{
    let mut all = Vec::new(alloc);
    for i in 0..strategies.len() {
        let own = match strategy_means(alloc, game, i, &strategies[i]) {
            Ok(own) => own,
            Err(halt) => return Err(halt),
        };
        let Ok(()) = all.extend_from_slice(&own) else {
            return Err(Halt::NoMemory);
        };
    }
    Ok(all)
}

/// The means of player `i`'s strategy.
fn strategy_means(
    alloc: Global,
    game: &Game,
    i: usize,
    strategy: &Strategy,
) -> Result<Vec<Frac>, Halt>
    requires number { i < length (game_of game.now) }
    requires form { IsMixtureForm (mixture_of strategy.now) }
    requires strategy { (player : PlayerOf) → IsPlayer (game_of game.now) i player
        → IsStrategy player (parts_of strategy.now) }
    ensures ok { (player : PlayerOf) → IsPlayer (game_of game.now) i player
        → IfOk result (λ list. mean_list player (mixture_of strategy.now) ≡ Ok list.items) }
    ensures err { (player : PlayerOf) → IsPlayer (game_of game.now) i player
        → IfErr result (IsHalt (mean_list player (mixture_of strategy.now))) }
{
    let mut own = match fractions(alloc, game.players[i].vars.len()) {
        Ok(own) => own,
        Err(_) => return Err(Halt::NoMemory),
    };
    match means(strategy, &mut own) {
        Ok(()) => Ok(own),
        Err(wide) => Err(Halt::Wide(wide)),
    }
}

/// So many fractions.
pub(crate) fn fractions(alloc: Global, count: usize) -> Result<Vec<Frac>, AllocError>
    ensures { IfOk result (λ list. length list.items ≡ count) }
{
    vec![in alloc; Frac::from(0); count]
}

/// The means of player `i`, of those of all players.
pub(crate) fn own_means<'a>(game: &Game, i: u32, means: &'a [Frac]) -> &'a [Frac]
    requires number { i < length (game_of game.now) }
    requires means { length means.now ≡ var_total (game_of game.now) }
    ensures list { (player : PlayerOf) → IsPlayer (game_of game.now) i player
        → result.now ≡ means_of_player (game_of game.now) player i means.now }
    ensures len { (player : PlayerOf) → IsPlayer (game_of game.now) i player
        → length result.now ≡ length player.vars }
{
    let from = place(game, i as usize);
    &means[from..from + var_count(game, i)]
}

/// The place of the first variable of player `k` among the variables of all players.
fn place(game: &Game, k: usize) -> usize
    requires { k ≤ length (game_of game.now) }
    ensures { result ≡ place_of (game_of game.now) k 0 }
{
    let mut before = 0;
    for player in &game.players[..k] {
        before += player.vars.len();
    }
    before
}

/// How many variables player `i` has.
pub(crate) fn var_count(game: &Game, i: u32) -> usize
    requires { i < length (game_of game.now) }
    ensures { (player : PlayerOf) → IsPlayer (game_of game.now) i player
        → result ≡ length player.vars }
{
    game.players[i as usize].vars.len()
}
