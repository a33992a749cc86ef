ghost use Rattle.std.specs.Prelude.{◌≡◌, ◌<◌, neg_ℤ, length, IfErr, IfOk, map};
ghost use Rattle.std.specs.List.{All};
ghost use Rattle.zr_base.specs.Steps.{IsNarrow};
ghost use Rattle.zr_game.specs.Games.{game_of};
ghost use Rattle.zr_game.specs.Forms.{IsPlayer};
ghost use Rattle.zr_game.specs.Players.{PlayerOf};
ghost use Rattle.zr_mix.specs.Steps.{var_total};
ghost use Rattle.zr_best.specs.Aims.{slope_claim};
ghost use Rattle.zr_best.specs.Halts.{IsAim, IsHalt};

use crate::means::fractions;
use crate::stop::Halt;
use std::alloc::{AllocError, Global};
use zr_base::Frac;
use zr_game::Game;
use zr_mix::{claim, slope};

/// A slope over the least common multiple of its denominators.
#[derive(Drop)]
pub(crate) struct Aim {
    /// The slope times `by`.
    pub(crate) numbers: Vec<i128>,
    /// The least common multiple.
    pub(crate) by: i128,
}

/// The aim of player `i` at the means of all players.
pub(crate) fn aim_of(alloc: Global, game: &Game, i: u32, means: &[Frac]) -> Result<Aim, Halt>
    requires number { i < length (game_of game.now) }
    requires means { length means.now ≡ var_total (game_of game.now) }
    ensures ok { (player : PlayerOf) → IsPlayer (game_of game.now) i player
        → IfOk result (IsAim (game_of game.now) player means.now) }
    ensures err { (player : PlayerOf) → IsPlayer (game_of game.now) i player
        → IfErr result (IsHalt (slope_claim (game_of game.now) player means.now)) }
{
    let count = game.players[i as usize].vars.len();
    let Ok(mut slopes) = fractions(alloc, count) else {
        return Err(Halt::NoMemory);
    };
    if let Err(wide) = slope(game, i, means, &mut slopes) {
        return Err(Halt::Wide(wide));
    }
    let Ok(mut left) = vec![in alloc; 0; count] else {
        return Err(Halt::NoMemory);
    };
    match claim(&slopes, Frac::from(1), &mut left) {
        Ok(right) => match turned(alloc, &left) {
            // The claim with 1 has on its right side the common multiple, with its sign turned.
            Ok(numbers) => Ok(Aim {
                numbers,
                by: -right,
            }),
            Err(_) => Err(Halt::NoMemory),
        },
        Err(wide) => Err(Halt::Wide(wide)),
    }
}

/// The numbers with their signs turned.
fn turned(alloc: Global, numbers: &[i128]) -> Result<Vec<i128>, AllocError>
    requires { All IsNarrow numbers.now }
    ensures { IfOk result (λ list. list.items ≡ map neg_ℤ numbers.now) }
{
    let mut list = Vec::new(alloc);
    for number in numbers {
        list.push(-*number)?;
    }
    Ok(list)
}
