ghost use Rattle.std.specs.Prelude.{◌≡◌, ◌<◌, neg_ℤ, length, IfErr, IfOk, map};
ghost use Rattle.std.specs.List.{All};
ghost use Rattle.zr_base.specs.Steps.{IsNarrow};
ghost use Rattle.zr_game.specs.Games.{game_of};
ghost use Rattle.zr_game.specs.Forms.{IsPlayer};
ghost use Rattle.zr_game.specs.Players.{PlayerOf};
ghost use Rattle.zr_mix.specs.Steps.{var_total};
ghost use Rattle.zr_check.specs.Benches.{GivesCost};
ghost use Rattle.zr_check.specs.Bounds.{cost_steps};
ghost use Rattle.zr_costs.specs.Halts.{IsHalt, IsPaid};

use crate::means::{fractions, own_means, var_count};
use crate::stop::Halt;
use std::alloc::{AllocError, Global};
use zr_base::{Frac, Wide};
use zr_game::Game;
use zr_mix::{claim, rest, slope, value};

/// What a player pays, and the left side of its claim.
#[derive(Drop)]
pub(crate) struct Paid {
    pub(crate) cost: Frac,
    pub(crate) left: Vec<i128>,
}

/// What player `i` pays at the means of all players, and its claim.
pub(crate) fn claim_of(alloc: Global, game: &Game, i: u32, means: &[Frac]) -> Result<Paid, Halt>
    requires number { i < length (game_of game.now) }
    requires means { length means.now ≡ var_total (game_of game.now) }
    ensures ok { (player : PlayerOf) → IsPlayer (game_of game.now) i player
        → IfOk result (IsPaid (game_of game.now) i player means.now) }
    ensures err { (player : PlayerOf) → IsPlayer (game_of game.now) i player
        → IfErr result (IsHalt (cost_steps (game_of game.now) player i means.now)) }
{
    let count = var_count(game, i);
    let Ok(mut slopes) = fractions(alloc, count) else {
        return Err(Halt::NoMemory);
    };
    let Ok(mut left) = vec![in alloc; 0; count] else {
        return Err(Halt::NoMemory);
    };
    match write_claim(game, i, means, &mut slopes, &mut left) {
        Ok((cost, _)) => Ok(Paid { cost, left }),
        Err(wide) => Err(Halt::Wide(wide)),
    }
}

/// The cost of player `i` at the means, and the right side of its claim, whose left side is put
/// into `left`. `slopes` is room for a number per variable.
fn write_claim(
    game: &Game,
    i: u32,
    means: &[Frac],
    slopes: &mut [Frac],
    left: &mut [i128],
) -> Result<(Frac, i128), Wide>
    requires number { i < length (game_of game.now) }
    requires means { length means.now ≡ var_total (game_of game.now) }
    requires slopes { (player : PlayerOf) → IsPlayer (game_of game.now) i player
        → length slopes.old ≡ length player.vars }
    requires left { (player : PlayerOf) → IsPlayer (game_of game.now) i player
        → length left.old ≡ length player.vars }
    ensures { (player : PlayerOf) → IsPlayer (game_of game.now) i player
        → GivesCost (cost_steps (game_of game.now) player i means.now) result left.new }
{
    slope(game, i, means, slopes)?;
    let value = value(slopes, own_means(game, i, means))?;
    let cost = value.add(rest(game, i, means)?)?;
    let right = claim(slopes, value, left)?;
    Ok((cost, right))
}

/// The numbers with their signs turned.
pub(crate) fn turned(alloc: Global, numbers: &[i128]) -> Result<Vec<i128>, AllocError>
    requires { All IsNarrow numbers.now }
    ensures { IfOk result (λ list. list.items ≡ map neg_ℤ numbers.now) }
{
    let mut list = Vec::new(alloc);
    for number in numbers {
        list.push(-*number)?;
    }
    Ok(list)
}
