ghost use Rattle.std.specs.Prelude.{◌<◌, ◌≤◌, IfOk, length};
ghost use Rattle.std.specs.List.{All};
ghost use Rattle.zr_game.specs.Games.{game_of};
ghost use Rattle.zr_cert.specs.Certs.{mixture_of, mixtures_of};
ghost use Rattle.zr_comp.specs.Answers.{IsSolution};
ghost use Rattle.zr_draw.specs.Drawn.{IsDrawnProfile};
ghost use Rattle.zr_draw.specs.Numbers.{HasColumns, numbers_of};
ghost use Rattle.zr_system.specs.Asked.{AreLeaves};
ghost use Rattle.zr_system.specs.Covers.{AreCovers, AreExact};
ghost use Rattle.zr_system.specs.Drawn.{drawn_strategy};
ghost use Rattle.zr_system.specs.Regions.{leaves_of};
ghost use Rattle.zr_system.specs.System.{cell_count};
ghost use Rattle.zr_tidy.specs.Tidy.{AreParts, IsTidied};

use crate::parts::drawn_parts;
use std::alloc::Global;
use zr_base::{NoMemory, Point};
use zr_game::{Game, Kind};
use zr_mix::{Profile, Strategy};
use zr_system::{Leaves, player_count};
use zr_tidy::tidy;

/// The strategy of a player that a solution draws, in the form in which it is printed.
fn strategy_of(
    alloc: Global,
    game: &Game,
    leaves: &Leaves,
    x: &Point,
    i: usize,
) -> Result<Strategy, NoMemory>
    requires leaves { AreLeaves (game_of game.now) leaves.now }
    requires columns { HasColumns (game_of game.now) (leaves_of leaves.now) x.now }
    requires player { i < length (game_of game.now) }
    requires parts { AreParts (drawn_strategy (game_of game.now) (leaves_of leaves.now)
        (numbers_of (game_of game.now) (leaves_of leaves.now) x.now) i) }
    ensures { IfOk result (λ strategy. IsTidied (drawn_strategy (game_of game.now)
        (leaves_of leaves.now) (numbers_of (game_of game.now) (leaves_of leaves.now) x.now) i)
        (mixture_of strategy)) }
{
    let Ok(parts) = drawn_parts(alloc, game, leaves, x, i) else {
        return Err(NoMemory);
    };
    tidy(alloc, &parts)
}

/// The profile that a solution of the system over the leaves draws: each leaf with weight is
/// played with this weight, at its shares over it, in the form in which strategies are printed.
/// It is an equilibrium of the kind.
///
/// The leaves are right covers of the players' feasible points, each of which counts as exact, and
/// the system has at most 16,777,216 cells where no choice is made. The solution's numbers are
/// those of the unknowns, in the order of their columns. A strategy has at most as many parts as
/// there are cells. The call fails for want of memory alone.
pub fn draw(
    alloc: Global,
    game: &Game,
    leaves: &Leaves,
    kind: Kind,
    x: &Point,
) -> Result<Profile, NoMemory>
    requires leaves { AreLeaves (game_of game.now) leaves.now }
    requires covers { AreCovers (game_of game.now) (leaves_of leaves.now) }
    requires exact { AreExact (game_of game.now) (leaves_of leaves.now) }
    requires cells { cell_count (game_of game.now) (leaves_of leaves.now) ≤ 16777216 }
    requires solution { IsSolution (game_of game.now) (leaves_of leaves.now) kind x.now }
    ensures drawn { IfOk result (λ profile. IsDrawnProfile (game_of game.now)
        (leaves_of leaves.now) kind x.now (mixtures_of profile)) }
    ensures few { IfOk result (λ profile. All (λ m. length m.parts ≤ 16777216)
        (mixtures_of profile)) }
{
    let _kind = kind;
    let _denominator = x.den();
    let mut strategies = Vec::new(alloc);
    for i in 0..player_count(game) {
        let strategy = match strategy_of(alloc, game, leaves, x, i) {
            Ok(strategy) => strategy,
            Err(stop) => return Err(stop),
        };
        let Ok(()) = strategies.push(strategy) else {
            return Err(NoMemory);
        };
    }
    Ok(Profile { strategies })
}
