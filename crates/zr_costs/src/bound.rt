ghost use Rattle.std.specs.Prelude.{◌≡◌, ◌<◌, ◌≤◌, length, IfErr, IfOk, List};
ghost use Rattle.zr_game.specs.Games.{game_of};
ghost use Rattle.zr_game.specs.Forms.{IsPlayer};
ghost use Rattle.zr_game.specs.Players.{PlayerOf};
ghost use Rattle.zr_mix.specs.Steps.{var_total};
ghost use Rattle.zr_bnb.specs.Causes.{SpendsWork};
ghost use Rattle.zr_cert.specs.Certs.{MixtureOf, profile_with};
ghost use Rattle.zr_costs.specs.Costs.{AreStableMeans};
ghost use Rattle.zr_costs.specs.Causes.{IsBoundCause};
ghost use Rattle.zr_costs.specs.Halts.{HasLeast, IsBoundBy, IsBoundMade};

use crate::claim::{claim_of, turned};
use crate::stop::{CostStop, Halt, stop_of};
use std::alloc::Global;
use zr_base::Frac;
use zr_bnb::{LeastAnswer, least};
use zr_cert::Bound;
use zr_game::Game;
use zr_io::Purse;

/// What player `i` pays at the means of all players in an equilibrium, with a tree that proves that
/// it can't pay less.
pub(crate) fn bound_at(
    alloc: Global,
    game: &Game,
    i: u32,
    means: &[Frac],
    purse: &mut Purse,
) -> Result<Bound, CostStop>
    requires number { i < length (game_of game.now) }
    requires means { length means.now ≡ var_total (game_of game.now) }
    requires stable { (mixtures : List MixtureOf)
        × AreStableMeans (game_of game.now) mixtures means.now }
    requires limit { purse.old.limit ≤ 1000000000 }
    ensures bound { (mixtures : List MixtureOf)
        → AreStableMeans (game_of game.now) mixtures means.now
        → (player : PlayerOf) → IsPlayer (game_of game.now) i player
        → IfOk result (IsBoundMade player i (profile_with mixtures) purse.old purse.new) }
    ensures cause { (mixtures : List MixtureOf)
        → AreStableMeans (game_of game.now) mixtures means.now
        → (player : PlayerOf) → IsPlayer (game_of game.now) i player
        → IfErr result (IsBoundCause (game_of game.now) mixtures means.now i player
        purse.old purse.new) }
    ensures spends { (player : PlayerOf) → IsPlayer (game_of game.now) i player
        → SpendsWork player purse.old purse.new }
{
    let paid = match claim_of(alloc, game, i, means) {
        Ok(paid) => paid,
        Err(Halt::NoMemory) => return Err(CostStop::NoMemory),
        Err(Halt::Wide(wide)) => return Err(CostStop::Step(wide)),
    };
    let Ok(aim) = turned(alloc, &paid.left) else {
        return Err(CostStop::NoMemory);
    };
    match least(alloc, game, i, &aim, purse) {
        Ok(found) => Ok(bound_by(paid.cost, found)),
        Err(stop) => Err(stop_of(i, stop)),
    }
}

/// The cost, with the tree that was found.
fn bound_by(cost: Frac, found: LeastAnswer) -> Bound
    requires { HasLeast found }
    ensures { IsBoundBy cost found result }
{
    match found {
        LeastAnswer::At {
            point: _,
            value: _,
            tree,
        } => Bound { cost, tree },
        // The player has a point, and its aim falls along no ray.
        LeastAnswer::Empty { tree: _ } | LeastAnswer::Below { base: _, dir: _ } => unreachable!(),
    }
}
