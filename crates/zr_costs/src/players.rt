ghost use Rattle.std.specs.Prelude.{◌≡◌, ◌≤◌, Ok, IfOk, IfErr, length, map};
ghost use Rattle.zr_game.specs.Equilibria.{IsEquilibrium};
ghost use Rattle.zr_game.specs.Games.{game_of};
ghost use Rattle.zr_cert.specs.Certs.{bound_of, mixtures_of, profile_with};
ghost use Rattle.zr_mix.specs.Steps.{var_total};
ghost use Rattle.zr_best.specs.Best.{ArePlayed};
ghost use Rattle.zr_best.specs.Works.{SpendsBestWork};
ghost use Rattle.zr_costs.specs.Costs.{AreRightBounds, AreStableMeans, HaveFewNodes};
ghost use Rattle.zr_costs.specs.Causes.{IsCostCause};
ghost use Rattle.zr_costs.specs.Drawn.{AreDrawnBounds};

use crate::bound::bound_at;
use crate::means::means_of;
use crate::stop::{CostStop, Halt};
use std::alloc::Global;
use zr_base::Frac;
use zr_cert::Bound;
use zr_game::Game;
use zr_io::Purse;
use zr_mix::Profile;

/// What each player pays in an equilibrium, in the players' order, each with a tree that proves
/// that it can't pay less.
///
/// The profile is an equilibrium. Its strategies have the sums of their weights as their totals.
/// One purse pays the splits of all players' searches; its limit is at most 1,000,000,000. The
/// trees have together at most one node for each player, and two for each branch that was spent.
/// Each tree is open, and its multipliers are drawn from questions of the player's points whose aim
/// is the left side of its claim with the signs turned, zero, or plus or minus one variable.
///
/// # Errors
///
/// `Spent` where a split is due and the purse is at its limit: open trees, one per player, then
/// have together more units than the purse had left. `Wide` where a linear program is stuck, and
/// `Step` where a step of a mean, a slope, a value along it, a cost or a claim is too wide.
/// `Endless` where a ray of the relaxation changes a whole variable and the least value along the
/// slope is open. `NoMemory` for want of memory.
pub fn bounds(
    alloc: Global,
    game: &Game,
    profile: &Profile,
    purse: &mut Purse,
) -> Result<Vec<Bound>, CostStop>
    requires played { ArePlayed (game_of game.now) (mixtures_of profile.now) }
    requires equilibrium { IsEquilibrium (game_of game.now)
        (profile_with (mixtures_of profile.now)) }
    requires limit { purse.old.limit ≤ 1000000000 }
    ensures bounds { IfOk result (λ bounds. AreRightBounds (game_of game.now)
        (profile_with (mixtures_of profile.now)) (map bound_of bounds.items)) }
    ensures drawn { IfOk result (λ bounds. AreDrawnBounds (game_of game.now)
        (profile_with (mixtures_of profile.now)) (map bound_of bounds.items)) }
    ensures few { IfOk result (λ bounds. HaveFewNodes (game_of game.now) purse.old purse.new
        (map bound_of bounds.items)) }
    ensures cause { IfErr result (IsCostCause (game_of game.now) (mixtures_of profile.now)
        purse.old purse.new) }
    ensures spends { SpendsBestWork (game_of game.now) purse.old purse.new }
{
    let means = match means_of(alloc, game, &profile.strategies) {
        Ok(means) => means,
        Err(Halt::NoMemory) => return Err(CostStop::NoMemory),
        Err(Halt::Wide(wide)) => return Err(CostStop::Step(wide)),
    };
    bounds_at(alloc, game, profile, &means, purse)
}

/// The players' bounds at the means of this profile.
fn bounds_at(
    alloc: Global,
    game: &Game,
    profile: &Profile,
    means: &[Frac],
    purse: &mut Purse,
) -> Result<Vec<Bound>, CostStop>
    requires stable { AreStableMeans (game_of game.now) (mixtures_of profile.now) means.now }
    requires len { length means.now ≡ var_total (game_of game.now) }
    requires limit { purse.old.limit ≤ 1000000000 }
    ensures bounds { IfOk result (λ bounds. AreRightBounds (game_of game.now)
        (profile_with (mixtures_of profile.now)) (map bound_of bounds.items)) }
    ensures drawn { IfOk result (λ bounds. AreDrawnBounds (game_of game.now)
        (profile_with (mixtures_of profile.now)) (map bound_of bounds.items)) }
    ensures few { IfOk result (λ bounds. HaveFewNodes (game_of game.now) purse.old purse.new
        (map bound_of bounds.items)) }
    ensures cause { IfErr result (IsCostCause (game_of game.now) (mixtures_of profile.now)
        purse.old purse.new) }
    ensures spends { SpendsBestWork (game_of game.now) purse.old purse.new }
{
    let mut bounds = Vec::new(alloc);
    for i in 0..game.players.len() {
        let bound = match bound_at(alloc, game, i as u32, means, purse) {
            Ok(bound) => bound,
            Err(stop) => return Err(stop),
        };
        let Ok(()) = bounds.push(bound) else {
            return Err(CostStop::NoMemory);
        };
    }
    Ok(bounds)
}
