ghost use Rattle.std.specs.Prelude.{◌≡◌, ◌≤◌, Ok, IfErr, IfOk, length};
ghost use Rattle.zr_game.specs.Games.{game_of};
ghost use Rattle.zr_cert.specs.Certs.{mixtures_of, profile_with};
ghost use Rattle.zr_best.specs.Best.{ArePlayed, AreBestAnswers};
ghost use Rattle.zr_best.specs.Causes.{IsBestCause};
ghost use Rattle.zr_check.specs.Bounds.{all_means};
ghost use Rattle.zr_mix.specs.Steps.{var_total};
ghost use Rattle.zr_best.specs.Works.{SpendsBestWork};

use crate::answer::answer_of;
use crate::means::means_of;
use crate::stop::{BestStop, Halt};
use std::alloc::Global;
use zr_base::Frac;
use zr_game::Game;
use zr_io::Purse;
use zr_mix::Profile;
use zr_report::Answer;

/// The least cost of each player against the others' strategies in a profile, in the players' order,
/// each with a tree that proves it; or a ray along which the cost falls without end.
///
/// The strategies are feasible, each with the sum of its weights as its total, and there is one for
/// each player. One purse pays the splits of all players' searches; its limit is at most
/// 1,000,000,000.
///
/// # Errors
///
/// `Spent` where a split is due and the purse is at its limit: open trees, one per player, then have
/// together more units than the purse had left. `Wide` where a linear program is stuck, and `Step`
/// where a step of a mean, a slope, its claim or a cost is too wide. `Endless` where a ray of the
/// relaxation changes a whole variable and the least value along the slope is open. `NoMemory` for
/// want of memory.
pub fn best(
    alloc: Global,
    game: &Game,
    profile: &Profile,
    purse: &mut Purse,
) -> Result<Vec<Answer>, BestStop>
    requires played { ArePlayed (game_of game.now) (mixtures_of profile.now) }
    requires limit { purse.old.limit ≤ 1000000000 }
    ensures answers { IfOk result (λ answers. AreBestAnswers (game_of game.now)
        (profile_with (mixtures_of profile.now)) answers.items) }
    ensures cause { IfErr result (IsBestCause (game_of game.now) (mixtures_of profile.now)
        purse.old purse.new) }
    ensures spends { SpendsBestWork (game_of game.now) purse.old purse.new }
{
    let means = match means_of(alloc, game, &profile.strategies) {
        Ok(means) => means,
        Err(Halt::NoMemory) => return Err(BestStop::NoMemory),
        Err(Halt::Wide(wide)) => return Err(BestStop::Step(wide)),
    };
    answers_at(alloc, game, profile, &means, purse)
}

/// The players' answers at these means.
fn answers_at(
    alloc: Global,
    game: &Game,
    profile: &Profile,
    means: &[Frac],
    purse: &mut Purse,
) -> Result<Vec<Answer>, BestStop>
    requires played { ArePlayed (game_of game.now) (mixtures_of profile.now) }
    requires means { all_means (game_of game.now) (mixtures_of profile.now) ≡ Ok means.now }
    requires len { length means.now ≡ var_total (game_of game.now) }
    requires limit { purse.old.limit ≤ 1000000000 }
    ensures answers { IfOk result (λ answers. AreBestAnswers (game_of game.now)
        (profile_with (mixtures_of profile.now)) answers.items) }
    ensures cause { IfErr result (IsBestCause (game_of game.now) (mixtures_of profile.now)
        purse.old purse.new) }
    ensures spends { SpendsBestWork (game_of game.now) purse.old purse.new }
{
    let mut answers = Vec::new(alloc);
    for i in 0..game.players.len() {
        let answer = match answer_of(alloc, game, i as u32, means, purse) {
            Ok(answer) => answer,
            Err(stop) => return Err(stop),
        };
        let Ok(()) = answers.push(answer) else {
            return Err(BestStop::NoMemory);
        };
    }
    Ok(answers)
}
