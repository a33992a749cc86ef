ghost use Rattle.std.specs.Prelude.{◌≡◌, ◌<◌, ◌≤◌, Ok, length, IfErr, IfOk, List, pos, ◌<ℤ◌};
ghost use Rattle.zr_base.specs.Fractions.{whole};
ghost use Rattle.zr_base.specs.Points.{PointOf};
ghost use Rattle.zr_base.specs.Steps.{IsNarrow};
ghost use Rattle.zr_game.specs.Games.{game_of};
ghost use Rattle.zr_game.specs.Feasible.{IsFeasible};
ghost use Rattle.zr_game.specs.Forms.{IsPlayer};
ghost use Rattle.zr_game.specs.Players.{PlayerOf};
ghost use Rattle.zr_mix.specs.Steps.{var_total};
ghost use Rattle.zr_bnb.specs.Causes.{SpendsWork};
ghost use Rattle.zr_cert.specs.Certs.{MixtureOf, profile_with};
ghost use Rattle.zr_check.specs.Bounds.{all_means};
ghost use Rattle.zr_best.specs.Aims.{least_cost};
ghost use Rattle.zr_best.specs.Best.{ArePlayed, IsBestAnswer};
ghost use Rattle.zr_best.specs.Causes.{IsAnswerCause};
ghost use Rattle.zr_best.specs.Tellings.{IsTold};
ghost use Rattle.zr_bnb.specs.declared.answer.LeastAnswer.TheVariants.{Empty};
ghost use Rattle.zr_tree.specs.declared.tree.Tree.{Tree};

use crate::aim::aim_of;
use crate::stop::{BestStop, Halt, stop_of};
use std::alloc::Global;
use zr_base::{Frac, Wide};
use zr_bnb::{LeastAnswer, least};
use zr_game::Game;
use zr_io::Purse;
use zr_mix::rest;
use zr_report::Answer;

/// What player `i` can get at best at the means of all players.
pub(crate) fn answer_of(
    alloc: Global,
    game: &Game,
    i: u32,
    means: &[Frac],
    purse: &mut Purse,
) -> Result<Answer, BestStop>
    requires number { i < length (game_of game.now) }
    requires means { length means.now ≡ var_total (game_of game.now) }
    requires some { (player : PlayerOf) → IsPlayer (game_of game.now) i player
        → (x : PointOf) × IsFeasible player x }
    requires limit { purse.old.limit ≤ 1000000000 }
    ensures answer { (mixtures : List MixtureOf) → ArePlayed (game_of game.now) mixtures
        → all_means (game_of game.now) mixtures ≡ Ok means.now
        → (player : PlayerOf) → IsPlayer (game_of game.now) i player
        → IfOk result (IsBestAnswer player i (profile_with mixtures)) }
    ensures cause { (mixtures : List MixtureOf) → ArePlayed (game_of game.now) mixtures
        → all_means (game_of game.now) mixtures ≡ Ok means.now
        → (player : PlayerOf) → IsPlayer (game_of game.now) i player
        → IfErr result (IsAnswerCause (game_of game.now) mixtures means.now i player
        purse.old purse.new) }
    ensures spends { (player : PlayerOf) → IsPlayer (game_of game.now) i player
        → SpendsWork player purse.old purse.new }
{
    let aim = match aim_of(alloc, game, i, means) {
        Ok(aim) => aim,
        Err(Halt::NoMemory) => return Err(BestStop::NoMemory),
        Err(Halt::Wide(wide)) => return Err(BestStop::Step(wide)),
    };
    let found = match least(alloc, game, i, &aim.numbers, purse) {
        Ok(found) => found,
        Err(stop) => return Err(stop_of(i, stop)),
    };
    told(game, i, means, aim.by, found)
}

/// The answer of player `i` where that was found of its slope times `by`.
fn told(
    game: &Game,
    i: u32,
    means: &[Frac],
    by: i128,
    found: LeastAnswer,
) -> Result<Answer, BestStop>
    requires number { i < length (game_of game.now) }
    requires means { length means.now ≡ var_total (game_of game.now) }
    requires positive { pos 0 <ℤ by }
    requires narrow { IsNarrow by }
    requires some { (tree : Tree) → found ≡ Empty tree → ⊥ }
    ensures { (player : PlayerOf) → IsPlayer (game_of game.now) i player
        → IsTold (game_of game.now) player means.now by found result }
{
    match found {
        LeastAnswer::At { point, value, tree } => {
            drop(point);
            match cost_of(game, i, means, value, by) {
                Ok(cost) => Ok(Answer::Least { cost, tree }),
                Err(wide) => Err(BestStop::Step(wide)),
            }
        }
        LeastAnswer::Below { base, dir } => Ok(Answer::Below { base, dir }),
        // The player has a point.
        LeastAnswer::Empty { tree: _ } => unreachable!(),
    }
}

/// The cost of player `i` where `least` is the least value of its slope times `by`.
fn cost_of(game: &Game, i: u32, means: &[Frac], least: Frac, by: i128) -> Result<Frac, Wide>
    requires number { i < length (game_of game.now) }
    requires means { length means.now ≡ var_total (game_of game.now) }
    requires positive { pos 0 <ℤ by }
    requires narrow { IsNarrow by }
    ensures { (player : PlayerOf) → IsPlayer (game_of game.now) i player
        → result ≡ least_cost (game_of game.now) player means.now by least }
{
    let value = least.div(whole(by))?;
    let others = rest(game, i, means)?;
    value.add(others)
}

/// A whole number above 0 as a fraction.
fn whole(number: i128) -> Frac
    requires positive { pos 0 <ℤ number }
    requires narrow { IsNarrow number }
    ensures { result ≡ whole number }
{
    Frac::new(number, 1).unwrap()
}
