ghost use Rattle.std.specs.Prelude.{◌≡◌, ◌<◌, pos, length, IfOk};
ghost use Rattle.std.specs.List.{All};
ghost use Rattle.zr_base.specs.Fractions.{IsSame, sum_over, whole};
ghost use Rattle.zr_base.specs.Lowest.{IsLowest};
ghost use Rattle.zr_game.specs.Players.{PlayerOf};
ghost use Rattle.zr_game.specs.Games.{game_of};
ghost use Rattle.zr_game.specs.Forms.{IsPlayer};
ghost use Rattle.zr_game.specs.Costs.{other_at, rest_at};
ghost use Rattle.zr_game.specs.CostSteps.{sum_made};
ghost use Rattle.zr_game.specs.Profiles.{Profile as ProfileOf};
ghost use Rattle.zr_game.specs.Means.{rest as rest_of};
ghost use Rattle.zr_mix.specs.Steps.{mean_in, rest_steps, rest_term, var_total};
ghost use Rattle.zr_mix.specs.Values.{AreMeans, HasMeans, IsReduced};

use crate::place::mean_of;
use zr_base::{Frac, Wide};
use zr_game::{Game, Other};

/// What the terms in the others' variables alone of player `i`, which is below the number of
/// players, sum up to at the means of all players, one after another.
///
/// The terms are added in their order, from 0, each of which is its number times the first mean,
/// and then times the second. The answer is the first product or sum that is too wide, where there
/// is one.
pub fn rest(game: &Game, i: u32, means: &[Frac]) -> Result<Frac, Wide>
    requires number { i < length (game_of game.now) }
    requires means { length means.now ≡ var_total (game_of game.now) }
    ensures steps { (player : PlayerOf) → IsPlayer (game_of game.now) i player
        → result ≡ rest_steps (game_of game.now) player means.now }
    ensures at { (player : PlayerOf) → IsPlayer (game_of game.now) i player
        → IfOk result (λ f. IsReduced f (rest_at player (mean_in (game_of game.now) means.now))) }
    ensures exact { (player : PlayerOf) → IsPlayer (game_of game.now) i player
        → (profile : ProfileOf) → AreMeans (game_of game.now) profile means.now
        → IfOk result (λ f. IsReduced f (rest_of player profile)) }
{
    rest_sum(game, &game.players[i as usize].others, means)
}

fn rest_sum(game: &Game, others: &[Other], means: &[Frac]) -> Result<Frac, Wide>
    requires { All (HasMeans (game_of game.now) means.now) others.now }
    ensures steps { result ≡ sum_made (rest_term (game_of game.now) means.now) (whole
        (pos 0)) others.now }
    ensures exact { IfOk result (λ f. IsSame f (sum_over others.now (other_at (mean_in
        (game_of game.now) means.now)))) }
    ensures lowest { IfOk result IsLowest }
{
    let mut sum = Frac::from(0);
    for t in others {
        let term = rest_product(game, t, means)?;
        sum = sum.add(term)?;
    }
    Ok(sum)
}

/// A number times a mean, and that times a second one, where there is one.
fn rest_product(game: &Game, t: &Other, means: &[Frac]) -> Result<Frac, Wide>
    requires { HasMeans (game_of game.now) means.now t.now }
    ensures steps { result ≡ rest_term (game_of game.now) means.now t.now }
    ensures exact { IfOk result (λ f. IsSame f (other_at (mean_in
        (game_of game.now) means.now) t.now)) }
    ensures lowest { IfOk result IsLowest }
{
    let first = Frac::from(t.coef).mul(mean_of(game, means, t.first))?;
    match t.second {
        None => Ok(first),
        Some(at) => first.mul(mean_of(game, means, at)),
    }
}
