ghost use Rattle.std.specs.Prelude.{◌≡◌, ◌<◌, ◌==◌, ◌∷◌, [], ℕ, pos, length, IfOk, OnOk};
ghost use Rattle.std.specs.List.{All, filter};
ghost use Rattle.zr_base.specs.Fractions.{IsSame, plus, sum_over};
ghost use Rattle.zr_base.specs.Lowest.{IsLowest};
ghost use Rattle.zr_base.specs.Made.{Writes, made_from};
ghost use Rattle.zr_base.specs.Terms.{coef_at};
ghost use Rattle.zr_game.specs.Players.{PlayerOf, player_of};
ghost use Rattle.zr_game.specs.Games.{game_of};
ghost use Rattle.zr_game.specs.Forms.{IsPlayer};
ghost use Rattle.zr_game.specs.CostSteps.{sum_made};
ghost use Rattle.zr_game.specs.Profiles.{Profile as ProfileOf};
ghost use Rattle.zr_game.specs.Means.{slope as slope_of};
ghost use Rattle.zr_mix.specs.Steps.{slope_steps, slope_term, var_total};
ghost use Rattle.zr_mix.specs.Values.{AreMeans, AreReduced, HasMean, IsReduced, slope_at, term_at};

use crate::place::mean_of;
use zr_base::{Frac, Wide};
use zr_game::{CrossTerm, Game, Player};

/// The slope of the cost of player `i`, which is below the number of players, at the means of all
/// players, one after another: for each of the player's variables its own number, plus its cross
/// terms at these means. `out` has a place for each of the player's variables.
///
/// The cross terms of a variable are added to the own number in their order, each of which is its
/// number times the mean. The answer is the first product or sum that is too wide, variable by
/// variable, where there is one; `out` is then of no use. What `out` held before counts for
/// nothing.
pub fn slope(game: &Game, i: u32, means: &[Frac], out: &mut [Frac]) -> Result<(), Wide>
    requires number { i < length (game_of game.now) }
    requires means { length means.now ≡ var_total (game_of game.now) }
    requires places { (player : PlayerOf) → IsPlayer (game_of game.now) i player
        → length out.old ≡ length player.vars }
    ensures steps { (player : PlayerOf) → IsPlayer (game_of game.now) i player
        → Writes (made_from (slope_steps (game_of game.now) player means.now) 0
        (length out.old)) result out.new }
    ensures at { (player : PlayerOf) → IsPlayer (game_of game.now) i player
        → OnOk result (AreReduced out.new (length out.old) (slope_at
        (game_of game.now) player means.now)) }
    ensures exact { (player : PlayerOf) → IsPlayer (game_of game.now) i player
        → (profile : ProfileOf) → AreMeans (game_of game.now) profile means.now
        → OnOk result (AreReduced out.new (length out.old) (slope_of player profile)) }
{
    write_slope(game, &game.players[i as usize], means, out)
}

fn write_slope(game: &Game, player: &Player, means: &[Frac], out: &mut [Frac]) -> Result<(), Wide>
    requires { All (λ t. HasMean (game_of game.now) means.now
        (t.player, t.var)) player.now.cross.items }
    ensures steps { Writes (made_from (slope_steps (game_of game.now)
        (player_of player.now) means.now) 0 (length out.old)) result out.new }
    ensures at { OnOk result (AreReduced out.new (length out.old) (slope_at (game_of game.now)
        (player_of player.now) means.now)) }
{
    for v in 0..out.len() {
        out[v] = slope_of_var(game, player, means, v)?;
    }
    Ok(())
}

fn slope_of_var(game: &Game, player: &Player, means: &[Frac], v: usize) -> Result<Frac, Wide>
    requires { All (λ t. HasMean (game_of game.now) means.now
        (t.player, t.var)) player.now.cross.items }
    ensures steps { result ≡ slope_steps (game_of game.now) (player_of player.now) means.now v }
    ensures at { IfOk result (λ f. IsReduced f (slope_at (game_of game.now)
        (player_of player.now) means.now v)) }
{
    let own = Frac::from(number_at(player.cost.as_slice(), v));
    with_terms(own, &player.cross, v, game, means)
}

/// `start` and then the cross terms of variable `v`.
fn with_terms(
    start: Frac,
    cross: &[CrossTerm],
    v: usize,
    game: &Game,
    means: &[Frac],
) -> Result<Frac, Wide>
    requires means { All (λ t. HasMean (game_of game.now) means.now (t.player, t.var)) cross.now }
    requires lowest { IsLowest start }
    ensures steps { result ≡ sum_made (slope_term (game_of game.now) means.now) start (filter
        (λ t. t.own == v) cross.now) }
    ensures exact { IfOk result (λ f. IsSame f (plus start (sum_over (filter
        (λ t. t.own == v) cross.now) (term_at (game_of game.now) means.now)))) }
    ensures lowest { IfOk result IsLowest }
{
    let mut sum = start;
    for t in cross {
        sum = with_term(sum, t, v, game, means)?;
    }
    Ok(sum)
}

/// The sum with a cross term more, where it is one of variable `v`.
fn with_term(sum: Frac, t: &CrossTerm, v: usize, game: &Game, means: &[Frac]) -> Result<Frac, Wide>
    requires mean { HasMean (game_of game.now) means.now (t.now.player, t.now.var) }
    requires lowest { IsLowest sum }
    ensures steps { result ≡ sum_made (slope_term (game_of game.now) means.now) sum (filter
        (λ t. t.own == v) (t.now ∷ [])) }
    ensures exact { IfOk result (λ f. IsSame f (plus sum (sum_over (filter (λ t. t.own == v)
        (t.now ∷ [])) (term_at (game_of game.now) means.now)))) }
    ensures lowest { IfOk result IsLowest }
{
    if t.own as usize != v {
        return Ok(sum);
    }
    let term = Frac::from(t.coef).mul(mean_of(game, means, (t.player, t.var)))?;
    sum.add(term)
}

/// The number at column `v`, which is 0 where none is listed.
fn number_at(terms: &[(u32, i64)], v: usize) -> i64
    ensures { result ≡ coef_at terms.now v }
{
    for (column, number) in terms {
        if *column as usize == v {
            return *number;
        }
    }
    0
}
