ghost use Rattle.std.specs.Prelude.{◌≡◌, ◌≢◌, ◌↔◌, ◌⊎◌, ◌<◌, ℤ, pos, ◌≤ℤ◌, length, map, IsTrue, IfSome, None, Ok, false};
ghost use Rattle.std.specs.List.{All};
ghost use Rattle.zr_base.specs.Steps.{IsNarrow};
ghost use Rattle.zr_base.specs.Sums.{sum_steps};
ghost use Rattle.zr_base.specs.Rows.{products, row_of};
ghost use Rattle.zr_base.specs.Tests.{Tells, first_wide};
ghost use Rattle.zr_game.specs.Players.{PlayerOf, pair_of, player_of, var_of};
ghost use Rattle.zr_game.specs.Games.{game_of};
ghost use Rattle.zr_game.specs.Forms.{IsPairForm, IsPlayer, IsRowForm};
ghost use Rattle.zr_game.specs.Rays.{IsRay, KeepsAllBounds, KeepsBounds, KeepsPair, KeepsRow};
ghost use Rattle.zr_game.specs.FeasibleSteps.{pair_wide};
ghost use Rattle.zr_game.specs.RaySteps.{along_wide, ray_wide};

use crate::game::Game;
use crate::player::{Pair, Player, Var};
use crate::substitution::{is_feasible, slack_at};
use zr_base::{Point, Row, Wide, add_product};

/// Whether the direction is a ray of player `i`, which is below the number of players, at the base:
/// the base is one of the player's points, and from there each whole multiple of the direction
/// leads to one more.
///
/// No number of the direction is `i128::MIN`. A base or a direction of another length than the
/// player's variables makes no ray. Else the steps of `feasible` at the base are made, then the sum
/// of each row along the direction, and then that of each pair; the answer is the first step of
/// these that is too wide, where there is one.
pub fn is_ray(game: &Game, i: u32, base: &Point, dir: &[i128]) -> Result<bool, Wide>
    requires number { i < length (game_of game.now) }
    requires narrow { All IsNarrow dir.now }
    ensures length { (player : PlayerOf) → IsPlayer (game_of game.now) i player
        → (length base.now.num ≢ length player.vars) ⊎ (length dir.now ≢ length player.vars)
        → result ≡ Ok false }
    ensures tells { (player : PlayerOf) → IsPlayer (game_of game.now) i player
        → length base.now.num ≡ length player.vars → length dir.now ≡ length player.vars
        → Tells result (IsRay player base.now dir.now) (ray_wide player base.now dir.now) }
{
    let player = &game.players[i as usize];
    if base.len() != player.vars.len() || dir.len() != player.vars.len() {
        return Ok(false);
    }
    is_ray_of(player, base, dir)
}

fn is_ray_of(player: &Player, base: &Point, dir: &[i128]) -> Result<bool, Wide>
    requires base { length base.now.num ≡ length (player_of player.now).vars }
    requires dir { length dir.now ≡ length (player_of player.now).vars }
    requires rows { All (IsRowForm (length (player_of player.now).vars))
        (player_of player.now).rows }
    requires pairs { All (IsPairForm (length (player_of player.now).vars))
        (player_of player.now).pairs }
    ensures { Tells result (IsRay (player_of player.now) base.now dir.now)
        (ray_wide (player_of player.now) base.now dir.now) }
{
    let starts = is_feasible(player, base)?;
    let rows = rows_keep(&player.rows, dir)?;
    let pairs = pairs_keep(&player.pairs, base, dir)?;
    Ok(starts & bounds_keep(&player.vars, dir) & rows & pairs)
}

/// Whether the direction keeps all bounds.
fn bounds_keep(vars: &[Var], dir: &[i128]) -> bool
    requires { length vars.now ≡ length dir.now }
    ensures { IsTrue result ↔ KeepsAllBounds (map var_of vars.now) dir.now }
{
    let mut all = true;
    for (v, var) in vars.iter().enumerate() {
        all &= keeps_bounds(var, dir[v]);
    }
    all
}

fn keeps_bounds(var: &Var, change: i128) -> bool
    ensures { IsTrue result ↔ KeepsBounds (var_of var.now) change }
{
    (var.low.is_none() || change >= 0) && (var.up.is_none() || change <= 0)
}

fn rows_keep(rows: &[Row], dir: &[i128]) -> Result<bool, Wide>
    requires { All (IsRowForm (length dir.now)) (map row_of rows.now) }
    ensures { Tells result (All (KeepsRow dir.now) (map row_of rows.now))
        (first_wide (λ row. along_wide dir.now row.coef) (map row_of rows.now)) }
{
    let mut all = true;
    for row in rows {
        all &= row_keeps(row, dir)?;
    }
    Ok(all)
}

fn row_keeps(row: &Row, dir: &[i128]) -> Result<bool, Wide>
    requires { IsRowForm (length dir.now) (row_of row.now) }
    ensures { Tells result (KeepsRow dir.now (row_of row.now))
        (along_wide dir.now (row_of row.now).coef) }
{
    let change = along(row.coef.as_slice(), dir)?;
    Ok(change <= 0)
}

fn pairs_keep(pairs: &[Pair], base: &Point, dir: &[i128]) -> Result<bool, Wide>
    requires forms { All (IsPairForm (length dir.now)) (map pair_of pairs.now) }
    requires len { length base.now.num ≡ length dir.now }
    requires narrow { first_wide (pair_wide base.now) (map pair_of pairs.now) ≡ None }
    ensures { Tells result (All (KeepsPair base.now dir.now) (map pair_of pairs.now))
        (first_wide (λ pair. along_wide dir.now pair.coef) (map pair_of pairs.now)) }
{
    let mut all = true;
    for pair in pairs {
        all &= pair_keeps(pair, base, dir)?;
    }
    Ok(all)
}

/// The sum of the terms along a direction, from the left.
fn along(coef: &[(u32, i64)], dir: &[i128]) -> Result<i128, Wide>
    requires { All (λ t. t.0 < length dir.now) coef.now }
    ensures { result ≡ sum_steps (pos 0) (products coef.now dir.now) }
{
    let mut sum = 0;
    for (column, number) in coef {
        sum = add_product(sum, i128::from(*number), dir[*column as usize])?;
    }
    Ok(sum)
}

/// The base's own sums are known to be narrow.
fn pair_keeps(pair: &Pair, base: &Point, dir: &[i128]) -> Result<bool, Wide>
    requires form { IsPairForm (length dir.now) (pair_of pair.now) }
    requires len { length base.now.num ≡ length dir.now }
    requires narrow { pair_wide base.now (pair_of pair.now) ≡ None }
    ensures { Tells result (KeepsPair base.now dir.now (pair_of pair.now))
        (along_wide dir.now (pair_of pair.now).coef) }
{
    let change = along(pair.coef.as_slice(), dir)?;
    let Ok(slack) = slack_at(pair, base) else {
        unreachable!()
    };
    let var = pair.var as usize;
    Ok(stays_complementary((base.num(var), dir[var]), (slack, change)))
}

/// Whether of a variable and a sum, each with its change, the sum doesn't fall, and one of the two
/// is 0 and doesn't change.
fn stays_complementary(var: (i128, i128), sum: (i128, i128)) -> bool
    ensures { IsTrue result ↔ ((pos 0 ≤ℤ sum.1)
        × (((var.0 ≡ pos 0) × (var.1 ≡ pos 0)) ⊎ ((sum.0 ≡ pos 0) × (sum.1 ≡ pos 0)))) }
{
    sum.1 >= 0 && (var.0 == 0 && var.1 == 0 || sum.0 == 0 && sum.1 == 0)
}
