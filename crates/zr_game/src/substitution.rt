ghost use Rattle.std.specs.Prelude.{◌≡◌, ◌≢◌, ◌↔◌, ◌<◌, pos, ◌<ℤ◌, ◌≤ℤ◌, ◌*ℤ◌, ◌⊎◌, ◌++◌, [], ◌∷◌, IsTrue, IfSome, length, map, Ok, false};
ghost use Rattle.std.specs.List.{All};
ghost use Rattle.zr_base.specs.Steps.{cross_of};
ghost use Rattle.zr_base.specs.Sums.{sum_steps};
ghost use Rattle.zr_base.specs.Tests.{Tells, first_wide};
ghost use Rattle.zr_base.specs.Rows.{RowHolds, products, row_of};
ghost use Rattle.zr_game.specs.Players.{PlayerOf, pair_of, player_of, var_of};
ghost use Rattle.zr_game.specs.Games.{game_of};
ghost use Rattle.zr_game.specs.Forms.{IsPairForm, IsPlayer, IsRowForm};
ghost use Rattle.zr_game.specs.Feasible.{AreWithin, IsFeasible, IsMultiple, IsWithin, PairHolds};
ghost use Rattle.zr_game.specs.FeasibleSteps.{bound_wide, feasible_wide, pair_wide, row_wide, var_wide};

use crate::game::Game;
use crate::player::{Pair, Player, Var};
use zr_base::{Point, Row, Wide, add_product, cross, sum_at};

/// Whether the point is one of player `i`, which is below the number of players.
///
/// A point of another length than the player's variables is none of its points. Else the bounds of
/// all variables are made, of each the lower one first, then all rows and then all pairs; the
/// answer is the first step of these that is too wide, where there is one.
pub fn feasible(game: &Game, i: u32, point: &Point) -> Result<bool, Wide>
    requires { i < length (game_of game.now) }
    ensures length { (player : PlayerOf) → IsPlayer (game_of game.now) i player
        → length point.now.num ≢ length player.vars → result ≡ Ok false }
    ensures tells { (player : PlayerOf) → IsPlayer (game_of game.now) i player
        → length point.now.num ≡ length player.vars
        → Tells result (IsFeasible player point.now) (feasible_wide player point.now) }
{
    let player = &game.players[i as usize];
    if point.len() != player.vars.len() {
        return Ok(false);
    }
    is_feasible(player, point)
}

/// Whether the point, which has a number for each variable, is one of the player.
pub(crate) fn is_feasible(player: &Player, point: &Point) -> Result<bool, Wide>
    requires len { length point.now.num ≡ length (player_of player.now).vars }
    requires rows { All (IsRowForm (length point.now.num)) (player_of player.now).rows }
    requires pairs { All (IsPairForm (length point.now.num)) (player_of player.now).pairs }
    ensures { Tells result (IsFeasible (player_of player.now) point.now)
        (feasible_wide (player_of player.now) point.now) }
{
    let _den = point.den();
    let bounds = bounds_hold(&player.vars, point)?;
    let rows = rows_hold(&player.rows, point)?;
    let pairs = pairs_hold(&player.pairs, point)?;
    Ok(bounds & rows & pairs)
}

fn bounds_hold(vars: &[Var], point: &Point) -> Result<bool, Wide>
    requires { length vars.now ≡ length point.now.num }
    ensures { Tells result (AreWithin (map var_of vars.now) point.now)
        (first_wide (var_wide point.now.den) (map var_of vars.now)) }
{
    let mut all = true;
    for (v, var) in vars.iter().enumerate() {
        all &= is_within(var, point.num(v), point.den())?;
    }
    Ok(all)
}

fn rows_hold(rows: &[Row], point: &Point) -> Result<bool, Wide>
    requires { All (IsRowForm (length point.now.num)) (map row_of rows.now) }
    ensures { Tells result (All (RowHolds point.now) (map row_of rows.now))
        (first_wide (row_wide point.now) (map row_of rows.now)) }
{
    let mut all = true;
    for row in rows {
        all &= row_holds(row, point)?;
    }
    Ok(all)
}

fn row_holds(row: &Row, point: &Point) -> Result<bool, Wide>
    requires { IsRowForm (length point.now.num) (row_of row.now) }
    ensures { Tells result (RowHolds point.now (row_of row.now))
        (row_wide point.now (row_of row.now)) }
{
    row.holds(point)
}

fn pairs_hold(pairs: &[Pair], point: &Point) -> Result<bool, Wide>
    requires { All (IsPairForm (length point.now.num)) (map pair_of pairs.now) }
    ensures { Tells result (All (PairHolds point.now) (map pair_of pairs.now))
        (first_wide (pair_wide point.now) (map pair_of pairs.now)) }
{
    let mut all = true;
    for pair in pairs {
        all &= pair_holds(pair, point)?;
    }
    Ok(all)
}

fn pair_holds(pair: &Pair, point: &Point) -> Result<bool, Wide>
    requires { IsPairForm (length point.now.num) (pair_of pair.now) }
    ensures { Tells result (PairHolds point.now (pair_of pair.now))
        (pair_wide point.now (pair_of pair.now)) }
{
    let slack = slack_at(pair, point)?;
    Ok(is_complementary(point.num(pair.var as usize), slack))
}

/// The sum of a pair's terms at a point's numerators, and then its number times the denominator.
pub(crate) fn slack_at(pair: &Pair, point: &Point) -> Result<i128, Wide>
    requires { IsPairForm (length point.now.num) (pair_of pair.now) }
    ensures { result ≡ sum_steps (pos 0)
        (products pair.now.coef.items point.now.num ++ (pair.now.add, point.now.den) ∷ []) }
{
    let terms = sum_at(pair.coef.as_slice(), point)?;
    add_product(terms, i128::from(pair.add), point.den())
}

/// Whether both numbers are at least 0, and one of them is 0.
fn is_complementary(num: i128, slack: i128) -> bool
    ensures { IsTrue result ↔ ((pos 0 ≤ℤ num) × (pos 0 ≤ℤ slack)
        × ((num ≡ pos 0) ⊎ (slack ≡ pos 0))) }
{
    num >= 0 && slack >= 0 && (num == 0 || slack == 0)
}

/// Whether a value `num / den` of a variable is within its bounds.
fn is_within(var: &Var, num: i128, den: i128) -> Result<bool, Wide>
    requires { pos 0 <ℤ den }
    ensures { Tells result (IsWithin (var_of var.now) num den) (var_wide den (var_of var.now)) }
{
    let above = is_above(num, var.low, den)?;
    let below = is_below(num, var.up, den)?;
    Ok(above && below && (!var.whole || is_multiple(num, den)))
}

fn is_above(num: i128, low: Option<i64>, den: i128) -> Result<bool, Wide>
    ensures { Tells result (IfSome low (λ low. (low *ℤ den) ≤ℤ num)) (bound_wide den low) }
{
    match low {
        None => Ok(true),
        Some(low) => Ok(product(low, den)? <= num),
    }
}

fn is_below(num: i128, up: Option<i64>, den: i128) -> Result<bool, Wide>
    ensures { Tells result (IfSome up (λ up. num ≤ℤ (up *ℤ den))) (bound_wide den up) }
{
    match up {
        None => Ok(true),
        Some(up) => Ok(num <= product(up, den)?),
    }
}

fn product(bound: i64, den: i128) -> Result<i128, Wide>
    ensures { result ≡ cross_of (bound, den) (pos 0, pos 0) }
{
    cross((i128::from(bound), den), (0, 0))
}

fn is_multiple(num: i128, den: i128) -> bool
    requires { pos 0 <ℤ den }
    ensures { IsTrue result ↔ IsMultiple num den }
{
    num.unsigned_abs() % den.unsigned_abs() == 0
}
