ghost use Rattle.std.specs.Prelude.{◌≡◌, ◌<◌, pos, length, IfOk};
ghost use Rattle.std.specs.List.{All};
ghost use Rattle.zr_base.specs.Fractions.{IsSame, plus, sum_over, times, whole};
ghost use Rattle.zr_base.specs.Lowest.{IsLowest};
ghost use Rattle.zr_base.specs.Points.{value_of};
ghost use Rattle.zr_game.specs.Players.{PlayerOf, player_of};
ghost use Rattle.zr_game.specs.Games.{game_of};
ghost use Rattle.zr_game.specs.Forms.{IsPlayer};
ghost use Rattle.zr_game.specs.Costs.{cost_of, own_at, point_of};
ghost use Rattle.zr_game.specs.CostSteps.{ArePoints, cost_steps, cross_term, other_term, own_term, sum_made, times_value};
ghost use Rattle.zr_game.specs.CostTerms.{IsOtherAt, IsTermAt, cross_value, other_value};

use crate::game::Game;
use crate::player::{CrossTerm, Other, Player};
use zr_base::{Frac, Point, Wide};

/// The cost of player `i`, which is below the number of players, at one point of the right length
/// per player.
///
/// The own terms are added in their order, and then the cross terms in theirs, each of which is
/// its number times the own value, and then times the other player's value; the terms in the
/// others' variables alone come last, each of which is its number times its first value, and then
/// times its second. The answer is the first step of these that is too wide, where there is one.
pub fn cost(game: &Game, i: u32, points: &[Point]) -> Result<Frac, Wide>
    requires number { i < length (game_of game.now) }
    requires points { ArePoints (game_of game.now) points.now }
    ensures steps { (player : PlayerOf) → IsPlayer (game_of game.now) i player
        → result ≡ cost_steps player i points.now }
    ensures exact { (player : PlayerOf) → IsPlayer (game_of game.now) i player
        → IfOk result (λ f. IsSame f (cost_of player i points.now)) }
    ensures lowest { IfOk result IsLowest }
{
    let player = &game.players[i as usize];
    player_cost(player, i as usize, points)
}

fn player_cost(player: &Player, i: usize, points: &[Point]) -> Result<Frac, Wide>
    requires here { i < length points.now }
    requires own { All (λ t. t.0 < length (point_of points.now i).num) player.now.cost.items }
    requires cross { All (IsTermAt i points.now) player.now.cross.items }
    requires others { All (IsOtherAt points.now) player.now.others.items }
    ensures steps { result ≡ cost_steps (player_of player.now) i points.now }
    ensures exact { IfOk result (λ f. IsSame f (cost_of (player_of player.now) i points.now)) }
    ensures lowest { IfOk result IsLowest }
{
    let own = own_sum(player.cost.as_slice(), &points[i])?;
    let crossed = cross_sum(own, &player.cross, i, points)?;
    other_sum(crossed, &player.others, points)
}

fn own_sum(cost: &[(u32, i64)], point: &Point) -> Result<Frac, Wide>
    requires { All (λ t. t.0 < length point.now.num) cost.now }
    ensures steps { result ≡ sum_made (own_term point.now) (whole (pos 0)) cost.now }
    ensures exact { IfOk result (λ f. IsSame f (sum_over cost.now (own_at (value_of point.now)))) }
    ensures lowest { IfOk result IsLowest }
{
    let mut sum = Frac::from(0);
    for (v, c) in cost {
        let term = own_product(*c, point, *v as usize)?;
        sum = sum.add(term)?;
    }
    Ok(sum)
}

/// `start` and then the cross terms.
fn cross_sum(start: Frac, cross: &[CrossTerm], i: usize, points: &[Point]) -> Result<Frac, Wide>
    requires terms { All (IsTermAt i points.now) cross.now }
    requires lowest { IsLowest start }
    ensures steps { result ≡ sum_made (cross_term i points.now) start cross.now }
    ensures exact { IfOk result
        (λ f. IsSame f (plus start (sum_over cross.now (cross_value i points.now)))) }
    ensures lowest { IfOk result IsLowest }
{
    let mut sum = start;
    for t in cross {
        let term = cross_product(t, i, points)?;
        sum = sum.add(term)?;
    }
    Ok(sum)
}

/// `start` and then the terms in the others' variables alone.
fn other_sum(start: Frac, others: &[Other], points: &[Point]) -> Result<Frac, Wide>
    requires terms { All (IsOtherAt points.now) others.now }
    requires lowest { IsLowest start }
    ensures steps { result ≡ sum_made (other_term points.now) start others.now }
    ensures exact { IfOk result
        (λ f. IsSame f (plus start (sum_over others.now (other_value points.now)))) }
    ensures lowest { IfOk result IsLowest }
{
    let mut sum = start;
    for t in others {
        let term = other_product(t, points)?;
        sum = sum.add(term)?;
    }
    Ok(sum)
}

/// A number times a value, and that times a second one, where there is one.
fn other_product(t: &Other, points: &[Point]) -> Result<Frac, Wide>
    requires { IsOtherAt points.now t.now }
    ensures steps { result ≡ other_term points.now t.now }
    ensures exact { IfOk result (λ f. IsSame f (other_value points.now t.now)) }
    ensures lowest { IfOk result IsLowest }
{
    let first = own_product(t.coef, &points[t.first.0 as usize], t.first.1 as usize)?;
    match t.second {
        None => Ok(first),
        Some((player, var)) => times_value_at(first, &points[player as usize], var as usize),
    }
}

/// A number times an own value, and that times another player's value.
fn cross_product(t: &CrossTerm, i: usize, points: &[Point]) -> Result<Frac, Wide>
    requires { IsTermAt i points.now t.now }
    ensures steps { result ≡ cross_term i points.now t.now }
    ensures exact { IfOk result (λ f. IsSame f (cross_value i points.now t.now)) }
    ensures lowest { IfOk result IsLowest }
{
    let first = own_product(t.coef, &points[i], t.own as usize)?;
    times_value_at(first, &points[t.player as usize], t.var as usize)
}

/// A number times a value.
fn own_product(c: i64, point: &Point, v: usize) -> Result<Frac, Wide>
    requires { v < length point.now.num }
    ensures steps { result ≡ own_term point.now (v, c) }
    ensures exact { IfOk result (λ f. IsSame f (own_at (value_of point.now) (v, c))) }
    ensures lowest { IfOk result IsLowest }
{
    times_value_at(Frac::from(c), point, v)
}

fn times_value_at(a: Frac, point: &Point, v: usize) -> Result<Frac, Wide>
    requires { v < length point.now.num }
    ensures steps { result ≡ times_value a point.now v }
    ensures exact { IfOk result (λ f. IsSame f (times a (value_of point.now v))) }
    ensures lowest { IfOk result IsLowest }
{
    a.mul(point.value(v))
}
