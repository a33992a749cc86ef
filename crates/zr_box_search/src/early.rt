ghost use Rattle.std.specs.Prelude.{◌≡◌, ◌<◌, ◌<ℤ◌, ℕ, pos, true, IfOk, IfSome, length};
ghost use Rattle.zr_base.specs.Points.{IsPoint};
ghost use Rattle.zr_game.specs.Players.{PlayerOf, player_of};
ghost use Rattle.zr_game.specs.Games.{game_of};
ghost use Rattle.zr_game.specs.Feasible.{IsFeasible};
ghost use Rattle.zr_game.specs.Forms.{IsPlayer};
ghost use Rattle.zr_cases.specs.Cases.{bnode_of};
ghost use Rattle.zr_cases.specs.Forms.{IsBoxForm};
ghost use Rattle.zr_boxes.specs.Gains.{least_gain as gain_in};
ghost use Rattle.zr_boxes.specs.Paths.{box_of};
ghost use Rattle.zr_boxes.specs.Right.{IsBetter};
ghost use Rattle.zr_box_search.specs.Dues.{AreRanged};
ghost use Rattle.zr_box_search.specs.Fates.{IsEndNode};
ghost use Rattle.zr_box_search.specs.Sizes.{IsNearPlayer, IsNearPoint};
ghost use Rattle.zr_box_search.specs.Whole.{IsBoxGame};

use crate::gain::least_gain;
use crate::mend::{mend, refill};
use crate::setting::{Setting, best_settings, sum_gains};
use std::alloc::Global;
use zr_base::{NoMemory, Point};
use zr_cases::BNode;
use zr_game::{Game, Leaf, Player, feasible};

/// The point of these values, over the denominator 1.
pub(crate) fn point_of(alloc: Global, settings: &[Setting]) -> Result<Option<Point>, NoMemory>
    ensures kept { IfOk result (λ point. IfSome point (λ x. IsPoint x.num x.den)) }
    ensures den { IfOk result (λ point. IfSome point (λ x. x.den ≡ pos 1)) }
{
    let mut values = Vec::new(alloc);
    for setting in settings {
        let Ok(()) = values.push(setting.value) else {
            return Err(NoMemory);
        };
    }
    match Point::new(values, 1) {
        Ok(point) => Ok(Some(point)),
        Err(_) => Ok(None),
    }
}

/// A whole point that player `i` may like better than all that the box has; `None` where none is
/// seen.
///
/// First each variable has the value that adds most to the least gain; then broken rows are mended
/// where it costs least, and values go back as far as the rows let them. What is found need be
/// neither feasible nor better.
fn likely_point(
    alloc: Global,
    player: &Player,
    i: u32,
    leaves: &[Leaf],
) -> Result<Option<Point>, NoMemory>
    requires { (k : ℕ) × IsNearPlayer (player_of player.now) k (box_of leaves.now) }
    ensures kept { IfOk result (λ point. IfSome point (λ x. IsPoint x.num x.den)) }
    ensures den { IfOk result (λ point. IfSome point (λ x. x.den ≡ pos 1)) }
{
    let mut settings = best_settings(alloc, player, i, leaves)?;
    if sum_gains(&settings) < 1 || !mend(&player.rows, &mut settings) {
        return Ok(None);
    }
    refill(&player.rows, &mut settings);
    if sum_gains(&settings) < 1 {
        return Ok(None);
    }
    point_of(alloc, &settings)
}

/// Whether the point is one of player `i`, where no step of the test is too wide.
fn is_feasible(game: &Game, i: u32, point: &Point) -> bool
    requires { i < length (game_of game.now) }
    ensures { (player : PlayerOf) → IsPlayer (game_of game.now) i player
        → length point.now.num ≡ length player.vars → result ≡ true
        → IsFeasible player point.now }
{
    match feasible(game, i, point) {
        Ok(yes) => yes,
        Err(_) => false,
    }
}

/// The same for a point of any length.
pub(crate) fn is_point_of(game: &Game, i: u32, player: &Player, point: &Point) -> bool
    requires number { i < length (game_of game.now) }
    requires player { IsPlayer (game_of game.now) i (player_of player.now) }
    ensures { result ≡ true → IsFeasible (player_of player.now) point.now }
{
    if point.len() != player.vars.len() {
        return false;
    }
    is_feasible(game, i, point)
}

/// Whether the whole point is one of player `i`, and better for it than each of its points in the
/// box.
fn is_better(game: &Game, i: u32, player: &Player, leaves: &[Leaf], point: &Point) -> bool
    requires number { i < length (game_of game.now) }
    requires player { IsPlayer (game_of game.now) i (player_of player.now) }
    requires whole { IsBoxGame (game_of game.now) }
    requires ranged { AreRanged (game_of game.now) (box_of leaves.now) }
    requires den { point.now.den ≡ pos 1 }
    ensures { result ≡ true
        → IsBetter (player_of player.now) i (box_of leaves.now) point.now }
{
    if !is_point_of(game, i, player, point) {
        return false;
    }
    gains(player, i, leaves, point)
}

/// Whether player `i` gains by playing the whole point, whatever the profile of the box.
fn gains(player: &Player, i: u32, leaves: &[Leaf], point: &Point) -> bool
    requires player { IsNearPlayer (player_of player.now) i (box_of leaves.now) }
    requires point { IsNearPoint (player_of player.now) point.now }
    ensures { result ≡ true
        → pos 0 <ℤ gain_in (player_of player.now) i (box_of leaves.now) point.now }
{
    if least_gain(player, i, leaves, point) > 0 {
        return true;
    }
    false
}

/// A whole point of player `i` that is better for it than each of its points in the box, if one is
/// found.
fn early_point(
    alloc: Global,
    game: &Game,
    i: u32,
    player: &Player,
    leaves: &[Leaf],
) -> Result<Option<Point>, NoMemory>
    requires number { i < length (game_of game.now) }
    requires player { IsPlayer (game_of game.now) i (player_of player.now) }
    requires whole { IsBoxGame (game_of game.now) }
    requires ranged { AreRanged (game_of game.now) (box_of leaves.now) }
    ensures better { IfOk result (λ point. IfSome point
        (IsBetter (player_of player.now) i (box_of leaves.now))) }
    ensures kept { IfOk result (λ point. IfSome point (λ x. IsPoint x.num x.den)) }
    ensures den { IfOk result (λ point. IfSome point (λ x. x.den ≡ pos 1)) }
{
    match likely_point(alloc, player, i, leaves) {
        Err(NoMemory) => Err(NoMemory),
        Ok(None) => Ok(None),
        Ok(Some(point)) => {
            if is_better(game, i, player, leaves, &point) {
                Ok(Some(point))
            } else {
                Ok(None)
            }
        }
    }
}

/// The node of a box in which a player is found that does better elsewhere, whatever the profile:
/// the first such player; or `None`.
pub(crate) fn early_deviation(
    alloc: Global,
    game: &Game,
    leaves: &[Leaf],
) -> Result<Option<BNode>, NoMemory>
    requires whole { IsBoxGame (game_of game.now) }
    requires ranged { AreRanged (game_of game.now) (box_of leaves.now) }
    ensures node { IfOk result (λ node. IfSome node
        (λ end. IsEndNode (game_of game.now) (box_of leaves.now) (bnode_of end))) }
    ensures form { IfOk result (λ node. IfSome node (λ end. IsBoxForm (bnode_of end))) }
{
    for (i, player) in game.players.iter().enumerate() {
        match early_point(alloc, game, i as u32, player, leaves) {
            Err(NoMemory) => return Err(NoMemory),
            Ok(Some(point)) => {
                return Ok(Some(BNode::Deviate {
                    player: i as u32,
                    point,
                }));
            }
            Ok(None) => {}
        }
    }
    Ok(None)
}
