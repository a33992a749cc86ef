ghost use Rattle.std.specs.Prelude.{int_div, ◌≡◌, ◌<◌, ◌≤◌, pos, ◌<ℤ◌, ◌≤ℤ◌, ℕ, ℤ, List, IfOk, IfErr, IfSome, MatchOption, length};
ghost use Rattle.zr_base.specs.Points.{IsPoint};
ghost use Rattle.zr_base.specs.Steps.{IsNarrow};
ghost use Rattle.zr_io.specs.declared.purse.Purse.{Purse as APurse};
ghost use Rattle.zr_game.specs.Players.{GameOf, PlayerOf, player_of};
ghost use Rattle.zr_game.specs.Games.{game_of};
ghost use Rattle.zr_game.specs.Forms.{IsPlayer};
ghost use Rattle.zr_game.proofs.WholePoints.{whole_of};
ghost use Rattle.zr_bnb.specs.Answers.{MayAsk};
ghost use Rattle.zr_bnb.specs.Causes.{IsBnbCause, SpendsWork};
ghost use Rattle.zr_boxes.specs.Gains.{least_gain as gain_in};
ghost use Rattle.zr_tree.proofs.SettledLeaves.{KeepsRoot};
ghost use Rattle.zr_boxes.specs.Paths.{box_of};
ghost use Rattle.zr_box_search.specs.Causes.{MayAskIn};
ghost use Rattle.zr_box_search.specs.Dues.{AreRanged};
ghost use Rattle.zr_box_search.specs.Fates.{HasLeastPoint, IsBestReply, IsLeastPoint, IsPlainStop, IsReplyCause, SpendsTree};
ghost use Rattle.zr_box_search.specs.OpenBoxes.{IsSingle};
ghost use Rattle.zr_box_search.specs.Sizes.{IsNearPlayer, IsNearPoint};
ghost use Rattle.zr_box_search.specs.Whole.{IsBoxGame};

use crate::answer::BoxStop;
use crate::gain::least_gain;
use crate::slope::slopes;
use std::alloc::Global;
use zr_base::{NoMemory, Point};
use zr_bnb::{BnbStop, LeastAnswer, least};
use zr_game::{Game, Leaf, Player};
use zr_io::Purse;

/// The same point, whose values are whole, over the denominator 1.
fn whole_point(alloc: Global, point: &Point) -> Result<Point, NoMemory>
    ensures value { IfOk result (λ whole. whole ≡ whole_of point.now) }
    ensures kept { IfOk result (λ whole. IsPoint whole.num whole.den) }
{
    let mut values = Vec::new(alloc);
    for v in 0..point.len() {
        let value = quotient(point.num(v), point.den());
        let Ok(()) = values.push(value) else {
            return Err(NoMemory);
        };
    }
    match Point::new(values, 1) {
        Ok(whole) => Ok(whole),
        Err(_) => unreachable!(),
    }
}

fn quotient(num: i128, den: i128) -> i128
    requires narrow { IsNarrow num }
    requires den { pos 0 <ℤ den }
    ensures value { result ≡ int_div num den }
    ensures narrow { IsNarrow result }
{
    num / den
}

/// The stop of a search over the points of a player in a single profile.
fn stop_of(stop: BnbStop) -> BoxStop
    requires { IsPlainStop stop }
    ensures { (game : GameOf) (i : ℕ) (player : PlayerOf) (aim : List ℤ) → IsPlayer game i player
        → ((asked : List ℤ) → MayAsk player aim asked → MayAskIn game player asked)
        → (old new : APurse) → IsBnbCause i player aim old new stop
        → IsReplyCause game player old new result }
{
    match stop {
        BnbStop::Spent => BoxStop::Spent,
        BnbStop::Wide(asked) => BoxStop::Wide(asked),
        BnbStop::NoMemory => BoxStop::NoMemory,
        BnbStop::WideAim(_) => unreachable!(),
        BnbStop::Endless { var: _, dir: _ } => unreachable!(),
    }
}

/// The point, over the denominator 1, where it is better for player `i` than its own point in the
/// box's single profile.
fn if_better(
    alloc: Global,
    player: &Player,
    i: u32,
    leaves: &[Leaf],
    point: &Point,
) -> Result<Option<Point>, BoxStop>
    requires player { IsNearPlayer (player_of player.now) i (box_of leaves.now) }
    requires point { IsNearPoint (player_of player.now) (whole_of point.now) }
    ensures kept { IfOk result (λ better. IfSome better (λ x. IsPoint x.num x.den)) }
    ensures better { IfOk result (λ better. MatchOption better
        (gain_in (player_of player.now) i (box_of leaves.now) (whole_of point.now) ≤ℤ pos 0)
        (λ x. (x ≡ whole_of point.now)
        × (pos 0 <ℤ gain_in (player_of player.now) i (box_of leaves.now) x))) }
    ensures memory { IfErr result (λ stop. stop ≡ BoxStop.NoMemory) }
{
    let Ok(whole) = whole_point(alloc, point) else {
        return Err(BoxStop::NoMemory);
    };
    if least_gain(player, i, leaves, &whole) > 0 {
        return Ok(Some(whole));
    }
    Ok(None)
}

/// A point that is better for player `i` than its own in the box's single profile, if there is one:
/// one with the least cost there.
pub(crate) fn better_point(
    alloc: Global,
    game: &Game,
    i: u32,
    player: &Player,
    leaves: &[Leaf],
    purse: &mut Purse,
) -> Result<Option<Point>, BoxStop>
    requires number { i < length (game_of game.now) }
    requires player { IsPlayer (game_of game.now) i (player_of player.now) }
    requires whole { IsBoxGame (game_of game.now) }
    requires single { IsSingle (game_of game.now) (box_of leaves.now) }
    requires keeps { (k : ℕ) (own : PlayerOf) → IsPlayer (game_of game.now) k own
        → KeepsRoot own (box_of leaves.now k) }
    requires ranged { AreRanged (game_of game.now) (box_of leaves.now) }
    requires limit { purse.old.limit ≤ 1000000000 }
    ensures reply { IfOk result (IsBestReply (player_of player.now) i (box_of leaves.now)) }
    ensures kept { IfOk result (λ better. IfSome better (λ x. IsPoint x.num x.den)) }
    ensures tree { IfOk result (λ better. SpendsTree (player_of player.now) purse.old purse.new) }
    ensures cause { IfErr result
        (IsReplyCause (game_of game.now) (player_of player.now) purse.old purse.new) }
    ensures spends { SpendsWork (player_of player.now) purse.old purse.new }
{
    let Ok(aim) = slopes(alloc, player, leaves) else {
        return Err(BoxStop::NoMemory);
    };
    match least(alloc, game, i, &aim, purse) {
        Err(stop) => Err(stop_of(stop)),
        Ok(answer) => {
            let point = least_point(answer);
            if_better(alloc, player, i, leaves, &point)
        }
    }
}

/// The point of an answer that has one.
fn least_point(answer: LeastAnswer) -> Point
    requires { HasLeastPoint answer }
    ensures { IsLeastPoint answer result }
{
    match answer {
        LeastAnswer::At {
            point,
            value: _,
            tree: _,
        } => point,
        LeastAnswer::Empty { tree: _ } => unreachable!(),
        LeastAnswer::Below { base: _, dir: _ } => unreachable!(),
    }
}
