ghost use Rattle.std.specs.Prelude.{◌≡◌, ◌≤ℤ◌, ◌<◌, ℕ, pos, length, IfOk};
ghost use Rattle.std.specs.List.{All};
ghost use Rattle.zr_game.specs.Players.{PlayerOf, player_of};
ghost use Rattle.zr_game.specs.Forms.{IsPlayer};
ghost use Rattle.zr_game.specs.Games.{game_of};
ghost use Rattle.zr_mix.specs.Mixtures.{parts_of};
ghost use Rattle.zr_mix.specs.Steps.{var_total};

use super::*;
use smallvec::SmallVec;
use std::alloc::Global;
use std::test::Fail;
use zr_base::{Frac, Point, Row, Wide};
use zr_game::{CrossTerm, Game, Other, Player, Var};

/// A player with two variables that are 0 or 1: it packs at most 5.
fn packer(
    alloc: Global,
    other: u32,
    packs: [i64; 2],
    own: [i64; 2],
    shared: [i64; 2],
    others: Vec<Other>,
) -> Result<Player, Fail>
    ensures { IfOk result (λ player. length (player_of player).vars ≡ 2) }
{
    let row = Row {
        coef: SmallVec::from_slice(alloc, &[(0, packs[0]), (1, packs[1])])?,
        le: 5,
    };
    Ok(Player {
        name: String::new(alloc),
        vars: vec![in alloc; bit(alloc), bit(alloc)]?,
        rows: vec![in alloc; row]?,
        pairs: Vec::new(alloc),
        cost: SmallVec::from_slice(alloc, &[(0, own[0]), (1, own[1])])?,
        cross: vec![in alloc;
            shared_term(0, other, shared[0]),
            shared_term(1, other, shared[1]),
        ]?,
        others,
    })
}

fn bit(alloc: Global) -> Var {
    Var {
        name: String::new(alloc),
        whole: true,
        low: Some(0),
        up: Some(1),
    }
}

fn shared_term(own: u32, player: u32, coef: i64) -> CrossTerm {
    CrossTerm {
        own,
        player,
        var: own,
        coef,
    }
}

fn knapsack(alloc: Global) -> Result<Game, Fail>
    ensures players { IfOk result (λ game. length (game_of game) ≡ 2) }
    ensures vars { IfOk result (λ game. (k : ℕ) (player : PlayerOf)
        → IsPlayer (game_of game) k player → length player.vars ≡ 2) }
    ensures total { IfOk result (λ game. var_total (game_of game) ≡ 4) }
{
    let first = packer(alloc, 1, [3, 4], [-1, -2], [2, 3], Vec::new(alloc))?;
    let second = packer(alloc, 0, [2, 5], [-3, -5], [5, 4], Vec::new(alloc))?;
    match Game::new(vec![in alloc; first, second]?) {
        Ok(game) => Ok(game),
        Err(_) => Err(Fail::from("no game")),
    }
}

/// The first player has terms in the others' variables, one in one and one in two.
fn three(alloc: Global) -> Result<Game, Fail>
    ensures players { IfOk result (λ game. length (game_of game) ≡ 3) }
    ensures total { IfOk result (λ game. var_total (game_of game) ≡ 6) }
{
    let others = vec![in alloc;
        Other {
            first: (1, 0),
            second: None,
            coef: 3
        },
        Other {
            first: (1, 0),
            second: Some((2, 1)),
            coef: 2
        },
    ]?;
    let first = packer(alloc, 1, [3, 4], [-1, -2], [2, 3], others)?;
    let second = packer(alloc, 0, [2, 5], [-3, -5], [5, 4], Vec::new(alloc))?;
    let third = packer(alloc, 0, [2, 5], [-3, -5], [5, 4], Vec::new(alloc))?;
    match Game::new(vec![in alloc; first, second, third]?) {
        Ok(game) => Ok(game),
        Err(_) => Err(Fail::from("no game")),
    }
}

fn part(alloc: Global, weight: i128, num: [i128; 2]) -> Result<Part, Fail>
    ensures weight { IfOk result (λ part. part.weight ≡ weight) }
    ensures len { IfOk result (λ part. length part.point.num ≡ 2) }
{
    match Point::new(vec![in alloc; num[0], num[1]]?, 1) {
        Ok(point) => Ok(Part { weight, point }),
        Err(_) => Err(Fail::from("no point")),
    }
}

/// The points `(1, 0)` and `(0, 1)` with these weights.
fn strategy(alloc: Global, first: i128, second: i128, total: i128) -> Result<Strategy, Fail>
    requires first { pos 1 ≤ℤ first }
    requires second { pos 1 ≤ℤ second }
    ensures total { IfOk result (λ strategy. strategy.total ≡ total) }
    ensures weights { IfOk result (λ strategy. All (λ part. pos 1 ≤ℤ part.weight)
        (parts_of strategy)) }
    ensures lengths { IfOk result (λ strategy. All (λ part. length part.point.num ≡ 2)
        (parts_of strategy)) }
{
    let parts = vec![in alloc; part(alloc, first, [1, 0])?, part(alloc, second, [0, 1])?]?;
    Ok(Strategy { total, parts })
}

fn fraction(num: i128, den: i128) -> Result<Frac, Fail> {
    match Frac::new(num, den) {
        Some(frac) => Ok(frac),
        None => Err(Fail::from("no fraction")),
    }
}

#[test]
fn claims_of_the_knapsack_game(rt: HostRuntime) -> Result<(), Fail> {
    let game = knapsack(rt.alloc())?;
    let zero = fraction(0, 1)?;

    let mut first = [zero; 2];
    let played = strategy(rt.alloc(), 2, 7, 9)?;
    means(&played, &mut first).map_err(|_| "wide")?;
    assert_eq!(rt; first, [fraction(2, 9)?, fraction(7, 9)?]);

    let all = [first[0], first[1], fraction(2, 5)?, fraction(3, 5)?];
    let mut out = [zero; 2];
    slope(&game, 0, &all, &mut out).map_err(|_| "wide")?;
    assert_eq!(rt; out, [fraction(-1, 5)?, fraction(-1, 5)?]);

    let cost = value(&out, &first).map_err(|_| "wide")?;
    assert_eq!(rt; cost, fraction(-1, 5)?);
    let mut left = [0; 2];
    assert_eq!(rt; claim(&out, cost, &mut left), Ok(1));
    assert_eq!(rt; left, [1, 1]);

    slope(&game, 1, &all, &mut out).map_err(|_| "wide")?;
    assert_eq!(rt; out, [fraction(-17, 9)?, fraction(-17, 9)?]);
    Ok(())
}

#[test]
fn rest_by_hand(rt: HostRuntime) -> Result<(), Fail> {
    let game = three(rt.alloc())?;
    let half = fraction(1, 2)?;
    let all = [half, half, fraction(2, 5)?, fraction(3, 5)?, half, half];
    let made = rest(&game, 0, &all).map_err(|_| "wide")?;
    assert_eq!(rt; made, fraction(8, 5)?);
    Ok(())
}

#[test]
fn wide_steps(rt: HostRuntime) -> Result<(), Fail> {
    let big = [fraction(i128::MAX, 1)?];
    let two = [fraction(2, 1)?];
    let wide = Wide {
        left: (i128::MAX, 2),
        right: (0, 0),
    };
    assert_eq!(rt; value(&big, &two), Err(wide));
    Ok(())
}
