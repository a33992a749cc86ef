ghost use Rattle.std.specs.Prelude.{◌≡◌, ℕ, ◌<◌, length, IfOk};
ghost use Rattle.std.specs.List.{All};
ghost use Rattle.zr_game.specs.Players.{PlayerOf, player_of};
ghost use Rattle.zr_game.specs.Forms.{IsPlayer};
ghost use Rattle.zr_game.specs.Games.{game_of};

use super::*;
use smallvec::SmallVec;
use std::alloc::Global;
use std::test::Fail;
use zr_base::{Frac, Point, Row};

/// A player with two variables that are 0 or 1: it packs at most 5.
fn packer(
    alloc: Global,
    other: u32,
    packs: [i64; 2],
    own: [i64; 2],
    shared: [i64; 2],
) -> Result<Player, Fail>
    ensures { IfOk result (λ player. length (player_of player).vars ≡ 2) }
{
    Ok(Player {
        name: String::new(alloc),
        vars: vec![in alloc; bit(alloc), bit(alloc)]?,
        rows: vec![in alloc;
            Row {
                coef: SmallVec::from_slice(alloc, &[(0, packs[0]), (1, packs[1])])?,
                le: 5
            },
        ]?,
        pairs: Vec::new(alloc),
        cost: SmallVec::from_slice(alloc, &[(0, own[0]), (1, own[1])])?,
        cross: vec![in alloc;
            CrossTerm {
                own: 0,
                player: other,
                var: 0,
                coef: shared[0]
            },
            CrossTerm {
                own: 1,
                player: other,
                var: 1,
                coef: shared[1]
            },
        ]?,
        others: Vec::new(alloc),
    })
}

fn bit(alloc: Global) -> Var {
    variable(alloc, true, Some(0), Some(1))
}

fn variable(alloc: Global, whole: bool, low: Option<i64>, up: Option<i64>) -> Var {
    Var {
        name: String::new(alloc),
        whole,
        low,
        up,
    }
}

/// The game of one player with these variables and pairs.
fn alone(alloc: Global, vars: Vec<Var>, pairs: Vec<Pair>) -> Result<Game, Fail>
    ensures { IfOk result (λ game. length (game_of game) ≡ 1) }
{
    let player = Player {
        name: String::new(alloc),
        vars,
        rows: Vec::new(alloc),
        pairs,
        cost: SmallVec::new(alloc),
        cross: Vec::new(alloc),
        others: Vec::new(alloc),
    };
    match Game::new(vec![in alloc; player]?) {
        Ok(game) => Ok(game),
        Err(_) => Err(Fail::from("no game")),
    }
}

fn knapsack(alloc: Global) -> Result<Game, Fail>
    ensures players { IfOk result (λ game. length (game_of game) ≡ 2) }
    ensures vars { IfOk result (λ game. (k : ℕ) (player : PlayerOf)
        → IsPlayer (game_of game) k player → length player.vars ≡ 2) }
{
    let first = packer(alloc, 1, [3, 4], [-1, -2], [2, 3])?;
    let second = packer(alloc, 0, [2, 5], [-3, -5], [5, 4])?;
    match Game::new(vec![in alloc; first, second]?) {
        Ok(game) => Ok(game),
        Err(_) => Err(Fail::from("no game")),
    }
}

fn pair_of_values(alloc: Global, num: [i128; 2], den: i128) -> Result<Point, Fail>
    ensures { IfOk result (λ x. length x.num ≡ 2) }
{
    match Point::new(vec![in alloc; num[0], num[1]]?, den) {
        Ok(point) => Ok(point),
        Err(_) => Err(Fail::from("no point")),
    }
}

/// The first player's cost where it plays `x / den` and the second plays `y / den`.
fn first_cost(
    alloc: Global,
    game: &Game,
    x: [i128; 2],
    y: [i128; 2],
    den: i128,
) -> Result<Frac, Fail>
    requires players { length (game_of game.now) ≡ 2 }
    requires vars { (k : ℕ) (player : PlayerOf) → IsPlayer (game_of game.now) k player
        → length player.vars ≡ 2 }
{
    let points = vec![in alloc;
        pair_of_values(alloc, x, den)?,
        pair_of_values(alloc, y, den)?,
    ]?;
    match cost(game, 0, &points) {
        Ok(cost) => Ok(cost),
        Err(_) => Err(Fail::from("wide")),
    }
}

#[test]
fn costs_by_hand(rt: HostRuntime) -> Result<(), Fail> {
    let game = knapsack(rt.alloc())?;
    let apart = first_cost(rt.alloc(), &game, [1, 0], [0, 1], 1)?;
    assert_eq!(rt; (apart.num(), apart.den()), (-1, 1));
    let alike = first_cost(rt.alloc(), &game, [0, 1], [0, 1], 1)?;
    assert_eq!(rt; (alike.num(), alike.den()), (1, 1));
    let thirds = first_cost(rt.alloc(), &game, [1, 1], [2, 1], 3)?;
    assert_eq!(rt; (thirds.num(), thirds.den()), (-2, 9));
    Ok(())
}

/// The first player has terms in the others' variables, one in one and one in two.
fn three(alloc: Global) -> Result<Game, Fail>
    ensures players { IfOk result (λ game. length (game_of game) ≡ 3) }
    ensures vars { IfOk result (λ game. (k : ℕ) (player : PlayerOf)
        → IsPlayer (game_of game) k player → length player.vars ≡ 2) }
{
    let mut first = packer(alloc, 1, [3, 4], [-1, -2], [2, 3])?;
    first.others = vec![in alloc;
        Other {
            first: (1, 0),
            second: None,
            coef: 3
        },
        Other {
            first: (1, 0),
            second: Some((2, 1)),
            coef: 2
        },
    ]?;
    let second = packer(alloc, 0, [2, 5], [-3, -5], [5, 4])?;
    let third = packer(alloc, 0, [2, 5], [-3, -5], [5, 4])?;
    match Game::new(vec![in alloc; first, second, third]?) {
        Ok(game) => Ok(game),
        Err(_) => Err(Fail::from("no game")),
    }
}

/// The first player's cost at these points.
fn cost_at(game: &Game, points: &[Point]) -> Result<Frac, Fail>
    requires players { length (game_of game.now) ≡ 3 }
    requires vars { (k : ℕ) (player : PlayerOf) → IsPlayer (game_of game.now) k player
        → length player.vars ≡ 2 }
    requires points { (length points.now ≡ 3) × All (λ x. length x.num ≡ 2) points.now }
{
    match cost(game, 0, points) {
        Ok(cost) => Ok(cost),
        Err(_) => Err(Fail::from("wide")),
    }
}

#[test]
fn costs_in_others_variables(rt: HostRuntime) -> Result<(), Fail> {
    let alloc = rt.alloc();
    let game = three(alloc)?;
    let points = vec![in alloc;
        pair_of_values(alloc, [1, 0], 2)?,
        pair_of_values(alloc, [2, 0], 3)?,
        pair_of_values(alloc, [0, 1], 1)?,
    ]?;
    let made = cost_at(&game, &points)?;
    assert_eq!(rt; (made.num(), made.den()), (7, 2));
    Ok(())
}

#[test]
fn feasible_by_hand(rt: HostRuntime) -> Result<(), Fail> {
    let game = knapsack(rt.alloc())?;
    for (num, den, passes) in [
        ([1, 0], 1, true),
        ([2, 0], 2, true),
        ([1, 1], 1, false),
        ([1, 0], 2, false),
        ([0, 2], 1, false),
        ([-1, 0], 1, false),
    ] {
        let point = pair_of_values(rt.alloc(), num, den)?;
        assert_eq!(rt; feasible(&game, 0, &point).map_err(|_| "wide")?, passes);
    }
    Ok(())
}

/// Whether the value `num / den` is feasible for a variable with these bounds.
fn fits(alloc: Global, var: Var, num: i128, den: i128) -> Result<bool, Fail> {
    let game = alone(alloc, vec![in alloc; var]?, Vec::new(alloc))?;
    let Ok(point) = Point::new(vec![in alloc; num]?, den) else {
        return Err(Fail::from("no point"));
    };
    Ok(feasible(&game, 0, &point).map_err(|_| "wide")?)
}

#[test]
fn bounds_by_hand(rt: HostRuntime) -> Result<(), Fail> {
    let alloc = rt.alloc();
    for (low, up, num, den, passes) in [
        (None, None, -7, 2, true),
        (Some(-2), Some(3), -3, 2, true),
        (Some(-2), Some(3), -5, 2, false),
        (Some(-2), Some(3), 7, 2, false),
        (Some(0), None, -1, 2, false),
    ] {
        let var = variable(alloc, false, low, up);
        assert_eq!(rt; fits(alloc, var, num, den)?, passes);
    }
    Ok(())
}

/// Whether 1 or -1 is a ray at 0 of a player with one variable.
fn goes_on(alloc: Global, whole: bool, low: Option<i64>, rises: bool) -> Result<bool, Fail> {
    let var = variable(alloc, whole, low, None);
    let game = alone(alloc, vec![in alloc; var]?, Vec::new(alloc))?;
    let Ok(base) = Point::new(vec![in alloc; 0]?, 1) else {
        return Err(Fail::from("no point"));
    };
    let change = if rises { 1 } else { -1 };
    Ok(is_ray(&game, 0, &base, &[change]).map_err(|_| "wide")?)
}

/// Whether `(1, 0)` is a ray at `(0, t)` of a player with `s`, `t` up to 1 and the pair
/// `s`, `1 - t`.
fn leaves_pair(alloc: Global, t: i128) -> Result<bool, Fail> {
    let first = variable(alloc, false, Some(0), None);
    let second = variable(alloc, false, Some(0), Some(1));
    let pair = Pair {
        var: 0,
        coef: SmallVec::from_slice(alloc, &[(1, -1)])?,
        add: 1,
    };
    let game = alone(alloc, vec![in alloc; first, second]?, vec![in alloc; pair]?)?;
    let base = pair_of_values(alloc, [0, t], 1)?;
    Ok(is_ray(&game, 0, &base, &[1, 0]).map_err(|_| "wide")?)
}

#[test]
fn rays_by_hand(rt: HostRuntime) -> Result<(), Fail> {
    let alloc = rt.alloc();
    for whole in [false, true] {
        assert!(rt; goes_on(alloc, whole, Some(0), true)?);
        assert!(rt; goes_on(alloc, whole, None, false)?);
        assert!(rt; !goes_on(alloc, whole, Some(0), false)?);
    }
    assert!(rt; leaves_pair(alloc, 1)?);
    assert!(rt; !leaves_pair(alloc, 0)?);
    let one = variable(alloc, false, Some(0), None);
    let game = alone(alloc, vec![in alloc; one]?, Vec::new(alloc))?;
    let base = pair_of_values(alloc, [0, 0], 1)?;
    assert!(rt; !is_ray(&game, 0, &base, &[1]).map_err(|_| "wide")?);
    Ok(())
}

#[test]
fn bad_players_are_handed_back(rt: HostRuntime) -> Result<(), Fail> {
    let alloc = rt.alloc();
    let alone = packer(alloc, 0, [3, 4], [-1, -2], [2, 3])?;
    match Game::new(vec![in alloc; alone]?) {
        Ok(_) => Err(Fail::from("a game")),
        Err(players) => {
            assert_eq!(rt; players.len(), 1);
            Ok(())
        }
    }
}
