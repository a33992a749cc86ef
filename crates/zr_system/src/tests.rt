ghost use Rattle.std.specs.Prelude.{◌≡◌, ◌<◌, ℕ, length, IfOk};
ghost use Rattle.std.specs.List.{All};
ghost use Rattle.zr_game.specs.Forms.{IsPlayer};
ghost use Rattle.zr_game.specs.Games.{game_of};
ghost use Rattle.zr_game.specs.Leaves.{IsLeafOf};
ghost use Rattle.zr_game.specs.Named.{named_of};
ghost use Rattle.zr_game.specs.Players.{PlayerOf};
ghost use Rattle.zr_base.specs.Steps.{IsNarrow};
ghost use Rattle.zr_system.specs.Asked.{AreLeaves, IsNamedForm};
ghost use Rattle.zr_system.specs.Regions as content;

use super::*;
use smallvec::SmallVec;
use std::alloc::Global;
use std::test::Fail;
use zr_base::{Point, Wide};
use zr_game::{CrossTerm, Game, Kind, Leaf, Player, Var};
use zr_lin::System;

fn variable(alloc: Global, whole: bool, up: Option<i64>) -> Var {
    Var {
        name: String::new(alloc),
        whole,
        low: Some(0),
        up,
    }
}

fn player(
    alloc: Global,
    vars: Vec<Var>,
    cost: &[(u32, i64)],
    cross: Vec<CrossTerm>,
) -> Result<Player, Fail> {
    Ok(Player {
        name: String::new(alloc),
        vars,
        rows: Vec::new(alloc),
        pairs: Vec::new(alloc),
        cost: SmallVec::from_slice(alloc, cost)?,
        cross,
        others: Vec::new(alloc),
    })
}

fn game(alloc: Global, first: Player, second: Player) -> Result<Game, Fail> {
    Game::new(vec![in alloc; first, second]?).map_err(|_| Fail::from("no game"))
}

fn binaries(alloc: Global, count: usize) -> Result<Player, Fail> {
    let mut vars = Vec::new(alloc);
    for _ in 0..count {
        vars.push(variable(alloc, true, Some(1)))?;
    }
    player(alloc, vars, &[], Vec::new(alloc))
}

/// The first `count` binary digits of a number, the last one first.
fn digits(alloc: Global, count: usize, number: u32) -> Result<Vec<Option<i64>>, Fail>
    ensures { IfOk result (λ list. length list.items ≡ count) }
{
    let mut list = Vec::new(alloc);
    let mut rest = number;
    for _ in 0..count {
        list.push(Some(i64::from(rest % 2)))?;
        rest /= 2;
    }
    Ok(list)
}

/// The exact leaf at which the variables are the binary digits of a number.
fn corner(alloc: Global, game: &Game, i: u32, number: u32) -> Result<Region, Fail>
    requires { i < length (game_of game.now) }
    ensures { (player : PlayerOf) → IsPlayer (game_of game.now) i player
        → IfOk result (λ region. IsLeafOf player region.leaf) }
{
    let Ok(root) = Leaf::root(alloc, game, i) else {
        return Err(Fail::from("no memory"));
    };
    Ok(Region {
        leaf: Leaf {
            low: digits(alloc, root.low.len(), number)?,
            high: digits(alloc, root.high.len(), number)?,
            sides: root.sides,
        },
        exact: true,
    })
}

/// The leaves at the first `count` numbers.
fn corners(alloc: Global, game: &Game, i: u32, count: u32) -> Result<Vec<Region>, Fail>
    requires { i < length (game_of game.now) }
    ensures leaves { (player : PlayerOf) → IsPlayer (game_of game.now) i player
        → IfOk result (λ list. All (λ region. IsLeafOf player region.leaf) list.items) }
    ensures few { IfOk result (λ list. length list.items < 4294967296) }
{
    let mut list = Vec::new(alloc);
    for number in 0..count {
        list.push(corner(alloc, game, i, number)?)?;
    }
    Ok(list)
}

/// The leaf of all points, which isn't exact.
fn whole(alloc: Global, game: &Game, i: u32) -> Result<Vec<Region>, Fail>
    requires { i < length (game_of game.now) }
    ensures leaves { (player : PlayerOf) → IsPlayer (game_of game.now) i player
        → IfOk result (λ list. All (λ region. IsLeafOf player region.leaf) list.items) }
    ensures few { IfOk result (λ list. length list.items < 4294967296) }
{
    let Ok(leaf) = Leaf::root(alloc, game, i) else {
        return Err(Fail::from("no memory"));
    };
    Ok(vec![in alloc; Region { leaf, exact: false }]?)
}

/// Two players' leaves, with nothing named for the first, and no cuts.
fn two(
    alloc: Global,
    game: &Game,
    first: Vec<Region>,
    second: Vec<Region>,
    named: Vec<Named>,
) -> Result<Leaves, Fail>
    requires players { length (game_of game.now) ≡ 2 }
    requires first { (player : PlayerOf) → IsPlayer (game_of game.now) 0 player
        → All (λ region. IsLeafOf player region.leaf) first.items }
    requires second { (player : PlayerOf) → IsPlayer (game_of game.now) 1 player
        → All (λ region. IsLeafOf player region.leaf) second.items }
    requires named { All (λ item. IsNamedForm (content.var_count (game_of game.now) 1) (named_of item))
        named.items }
    requires few_first { length first.items < 4294967296 }
    requires few_second { length second.items < 4294967296 }
    requires few_named { length named.items < 4294967296 }
    ensures { IfOk result (AreLeaves (game_of game.now)) }
{
    Ok(Leaves {
        regions: vec![in alloc; first, second]?,
        named: vec![in alloc; Vec::new(alloc), named]?,
        cuts: vec![in alloc; Vec::new(alloc), Vec::new(alloc)]?,
    })
}

/// The cells of two players with so many binary variables, over all settled leaves.
fn cells_of_binaries(alloc: Global, count: usize, leaves: u32) -> Result<u128, Fail> {
    let game = game(alloc, binaries(alloc, count)?, binaries(alloc, count)?)?;
    if game.players.len() != 2 {
        return Err(Fail::from("no two players"));
    }
    let first = corners(alloc, &game, 0, leaves)?;
    let second = corners(alloc, &game, 1, leaves)?;
    let leaves = two(alloc, &game, first, second, Vec::new(alloc))?;
    Ok(cells(&game, &leaves))
}

/// A variable x that is 0 or 1, at the cost of `2x + 3xy`, and a variable y from 0 on, at that of
/// `-y - 4xy`.
fn small(alloc: Global) -> Result<Game, Fail> {
    let shared = |player, coef| CrossTerm {
        own: 0,
        player,
        var: 0,
        coef,
    };
    let x = vec![in alloc; variable(alloc, true, Some(1))]?;
    let y = vec![in alloc; variable(alloc, false, None)]?;
    let first = player(alloc, x, &[(0, 2)], vec![in alloc; shared(1, 3)]?)?;
    let second = player(alloc, y, &[(0, -1)], vec![in alloc; shared(0, -4)]?)?;
    game(alloc, first, second)
}

/// The point 5/2.
fn point(alloc: Global) -> Result<Named, Fail>
    ensures { IfOk result (λ item. IsNamedForm 1 (named_of item)) }
{
    match Point::new(vec![in alloc; 5]?, 2) {
        Ok(point) => Ok(Named::Point(point)),
        Err(_) => Err(Fail::from("no point")),
    }
}

/// The ray from 0 on.
fn ray(alloc: Global, change: i128) -> Result<Named, Fail>
    requires { IsNarrow change }
    ensures { IfOk result (λ item. IsNamedForm 1 (named_of item)) }
{
    let dir = vec![in alloc; change]?;
    match Point::new(vec![in alloc; 0]?, 1) {
        Ok(base) => Ok(Named::Ray { base, dir }),
        Err(_) => Err(Fail::from("no point")),
    }
}

/// The first player's two points as leaves, and all points of the second.
fn small_leaves(alloc: Global, game: &Game, named: Vec<Named>) -> Result<Leaves, Fail>
    requires named { All (λ item. IsNamedForm 1 (named_of item)) named.items }
    requires few { length named.items < 4294967296 }
    ensures { IfOk result (AreLeaves (game_of game.now)) }
{
    if player_count(game) != 2 || var_count(game, 1) != 1 {
        return Err(Fail::from("another game"));
    }
    let first = corners(alloc, game, 0, 2)?;
    let second = whole(alloc, game, 1)?;
    two(alloc, game, first, second, named)
}

/// The point 5/2 and a ray.
fn items(alloc: Global, change: i128) -> Result<Vec<Named>, Fail>
    requires { IsNarrow change }
    ensures forms { IfOk result (λ list. All (λ item. IsNamedForm 1 (named_of item)) list.items) }
    ensures few { IfOk result (λ list. length list.items < 4294967296) }
{
    Ok(vec![in alloc; point(alloc)?, ray(alloc, change)?]?)
}

/// The system where the first player's first leaf is on.
fn system(alloc: Global, change: i128) -> Result<Result<System, SystemError>, Fail>
    requires { IsNarrow change }
{
    let game = small(alloc)?;
    let leaves = small_leaves(alloc, &game, items(alloc, change)?)?;
    let order = unknowns(alloc, &game, &leaves).map_err(|_| "no memory")?;
    if order.len() != 12 || player_count(&game) != 2 || leaf_count(&game, &leaves, 0) != 2 {
        return Err(Fail::from("another system"));
    }
    let on = Choice::On { player: 0, leaf: 0 };
    Ok(rows(alloc, &game, &leaves, Kind::Mixed, &[on]))
}

/// Whether row `n` is this one.
fn is_row(sys: &System, n: usize, coef: &[(u32, i128)], le: i128, strict: bool) -> bool {
    match sys.rows.get(n) {
        Some(row) => row.coef.as_slice() == coef && row.le == le && row.strict == strict,
        None => false,
    }
}

#[test]
fn rows_by_hand(rt: HostRuntime) -> Result<(), Fail> {
    let sys = system(rt.alloc(), 1)?.map_err(|_| "no system")?;
    assert_eq!(rt; (sys.columns, sys.rows.len()), (12, 26));
    assert!(rt; is_row(&sys, 0, &[(2, 1), (6, 1)], 1, false));
    assert!(rt; is_row(&sys, 7, &[(3, -1), (4, 1), (10, 3)], -2, false));
    assert!(rt; is_row(&sys, 10, &[(5, -1), (6, 1)], 0, false));
    assert!(rt; is_row(&sys, 17, &[(0, 1), (7, -1), (8, 1)], 0, false));
    assert!(rt; is_row(&sys, 22, &[(1, 20), (5, 20), (9, 2)], -5, false));
    assert!(rt; is_row(&sys, 23, &[(1, 4), (5, 4)], -1, false));
    assert!(rt; is_row(&sys, 24, &[(2, -1)], 0, true));
    assert!(rt; is_row(&sys, 25, &[(0, -1)], 0, false));
    let Err(SystemError::Wide(wide)) = system(rt.alloc(), i128::MAX)? else {
        return Err(Fail::from("no step is too wide"));
    };
    assert_eq!(rt;
        wide,
        Wide {
            left: (-4, i128::MAX),
            right: (0, 1)
        }
    );
    Ok(())
}

#[test]
fn columns_and_narrow_items(rt: HostRuntime) -> Result<(), Fail> {
    let game = small(rt.alloc())?;
    let leaves = small_leaves(rt.alloc(), &game, Vec::new(rt.alloc()))?;
    let order = unknowns(rt.alloc(), &game, &leaves).map_err(|_| "no memory")?;
    if order.len() != 12 || player_count(&game) != 2 || leaf_count(&game, &leaves, 0) != 2 {
        return Err(Fail::from("another system"));
    }
    assert_eq!(rt; share_column(&game, &leaves, 0, 1), 5);
    if var_count(&game, 1) != 1 {
        return Err(Fail::from("another game"));
    }
    assert!(rt; item_is_narrow(&game, 1, &point(rt.alloc())?));
    assert!(rt; item_is_narrow(&game, 1, &ray(rt.alloc(), i128::MAX / 4)?));
    assert!(rt; !item_is_narrow(&game, 1, &ray(rt.alloc(), i128::MAX / 4 + 1)?));
    Ok(())
}

#[test]
fn unknowns_and_rows_by_name(rt: HostRuntime) -> Result<(), Fail> {
    let game = small(rt.alloc())?;
    let leaves = small_leaves(rt.alloc(), &game, Vec::new(rt.alloc()))?;
    let order = unknowns(rt.alloc(), &game, &leaves).map_err(|_| "no memory")?;
    assert_eq!(rt; order.len(), 12);
    let first_share = Unknown::Share {
        player: 0,
        leaf: 1,
        var: 0,
    };
    assert_eq!(rt; order.get(5), Some(&first_share));
    let last_slot = Unknown::Dual {
        player: 0,
        leaf: 1,
        slot: 1,
    };
    assert_eq!(rt; order.get(8), Some(&last_slot));
    let lines = base_lines(rt.alloc(), &game, &leaves).map_err(|_| "no memory")?;
    assert_eq!(rt; lines.len(), 22);
    let gain = Line::Gain {
        player: 0,
        leaf: 1,
        negated: false,
    };
    assert_eq!(rt; lines.get(17), Some(&gain));
    assert_eq!(rt; cells(&game, &leaves), 264);
    Ok(())
}

#[test]
fn cells_of_settled_leaves(rt: HostRuntime) -> Result<(), Fail> {
    assert_eq!(rt; cells_of_binaries(rt.alloc(), 6, 64)?, 11_848_712);
    assert_eq!(rt; cells_of_binaries(rt.alloc(), 8, 256)?, 25_604 * 12_802);
    Ok(())
}
