ghost use Rattle.std.specs.Prelude.{◌≡◌, ◌<◌, ℕ, length, IfOk};
ghost use Rattle.std.specs.List.{All};
ghost use Rattle.zr_game.specs.Forms.{IsPlayer};
ghost use Rattle.zr_game.specs.Games.{game_of};
ghost use Rattle.zr_game.specs.Leaves.{IsLeafOf};
ghost use Rattle.zr_game.specs.Players.{PlayerOf};
ghost use Rattle.zr_system.specs.Asked.{AreLeaves};

use crate::asking::ask;
use crate::reply::Reply;
use smallvec::SmallVec;
use std::alloc::Global;
use std::test::Fail;
use zr_game::{Choice, Game, Leaf, Player, Var};
use zr_io::Purse;
use zr_system::{Leaves, Region, leaf_count, player_count, unknowns};

/// One player with a variable x that is 0 or 1, at the cost of -x.
fn small(alloc: Global) -> Result<Game, Fail> {
    let x = Var {
        name: String::new(alloc),
        whole: true,
        low: Some(0),
        up: Some(1),
    };
    let player = Player {
        name: String::new(alloc),
        vars: vec![in alloc; x]?,
        rows: Vec::new(alloc),
        pairs: Vec::new(alloc),
        cost: SmallVec::from_slice(alloc, &[(0, -1)])?,
        cross: Vec::new(alloc),
        others: Vec::new(alloc),
    };
    Game::new(vec![in alloc; player]?).map_err(|_| Fail::from("no game"))
}

/// The same number for each variable.
fn all_at(alloc: Global, count: usize, number: i64) -> Result<Vec<Option<i64>>, Fail>
    ensures { IfOk result (λ list. length list.items ≡ count) }
{
    Ok(vec![in alloc; Some(number); count]?)
}

/// The exact leaf at which each variable has the number.
fn corner(alloc: Global, game: &Game, number: i64) -> Result<Region, Fail>
    requires { 0 < length (game_of game.now) }
    ensures { (player : PlayerOf) → IsPlayer (game_of game.now) 0 player
        → IfOk result (λ region. IsLeafOf player region.leaf) }
{
    let Ok(root) = Leaf::root(alloc, game, 0) else {
        return Err(Fail::from("no memory"));
    };
    Ok(Region {
        leaf: Leaf {
            low: all_at(alloc, root.low.len(), number)?,
            high: all_at(alloc, root.high.len(), number)?,
            sides: root.sides,
        },
        exact: true,
    })
}

/// The two points.
fn points(alloc: Global, game: &Game) -> Result<Vec<Region>, Fail>
    requires { 0 < length (game_of game.now) }
    ensures leaves { (player : PlayerOf) → IsPlayer (game_of game.now) 0 player
        → IfOk result (λ list. All (λ region. IsLeafOf player region.leaf) list.items) }
    ensures two { IfOk result (λ list. length list.items ≡ 2) }
{
    Ok(vec![in alloc; corner(alloc, game, 0)?, corner(alloc, game, 1)?]?)
}

/// The leaves of the only player, with nothing named and no cuts.
fn alone(alloc: Global, game: &Game, points: Vec<Region>) -> Result<Leaves, Fail>
    requires players { length (game_of game.now) ≡ 1 }
    requires leaves { (player : PlayerOf) → IsPlayer (game_of game.now) 0 player
        → All (λ region. IsLeafOf player region.leaf) points.items }
    requires few { length points.items < 4294967296 }
    ensures { IfOk result (AreLeaves (game_of game.now)) }
{
    Ok(Leaves {
        regions: vec![in alloc; points]?,
        named: vec![in alloc; Vec::new(alloc)]?,
        cuts: vec![in alloc; Vec::new(alloc)]?,
    })
}

/// The answer where the second leaf has weight, and where it has none, as far as asked.
fn answer(alloc: Global, on: bool, off: bool) -> Result<Reply, Fail> {
    let game = small(alloc)?;
    if player_count(&game) != 1 {
        return Err(Fail::from("another game"));
    }
    let points = points(alloc, &game)?;
    let leaves = alone(alloc, &game, points)?;
    let order = unknowns(alloc, &game, &leaves).map_err(|_| "no memory")?;
    if order.len() != 9 || leaf_count(&game, &leaves, 0) != 2 {
        return Err(Fail::from("another system"));
    }
    let mut path = Vec::new(alloc);
    if on {
        path.push(Choice::On { player: 0, leaf: 1 })?;
    }
    if off {
        path.push(Choice::Off { player: 0, leaf: 1 })?;
    }
    let mut purse = Purse::new(0);
    ask(alloc, &game, &leaves, &path, &mut purse).map_err(|_| Fail::from("no answer"))
}

#[test]
fn a_point_where_no_choice_is_made(rt: HostRuntime) -> Result<(), Fail> {
    let Reply::Point(x) = answer(rt.alloc(), false, false)? else {
        return Err(Fail::from("no point"));
    };
    if x.len() != 9 {
        return Err(Fail::from("another point"));
    }
    assert_eq!(rt; x.num(2).checked_add(x.num(6)), Some(x.den()));
    Ok(())
}

#[test]
fn both_sides_of_a_choice_are_refuted(rt: HostRuntime) -> Result<(), Fail> {
    let Reply::Close(mult) = answer(rt.alloc(), true, true)? else {
        return Err(Fail::from("no multipliers"));
    };
    assert!(rt; mult.iter().any(|(row, _)| *row == 18));
    Ok(())
}
