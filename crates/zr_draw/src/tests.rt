ghost use Rattle.std.specs.Prelude.{IfOk};
ghost use Rattle.zr_game.specs.Games.{game_of};
ghost use Rattle.zr_system.specs.Asked.{AreLeaves};

use crate::parts::drawn_parts;
use smallvec::SmallVec;
use std::alloc::Global;
use std::test::Fail;
use zr_base::Point;
use zr_game::{Game, Named, Player, Var};
use zr_mix::Part;
use zr_refute::leaves_over;
use zr_system::{Leaves, player_count, unknowns};
use zr_tree::{Node, Tree};

/// One player with a variable that is 0 or 1, at no cost.
fn coin(alloc: Global) -> Result<Game, Fail> {
    let x = Var {
        name: String::new(alloc),
        whole: true,
        low: Some(0),
        up: Some(1),
    };
    let player = Player {
        name: String::new(alloc),
        vars: vec![in alloc; x]?,
        rows: Vec::new(alloc),
        pairs: Vec::new(alloc),
        cost: SmallVec::from_slice(alloc, &[])?,
        cross: Vec::new(alloc),
        others: Vec::new(alloc),
    };
    Game::new(vec![in alloc; player]?).map_err(|_| Fail::from("no game"))
}

/// The end of a cover at the point of this number.
fn known(alloc: Global, number: i128) -> Result<Node, Fail> {
    match Point::new(vec![in alloc; number]?, 1) {
        Ok(point) => Ok(Node::Known { point }),
        Err(_) => Err(Fail::from("no point")),
    }
}

/// The leaves at 0 and at 1, with nothing named.
fn leaves(alloc: Global, game: &Game) -> Result<Leaves, Fail>
    ensures { IfOk result (AreLeaves (game_of game.now)) }
{
    if player_count(game) != 1 {
        return Err(Fail::from("another game"));
    }
    let split = Node::Split { var: 0, at: 0 };
    let nodes = vec![in alloc; split, known(alloc, 0)?, known(alloc, 1)?]?;
    let Ok(cover) = Tree::new(nodes) else {
        return Err(Fail::from("no tree"));
    };
    let covers = vec![in alloc; cover]?;
    let named: Vec<Vec<Named>> = vec![in alloc; Vec::new(alloc)]?;
    match leaves_over(alloc, game, &covers, &named) {
        Ok(leaves) => Ok(leaves),
        Err(_) => Err(Fail::from("no memory")),
    }
}

/// The parts that nine numbers of the unknowns draw, over the denominator: the player's value, and
/// of each leaf its share, its weight and two multipliers.
fn drawn(alloc: Global, numbers: [i128; 9], den: i128) -> Result<Vec<Part>, Fail> {
    let game = coin(alloc)?;
    let leaves = leaves(alloc, &game)?;
    let order = unknowns(alloc, &game, &leaves).map_err(|_| "no memory")?;
    let x = Point::new(Vec::from_array(alloc, numbers)?, den).map_err(|_| "no point")?;
    if player_count(&game) != 1 || order.len() != x.len() || order.len() > 9 {
        return Err(Fail::from("another system"));
    }
    drawn_parts(alloc, &game, &leaves, &x, 0).map_err(|_| Fail::from("no memory"))
}

#[test]
fn both_leaves_are_played_with_their_weights(rt: HostRuntime) -> Result<(), Fail> {
    let parts = drawn(rt.alloc(), [0, 0, 1, 0, 0, 2, 2, 0, 0], 3)?;
    let [first, second] = parts.as_slice() else {
        return Err(Fail::from("other parts"));
    };
    assert_eq!(rt; (first.weight, first.point.den()), (1, 1));
    assert_eq!(rt; (second.weight, second.point.den()), (2, 2));
    Ok(())
}

#[test]
fn a_leaf_without_weight_is_not_played(rt: HostRuntime) -> Result<(), Fail> {
    let parts = drawn(rt.alloc(), [0, 0, 0, 0, 0, 3, 3, 0, 0], 3)?;
    let [only] = parts.as_slice() else {
        return Err(Fail::from("other parts"));
    };
    assert_eq!(rt; only.weight, 3);
    Ok(())
}
