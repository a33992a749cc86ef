ghost use Rattle.std.specs.Prelude.{IfOk};
ghost use Rattle.zr_game.specs.Games.{game_of};
ghost use Rattle.zr_game.specs.Named.{named_of};
ghost use Rattle.zr_system.specs.Asked.{AreLeaves, IsNamedForm};

use super::*;
use smallvec::SmallVec;
use std::alloc::Global;
use std::test::Fail;
use zr_base::Point;
use zr_game::{Game, Kind, Named, Player, Var};
use zr_system::{Leaves, leaf_count, player_count, var_count};
use zr_tree::{Node, Tree};

/// A node as a table writes it.
#[derive(Clone, Copy)]
enum Line<'a> {
    OnOff,
    Close(&'a [(u32, i128)]),
}

fn node(alloc: Global, line: Line) -> Result<RNode, Fail> {
    Ok(match line {
        Line::OnOff => RNode::OnOff { player: 0, leaf: 0 },
        Line::Close(mult) => RNode::Close {
            mult: Vec::from_slice(alloc, mult)?,
        },
    })
}

/// A player of one variable from 0 on, at the cost of `-x`.
fn game(alloc: Global) -> Result<Game, Fail> {
    let x = Var {
        name: String::new(alloc),
        whole: false,
        low: Some(0),
        up: None,
    };
    let player = Player {
        name: String::new(alloc),
        vars: vec![in alloc; x]?,
        rows: Vec::new(alloc),
        pairs: Vec::new(alloc),
        cost: SmallVec::from_slice(alloc, &[(0, -1)])?,
        cross: Vec::new(alloc),
        others: Vec::new(alloc),
    };
    Game::new(vec![in alloc; player]?).map_err(|_| Fail::from("no game"))
}

/// The ray from 0 on.
fn ray(alloc: Global) -> Result<Named, Fail>
    ensures { IfOk result (λ item. IsNamedForm 1 (named_of item)) }
{
    let dir = vec![in alloc; 1]?;
    match Point::new(vec![in alloc; 0]?, 1) {
        Ok(base) => Ok(Named::Ray { base, dir }),
        Err(_) => Err(Fail::from("no point")),
    }
}

/// The leaf of all points, and the ray.
fn leaves(alloc: Global, game: &Game) -> Result<Leaves, Fail>
    ensures { IfOk result (AreLeaves (game_of game.now)) }
{
    if player_count(game) != 1 || var_count(game, 0) != 1 {
        return Err(Fail::from("another game"));
    }
    let Ok(cover) = Tree::new(vec![in alloc; Node::Loose]?) else {
        return Err(Fail::from("no tree"));
    };
    let covers = vec![in alloc; cover]?;
    let named = vec![in alloc; vec![in alloc; ray(alloc)?]?]?;
    match leaves_over(alloc, game, &covers, &named) {
        Ok(leaves) => Ok(leaves),
        Err(_) => Err(Fail::from("no memory")),
    }
}

/// What the check of these nodes answers.
fn answer(
    alloc: Global,
    game: &Game,
    leaves: &Leaves,
    lines: &[Line],
) -> Result<Result<(), Fault>, Fail>
    requires { AreLeaves (game_of game.now) leaves.now }
{
    let mut nodes = Vec::new(alloc);
    for line in lines {
        nodes.push(node(alloc, *line)?)?;
    }
    let Ok(proof) = Refutation::new(nodes) else {
        return Err(Fail::from("no refutation"));
    };
    if player_count(game) != 1 {
        return Err(Fail::from("another game"));
    }
    let counts = [leaf_count(game, leaves, 0) as u32];
    if !proof.is_whole(&counts) {
        return Err(Fail::from("no whole tree"));
    }
    let Ok(mut room) = CaseRoom::new(alloc, game, leaves, proof.nodes.len()) else {
        return Err(Fail::from("no memory"));
    };
    Ok(refuted(game, leaves, Kind::Mixed, &proof, &mut room))
}

/// Rows 0 and 1 say that the weights are 1, row 2 is the slot's and row 3 the weight's; row 4 is the
/// ray's, `1 <= 0`. Where the leaf is off, row 5 says that its weight is at most 0.
#[test]
fn a_ray_that_gains_refutes_all_profiles(rt: HostRuntime) -> Result<(), Fail> {
    use Line::{Close, OnOff};
    let game = game(rt.alloc())?;
    let leaves = leaves(rt.alloc(), &game)?;
    let table: [(&[Line], Result<(), Fault>); 6] = [
        (&[Close(&[(4, 1)])], Ok(())),
        (&[OnOff, Close(&[(4, 1)]), Close(&[(1, 1), (5, 1)])], Ok(())),
        (
            &[OnOff, Close(&[(1, 1), (5, 1)]), Close(&[(4, 1)])],
            Err(Fault::Bad(1)),
        ),
        (
            &[OnOff, Close(&[(4, 1)]), Close(&[(1, 1), (3, 1)])],
            Err(Fault::Bad(2)),
        ),
        (&[Close(&[(5, 1)])], Err(Fault::Bad(0))),
        (
            &[Close(&[(1, i128::MAX), (4, i128::MAX)])],
            Err(Fault::Wide(0)),
        ),
    ];
    for (lines, expected) in &table {
        assert_eq!(rt; answer(rt.alloc(), &game, &leaves, lines)?, *expected);
    }
    Ok(())
}
