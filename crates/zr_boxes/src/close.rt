ghost use Rattle.std.specs.Prelude.{◌↔◌, pos, ◌<ℤ◌, IsTrue};
ghost use Rattle.zr_game.specs.Games.{game_of};
ghost use Rattle.zr_cases.specs.Cases.{DeviateNode, EmptyNode, bnode_of};
ghost use Rattle.zr_cases.specs.Forms.{AreCounted, IsBoxForm};
ghost use Rattle.zr_boxes.specs.Paths.{box_of, places_of};
ghost use Rattle.zr_boxes.specs.Places.{FitsGame};
ghost use Rattle.zr_boxes.specs.Visits.{EndTells};

use crate::bounded::is_bounded;
use crate::gain::least_gain;
use crate::path::Path;
use crate::refute::refutes;
use zr_base::{Point, Wide};
use zr_cases::BNode;
use zr_game::{Game, feasible};

/// Whether a node without children shows that the box has no equilibrium.
pub(crate) fn closes(game: &Game, path: &Path, node: &BNode) -> Result<bool, Wide>
    requires fits { FitsGame (game_of game.now) (places_of path.now) }
    requires node { IsBoxForm (bnode_of node.now) }
    ensures { EndTells result (game_of game.now) (box_of path.now.leaves.items)
        (bnode_of node.now) }
{
    match node {
        BNode::Empty { player, mult } => empties(game, path, *player, mult),
        BNode::Deviate { player, point } => has_better(game, path, *player, point),
        BNode::Split {
            player: _,
            var: _,
            at: _,
        } => Ok(false),
    }
}

/// Whether the rows of player `i` with the box's bounds, multiplied, show that it has no point in
/// the box.
///
/// Where there is no such player or a slot isn't present no sum is made. Else all sums are made;
/// the answer is a step of these that is too wide, where there is one.
fn empties(game: &Game, path: &Path, i: u32, mult: &[(u32, i128)]) -> Result<bool, Wide>
    requires fits { FitsGame (game_of game.now) (places_of path.now) }
    requires mult { AreCounted mult.now }
    ensures { EndTells result (game_of game.now) (box_of path.now.leaves.items)
        (EmptyNode i mult.now) }
{
    let i = i as usize;
    if i >= game.players.len() {
        return Ok(false);
    }
    refutes(&game.players[i], &path.leaves[i], mult)
}

/// Whether the point is one of player `i`, and its least gain in the box is above zero.
///
/// Where there is no such player, the point has another number of variables, or a bound that the
/// gain needs isn't there, no sum is made. Else those of the point's test and of the gain are made;
/// the answer is a step of these that is too wide, where there is one.
fn has_better(game: &Game, path: &Path, i: u32, point: &Point) -> Result<bool, Wide>
    ensures { EndTells result (game_of game.now) (box_of path.now.leaves.items)
        (DeviateNode i point.now) }
{
    if i as usize >= game.players.len() {
        return Ok(false);
    }
    let player = &game.players[i as usize];
    if point.len() != player.vars.len() {
        return Ok(false);
    }
    if !is_bounded(player, i, &path.leaves) {
        return Ok(false);
    }
    let feasible = feasible(game, i, point)?;
    let gain = least_gain(player, i, &path.leaves, point)?;
    Ok(feasible & is_above_zero(gain))
}

fn is_above_zero(gain: i128) -> bool
    ensures { IsTrue result ↔ (pos 0 <ℤ gain) }
{
    gain > 0
}
