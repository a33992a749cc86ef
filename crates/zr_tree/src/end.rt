ghost use Rattle.std.specs.Prelude.{◌≡◌, ◌≤◌, ◌<◌, ℕ, pos, ◌<ℤ◌, ◌↔◌, IsTrue, length, slice_index_or};
ghost use Rattle.zr_game.specs.Players.{player_of};
ghost use Rattle.zr_game.specs.Leaves.{bound_with, leaf_of};
ghost use Rattle.zr_tree.specs.Nodes.{ProofNode, node_of};
ghost use Rattle.zr_tree.specs.Covers.{KeepsCover};
ghost use Rattle.zr_tree.specs.CoverSteps.{IsWideForCover};
ghost use Rattle.zr_tree.specs.Form.{IsNodeForm};
ghost use Rattle.zr_tree.specs.Paths.{HasPlaces};
ghost use Rattle.zr_tree.specs.Right.{ArePositive, ProvesRow};
ghost use Rattle.zr_tree.specs.Steps.{IsWideForRow};
ghost use Rattle.zr_tree.specs.Tasks.{FitsColumns, TaskTells};
ghost use Rattle.zr_tree.specs.Visits.{EndTells, HasForms};

use crate::combination::combine;
use crate::known::is_known;
use crate::node::Node;
use crate::proof::proves;
use crate::slot::are_present;
use crate::task::Task;
use zr_base::Wide;
use zr_game::{Leaf, Player};

/// Whether a node without children keeps what is asked of it at the leaf. `sums` is room for a
/// number per column.
pub(crate) fn keeps(
    player: &Player,
    leaf: &Leaf,
    node: &Node,
    task: Task,
    sums: &mut [i128],
) -> Result<bool, Wide>
    requires forms { HasForms (player_of player.now) }
    requires places { HasPlaces (player_of player.now) leaf.now }
    requires node { IsNodeForm (node_of node.now) }
    requires task { FitsColumns (length (player_of player.now).vars) task }
    requires columns { length (player_of player.now).vars ≤ length sums.old }
    ensures { TaskTells result task.entry (player_of player.now) (leaf_of leaf.now) (node_of node.now) }
{
    match task {
        Task::Row { coef, le } => keeps_row(player, leaf, node, coef, le, sums),
        Task::Cover => keeps_cover(player, leaf, node, sums),
    }
}

/// Whether the node proves the row `coef * x <= le`.
fn keeps_row(
    player: &Player,
    leaf: &Leaf,
    node: &Node,
    coef: &[i128],
    le: i128,
    sums: &mut [i128],
) -> Result<bool, Wide>
    requires forms { HasForms (player_of player.now) }
    requires places { HasPlaces (player_of player.now) leaf.now }
    requires node { IsNodeForm (node_of node.now) }
    requires coef { length coef.now ≡ length (player_of player.now).vars }
    requires columns { length (player_of player.now).vars ≤ length sums.old }
    ensures { EndTells result (ProvesRow (player_of player.now) (bound_with coef.now le))
        (IsWideForRow (player_of player.now) (bound_with coef.now le))
        (leaf_of leaf.now) (node_of node.now) }
{
    match node {
        Node::Leaf { scale, mult } => proves(player, leaf, *scale, mult, coef, le, sums),
        Node::Split { var: _, at: _ }
        | Node::Choose { pair: _ }
        | Node::Known { point: _ }
        | Node::Loose => Ok(false),
    }
}

/// Whether the node refutes its leaf, knows a point of it, or leaves it loose.
fn keeps_cover(player: &Player, leaf: &Leaf, node: &Node, sums: &mut [i128]) -> Result<bool, Wide>
    requires forms { HasForms (player_of player.now) }
    requires places { HasPlaces (player_of player.now) leaf.now }
    requires node { IsNodeForm (node_of node.now) }
    requires columns { length (player_of player.now).vars ≤ length sums.old }
    ensures { EndTells result (KeepsCover (player_of player.now))
        (IsWideForCover (player_of player.now)) (leaf_of leaf.now) (node_of node.now) }
{
    match node {
        Node::Leaf { scale, mult } => {
            let columns = player.vars.len();
            refutes(player, leaf, *scale, mult, &mut sums[..columns])
        }
        Node::Known { point } => is_known(player, leaf, point),
        Node::Loose => Ok(true),
        Node::Split { var: _, at: _ } | Node::Choose { pair: _ } => Ok(false),
    }
}

/// Whether the leaf's slots, multiplied, refute the leaf, with the scale 0.
///
/// Where a slot isn't present no sum is made. Else all sums are made; the answer is a step of these
/// that is too wide, where there is one.
fn refutes(
    player: &Player,
    leaf: &Leaf,
    scale: i128,
    mult: &[(u32, i128)],
    sums: &mut [i128],
) -> Result<bool, Wide>
    requires forms { HasForms (player_of player.now) }
    requires places { HasPlaces (player_of player.now) leaf.now }
    requires columns { length sums.old ≡ length (player_of player.now).vars }
    requires positive { ArePositive mult.now }
    ensures { EndTells result (KeepsCover (player_of player.now))
        (IsWideForCover (player_of player.now)) (leaf_of leaf.now) (ProofNode scale mult.now) }
{
    if !are_present(player, leaf, mult) {
        return Ok(false);
    }
    let right = combine(player, leaf, mult, sums)?;
    let zero = are_zero(sums);
    Ok(zero & is_below_zero(scale, right))
}

fn are_zero(sums: &[i128]) -> bool
    ensures { IsTrue result ↔ ((j : ℕ) → j < length sums.now
        → slice_index_or sums.now j (pos 0) ≡ pos 0) }
{
    let mut all = true;
    for sum in sums {
        all &= is_zero(*sum);
    }
    all
}

fn is_zero(sum: i128) -> bool
    ensures { IsTrue result ↔ (sum ≡ pos 0) }
{
    sum == 0
}

fn is_below_zero(scale: i128, right: i128) -> bool
    ensures { IsTrue result ↔ ((scale ≡ pos 0) × (right <ℤ (pos 0))) }
{
    scale == 0 && right < 0
}
