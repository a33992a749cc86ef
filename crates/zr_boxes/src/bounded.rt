ghost use Rattle.std.specs.Prelude.{◌≡◌, ◌↔◌, None, IsTrue, slice_index_or};
ghost use Rattle.std.specs.List.{All};
ghost use Rattle.zr_game.specs.Players.{player_of};
ghost use Rattle.zr_boxes.specs.Gains.{IsBounded};
ghost use Rattle.zr_boxes.specs.Paths.{box_of};
ghost use Rattle.zr_boxes.specs.Ranges.{HasRange, range_of as range_in};

use crate::range::Range;
use zr_game::{CrossTerm, Leaf, Player};

/// Whether the bounds are there that a gain of player `i` needs: of each variable of its own terms
/// and its cross terms, and of the other players' variables in these.
pub(crate) fn is_bounded(player: &Player, i: u32, leaves: &[Leaf]) -> bool
    ensures { IsTrue result ↔ IsBounded (player_of player.now) i (box_of leaves.now) }
{
    let own = are_own_bounded(player.cost.as_slice(), i, leaves);
    let cross = are_cross_bounded(&player.cross, i, leaves);
    let others = are_others_bounded(&player.cross, leaves);
    own & cross & others
}

fn are_own_bounded(cost: &[(u32, i64)], i: u32, leaves: &[Leaf]) -> bool
    ensures { IsTrue result ↔ All (λ t. HasRange (box_of leaves.now) i t.0) cost.now }
{
    let mut all = true;
    for (var, _) in cost {
        all &= has_range(leaves, i, *var as usize);
    }
    all
}

fn are_cross_bounded(cross: &[CrossTerm], i: u32, leaves: &[Leaf]) -> bool
    ensures { IsTrue result ↔ All (λ t. HasRange (box_of leaves.now) i t.own) cross.now }
{
    let mut all = true;
    for term in cross {
        all &= has_range(leaves, i, term.own as usize);
    }
    all
}

fn are_others_bounded(cross: &[CrossTerm], leaves: &[Leaf]) -> bool
    ensures { IsTrue result ↔ All (λ t. HasRange (box_of leaves.now) t.player t.var) cross.now }
{
    let mut all = true;
    for term in cross {
        all &= has_range(leaves, term.player, term.var as usize);
    }
    all
}

/// Whether the variable of player `i` has both bounds.
fn has_range(leaves: &[Leaf], i: u32, var: usize) -> bool
    ensures { IsTrue result ↔ HasRange (box_of leaves.now) i var }
{
    let (low, high) = bounds_of(leaves, i, var);
    low.is_some() && high.is_some()
}

/// From the lower bound of the variable of player `i` to its upper one; 0 stands for one that it
/// hasn't.
pub(crate) fn range_of(leaves: &[Leaf], i: u32, var: usize) -> Range
    ensures { result ≡ range_in (box_of leaves.now) i var }
{
    let (low, high) = bounds_of(leaves, i, var);
    Range {
        low: i128::from(low.unwrap_or(0)),
        high: i128::from(high.unwrap_or(0)),
    }
}

/// The bounds of the variable of player `i`, where there is such a variable and it has them.
fn bounds_of(leaves: &[Leaf], i: u32, var: usize) -> (Option<i64>, Option<i64>)
    ensures low { result.0 ≡ (box_of leaves.now i).low var }
    ensures high { result.1 ≡ (box_of leaves.now i).high var }
{
    let i = i as usize;
    if i >= leaves.len() {
        return (None, None);
    }
    let leaf = &leaves[i];
    (bound_at(&leaf.low, var), bound_at(&leaf.high, var))
}

fn bound_at(bounds: &[Option<i64>], var: usize) -> Option<i64>
    ensures { result ≡ slice_index_or bounds.now var None }
{
    if var < bounds.len() {
        bounds[var]
    } else {
        None
    }
}
