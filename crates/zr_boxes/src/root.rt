ghost use Rattle.std.specs.Prelude.{◌≡◌, ◌<◌, ◌≤◌, ℕ, None, length, map, slice_index_or};
ghost use Rattle.zr_game.specs.Players.{player_of, var_of};
ghost use Rattle.zr_game.specs.Leaves.{IsLeafOf, leaf_of, low_of, root_leaf, up_of};
ghost use Rattle.zr_boxes.specs.Places.{leaf_size};

use zr_game::{Leaf, Player, Side, Var};

/// Sets a leaf of the player to the variables' own bounds, with each pair undecided.
pub(crate) fn set_root(player: &Player, leaf: &mut Leaf)
    requires { IsLeafOf (player_of player.now) leaf.old }
    ensures leaf { leaf_of leaf.new ≡ root_leaf (player_of player.now) }
    ensures size { leaf_size leaf.new ≡ leaf_size leaf.old }
{
    set_lows(&player.vars, &mut leaf.low);
    set_highs(&player.vars, &mut leaf.high);
    clear_sides(&mut leaf.sides);
}

fn clear_sides(sides: &mut [Side])
    ensures { (p : ℕ) → slice_index_or sides.new p Side.Undecided ≡ Side.Undecided }
{
    for place in sides.iter_mut() {
        *place = Side::Undecided;
    }
}

/// Sets each low bound to that of the variable of its number, if there is one.
fn set_lows(vars: &[Var], low: &mut [Option<i64>])
    requires { length vars.now ≤ length low.old }
    ensures { (v : ℕ) → slice_index_or low.new v None ≡ low_of (map var_of vars.now) v }
{
    for (v, place) in low.iter_mut().enumerate() {
        *place = lower_bound(vars, v);
    }
}

fn lower_bound(vars: &[Var], v: usize) -> Option<i64>
    ensures { result ≡ low_of (map var_of vars.now) v }
{
    if v < vars.len() {
        return vars[v].low;
    }
    None
}

/// Sets each high bound to that of the variable of its number, if there is one.
fn set_highs(vars: &[Var], high: &mut [Option<i64>])
    requires { length vars.now ≤ length high.old }
    ensures { (v : ℕ) → slice_index_or high.new v None ≡ up_of (map var_of vars.now) v }
{
    for (v, place) in high.iter_mut().enumerate() {
        *place = upper_bound(vars, v);
    }
}

fn upper_bound(vars: &[Var], v: usize) -> Option<i64>
    ensures { result ≡ up_of (map var_of vars.now) v }
{
    if v < vars.len() {
        return vars[v].up;
    }
    None
}
