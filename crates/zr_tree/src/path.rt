ghost use Rattle.std.specs.Prelude.{◌≡◌, ◌<◌, ◌≤◌, ℕ, pos, ◌+ℤ◌, ◌≤ℤ◌, [], ◌∷◌, IsTrue, None, length, map, slice_index_or};
ghost use Rattle.zr_game.specs.Players.{player_of, var_of};
ghost use Rattle.zr_game.specs.Leaves.{greater, leaf_of, lesser, low_of, root_leaf, up_of};
ghost use Rattle.zr_tree.specs.Form.{greatest_split};
ghost use Rattle.zr_tree.specs.Nodes.{ChooseNode, SplitNode};
ghost use Rattle.zr_tree.specs.Paths.{Entered, HasPlaces, IsPathOf, IsSameSize, due_of};
ghost use Rattle.zr_tree.specs.Visits.{children};

use zr_game::{Leaf, Player, Side, Var};

/// What a node above the current leaf changed, and which of its children is under way.
#[derive(Clone, Copy)]
pub(crate) enum Frame {
    /// The first child of a split of `var` at `at`; the high bound was `high`.
    FirstOfSplit {
        var: u32,
        at: i64,
        high: Option<i64>,
    },
    /// The second child of a split of `var`; the low bound was `low`.
    SecondOfSplit {
        var: u32,
        low: Option<i64>,
    },
    /// The child where the pair's variable is 0.
    FirstOfChoice {
        pair: u32,
    },
    /// The child where the pair's row is 0.
    SecondOfChoice {
        pair: u32,
    },
}

/// Where a walk through a tree stands.
///
/// The leaf has places for the variables and pairs of several players, and counts for those of the
/// current one. The first `depth` frames are in use, the last of them nearest to the leaf.
#[derive(Drop)]
pub(crate) struct Path {
    pub(crate) leaf: Leaf,
    pub(crate) frames: Vec<Frame>,
    pub(crate) depth: usize,
}

/// Sets the leaf to the player's root.
pub(crate) fn start(player: &Player, path: &mut Path)
    requires { HasPlaces (player_of player.now) path.old.leaf }
    ensures leaf { leaf_of path.new.leaf ≡ root_leaf (player_of player.now) }
    ensures path { IsPathOf (player_of player.now) path.new }
    ensures depth { path.new.depth ≡ 0 }
    ensures size { IsSameSize path.old path.new }
{
    set_lows(&player.vars, &mut path.leaf.low);
    set_highs(&player.vars, &mut path.leaf.high);
    clear_sides(&mut path.leaf.sides);
    path.depth = 0;
}

fn clear_sides(sides: &mut [Side])
    ensures { (p : ℕ) → slice_index_or sides.new p Side.Undecided ≡ Side.Undecided }
{
    for place in sides.iter_mut() {
        *place = Side::Undecided;
    }
}

/// Sets each low bound to that of the variable of its number, if there is one.
fn set_lows(vars: &[Var], low: &mut [Option<i64>])
    requires { length vars.now ≤ length low.old }
    ensures { (v : ℕ) → slice_index_or low.new v None ≡ low_of (map var_of vars.now) v }
{
    for (v, place) in low.iter_mut().enumerate() {
        *place = lower_bound(vars, v);
    }
}

fn lower_bound(vars: &[Var], v: usize) -> Option<i64>
    ensures { result ≡ low_of (map var_of vars.now) v }
{
    if v < vars.len() {
        return vars[v].low;
    }
    None
}

/// Sets each high bound to that of the variable of its number, if there is one.
fn set_highs(vars: &[Var], high: &mut [Option<i64>])
    requires { length vars.now ≤ length high.old }
    ensures { (v : ℕ) → slice_index_or high.new v None ≡ up_of (map var_of vars.now) v }
{
    for (v, place) in high.iter_mut().enumerate() {
        *place = upper_bound(vars, v);
    }
}

fn upper_bound(vars: &[Var], v: usize) -> Option<i64>
    ensures { result ≡ up_of (map var_of vars.now) v }
{
    if v < vars.len() {
        return vars[v].up;
    }
    None
}

/// Goes to the first child of a split.
pub(crate) fn enter_split(player: &Player, var: u32, at: i64, path: &mut Path)
    requires var { var < length (player_of player.now).vars }
    requires at { at ≤ℤ greatest_split }
    requires path { IsPathOf (player_of player.now) path.old }
    requires place { path.old.depth < length path.old.frames.items }
    ensures { Entered (player_of player.now)
        (children (leaf_of path.old.leaf) (SplitNode var at)) path.old path.new }
{
    let high = path.leaf.high[var as usize];
    path.leaf.high[var as usize] = Some(lesser_of(high, at));
    path.frames[path.depth] = Frame::FirstOfSplit { var, at, high };
    path.depth += 1;
}

/// The lesser of a bound, if there is one, and a number.
pub(crate) fn lesser_of(high: Option<i64>, at: i64) -> i64
    ensures { result ≡ lesser high at }
{
    match high {
        None => at,
        Some(high) => if high <= at { high } else { at },
    }
}

/// The greater of a bound, if there is one, and the number after `at`.
pub(crate) fn greater_of(low: Option<i64>, at: i64) -> i64
    requires { at ≤ℤ greatest_split }
    ensures { result ≡ greater low (at +ℤ pos 1) }
{
    let next = at + 1;
    match low {
        None => next,
        Some(low) => if low <= next { next } else { low },
    }
}

/// Goes to the first child of a choice.
pub(crate) fn enter_choice(player: &Player, pair: u32, path: &mut Path)
    requires pair { pair < length (player_of player.now).pairs }
    requires undecided { (leaf_of path.old.leaf).side pair ≡ Side.Undecided }
    requires path { IsPathOf (player_of player.now) path.old }
    requires place { path.old.depth < length path.old.frames.items }
    ensures { Entered (player_of player.now)
        (children (leaf_of path.old.leaf) (ChooseNode pair)) path.old path.new }
{
    path.leaf.sides[pair as usize] = Side::VarZero;
    path.frames[path.depth] = Frame::FirstOfChoice { pair };
    path.depth += 1;
}

/// Goes to the next leaf that is due, if there is one.
pub(crate) fn go_on(player: &Player, path: &mut Path)
    requires { IsPathOf (player_of player.now) path.old }
    ensures { Entered (player_of player.now) [] path.old path.new }
{
    while path.depth > 0 {
        if leave(player, path) {
            return;
        }
    }
}

/// Leaves a child of the nearest node above: goes to its second child, or else back to the node.
fn leave(player: &Player, path: &mut Path) -> bool
    requires path { IsPathOf (player_of player.now) path.old }
    requires depth { 0 < path.old.depth }
    ensures second { IsTrue result → due_of path.old ≡ leaf_of path.new.leaf ∷ due_of path.new }
    ensures back { (IsTrue result → ⊥) → (due_of path.old ≡ due_of path.new)
        × (path.new.depth < path.old.depth) }
    ensures path { IsPathOf (player_of player.now) path.new }
    ensures size { IsSameSize path.old path.new }
    ensures depth { path.new.depth ≤ path.old.depth }
{
    let top = path.depth - 1;
    match path.frames[top] {
        Frame::FirstOfSplit { var, at, high } => {
            let low = path.leaf.low[var as usize];
            path.leaf.high[var as usize] = high;
            path.leaf.low[var as usize] = Some(greater_of(low, at));
            path.frames[top] = Frame::SecondOfSplit { var, low };
            true
        }
        Frame::SecondOfSplit { var, low } => {
            path.leaf.low[var as usize] = low;
            path.depth = top;
            false
        }
        Frame::FirstOfChoice { pair } => {
            path.leaf.sides[pair as usize] = Side::RowZero;
            path.frames[top] = Frame::SecondOfChoice { pair };
            true
        }
        Frame::SecondOfChoice { pair } => {
            path.leaf.sides[pair as usize] = Side::Undecided;
            path.depth = top;
            false
        }
    }
}
