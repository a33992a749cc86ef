ghost use Rattle.std.specs.Prelude.{◌≡◌, ◌<◌, ◌≤◌, ◌≤ℤ◌, [], ◌∷◌, IsTrue, length, map};
ghost use Rattle.zr_game.specs.Games.{game_of};
ghost use Rattle.zr_game.specs.Leaves.{IsLeafOf, above, below, leaf_of};
ghost use Rattle.zr_game.specs.Players.{player_of};
ghost use Rattle.zr_tree.specs.Form.{greatest_split};
ghost use Rattle.zr_tree.specs.Paths.{with_high, with_low};
ghost use Rattle.zr_cases.specs.Cases.{CutNode};
ghost use Rattle.zr_boxes.specs.Boxes.{root_box};
ghost use Rattle.zr_boxes.specs.Paths.{Entered, HasOwnVar, IsPathOf, box_of, due_of, places_of};
ghost use Rattle.zr_boxes.specs.Places.{FitsGame, leaf_size, player_size};
ghost use Rattle.zr_boxes.specs.Visits.{children};

use crate::root::set_root;
use zr_game::{Game, Leaf, Player};
use zr_tree::{lower_high, raise_low};

/// What a node above the current box changed, and which of its children is under way.
#[derive(Clone, Copy)]
pub(crate) enum Frame {
    /// The first child of a split of the player's `var` at `at`; the high bound was `high`.
    First {
        player: u32,
        var: u32,
        at: i64,
        high: Option<i64>,
    },
    /// The second child of a split of the player's `var`; the low bound was `low`.
    Second {
        player: u32,
        var: u32,
        low: Option<i64>,
    },
}

/// Where a walk through a box tree stands.
///
/// The players' leaves together are the current box. The first `depth` frames are in use, the last
/// of them nearest to the box.
#[derive(Drop)]
pub(crate) struct Path {
    pub(crate) leaves: Vec<Leaf>,
    pub(crate) frames: Vec<Frame>,
    pub(crate) depth: usize,
}

/// Sets the box to that of all profiles.
pub(crate) fn start(game: &Game, path: &mut Path)
    requires { FitsGame (game_of game.now) (places_of path.old) }
    ensures root { box_of path.new.leaves.items ≡ root_box (game_of game.now) }
    ensures path { IsPathOf (game_of game.now) path.new }
    ensures depth { path.new.depth ≡ 0 }
    ensures places { places_of path.new ≡ places_of path.old }
{
    set_roots(game, &mut path.leaves);
    path.depth = 0;
}

/// Sets each player's leaf to the variables' own bounds.
fn set_roots(game: &Game, leaves: &mut [Leaf])
    requires { map leaf_size leaves.old ≡ map player_size (game_of game.now) }
    ensures root { box_of leaves.new ≡ root_box (game_of game.now) }
    ensures sizes { map leaf_size leaves.new ≡ map leaf_size leaves.old }
{
    for (i, leaf) in leaves.iter_mut().enumerate() {
        set_root(&game.players[i], leaf);
    }
}

/// Goes to the first child of a split.
pub(crate) fn enter_split(game: &Game, i: u32, var: u32, at: i64, path: &mut Path)
    requires var { HasOwnVar (game_of game.now) i var }
    requires at { at ≤ℤ greatest_split }
    requires path { IsPathOf (game_of game.now) path.old }
    requires place { path.old.depth < length path.old.frames.items }
    ensures { Entered (game_of game.now)
        (children (box_of path.old.leaves.items) (CutNode i var at)) path.old path.new }
{
    let own = &game.players[i as usize];
    let high = to_first(own, &mut path.leaves[i as usize], var as usize, at);
    path.frames[path.depth] = Frame::First {
        player: i,
        var,
        at,
        high,
    };
    path.depth += 1;
}

/// Goes to the next box that is due, if there is one.
pub(crate) fn go_on(game: &Game, path: &mut Path)
    requires { IsPathOf (game_of game.now) path.old }
    ensures { Entered (game_of game.now) [] path.old path.new }
{
    while path.depth > 0 {
        if leave(game, path) {
            return;
        }
    }
}

/// Leaves a child of the nearest node above: goes to its second child, or else back to the node.
fn leave(game: &Game, path: &mut Path) -> bool
    requires path { IsPathOf (game_of game.now) path.old }
    requires depth { 0 < path.old.depth }
    ensures second { IsTrue result
        → due_of path.old ≡ box_of path.new.leaves.items ∷ due_of path.new }
    ensures back { (IsTrue result → ⊥) → (due_of path.old ≡ due_of path.new)
        × (path.new.depth < path.old.depth) }
    ensures path { IsPathOf (game_of game.now) path.new }
    ensures places { places_of path.new ≡ places_of path.old }
    ensures depth { path.new.depth ≤ path.old.depth }
{
    let top = path.depth - 1;
    match path.frames[top] {
        Frame::First {
            player,
            var,
            at,
            high,
        } => {
            let own = &game.players[player as usize];
            let leaf = &mut path.leaves[player as usize];
            let low = to_second(own, leaf, var as usize, at, high);
            path.frames[top] = Frame::Second { player, var, low };
            true
        }
        Frame::Second { player, var, low } => {
            to_both(&mut path.leaves[player as usize], var as usize, low);
            path.depth = top;
            false
        }
    }
}

/// Goes to the leaf's part where the variable is at most `at`; the answer is the high bound as it
/// was.
fn to_first(player: &Player, leaf: &mut Leaf, var: usize, at: i64) -> Option<i64>
    requires leaf { IsLeafOf (player_of player.now) leaf.old }
    requires var { var < length (player_of player.now).vars }
    ensures leaf { leaf_of leaf.new ≡ below (leaf_of leaf.old) var at }
    ensures high { result ≡ (leaf_of leaf.old).high var }
    ensures size { IsLeafOf (player_of player.now) leaf.new }
{
    let high = leaf.high[var];
    lower_high(player, leaf, var, at);
    high
}

/// Goes from the part where the variable is at most `at` to the other one, the high bound being
/// `high` again; the answer is the low bound as it was.
fn to_second(
    player: &Player,
    leaf: &mut Leaf,
    var: usize,
    at: i64,
    high: Option<i64>,
) -> Option<i64>
    requires leaf { IsLeafOf (player_of player.now) leaf.old }
    requires var { var < length (player_of player.now).vars }
    requires at { at ≤ℤ greatest_split }
    ensures leaf { leaf_of leaf.new ≡ above (with_high (leaf_of leaf.old) var high) var at }
    ensures low { result ≡ (leaf_of leaf.old).low var }
    ensures size { IsLeafOf (player_of player.now) leaf.new }
{
    let low = leaf.low[var];
    leaf.high[var] = high;
    raise_low(player, leaf, var, at);
    low
}

/// Goes back to both parts, the low bound being `low` again.
fn to_both(leaf: &mut Leaf, var: usize, low: Option<i64>)
    requires { var < length leaf.old.low.items }
    ensures leaf { leaf_of leaf.new ≡ with_low (leaf_of leaf.old) var low }
    ensures size { leaf_size leaf.new ≡ leaf_size leaf.old }
{
    leaf.low[var] = low;
}
