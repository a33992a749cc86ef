ghost use Rattle.std.specs.Prelude.{◌≡◌, ℕ, ◌+◌, ◌-◌, ◌^◌, ◌<◌, ◌≤◌, min, length, slice_get, Some};
ghost use Rattle.zr_game.specs.Games.{game_of};
ghost use Rattle.zr_system.specs.Regions as content;
ghost use Rattle.zr_system.specs.Regions.{leaves_of};
ghost use Rattle.zr_system.specs.Unknowns.{columns, duals, leaf_unknowns, list_to, player_unknowns};
ghost use Rattle.zr_system.specs.Lines.{base_lines, leaf_lines, player_lines};
ghost use Rattle.zr_system.specs.System.{cell_count};
ghost use Rattle.zr_system.specs.Asked.{AreLeaves, LeafExists};

use crate::counts::{is_exact, leaf_count, named_count, player_count, var_count};
use crate::leaves::Leaves;
use crate::present::{is_present, slot_count};
use crate::unknown::Unknown;
use zr_game::Game;

/// How many cells the system has where no choice is made: rows times columns, or the last `u128`
/// where there are more.
pub fn cells(game: &Game, leaves: &Leaves) -> u128
    requires { AreLeaves (game_of game.now) leaves.now }
    ensures { result ≡ min (cell_count (game_of game.now) (leaves_of leaves.now)) (2 ^ 128 - 1) }
{
    row_count(game, leaves).saturating_mul(columns_before(game, leaves, player_count(game)))
}

/// The column of a leaf's first share. Those of its other shares follow, and then that of its
/// weight.
pub fn share_column(game: &Game, leaves: &Leaves, i: usize, k: usize) -> usize
    requires leaves { AreLeaves (game_of game.now) leaves.now }
    requires leaf { LeafExists (game_of game.now) (leaves_of leaves.now) i k }
    requires few_columns { length (columns (game_of game.now) (leaves_of leaves.now)) < 4294967296 }
    ensures shares { (v : ℕ) → v < content.var_count (game_of game.now) i → slice_get
        (columns (game_of game.now) (leaves_of leaves.now)) (result + v) ≡ Some (Unknown.Share i k
        v) }
    ensures weight { slice_get (columns (game_of game.now) (leaves_of leaves.now))
        (result + content.var_count (game_of game.now) i) ≡ Some (Unknown.Weight i k) }
{
    let before = columns_before(game, leaves, i) + 1 + leaf_columns_before(game, leaves, i, k);
    before as usize
}

/// How many slots of a leaf are present.
fn present_count(game: &Game, leaves: &Leaves, i: usize, k: usize) -> usize
    requires leaves { AreLeaves (game_of game.now) leaves.now }
    requires leaf { LeafExists (game_of game.now) (leaves_of leaves.now) i k }
    ensures { result ≡ length (duals (game_of game.now) (leaves_of leaves.now) i k) }
{
    let mut count = 0;
    for s in 0..slot_count(game, leaves, i, k) {
        count += usize::from(is_present(game, leaves, i, k, s));
    }
    count
}

/// How many rows a leaf has.
fn leaf_row_count(game: &Game, leaves: &Leaves, i: usize, k: usize) -> u128
    requires leaves { AreLeaves (game_of game.now) leaves.now }
    requires leaf { LeafExists (game_of game.now) (leaves_of leaves.now) i k }
    ensures count { result ≡ length (leaf_lines (game_of game.now) (leaves_of leaves.now) i k) }
    ensures few { result < 2 ^ 66 }
{
    let present = present_count(game, leaves, i, k) as u128;
    if is_exact(game, leaves, i, k) {
        2 * present + 2 * var_count(game, i) as u128 + 2
    } else {
        present + 1
    }
}

/// How many rows a player has.
fn player_row_count(game: &Game, leaves: &Leaves, i: usize) -> u128
    requires leaves { AreLeaves (game_of game.now) leaves.now }
    requires player { i < length (game_of game.now) }
    ensures count { result ≡ length (player_lines (game_of game.now) (leaves_of leaves.now) i) }
    ensures few { result < 2 ^ 99 }
{
    let mut count = 2 + named_count(game, leaves, i) as u128;
    for k in 0..leaf_count(game, leaves, i) {
        count += leaf_row_count(game, leaves, i, k);
    }
    count
}

/// How many rows there are where no choice is made.
fn row_count(game: &Game, leaves: &Leaves) -> u128
    requires { AreLeaves (game_of game.now) leaves.now }
    ensures { result ≡ length (base_lines (game_of game.now) (leaves_of leaves.now)) }
{
    let mut count = 0;
    for i in 0..player_count(game) {
        count += player_row_count(game, leaves, i);
    }
    count
}

/// How many columns a leaf has.
fn leaf_column_count(game: &Game, leaves: &Leaves, i: usize, k: usize) -> u128
    requires leaves { AreLeaves (game_of game.now) leaves.now }
    requires leaf { LeafExists (game_of game.now) (leaves_of leaves.now) i k }
    ensures count { result ≡ length (leaf_unknowns (game_of game.now) (leaves_of leaves.now) i k) }
    ensures few { result < 2 ^ 66 }
{
    let both = var_count(game, i) as u128 + 1;
    if is_exact(game, leaves, i, k) {
        both + present_count(game, leaves, i, k) as u128
    } else {
        both
    }
}

/// How many columns the first `n` leaves of a player have.
fn leaf_columns_before(game: &Game, leaves: &Leaves, i: usize, n: usize) -> u128
    requires leaves { AreLeaves (game_of game.now) leaves.now }
    requires player { i < length (game_of game.now) }
    requires first { n ≤ content.leaf_count (leaves_of leaves.now) i }
    ensures count { result ≡ length (list_to n (λ k. leaf_unknowns (game_of game.now)
        (leaves_of leaves.now) i k)) }
    ensures few { result < 2 ^ 98 }
{
    let mut count = 0;
    for k in 0..n {
        count += leaf_column_count(game, leaves, i, k);
    }
    count
}

/// How many columns the first `n` players have.
fn columns_before(game: &Game, leaves: &Leaves, n: usize) -> u128
    requires leaves { AreLeaves (game_of game.now) leaves.now }
    requires first { n ≤ length (game_of game.now) }
    ensures count { result ≡ length (list_to n (λ i. player_unknowns (game_of game.now)
        (leaves_of leaves.now) i)) }
    ensures few { result < 2 ^ 104 }
{
    let mut count = 0;
    for i in 0..n {
        count += 1 + leaf_columns_before(game, leaves, i, leaf_count(game, leaves, i));
    }
    count
}
