ghost use Rattle.std.specs.Prelude.{◌≡◌, ◌<◌, ◌≤◌, ◌+◌, ◌++◌, ◌∷◌, [], ℕ, length, slice_get};
ghost use Rattle.std.specs.List.{All};
ghost use Rattle.zr_game.specs.Games.{game_of};
ghost use Rattle.zr_system.specs.Asked.{AreLeaves, ChoiceExists, LeafExists};
ghost use Rattle.zr_system.specs.Lines as in_order;
ghost use Rattle.zr_system.specs.Lines.{all_lines, choice_lines, off_lines, other_lines, path_lines, reach_lines};
ghost use Rattle.zr_system.specs.Regions as content;
ghost use Rattle.zr_system.specs.Regions.{leaves_of};

use zr_game::{Choice, Game};
use zr_system::{Leaves, Line, is_exact, leaf_count, var_count};

/// The row of this number under a path of choices, if there is one. `base` has the rows where no
/// choice is made.
pub(crate) fn line_at(
    game: &Game,
    leaves: &Leaves,
    base: &[Line],
    path: &[Choice],
    n: usize,
) -> Option<Line>
    requires leaves { AreLeaves (game_of game.now) leaves.now }
    requires base { base.now ≡ in_order.base_lines (game_of game.now) (leaves_of leaves.now) }
    requires path { All (ChoiceExists (game_of game.now) (leaves_of leaves.now)) path.now }
    ensures { result ≡ slice_get (all_lines (game_of game.now) (leaves_of leaves.now) path.now) n }
{
    if n < base.len() {
        return Some(base[n]);
    }
    path_line(game, leaves, path, n - base.len())
}

/// Row `n` of those that a path of choices appends, if there is one.
fn path_line(game: &Game, leaves: &Leaves, path: &[Choice], n: usize) -> Option<Line>
    requires leaves { AreLeaves (game_of game.now) leaves.now }
    requires path { All (ChoiceExists (game_of game.now) (leaves_of leaves.now)) path.now }
    ensures { result ≡ slice_get (path_lines (game_of game.now) (leaves_of leaves.now) path.now) n }
{
    let mut left = n;
    for choice in path {
        let count = choice_count(game, leaves, *choice);
        if left < count {
            return choice_line(game, leaves, *choice, left);
        }
        left -= count;
    }
    None
}

/// How many rows a choice appends.
fn choice_count(game: &Game, leaves: &Leaves, choice: Choice) -> usize
    requires leaves { AreLeaves (game_of game.now) leaves.now }
    requires choice { ChoiceExists (game_of game.now) (leaves_of leaves.now) choice }
    ensures { result ≡ length (choice_lines (game_of game.now) (leaves_of leaves.now) choice) }
{
    match choice {
        Choice::On { player, leaf } => 1
            + reach_count(game, leaves, player as usize, leaf as usize),
        Choice::Off { player, .. } => off_count(game, player as usize),
        Choice::Zero { .. } | Choice::Tight { .. } => 1,
        Choice::Which { player, leaf } => {
            let others = other_count(game, leaves, player as usize);
            1 + reach_count(game, leaves, player as usize, leaf as usize) + others
        }
    }
}

/// How many rows say that an exact leaf reaches the player's value.
fn reach_count(game: &Game, leaves: &Leaves, i: usize, k: usize) -> usize
    requires leaves { AreLeaves (game_of game.now) leaves.now }
    requires leaf { LeafExists (game_of game.now) (leaves_of leaves.now) i k }
    ensures count { result ≡ length (reach_lines (leaves_of leaves.now) i k) }
    ensures few { result ≤ 1 }
{
    if is_exact(game, leaves, i, k) { 1 } else { 0 }
}

/// How many rows say that a leaf has no weight and no share.
fn off_count(game: &Game, i: usize) -> usize
    requires { i < length (game_of game.now) }
    ensures count { (k : ℕ) → result ≡ length (off_lines (game_of game.now) i k) }
    ensures few { result ≤ 129 }
    ensures some { 1 ≤ result }
{
    1 + 2 * var_count(game, i)
}

/// How many rows say that the player's leaves but one have no weight and no share.
fn other_count(game: &Game, leaves: &Leaves, i: usize) -> usize
    requires leaves { AreLeaves (game_of game.now) leaves.now }
    requires player { i < length (game_of game.now) }
    requires some { 0 < content.leaf_count (leaves_of leaves.now) i }
    ensures count { (k : ℕ) → k < content.leaf_count (leaves_of leaves.now) i
        → result ≡ length (other_lines (game_of game.now) (leaves_of leaves.now) i k) }
    ensures few { result < 1000000000000 }
{
    (leaf_count(game, leaves, i) - 1) * off_count(game, i)
}

/// Row `n` of those that a choice appends, if there is one.
fn choice_line(game: &Game, leaves: &Leaves, choice: Choice, n: usize) -> Option<Line>
    requires leaves { AreLeaves (game_of game.now) leaves.now }
    requires choice { ChoiceExists (game_of game.now) (leaves_of leaves.now) choice }
    ensures { result ≡ slice_get (choice_lines (game_of game.now) (leaves_of leaves.now) choice) n }
{
    match choice {
        Choice::On { player, leaf } => on_line(game, leaves, player as usize, leaf as usize, n),
        Choice::Off { player, leaf } => off_line(game, player as usize, leaf as usize, n),
        Choice::Zero { player, leaf, slot } => first(
            Line::Dual {
                player: player as usize,
                leaf: leaf as usize,
                slot: slot as usize,
                negated: true,
            },
            n,
        ),
        Choice::Tight { player, leaf, slot } => first(
            Line::Slot {
                player: player as usize,
                leaf: leaf as usize,
                slot: slot as usize,
                negated: true,
            },
            n,
        ),
        Choice::Which { player, leaf } => which_line(
            game,
            leaves,
            player as usize,
            leaf as usize,
            n,
        ),
    }
}

/// The row, as that of number 0.
fn first(line: Line, n: usize) -> Option<Line>
    ensures { result ≡ slice_get (line ∷ []) n }
{
    if n == 0 { Some(line) } else { None }
}

fn on_line(game: &Game, leaves: &Leaves, i: usize, k: usize, n: usize) -> Option<Line>
    requires leaves { AreLeaves (game_of game.now) leaves.now }
    requires leaf { LeafExists (game_of game.now) (leaves_of leaves.now) i k }
    ensures { result ≡ slice_get (Line.Positive i k ∷ reach_lines (leaves_of leaves.now) i k) n }
{
    if n == 0 {
        return Some(Line::Positive { player: i, leaf: k });
    }
    reach_line(game, leaves, i, k, n - 1)
}

fn reach_line(game: &Game, leaves: &Leaves, i: usize, k: usize, n: usize) -> Option<Line>
    requires leaves { AreLeaves (game_of game.now) leaves.now }
    requires leaf { LeafExists (game_of game.now) (leaves_of leaves.now) i k }
    ensures { result ≡ slice_get (reach_lines (leaves_of leaves.now) i k) n }
{
    if is_exact(game, leaves, i, k) {
        return first(
            Line::Gain {
                player: i,
                leaf: k,
                negated: true,
            },
            n,
        );
    }
    None
}

/// Row `n` of those that say that a leaf has no weight and no share, if there is one.
fn off_line(game: &Game, i: usize, k: usize, n: usize) -> Option<Line>
    requires { i < length (game_of game.now) }
    ensures { result ≡ slice_get (off_lines (game_of game.now) i k) n }
{
    if n == 0 {
        return Some(Line::Weight {
            player: i,
            leaf: k,
            negated: true,
        });
    }
    let var = (n - 1) / 2;
    if var < var_count(game, i) {
        return Some(Line::Share {
            player: i,
            leaf: k,
            var,
            negated: (n - 1) % 2 == 1,
        });
    }
    None
}

fn which_line(game: &Game, leaves: &Leaves, i: usize, k: usize, n: usize) -> Option<Line>
    requires leaves { AreLeaves (game_of game.now) leaves.now }
    requires leaf { LeafExists (game_of game.now) (leaves_of leaves.now) i k }
    ensures { result ≡ slice_get (Line.Whole i k ∷ (reach_lines (leaves_of leaves.now) i k
        ++ other_lines (game_of game.now) (leaves_of leaves.now) i k)) n }
{
    if n == 0 {
        return Some(Line::Whole { player: i, leaf: k });
    }
    let reach = reach_count(game, leaves, i, k);
    if n - 1 < reach {
        return reach_line(game, leaves, i, k, n - 1);
    }
    other_line(game, leaves, i, k, n - 1 - reach)
}

/// Row `n` of those that say that the player's leaves but `k` have no weight and no share, if there
/// is one.
fn other_line(game: &Game, leaves: &Leaves, i: usize, k: usize, n: usize) -> Option<Line>
    requires leaves { AreLeaves (game_of game.now) leaves.now }
    requires leaf { LeafExists (game_of game.now) (leaves_of leaves.now) i k }
    ensures { result ≡ slice_get (other_lines (game_of game.now) (leaves_of leaves.now) i k) n }
{
    let size = off_count(game, i);
    let count = leaf_count(game, leaves, i);
    let place = n / size;
    if place >= count {
        return None;
    }
    let other = without(k, place);
    if other >= count {
        return None;
    }
    off_line(game, i, other, n % size)
}

/// The number of place `n` among the numbers but `k`.
fn without(k: usize, n: usize) -> usize
    requires { n < 4294967296 }
    ensures before { n < k → result ≡ n }
    ensures after { k ≤ n → result ≡ n + 1 }
{
    if n < k { n } else { n + 1 }
}
