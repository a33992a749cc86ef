ghost use Rattle.std.specs.Prelude.{◌≡◌, ◌↔◌, ◌<◌, ◌⊎◌, ℕ, IsTrue, true, length};
ghost use Rattle.std.specs.List.{Contains};
ghost use Rattle.zr_game.specs.Games.{game_of};
ghost use Rattle.zr_system.specs.Asked.{AreLeaves, LeafExists, SlotExists};
ghost use Rattle.zr_system.specs.Choices.{IsLeafDecided, IsSlotDecided, IsUsed};
ghost use Rattle.zr_system.specs.Regions.{leaves_of};
ghost use Rattle.zr_refute.specs.Refuting.{IsOpenLeaf, IsOpenPlayer, IsOpenSlot};

use zr_game::{Choice, Game, Kind};
use zr_system::{Leaves, is_exact, is_present, leaf_count, player_count};

/// Whether the path has the choice.
fn has(path: &[Choice], choice: Choice) -> bool
    ensures { IsTrue result ↔ Contains path.now choice }
{
    for made in path {
        if *made == choice {
            return true;
        }
    }
    false
}

/// Whether a leaf of the player is chosen on the path.
fn has_which(path: &[Choice], i: u32) -> bool
    ensures { IsTrue result ↔ ((k : ℕ) × Contains path.now (Choice.Which i k)) }
{
    for made in path {
        if is_which(*made, i) {
            return true;
        }
    }
    false
}

/// Whether the choice is one among the player's leaves.
fn is_which(choice: Choice, i: u32) -> bool
    ensures { IsTrue result ↔ ((k : ℕ) × (choice ≡ Choice.Which i k)) }
{
    match choice {
        Choice::Which { player, .. } => player == i,
        _ => false,
    }
}

/// Whether a leaf of the player is On or Off on the path.
fn has_side(path: &[Choice], i: u32) -> bool
    ensures { IsTrue result ↔ ((k : ℕ) × (Contains path.now (Choice.On i k)
        ⊎ Contains path.now (Choice.Off i k))) }
{
    for made in path {
        if is_side(*made, i) {
            return true;
        }
    }
    false
}

/// Whether the choice is that a leaf of the player is On, or that it is Off.
fn is_side(choice: Choice, i: u32) -> bool
    ensures { IsTrue result ↔ ((k : ℕ) × ((choice ≡ Choice.On i k) ⊎ (choice ≡ Choice.Off i k))) }
{
    match choice {
        Choice::On { player, .. } | Choice::Off { player, .. } => player == i,
        _ => false,
    }
}

/// Whether the leaf is On or Off on the path, or a leaf of its player is chosen.
fn is_leaf_decided(path: &[Choice], i: u32, k: u32) -> bool
    ensures { IsTrue result ↔ IsLeafDecided path.now i k }
{
    has(path, Choice::On { player: i, leaf: k })
        || has(path, Choice::Off { player: i, leaf: k })
        || has_which(path, i)
}

/// Whether the leaf has weight on the path: it is On, or chosen.
fn is_used(path: &[Choice], i: u32, k: u32) -> bool
    ensures { IsTrue result ↔ IsUsed path.now i k }
{
    has(path, Choice::On { player: i, leaf: k }) || has(path, Choice::Which { player: i, leaf: k })
}

/// Whether the slot is Zero or Tight on the path.
fn is_slot_decided(path: &[Choice], i: u32, k: u32, s: u32) -> bool
    ensures { IsTrue result ↔ IsSlotDecided path.now i k s }
{
    has(
        path,
        Choice::Zero {
            player: i,
            leaf: k,
            slot: s,
        },
    ) || has(
        path,
        Choice::Tight {
            player: i,
            leaf: k,
            slot: s,
        },
    )
}

/// Whether the leaf exists, and isn't decided on the path.
pub(crate) fn is_open_leaf(game: &Game, leaves: &Leaves, path: &[Choice], i: u32, k: u32) -> bool
    requires { AreLeaves (game_of game.now) leaves.now }
    ensures { IsTrue result ↔ IsOpenLeaf (game_of game.now) (leaves_of leaves.now) path.now i k }
{
    is_leaf(game, leaves, i, k) && !is_leaf_decided(path, i, k)
}

/// Whether the player and the leaf exist.
fn is_leaf(game: &Game, leaves: &Leaves, i: u32, k: u32) -> bool
    requires { AreLeaves (game_of game.now) leaves.now }
    ensures { IsTrue result ↔ LeafExists (game_of game.now) (leaves_of leaves.now) i k }
{
    let i = i as usize;
    i < player_count(game) && (k as usize) < leaf_count(game, leaves, i)
}

/// Whether the slot is present in a leaf that counts as exact.
fn is_slot(game: &Game, leaves: &Leaves, i: u32, k: u32, s: u32) -> bool
    requires { AreLeaves (game_of game.now) leaves.now }
    ensures { IsTrue result ↔ SlotExists (game_of game.now) (leaves_of leaves.now) i k s }
{
    is_leaf(game, leaves, i, k)
        && is_exact(game, leaves, i as usize, k as usize)
        && is_present(game, leaves, i as usize, k as usize, s as usize)
}

/// Whether the slot is present in a leaf that counts as exact and has weight on the path, and isn't
/// decided there.
pub(crate) fn is_open_slot(
    game: &Game,
    leaves: &Leaves,
    path: &[Choice],
    i: u32,
    k: u32,
    s: u32,
) -> bool
    requires { AreLeaves (game_of game.now) leaves.now }
    ensures { IsTrue result ↔ IsOpenSlot (game_of game.now) (leaves_of leaves.now) path.now i k s }
{
    is_slot(game, leaves, i, k, s) && is_used(path, i, k) && !is_slot_decided(path, i, k, s)
}

/// Whether a leaf of the player is decided on the path.
fn is_player_decided(path: &[Choice], i: u32) -> bool
    ensures { IsTrue result ↔ ((k : ℕ) × IsLeafDecided path.now i k) }
{
    has_which(path, i) || has_side(path, i)
}

/// Whether the kind is pure, and the player exists.
fn is_pure_player(game: &Game, kind: Kind, i: u32) -> bool
    ensures { IsTrue result ↔ ((kind ≡ Kind.Pure) × (i < length (game_of game.now))) }
{
    kind == Kind::Pure && (i as usize) < player_count(game)
}

/// Whether the kind is pure, the player exists, and none of its leaves is decided on the path.
pub(crate) fn is_open_player(game: &Game, kind: Kind, path: &[Choice], i: u32) -> bool
    ensures { IsTrue result ↔ IsOpenPlayer (game_of game.now) kind path.now i }
{
    is_pure_player(game, kind, i) && !is_player_decided(path, i)
}
