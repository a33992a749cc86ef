ghost use Rattle.std.specs.Prelude.{◌≡◌, ◌<◌, ◌++◌, ◌∷◌, [], ◌==◌, false, if◌then◌else◌, length, IfOk, OnOk};
ghost use Rattle.std.specs.List.{All};
ghost use Rattle.zr_game.specs.Games.{game_of};
ghost use Rattle.zr_system.specs.Regions as content;
ghost use Rattle.zr_system.specs.Regions.{leaves_of};
ghost use Rattle.zr_system.specs.Unknowns.{list_to};
ghost use Rattle.zr_system.specs.Lines as in_order;
ghost use Rattle.zr_system.specs.Lines.{all_lines, choice_lines, dual_lines, leaf_lines, off_lines, other_lines, path_lines, player_lines, pull_lines, reach_lines, slot_lines};
ghost use Rattle.zr_system.specs.Asked.{AreLeaves, ChoiceExists, LeafExists};

use crate::counts::{is_exact, leaf_count, named_count, player_count, var_count};
use crate::leaves::Leaves;
use crate::present::{is_present, slot_count};
use std::alloc::{AllocError, Global};
use zr_base::NoMemory;
use zr_game::{Choice, Game};

/// A row of the system, by what it says. `negated` tells of the second of two rows that say
/// together
/// that a form is zero.
#[derive(Clone, Copy, Debug, PartialEq, Eq)]
pub enum Line {
    /// The weights sum to at most 1, or where `negated` to at least 1.
    Weights {
        player: usize,
        negated: bool,
    },
    /// The slot's row holds at the leaf's share and weight, or where `negated` it is tight.
    Slot {
        player: usize,
        leaf: usize,
        slot: usize,
        negated: bool,
    },
    /// The weight is at least 0, or where `negated` at most 0.
    Weight {
        player: usize,
        leaf: usize,
        negated: bool,
    },
    /// The multiplier is at least 0, or where `negated` at most 0.
    Dual {
        player: usize,
        leaf: usize,
        slot: usize,
        negated: bool,
    },
    /// The slope in a variable and what the multipliers pull there are together 0.
    Pull {
        player: usize,
        leaf: usize,
        var: usize,
        negated: bool,
    },
    /// The player's value is at most the leaf's dual value, or where `negated` at least.
    Gain {
        player: usize,
        leaf: usize,
        negated: bool,
    },
    /// The player's value is at most what a named point costs, or a named ray doesn't lower the
    /// cost.
    Named {
        player: usize,
        item: usize,
    },
    /// The weight is above 0.
    Positive {
        player: usize,
        leaf: usize,
    },
    /// The share of a variable is 0.
    Share {
        player: usize,
        leaf: usize,
        var: usize,
        negated: bool,
    },
    /// The weight is at least 1.
    Whole {
        player: usize,
        leaf: usize,
    },
}

/// The rows of the system where no choice is made, in their order.
pub fn base_lines(alloc: Global, game: &Game, leaves: &Leaves) -> Result<Vec<Line>, NoMemory>
    requires { AreLeaves (game_of game.now) leaves.now }
    ensures { IfOk result (λ list. list.items ≡ in_order.base_lines (game_of game.now)
        (leaves_of leaves.now)) }
{
    let mut list = Vec::new(alloc);
    match push_base(&mut list, game, leaves) {
        Ok(()) => Ok(list),
        Err(_) => Err(NoMemory),
    }
}

/// The rows of the system under a path of choices, in their order.
pub(crate) fn lines(
    alloc: Global,
    game: &Game,
    leaves: &Leaves,
    path: &[Choice],
) -> Result<Vec<Line>, AllocError>
    requires leaves { AreLeaves (game_of game.now) leaves.now }
    requires path { All (ChoiceExists (game_of game.now) (leaves_of leaves.now)) path.now }
    ensures { IfOk result (λ list. list.items ≡ all_lines (game_of game.now) (leaves_of leaves.now)
        path.now) }
{
    let mut list = Vec::new(alloc);
    push_base(&mut list, game, leaves)?;
    push_path(&mut list, game, leaves, path)?;
    Ok(list)
}

/// Appends the rows of a path of choices.
fn push_path(
    list: &mut Vec<Line>,
    game: &Game,
    leaves: &Leaves,
    path: &[Choice],
) -> Result<(), AllocError>
    requires leaves { AreLeaves (game_of game.now) leaves.now }
    requires path { All (ChoiceExists (game_of game.now) (leaves_of leaves.now)) path.now }
    ensures { OnOk result (list.new.items ≡ list.old.items ++ path_lines (game_of game.now)
        (leaves_of leaves.now) path.now) }
{
    for choice in path {
        push_choice(list, game, leaves, *choice)?;
    }
    Ok(())
}

/// Appends the rows where no choice is made.
fn push_base(list: &mut Vec<Line>, game: &Game, leaves: &Leaves) -> Result<(), AllocError>
    requires { AreLeaves (game_of game.now) leaves.now }
    ensures { OnOk result (list.new.items ≡ list.old.items ++ in_order.base_lines (game_of game.now)
        (leaves_of leaves.now)) }
{
    for i in 0..player_count(game) {
        push_player(list, game, leaves, i)?;
    }
    Ok(())
}

/// Appends the rows of a player.
fn push_player(
    list: &mut Vec<Line>,
    game: &Game,
    leaves: &Leaves,
    i: usize,
) -> Result<(), AllocError>
    requires leaves { AreLeaves (game_of game.now) leaves.now }
    requires player { i < length (game_of game.now) }
    ensures { OnOk result (list.new.items ≡ list.old.items ++ player_lines (game_of game.now)
        (leaves_of leaves.now) i) }
{
    list.push(Line::Weights {
        player: i,
        negated: false,
    })?;
    list.push(Line::Weights {
        player: i,
        negated: true,
    })?;
    push_leaves(list, game, leaves, i)?;
    push_named(list, game, leaves, i)
}

/// Appends the rows of a player's leaves.
fn push_leaves(
    list: &mut Vec<Line>,
    game: &Game,
    leaves: &Leaves,
    i: usize,
) -> Result<(), AllocError>
    requires leaves { AreLeaves (game_of game.now) leaves.now }
    requires player { i < length (game_of game.now) }
    ensures { OnOk result (list.new.items ≡ list.old.items ++ list_to
        (content.leaf_count (leaves_of leaves.now) i)
        (λ k. leaf_lines (game_of game.now) (leaves_of leaves.now) i k)) }
{
    for k in 0..leaf_count(game, leaves, i) {
        push_leaf(list, game, leaves, i, k)?;
    }
    Ok(())
}

/// Appends the rows of a player's named points and rays.
fn push_named(
    list: &mut Vec<Line>,
    game: &Game,
    leaves: &Leaves,
    i: usize,
) -> Result<(), AllocError>
    requires leaves { AreLeaves (game_of game.now) leaves.now }
    requires player { i < length (game_of game.now) }
    ensures { OnOk result (list.new.items ≡ list.old.items ++ list_to
        (length (content.named_at (leaves_of leaves.now) i)) (λ n. Line.Named i n ∷ [])) }
{
    for n in 0..named_count(game, leaves, i) {
        list.push(Line::Named { player: i, item: n })?;
    }
    Ok(())
}

/// Appends the rows of a leaf.
fn push_leaf(
    list: &mut Vec<Line>,
    game: &Game,
    leaves: &Leaves,
    i: usize,
    k: usize,
) -> Result<(), AllocError>
    requires leaves { AreLeaves (game_of game.now) leaves.now }
    requires leaf { LeafExists (game_of game.now) (leaves_of leaves.now) i k }
    ensures { OnOk result (list.new.items ≡ list.old.items ++ leaf_lines (game_of game.now)
        (leaves_of leaves.now) i k) }
{
    push_slots(list, game, leaves, i, k)?;
    list.push(Line::Weight {
        player: i,
        leaf: k,
        negated: false,
    })?;
    if !is_exact(game, leaves, i, k) {
        return Ok(());
    }
    push_dual_rows(list, game, leaves, i, k)
}

/// Appends the rows of a leaf's slots.
fn push_slots(
    list: &mut Vec<Line>,
    game: &Game,
    leaves: &Leaves,
    i: usize,
    k: usize,
) -> Result<(), AllocError>
    requires leaves { AreLeaves (game_of game.now) leaves.now }
    requires leaf { LeafExists (game_of game.now) (leaves_of leaves.now) i k }
    ensures { OnOk result (list.new.items ≡ list.old.items ++ slot_lines (game_of game.now)
        (leaves_of leaves.now) i k) }
{
    for s in 0..slot_count(game, leaves, i, k) {
        push_slot(list, game, leaves, i, k, s)?;
    }
    Ok(())
}

/// Appends the row of a slot, if it is present.
fn push_slot(
    list: &mut Vec<Line>,
    game: &Game,
    leaves: &Leaves,
    i: usize,
    k: usize,
    s: usize,
) -> Result<(), AllocError>
    requires leaves { AreLeaves (game_of game.now) leaves.now }
    requires leaf { LeafExists (game_of game.now) (leaves_of leaves.now) i k }
    ensures { OnOk result (list.new.items ≡ list.old.items ++
        (if content.is_present (game_of game.now) (leaves_of leaves.now) i k s then Line.Slot i k s
        false ∷ [] else [])) }
{
    if is_present(game, leaves, i, k, s) {
        list.push(Line::Slot {
            player: i,
            leaf: k,
            slot: s,
            negated: false,
        })?;
    }
    Ok(())
}

/// Appends the rows of an exact leaf's multipliers.
fn push_dual_rows(
    list: &mut Vec<Line>,
    game: &Game,
    leaves: &Leaves,
    i: usize,
    k: usize,
) -> Result<(), AllocError>
    requires leaves { AreLeaves (game_of game.now) leaves.now }
    requires leaf { LeafExists (game_of game.now) (leaves_of leaves.now) i k }
    ensures { OnOk result (list.new.items ≡ list.old.items ++ dual_lines (game_of game.now)
        (leaves_of leaves.now) i k) }
{
    for s in 0..slot_count(game, leaves, i, k) {
        push_sign(list, game, leaves, i, k, s)?;
    }
    push_pulls(list, game, i, k)?;
    list.push(Line::Gain {
        player: i,
        leaf: k,
        negated: false,
    })?;
    Ok(())
}

/// Appends that a slot's multiplier is at least 0, if the slot is present.
fn push_sign(
    list: &mut Vec<Line>,
    game: &Game,
    leaves: &Leaves,
    i: usize,
    k: usize,
    s: usize,
) -> Result<(), AllocError>
    requires leaves { AreLeaves (game_of game.now) leaves.now }
    requires leaf { LeafExists (game_of game.now) (leaves_of leaves.now) i k }
    ensures { OnOk result (list.new.items ≡ list.old.items ++
        (if content.is_present (game_of game.now) (leaves_of leaves.now) i k s then Line.Dual i k s
        false ∷ [] else [])) }
{
    if is_present(game, leaves, i, k, s) {
        list.push(Line::Dual {
            player: i,
            leaf: k,
            slot: s,
            negated: false,
        })?;
    }
    Ok(())
}

/// Appends that the multipliers cancel the slope.
fn push_pulls(list: &mut Vec<Line>, game: &Game, i: usize, k: usize) -> Result<(), AllocError>
    requires player { i < length (game_of game.now) }
    ensures { OnOk result (list.new.items ≡ list.old.items ++ pull_lines (game_of game.now) i k) }
{
    for v in 0..var_count(game, i) {
        list.push(Line::Pull {
            player: i,
            leaf: k,
            var: v,
            negated: false,
        })?;
        list.push(Line::Pull {
            player: i,
            leaf: k,
            var: v,
            negated: true,
        })?;
    }
    Ok(())
}

/// Appends the rows of a choice.
fn push_choice(
    list: &mut Vec<Line>,
    game: &Game,
    leaves: &Leaves,
    choice: Choice,
) -> Result<(), AllocError>
    requires leaves { AreLeaves (game_of game.now) leaves.now }
    requires choice { ChoiceExists (game_of game.now) (leaves_of leaves.now) choice }
    ensures { OnOk result (list.new.items ≡ list.old.items ++ choice_lines (game_of game.now)
        (leaves_of leaves.now) choice) }
{
    match choice {
        Choice::On { player, leaf } => {
            list.push(Line::Positive {
                player: player as usize,
                leaf: leaf as usize,
            })?;
            push_reach(list, game, leaves, player as usize, leaf as usize)
        }
        Choice::Off { player, leaf } => push_off(list, game, player as usize, leaf as usize),
        Choice::Zero { player, leaf, slot } => {
            list.push(Line::Dual {
                player: player as usize,
                leaf: leaf as usize,
                slot: slot as usize,
                negated: true,
            })?;
            Ok(())
        }
        Choice::Tight { player, leaf, slot } => {
            list.push(Line::Slot {
                player: player as usize,
                leaf: leaf as usize,
                slot: slot as usize,
                negated: true,
            })?;
            Ok(())
        }
        Choice::Which { player, leaf } => {
            list.push(Line::Whole {
                player: player as usize,
                leaf: leaf as usize,
            })?;
            push_reach(list, game, leaves, player as usize, leaf as usize)?;
            push_others(list, game, leaves, player as usize, leaf as usize)
        }
    }
}

/// Appends that an exact leaf reaches the player's value.
fn push_reach(
    list: &mut Vec<Line>,
    game: &Game,
    leaves: &Leaves,
    i: usize,
    k: usize,
) -> Result<(), AllocError>
    requires leaves { AreLeaves (game_of game.now) leaves.now }
    requires leaf { LeafExists (game_of game.now) (leaves_of leaves.now) i k }
    ensures { OnOk result (list.new.items ≡ list.old.items ++ reach_lines (leaves_of leaves.now) i
        k) }
{
    if is_exact(game, leaves, i, k) {
        list.push(Line::Gain {
            player: i,
            leaf: k,
            negated: true,
        })?;
    }
    Ok(())
}

/// Appends that a leaf has no weight and no share.
fn push_off(list: &mut Vec<Line>, game: &Game, i: usize, k: usize) -> Result<(), AllocError>
    requires player { i < length (game_of game.now) }
    ensures { OnOk result (list.new.items ≡ list.old.items ++ off_lines (game_of game.now) i k) }
{
    list.push(Line::Weight {
        player: i,
        leaf: k,
        negated: true,
    })?;
    for v in 0..var_count(game, i) {
        list.push(Line::Share {
            player: i,
            leaf: k,
            var: v,
            negated: false,
        })?;
        list.push(Line::Share {
            player: i,
            leaf: k,
            var: v,
            negated: true,
        })?;
    }
    Ok(())
}

/// Appends that the player's other leaves have no weight and no share.
fn push_others(
    list: &mut Vec<Line>,
    game: &Game,
    leaves: &Leaves,
    i: usize,
    k: usize,
) -> Result<(), AllocError>
    requires leaves { AreLeaves (game_of game.now) leaves.now }
    requires leaf { LeafExists (game_of game.now) (leaves_of leaves.now) i k }
    ensures { OnOk result (list.new.items ≡ list.old.items ++ other_lines (game_of game.now)
        (leaves_of leaves.now) i k) }
{
    for l in 0..leaf_count(game, leaves, i) {
        push_other(list, game, i, l, k)?;
    }
    Ok(())
}

/// Appends that leaf `l` has no weight and no share, unless it is leaf `k`.
fn push_other(
    list: &mut Vec<Line>,
    game: &Game,
    i: usize,
    l: usize,
    k: usize,
) -> Result<(), AllocError>
    requires player { i < length (game_of game.now) }
    ensures { OnOk result (list.new.items ≡ list.old.items ++
        (if l == k then [] else off_lines (game_of game.now) i l)) }
{
    if l == k {
        return Ok(());
    }
    push_off(list, game, i, l)
}
