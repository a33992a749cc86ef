ghost use Rattle.std.specs.Prelude.{◌≡◌, ◌<◌, ◌≤◌, ◌++◌, [], ◌∷◌, List, suc, length, IsTrue, IfSome, IsNone};
ghost use Rattle.zr_game.specs.Games.{game_of};
ghost use Rattle.zr_game.specs.Players.{GameOf};
ghost use Rattle.zr_game.specs.declared.choice.Choice.{Choice as AChoice};
ghost use Rattle.zr_system.specs.Asked.{AreLeaves, ChoiceExists};
ghost use Rattle.zr_system.specs.Regions.{LeavesOf, leaves_of};
ghost use Rattle.zr_refute.specs.Refuting.{then_choice};
ghost use Rattle.zr_refute.specs.Walks.{Entered, IsPathOf, due_of, later, path_of};

use zr_game::{Choice, Game};
use zr_system::{Leaves, leaf_count};

/// The choices that lead from the root of a refutation to where its walk stands.
///
/// The first `depth` choices are those, the last of them nearest; what stands after them counts for
/// nothing.
#[derive(Drop)]
pub(crate) struct CasePath {
    pub(crate) choices: Vec<Choice>,
    pub(crate) depth: usize,
}

/// The choices made.
pub(crate) fn made(path: &CasePath) -> &[Choice]
    requires { path.now.depth ≤ length path.now.choices.items }
    ensures { result.now ≡ path_of path.now }
{
    &path.choices[..path.depth]
}

/// Goes to a choice, which is the first of its node.
pub(crate) fn enter(choice: Choice, path: &mut CasePath)
    requires { path.old.depth < length path.old.choices.items }
    ensures { (game : GameOf) (leaves : LeavesOf) → IsPathOf game leaves path.old
        → ChoiceExists game leaves choice
        → Entered game leaves (then_choice (path_of path.old) choice
        ∷ later leaves (path_of path.old) choice) path.old path.new }
{
    path.choices[path.depth] = choice;
    path.depth += 1;
}

/// Goes to the next path that is due, if there is one.
pub(crate) fn go_on(game: &Game, leaves: &Leaves, path: &mut CasePath)
    requires leaves { AreLeaves (game_of game.now) leaves.now }
    requires path { IsPathOf (game_of game.now) (leaves_of leaves.now) path.old }
    ensures { Entered (game_of game.now) (leaves_of leaves.now) [] path.old path.new }
{
    while path.depth > 0 {
        if turn(game, leaves, path) {
            return;
        }
    }
}

/// Leaves the nearest choice: goes to the next one at its node, or else back to the node.
fn turn(game: &Game, leaves: &Leaves, path: &mut CasePath) -> bool
    requires leaves { AreLeaves (game_of game.now) leaves.now }
    requires path { IsPathOf (game_of game.now) (leaves_of leaves.now) path.old }
    requires depth { 0 < path.old.depth }
    ensures next { IsTrue result → due_of (leaves_of leaves.now) path.old
        ≡ path_of path.new ∷ due_of (leaves_of leaves.now) path.new }
    ensures back { (IsTrue result → ⊥)
        → (due_of (leaves_of leaves.now) path.old ≡ due_of (leaves_of leaves.now) path.new)
        × (path.new.depth < path.old.depth) }
    ensures path { IsPathOf (game_of game.now) (leaves_of leaves.now) path.new }
    ensures size { length path.new.choices.items ≡ length path.old.choices.items }
    ensures depth { path.new.depth ≤ path.old.depth }
{
    let top = path.depth - 1;
    match next_choice(game, leaves, path.choices[top]) {
        Some(choice) => {
            path.choices[top] = choice;
            true
        }
        None => {
            path.depth = top;
            false
        }
    }
}

/// The choice after this one at the same node, if there is one.
fn next_choice(game: &Game, leaves: &Leaves, choice: Choice) -> Option<Choice>
    requires leaves { AreLeaves (game_of game.now) leaves.now }
    requires choice { ChoiceExists (game_of game.now) (leaves_of leaves.now) choice }
    ensures some { IfSome result (λ next. (path : List AChoice)
        → later (leaves_of leaves.now) path choice
        ≡ then_choice path next ∷ later (leaves_of leaves.now) path next) }
    ensures none { IsNone result → (path : List AChoice)
        → later (leaves_of leaves.now) path choice ≡ [] }
    ensures exists { IfSome result (ChoiceExists (game_of game.now) (leaves_of leaves.now)) }
{
    match choice {
        Choice::On { player, leaf } => Some(Choice::Off { player, leaf }),
        Choice::Zero { player, leaf, slot } => Some(Choice::Tight { player, leaf, slot }),
        Choice::Which { player, leaf } => next_leaf(game, leaves, player, leaf),
        Choice::Off { .. } | Choice::Tight { .. } => None,
    }
}

/// The choice of the player's leaf after this one, if there is one.
fn next_leaf(game: &Game, leaves: &Leaves, player: u32, leaf: u32) -> Option<Choice>
    requires leaves { AreLeaves (game_of game.now) leaves.now }
    requires choice { ChoiceExists (game_of game.now) (leaves_of leaves.now)
        (Choice.Which player leaf) }
    ensures some { IfSome result (λ next. (path : List AChoice)
        → later (leaves_of leaves.now) path (Choice.Which player leaf)
        ≡ then_choice path next ∷ later (leaves_of leaves.now) path next) }
    ensures none { IsNone result → (path : List AChoice)
        → later (leaves_of leaves.now) path (Choice.Which player leaf) ≡ [] }
    ensures exists { IfSome result (ChoiceExists (game_of game.now) (leaves_of leaves.now)) }
{
    let count = leaf_count(game, leaves, player as usize);
    if (leaf as usize) + 1 < count {
        Some(Choice::Which {
            player,
            leaf: leaf + 1,
        })
    } else {
        None
    }
}
