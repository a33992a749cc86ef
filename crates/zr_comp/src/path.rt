ghost use Rattle.std.specs.Prelude.{◌≡◌, ◌↔◌, ◌++◌, ◌∷◌, [], IsTrue, MatchOption, OnOk};
ghost use Rattle.std.specs.List.{Contains};
ghost use Rattle.zr_system.specs.Choices.{IsUsed};
ghost use Rattle.zr_refute.specs.Refuting.{then_choice};
ghost use Rattle.zr_refute.specs.Walks.{whiches};
ghost use Rattle.zr_comp.specs.Cases.{due_paths};

use std::alloc::{AllocError, Global};
use zr_game::Choice;

/// Whether the path has the choice.
pub(crate) fn has(path: &[Choice], choice: Choice) -> bool
    ensures { IsTrue result ↔ Contains path.now choice }
{
    for made in path {
        if *made == choice {
            return true;
        }
    }
    false
}

/// Whether the leaf is On or chosen on the path.
pub(crate) fn is_used(path: &[Choice], i: u32, k: u32) -> bool
    ensures { IsTrue result ↔ IsUsed path.now i k }
{
    has(path, Choice::On { player: i, leaf: k }) || has(path, Choice::Which { player: i, leaf: k })
}

/// Takes the path that is next.
pub(crate) fn take_next(due: &mut Vec<Vec<Choice>>) -> Option<Vec<Choice>>
    ensures { MatchOption result (due_paths due.old.items ≡ [])
        (λ path. due_paths due.old.items ≡ path.items ∷ due_paths due.new.items) }
{
    due.pop()
}

/// Makes a path the next one.
pub(crate) fn put_next(due: &mut Vec<Vec<Choice>>, path: Vec<Choice>) -> Result<(), AllocError>
    ensures { OnOk result (due_paths due.new.items ≡ path.items ∷ due_paths due.old.items) }
{
    due.push(path)?;
    Ok(())
}

/// Makes a path with one choice more the next one.
pub(crate) fn put_child(
    alloc: Global,
    due: &mut Vec<Vec<Choice>>,
    path: &[Choice],
    choice: Choice,
) -> Result<(), AllocError>
    ensures { OnOk result (due_paths due.new.items
        ≡ then_choice path.now choice ∷ due_paths due.old.items) }
{
    let mut longer = path.to_vec(alloc)?;
    longer.push(choice)?;
    put_next(due, longer)
}

/// Makes the paths to the player's leaves the next ones, the first leaf first.
pub(crate) fn put_leaves(
    alloc: Global,
    due: &mut Vec<Vec<Choice>>,
    path: &[Choice],
    i: u32,
    leaves: u32,
) -> Result<(), AllocError>
    ensures { OnOk result (due_paths due.new.items
        ≡ whiches path.now i 0 leaves ++ due_paths due.old.items) }
{
    let mut k = leaves;
    'leaves: while k > 0 {
        k -= 1;
        put_child(alloc, due, path, Choice::Which { player: i, leaf: k })?;
    }
    Ok(())
}
