ghost use Rattle.std.specs.Prelude.{◌≡◌, ◌<◌, ◌++◌, ◌∷◌, [], ℕ, IfOk, OnOk, MatchOption, if◌then◌else◌, length};
ghost use Rattle.zr_game.specs.Games.{game_of};
ghost use Rattle.zr_box_search.specs.Dues.{AreLeaves, AddsMove, LeadsToBox, due_of, moves_of, path_at};

use std::alloc::{AllocError, Global};
use zr_asked::Move;
use zr_base::NoMemory;
use zr_branch::{leaf_at, with_move};
use zr_game::{Game, Leaf};

/// The paths to the box of all profiles: no moves for each of so many players.
pub(crate) fn root_paths(alloc: Global, count: usize) -> Result<Vec<Vec<Move>>, AllocError>
    ensures len { IfOk result (λ paths. length (moves_of paths.items) ≡ count) }
    ensures each { IfOk result (λ paths. (k : ℕ) → path_at (moves_of paths.items) k ≡ []) }
{
    let mut paths = Vec::new(alloc);
    'players: while paths.len() < count {
        paths.push(Vec::new(alloc))?;
    }
    Ok(paths)
}

/// The paths to a child of a box: one move more for player `i`.
pub(crate) fn child_paths(
    alloc: Global,
    paths: &[Vec<Move>],
    i: u32,
    step: Move,
) -> Result<Vec<Vec<Move>>, AllocError>
    requires { i < length paths.now }
    ensures { IfOk result (λ child. AddsMove (moves_of paths.now) i step (moves_of child.items)) }
{
    let mut child = Vec::new(alloc);
    for (k, path) in paths.iter().enumerate() {
        let moves = moves_for(alloc, path, k == i as usize, step)?;
        child.push(moves)?;
    }
    Ok(child)
}

/// The path, with one more move where `more`.
fn moves_for(alloc: Global, path: &[Move], more: bool, step: Move) -> Result<Vec<Move>, AllocError>
    ensures { IfOk result (λ moves. moves.items
        ≡ (if more then path.now ++ step ∷ [] else path.now)) }
{
    if more {
        return with_move(alloc, path, step);
    }
    path.to_vec(alloc)
}

/// Takes the box that is next.
pub(crate) fn take_next(due: &mut Vec<Vec<Vec<Move>>>) -> Option<Vec<Vec<Move>>>
    ensures { MatchOption result (due_of due.old.items ≡ [])
        (λ paths. due_of due.old.items ≡ moves_of paths.items ∷ due_of due.new.items) }
{
    due.pop()
}

/// Makes a box the next one.
pub(crate) fn put_next(
    due: &mut Vec<Vec<Vec<Move>>>,
    paths: Vec<Vec<Move>>,
) -> Result<(), AllocError>
    ensures { OnOk result (due_of due.new.items ≡ moves_of paths.items ∷ due_of due.old.items) }
{
    due.push(paths)?;
    Ok(())
}

/// The leaves of the players' parts of the box to which the paths lead.
pub(crate) fn leaves_by(
    alloc: Global,
    game: &Game,
    paths: &[Vec<Move>],
) -> Result<Vec<Leaf>, NoMemory>
    requires { LeadsToBox (game_of game.now) (moves_of paths.now) }
    ensures { IfOk result (λ leaves. AreLeaves (game_of game.now) (moves_of paths.now)
        (length (game_of game.now)) leaves.items) }
{
    let mut leaves = Vec::new(alloc);
    for (k, player) in game.players.iter().enumerate() {
        let leaf = leaf_at(alloc, game, k as u32, player, &paths[k])?;
        let Ok(()) = leaves.push(leaf) else {
            return Err(NoMemory);
        };
    }
    Ok(leaves)
}
