use crate::finite::Finite;
use std::alloc::{AllocError, Global};
use zr_base::cross;

/// Of each player the points that it may use, by number; the first `chosen` players use all of
/// these.
#[derive(Drop)]
pub(crate) struct Supports {
    pub(crate) sets: Vec<Vec<usize>>,
    pub(crate) chosen: usize,
}

/// All points of the player.
fn all_of(alloc: Global, game: &Finite, player: usize) -> Result<Vec<usize>, AllocError> {
    let mut set = Vec::new(alloc);
    for a in 0..game.count() {
        if game.player_of(a) == player {
            set.push(a)?;
        }
    }
    Ok(set)
}

/// Where no player's points are chosen yet.
pub(crate) fn unchosen(
    alloc: Global,
    game: &Finite,
    players: usize,
) -> Result<Supports, AllocError> {
    let mut sets = Vec::new(alloc);
    for player in 0..players {
        sets.push(all_of(alloc, game, player)?)?;
    }
    Ok(Supports { sets, chosen: 0 })
}

/// The most by which point `by` costs more than point `a` at the weight of one of these.
fn most_over(game: &Finite, a: usize, by: usize, set: &[usize]) -> Option<i128> {
    let mut most = None;
    for b in set {
        let over = cross((game.cost(by, *b), 1), (game.cost(a, *b), 1)).ok()?;
        if most.is_none_or(|most| over > most) {
            most = Some(over);
        }
    }
    most
}

/// Whether point `by` costs less than point `a` whatever points of these the others use.
fn is_dominated(game: &Finite, sets: &[Vec<usize>], a: usize, by: usize) -> bool {
    let player = game.player_of(a);
    let none = game.count();
    let Ok(mut sum) = cross((game.cost(by, none), 1), (game.cost(a, none), 1)) else {
        return false;
    };
    for (other, set) in sets.iter().enumerate() {
        if other != player {
            let Some(most) = most_over(game, a, by, set) else {
                return false;
            };
            let Ok(next) = cross((most, 1), (-1, sum)) else {
                return false;
            };
            sum = next;
        }
    }
    sum < 0
}

/// Whether some point of the same player costs less than point `a` whatever these are.
fn is_worse(game: &Finite, sets: &[Vec<usize>], a: usize) -> bool {
    let player = game.player_of(a);
    for by in 0..game.count() {
        if by != a && game.player_of(by) == player && is_dominated(game, sets, a, by) {
            return true;
        }
    }
    false
}

/// The points of a set that no point is better than.
fn kept(
    alloc: Global,
    game: &Finite,
    sets: &[Vec<usize>],
    set: &[usize],
) -> Result<Vec<usize>, AllocError> {
    let mut list = Vec::new(alloc);
    for a in set {
        if !is_worse(game, sets, *a) {
            list.push(*a)?;
        }
    }
    Ok(list)
}

/// The supports with the points left out that a player wouldn't use, or `None` where one of these
/// is chosen or none is left.
pub(crate) fn narrowed(
    alloc: Global,
    game: &Finite,
    supports: Supports,
) -> Result<Option<Supports>, AllocError> {
    let mut supports = supports;
    for player in 0..supports.sets.len() {
        if player < supports.sets.len() {
            let left = kept(alloc, game, &supports.sets, &supports.sets[player])?;
            let loses = left.len() < supports.sets[player].len();
            if left.is_empty() || (loses && player < supports.chosen) {
                return Ok(None);
            }
            supports.sets[player] = left;
        }
    }
    Ok(Some(supports))
}

/// Appends the set with each of these that comes after its last one.
fn push_longer(
    alloc: Global,
    longer: &mut Vec<Vec<usize>>,
    set: &[usize],
    all: &[usize],
) -> Result<(), AllocError> {
    for a in all {
        if set.last().is_none_or(|last| *last < *a) {
            let mut more = set.to_vec(alloc)?;
            more.push(*a)?;
            longer.push(more)?;
        }
    }
    Ok(())
}

/// The sets with one of these more.
fn longer_sets(
    alloc: Global,
    sets: &[Vec<usize>],
    all: &[usize],
) -> Result<Vec<Vec<usize>>, AllocError> {
    let mut longer = Vec::new(alloc);
    for set in sets {
        push_longer(alloc, &mut longer, set, all)?;
    }
    Ok(longer)
}

/// The sets of so many of these.
fn sets_of(alloc: Global, all: &[usize], size: usize) -> Result<Vec<Vec<usize>>, AllocError> {
    let mut sets = vec![in alloc; Vec::new(alloc)]?;
    for _ in 0..size {
        sets = longer_sets(alloc, &sets, all)?;
    }
    Ok(sets)
}

/// A copy in which the next player uses this set.
fn with_set(alloc: Global, supports: &Supports, set: Vec<usize>) -> Result<Supports, AllocError> {
    let mut sets = Vec::new(alloc);
    for (player, old) in supports.sets.iter().enumerate() {
        if player == supports.chosen {
            sets.push(set.to_vec(alloc)?)?;
        } else {
            sets.push(old.to_vec(alloc)?)?;
        }
    }
    let chosen = supports.chosen.saturating_add(1);
    Ok(Supports { sets, chosen })
}

/// Puts the ways in which the next player uses so many points, the first of them last.
pub(crate) fn put_choices(
    alloc: Global,
    due: &mut Vec<Supports>,
    supports: &Supports,
    size: usize,
) -> Result<(), AllocError> {
    if supports.chosen >= supports.sets.len() {
        return Ok(());
    }
    let mut sets = sets_of(alloc, &supports.sets[supports.chosen], size)?;
    for _ in 0..sets.len() {
        if let Some(set) = sets.pop() {
            due.push(with_set(alloc, supports, set)?)?;
        }
    }
    Ok(())
}
