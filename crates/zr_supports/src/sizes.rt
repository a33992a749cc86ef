use std::alloc::{AllocError, Global};
use zr_game::Kind;

/// The most points that a player uses.
const LARGEST: usize = 3;

/// In how many ways so many players may use 1 to `LARGEST` points each, as far as they are tried.
fn size_count(players: usize) -> usize {
    match players {
        1 => 3,
        2 => 9,
        3 => 27,
        4 => 81,
        5 => 243,
        6 => 729,
        _ => 0,
    }
}

/// The sizes with this number.
fn sizes_by(alloc: Global, players: usize, number: usize) -> Result<Vec<usize>, AllocError> {
    let mut sizes = Vec::new(alloc);
    let mut rest = number;
    for _ in 0..players {
        sizes.push(1 + rest % LARGEST)?;
        rest /= LARGEST;
    }
    Ok(sizes)
}

/// The sum of the sizes, and then how far the greatest is above the least.
fn rank_of(sizes: &[usize]) -> (usize, usize) {
    let mut sum: usize = 0;
    let mut least = LARGEST;
    let mut most = 1;
    for size in sizes {
        sum = sum.saturating_add(*size);
        least = least.min(*size);
        most = most.max(*size);
    }
    (sum, most.saturating_sub(least))
}

/// The sizes that are tried for the mixed kind, small and even ones first.
fn mixed_sizes(alloc: Global, players: usize) -> Result<Vec<Vec<usize>>, AllocError> {
    let mut all = Vec::new(alloc);
    for number in 0..size_count(players) {
        all.push(sizes_by(alloc, players, number)?)?;
    }
    all.sort_by_key(|sizes| rank_of(sizes))?;
    Ok(all)
}

/// The sizes that are tried.
pub(crate) fn all_sizes(
    alloc: Global,
    kind: Kind,
    players: usize,
) -> Result<Vec<Vec<usize>>, AllocError> {
    match kind {
        Kind::Mixed => mixed_sizes(alloc, players),
        Kind::Pure => Ok(vec![in alloc; vec![in alloc; 1; players]?]?),
    }
}
