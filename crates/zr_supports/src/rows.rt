use crate::finite::Finite;
use crate::program::WeightRow;
use crate::supports::Supports;
use std::alloc::{AllocError, Global};
use zr_base::cross;

/// The points that the supports have, in the order of players.
pub(crate) fn columns_of(alloc: Global, supports: &Supports) -> Result<Vec<usize>, AllocError> {
    let mut columns = Vec::new(alloc);
    for set in &supports.sets {
        columns.extend_from_slice(set)?;
    }
    Ok(columns)
}

/// Appends that the weights of a player's points are at most 1, and at least 1.
fn push_weights(
    alloc: Global,
    rows: &mut Vec<WeightRow>,
    game: &Finite,
    columns: &[usize],
    player: usize,
) -> Result<(), AllocError> {
    let mut up = Vec::new(alloc);
    let mut down = Vec::new(alloc);
    for a in columns {
        let is = game.player_of(*a) == player;
        up.push(if is { 1 } else { 0 })?;
        down.push(if is { -1 } else { 0 })?;
    }
    rows.push(WeightRow { numbers: up, le: 1 })?;
    rows.push(WeightRow {
        numbers: down,
        le: -1,
    })?;
    Ok(())
}

/// That point `a` costs at most what point `b` does, if no step is too wide.
fn at_most(
    alloc: Global,
    game: &Finite,
    columns: &[usize],
    a: usize,
    b: usize,
) -> Result<Option<WeightRow>, AllocError> {
    let mut numbers = Vec::new(alloc);
    for column in columns {
        match cross((game.cost(a, *column), 1), (game.cost(b, *column), 1)) {
            Ok(number) => numbers.push(number)?,
            Err(_) => return Ok(None),
        }
    }
    let none = game.count();
    match cross((game.cost(b, none), 1), (game.cost(a, none), 1)) {
        Ok(le) => Ok(Some(WeightRow { numbers, le })),
        Err(_) => Ok(None),
    }
}

/// Appends that row; whether no step is too wide.
fn push_at_most(
    alloc: Global,
    rows: &mut Vec<WeightRow>,
    game: &Finite,
    columns: &[usize],
    a: usize,
    b: usize,
) -> Result<bool, AllocError> {
    match at_most(alloc, game, columns, a, b)? {
        Some(line) => {
            rows.push(line)?;
            Ok(true)
        }
        None => Ok(false),
    }
}

/// Appends that no point of a player costs less than the first one of its set, and that those of
/// the set cost as much; whether no step is too wide.
fn push_costs(
    alloc: Global,
    rows: &mut Vec<WeightRow>,
    game: &Finite,
    columns: &[usize],
    player: usize,
    set: &[usize],
) -> Result<bool, AllocError> {
    let Some(first) = set.first() else {
        return Ok(false);
    };
    for a in 0..game.count() {
        if game.player_of(a) == player && a != *first {
            if !push_at_most(alloc, rows, game, columns, *first, a)? {
                return Ok(false);
            }
            if set.contains(&a) && !push_at_most(alloc, rows, game, columns, a, *first)? {
                return Ok(false);
            }
        }
    }
    Ok(true)
}

/// The rows that weights of the supports' points keep in an equilibrium, if no step is too wide.
pub(crate) fn rows_of(
    alloc: Global,
    game: &Finite,
    supports: &Supports,
    columns: &[usize],
) -> Result<Option<Vec<WeightRow>>, AllocError> {
    let mut rows = Vec::new(alloc);
    for (player, set) in supports.sets.iter().enumerate() {
        push_weights(alloc, &mut rows, game, columns, player)?;
        if !push_costs(alloc, &mut rows, game, columns, player, set)? {
            return Ok(None);
        }
    }
    Ok(Some(rows))
}
