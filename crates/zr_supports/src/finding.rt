ghost use Rattle.zr_branch.specs.Replies.{CountsPivotsAlone};

use crate::finite::{Finite, finite_game};
use crate::program::program;
use crate::rows::{columns_of, rows_of};
use crate::sizes::all_sizes;
use crate::supports::{Supports, narrowed, put_choices, unchosen};
use std::alloc::{AllocError, Global};
use zr_base::Point;
use zr_game::{Game, Kind};
use zr_io::Purse;
use zr_simplex::{LpAnswer, solve_lp};
use zr_system::Leaves;

/// A point of a player's leaf with its weight, over the denominator of all weights.
#[derive(Debug, Drop)]
pub struct WeightedPoint {
    pub player: usize,
    pub leaf: usize,
    /// The variables' values.
    pub point: Vec<i64>,
    /// Above zero.
    pub weight: i128,
}

/// The work that is done: supports count 1, and a program counts more.
const WORK: u32 = 20_000;

const PROGRAM_WORK: u32 = 20;

/// The number of each point in a list that has them at these columns, and 0 at the others.
fn spread(
    alloc: Global,
    game: &Finite,
    columns: &[usize],
    point: &Point,
) -> Result<Vec<i128>, AllocError> {
    let mut weights = vec![in alloc; 0; game.count()]?;
    for (j, a) in columns.iter().enumerate() {
        if *a < weights.len() && j < point.len() {
            weights[*a] = point.num(j);
        }
    }
    Ok(weights)
}

/// Weights of the supports' points that are an equilibrium's, if there are some.
fn weights_of(
    alloc: Global,
    game: &Finite,
    supports: &Supports,
    purse: &mut Purse,
) -> Result<Option<Vec<i128>>, AllocError>
    ensures purse { CountsPivotsAlone purse.old purse.new }
{
    // The count's range is known from here on.
    let _pivots = purse.pivots;
    let columns = columns_of(alloc, supports)?;
    let Some(rows) = rows_of(alloc, game, supports, &columns)? else {
        return Ok(None);
    };
    let Some(lp) = program(alloc, &rows, columns.len())? else {
        return Ok(None);
    };
    match solve_lp(alloc, &lp, purse) {
        Ok(LpAnswer::Best { point, .. }) => Ok(Some(spread(alloc, game, &columns, &point)?)),
        _ => Ok(None),
    }
}

/// Weights of the supports, if all are chosen; else the ways to choose one more become due.
fn go_on(
    alloc: Global,
    game: &Finite,
    sizes: &[usize],
    supports: Supports,
    due: &mut Vec<Supports>,
    work: &mut u32,
    purse: &mut Purse,
) -> Result<Option<Vec<i128>>, AllocError>
    ensures purse { CountsPivotsAlone purse.old purse.new }
{
    let Some(supports) = narrowed(alloc, game, supports)? else {
        return Ok(None);
    };
    if supports.chosen < sizes.len() {
        put_choices(alloc, due, &supports, sizes[supports.chosen])?;
        return Ok(None);
    }
    *work = work.saturating_sub(PROGRAM_WORK);
    weights_of(alloc, game, &supports, purse)
}

/// Weights of supports of these sizes, if some are found.
#[tactic(auto, using(crate::proofs::Counting::counts_then))]
fn of_sizes(
    alloc: Global,
    game: &Finite,
    sizes: &[usize],
    work: &mut u32,
    purse: &mut Purse,
) -> Result<Option<Vec<i128>>, AllocError>
    ensures purse { CountsPivotsAlone purse.old purse.new }
{
    let mut due = vec![in alloc; unchosen(alloc, game, sizes.len())?]?;
    for _ in 0..WORK {
        if *work == 0 {
            return Ok(None);
        }
        let Some(supports) = due.pop() else {
            return Ok(None);
        };
        *work -= 1;
        let found = go_on(alloc, game, sizes, supports, &mut due, work, purse)?;
        if found.is_some() {
            return Ok(found);
        }
    }
    Ok(None)
}

/// Weights of small supports that are an equilibrium's, if some are found: supports by size and
/// then balance, those of dominated points left out (R. Porter, E. Nudelman and Y. Shoham, 2008).
#[tactic(auto, using(crate::proofs::Counting::counts_then))]
fn weights(
    alloc: Global,
    game: &Finite,
    kind: Kind,
    players: usize,
    purse: &mut Purse,
) -> Result<Option<Vec<i128>>, AllocError>
    ensures purse { CountsPivotsAlone purse.old purse.new }
{
    let all = all_sizes(alloc, kind, players)?;
    let mut work = WORK;
    for sizes in &all {
        let found = of_sizes(alloc, game, sizes, &mut work, purse)?;
        if found.is_some() {
            return Ok(found);
        }
    }
    Ok(None)
}

/// The points with weight.
fn weighted(
    alloc: Global,
    game: &Finite,
    weights: &[i128],
) -> Result<Vec<WeightedPoint>, AllocError> {
    let mut list = Vec::new(alloc);
    for (atom, weight) in game.atoms.iter().zip(weights.iter()) {
        if *weight > 0 {
            list.push(WeightedPoint {
                player: atom.player,
                leaf: atom.leaf,
                point: atom.point.to_vec(alloc)?,
                weight: *weight,
            })?;
        }
    }
    Ok(list)
}

/// Weights that may be those of an equilibrium of the kind, where each leaf is a single point and
/// there are at most 64 of them: one point of each player for the pure kind; for the mixed kind up
/// to three points of each of at most six players, the supports tried by size and then balance, and
/// those left out of which a point is worse than another one (R. Porter, E. Nudelman and Y. Shoham,
/// 2008). `None` where none are found with little work.
///
/// The purse counts the pivots. Nothing is promised of the weights: whoever takes them has to show
/// that they are right.
pub fn likely_weights(
    alloc: Global,
    game: &Game,
    leaves: &Leaves,
    kind: Kind,
    purse: &mut Purse,
) -> Result<Option<Vec<WeightedPoint>>, AllocError>
    ensures purse { CountsPivotsAlone purse.old purse.new }
{
    let Some(made) = finite_game(alloc, game, leaves)? else {
        return Ok(None);
    };
    match weights(alloc, &made, kind, game.players.len(), purse)? {
        Some(found) => Ok(Some(weighted(alloc, &made, &found)?)),
        None => Ok(None),
    }
}
