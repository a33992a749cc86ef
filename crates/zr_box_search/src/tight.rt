use crate::setting::size_of;
use crate::slope::{high_at, low_at};
use crate::split::BoxSplit;
use zr_base::Row;
use zr_game::{Game, Leaf, Player};

/// The end of the variable's range at which the number times it is least.
fn end_for(number: i128, low: i64, high: i64) -> i128 {
    if number < 0 {
        i128::from(high)
    } else {
        i128::from(low)
    }
}

/// How far the row's left side is below its right one where it is least in the box.
fn slack_in(row: &Row, i: u32, leaves: &[Leaf]) -> i128 {
    let mut slack = i128::from(row.le);
    for (var, coef) in row.coef.as_slice() {
        let v = *var as usize;
        let number = i128::from(*coef);
        let end = end_for(number, low_at(leaves, i, v), high_at(leaves, i, v));
        slack = slack.saturating_sub(number.saturating_mul(end));
    }
    slack
}

/// The number, where it lies within the bounds of a game's numbers.
fn within_numbers(number: i128) -> Option<i64> {
    if number < -1000000000 || number > 1000000000 {
        return None;
    }
    Some(number as i64)
}

/// Where the row, which has so much slack in the box, leaves the variable less than its range: the
/// split that cuts the rest off.
fn cut_by(var: u32, coef: i128, slack: i128, low: i64, high: i64) -> Option<(u32, i64)> {
    let low = i128::from(low);
    let high = i128::from(high);
    let size = size_of(coef);
    if slack < 0 || size < 1 {
        return None;
    }
    let room = slack.div_euclid(size);
    if high.saturating_sub(low) <= room {
        return None;
    }
    let at = if coef < 0 {
        high.saturating_sub(room).saturating_sub(1)
    } else {
        low.saturating_add(room)
    };
    match within_numbers(at) {
        Some(at) => Some((var, at)),
        None => None,
    }
}

/// The first such split by the row.
fn row_cut(row: &Row, i: u32, leaves: &[Leaf]) -> Option<BoxSplit> {
    let slack = slack_in(row, i, leaves);
    for (var, coef) in row.coef.as_slice() {
        let low = low_at(leaves, i, *var as usize);
        let high = high_at(leaves, i, *var as usize);
        if let Some((var, at)) = cut_by(*var, i128::from(*coef), slack, low, high) {
            return Some(BoxSplit { player: i, var, at });
        }
    }
    None
}

fn player_cut(player: &Player, i: u32, leaves: &[Leaf]) -> Option<BoxSplit> {
    for row in &player.rows {
        if let Some(split) = row_cut(row, i, leaves) {
            return Some(split);
        }
    }
    None
}

/// A split that cuts off a part of the box in which a row can't hold, if a row has one: the first
/// one.
pub(crate) fn empty_cut(game: &Game, leaves: &[Leaf]) -> Option<BoxSplit> {
    for (i, player) in game.players.iter().enumerate() {
        if let Some(split) = player_cut(player, i as u32, leaves) {
            return Some(split);
        }
    }
    None
}
