ghost use Rattle.std.specs.Prelude.{◌≡◌, ◌<◌, pos, length, slice_index_or};
ghost use Rattle.zr_base.specs.Steps.{IsNarrow};
ghost use Rattle.zr_base.specs.Terms.{coef_at};
ghost use Rattle.zr_game.specs.Games.{game_of};
ghost use Rattle.zr_system.specs.Regions as content;
ghost use Rattle.zr_system.specs.Regions.{leaves_of};
ghost use Rattle.zr_system.specs.SlotRows.{IsLeft, left_coef, signed};
ghost use Rattle.zr_system.specs.Asked.{AreLeaves, LeafExists};

use crate::leaves::Leaves;
use crate::present::slot_at;
use crate::slot::Left;
use zr_game::{CrossTerm, Game};

/// A number, or its negation.
pub(crate) fn turned(z: i128, negated: bool) -> i128
    requires { IsNarrow z }
    ensures value { result ≡ signed negated z }
    ensures narrow { IsNarrow result }
{
    if negated { -z } else { z }
}

/// The number at a column, which is 0 where none is listed.
fn term_at(terms: &[(u32, i64)], v: usize) -> i64
    ensures { result ≡ coef_at terms.now v }
{
    for (column, number) in terms {
        if *column as usize == v {
            return *number;
        }
    }
    0
}

/// The number of a cross term, which is 0 where there is none.
fn cross_coef(terms: &[CrossTerm], v: usize, k: usize, u: usize) -> i64
    ensures { result ≡ content.cross_coef terms.now v k u }
{
    for term in terms {
        if term.own as usize == v && term.player as usize == k && term.var as usize == u {
            return term.coef;
        }
    }
    0
}

/// What a variable costs a player, by itself.
pub(crate) fn own_number(game: &Game, i: usize, v: usize) -> i128
    requires { i < length (game_of game.now) }
    ensures value { result ≡ content.own_number (game_of game.now) i v }
    ensures narrow { IsNarrow result }
{
    i128::from(term_at(game.players[i].cost.as_slice(), v))
}

/// What a variable costs a player, times another player's variable.
pub(crate) fn cross_number(game: &Game, i: usize, v: usize, k: usize, u: usize) -> i128
    requires { i < length (game_of game.now) }
    ensures value { result ≡ content.cross_number (game_of game.now) i v k u }
    ensures narrow { IsNarrow result }
{
    i128::from(cross_coef(&game.players[i].cross, v, k, u))
}

fn place(numbers: &[i128], v: usize) -> i128
    requires { v < length numbers.now }
    ensures { result ≡ slice_index_or numbers.now v (pos 0) }
{
    numbers[v]
}

/// The number of a slot's row at a variable.
fn left_number(left: &Left, columns: usize, v: usize) -> i128
    requires left { IsLeft columns left.now }
    requires column { v < columns }
    ensures value { result ≡ left_coef left.now v }
    ensures narrow { IsNarrow result }
{
    match left {
        Left::Terms { terms, negated } => turned(i128::from(term_at(terms, v)), *negated),
        Left::Column { var, number } => { if *var == v { i128::from(*number) } else { 0 } }
        Left::Numbers(numbers) => place(numbers, v),
    }
}

/// The number of a slot at a variable, which is 0 where the slot is absent.
pub(crate) fn slot_number(
    game: &Game,
    leaves: &Leaves,
    i: usize,
    k: usize,
    slot: usize,
    v: usize,
) -> i128
    requires leaves { AreLeaves (game_of game.now) leaves.now }
    requires leaf { LeafExists (game_of game.now) (leaves_of leaves.now) i k }
    requires var { v < content.var_count (game_of game.now) i }
    ensures value { result ≡ content.slot_number (game_of game.now) (leaves_of leaves.now) i k slot
        v }
    ensures narrow { IsNarrow result }
{
    match slot_at(game, leaves, i, k, slot) {
        None => 0,
        Some(row) => left_number(&row.left, game.players[i].vars.len(), v),
    }
}

/// The right side of a slot, which is 0 where the slot is absent.
pub(crate) fn slot_right(game: &Game, leaves: &Leaves, i: usize, k: usize, slot: usize) -> i128
    requires leaves { AreLeaves (game_of game.now) leaves.now }
    requires leaf { LeafExists (game_of game.now) (leaves_of leaves.now) i k }
    ensures value { result ≡ content.slot_right (game_of game.now) (leaves_of leaves.now) i k slot }
    ensures narrow { IsNarrow result }
{
    match slot_at(game, leaves, i, k, slot) {
        None => 0,
        Some(row) => row.le,
    }
}
