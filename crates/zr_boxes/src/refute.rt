ghost use Rattle.std.specs.Prelude.{◌≡◌, ◌↔◌, ◌<◌, pos, ◌<ℤ◌, IsTrue, length};
ghost use Rattle.zr_base.specs.Terms.{coef_at};
ghost use Rattle.zr_game.specs.Players.{player_of};
ghost use Rattle.zr_game.specs.Leaves.{leaf_of};
ghost use Rattle.zr_tree.specs.Paths.{HasPlaces};
ghost use Rattle.zr_tree.specs.Right.{ArePositive, ArePresent, slot_coef, slot_le};
ghost use Rattle.zr_tree.specs.SlotRows.{left_coef, rows_at};
ghost use Rattle.zr_tree.specs.Steps.{left_steps, right_steps};
ghost use Rattle.zr_tree.specs.Visits.{HasForms};
ghost use Rattle.zr_boxes.specs.Visits.{ColumnsTell, RowsTell};

use zr_base::{Wide, add_product};
use zr_game::{Leaf, Player};
use zr_tree::{Left, slot_row, with_sign};

/// Whether the leaf's slots, multiplied, refute the leaf.
///
/// Where a slot isn't present no sum is made. Else all sums are made; the answer is a step of these
/// that is too wide, where there is one.
pub(crate) fn refutes(player: &Player, leaf: &Leaf, mult: &[(u32, i128)]) -> Result<bool, Wide>
    requires forms { HasForms (player_of player.now) }
    requires places { HasPlaces (player_of player.now) leaf.now }
    requires positive { ArePositive mult.now }
    ensures { RowsTell result (player_of player.now) (leaf_of leaf.now) mult.now }
{
    if !are_present(player, leaf, mult) {
        return Ok(false);
    }
    let zero = are_columns_zero(player, leaf, mult)?;
    let right = right_side(player, leaf, mult)?;
    Ok(zero & is_below_zero(right))
}

fn is_below_zero(right: i128) -> bool
    ensures { IsTrue result ↔ (right <ℤ (pos 0)) }
{
    right < 0
}

/// Whether all slots that are multiplied are present.
fn are_present(player: &Player, leaf: &Leaf, mult: &[(u32, i128)]) -> bool
    requires forms { HasForms (player_of player.now) }
    requires places { HasPlaces (player_of player.now) leaf.now }
    ensures { IsTrue result ↔ ArePresent (rows_at player.now leaf.now) mult.now }
{
    let mut all = true;
    for (slot, _) in mult {
        all &= slot_row(player, leaf, *slot as usize).is_some();
    }
    all
}

/// Whether the left side of the combination is zero at each of the player's variables.
fn are_columns_zero(player: &Player, leaf: &Leaf, mult: &[(u32, i128)]) -> Result<bool, Wide>
    requires forms { HasForms (player_of player.now) }
    requires places { HasPlaces (player_of player.now) leaf.now }
    ensures { ColumnsTell result (length (player_of player.now).vars)
        (rows_at player.now leaf.now) mult.now }
{
    let mut all = true;
    for column in 0..player.vars.len() {
        all &= is_zero(left_side(player, leaf, mult, column)?);
    }
    Ok(all)
}

fn is_zero(sum: i128) -> bool
    ensures { IsTrue result ↔ (sum ≡ pos 0) }
{
    sum == 0
}

/// The left side of the combination at a column.
fn left_side(
    player: &Player,
    leaf: &Leaf,
    mult: &[(u32, i128)],
    column: usize,
) -> Result<i128, Wide>
    requires forms { HasForms (player_of player.now) }
    requires places { HasPlaces (player_of player.now) leaf.now }
    ensures { result ≡ left_steps (rows_at player.now leaf.now) mult.now column }
{
    let mut sum = 0;
    for (slot, by) in mult {
        let number = slot_number(player, leaf, *slot as usize, column);
        sum = add_product(sum, *by, number)?;
    }
    Ok(sum)
}

/// The right side of the combination.
fn right_side(player: &Player, leaf: &Leaf, mult: &[(u32, i128)]) -> Result<i128, Wide>
    requires forms { HasForms (player_of player.now) }
    requires places { HasPlaces (player_of player.now) leaf.now }
    ensures { result ≡ right_steps (rows_at player.now leaf.now) mult.now }
{
    let mut sum = 0;
    for (slot, by) in mult {
        sum = add_product(sum, *by, slot_right(player, leaf, *slot as usize))?;
    }
    Ok(sum)
}

/// The slot's number at a column, 0 where the slot isn't present.
fn slot_number(player: &Player, leaf: &Leaf, slot: usize, column: usize) -> i128
    requires forms { HasForms (player_of player.now) }
    requires places { HasPlaces (player_of player.now) leaf.now }
    ensures { result ≡ slot_coef (rows_at player.now leaf.now) slot column }
{
    match slot_row(player, leaf, slot) {
        None => 0,
        Some(row) => left_number(&row.left, column),
    }
}

/// The slot's right side, 0 where the slot isn't present.
fn slot_right(player: &Player, leaf: &Leaf, slot: usize) -> i128
    requires forms { HasForms (player_of player.now) }
    requires places { HasPlaces (player_of player.now) leaf.now }
    ensures { result ≡ slot_le (rows_at player.now leaf.now) slot }
{
    match slot_row(player, leaf, slot) {
        None => 0,
        Some(row) => row.le,
    }
}

fn left_number(left: &Left, column: usize) -> i128
    ensures { result ≡ left_coef left.now column }
{
    match left {
        Left::Terms { terms, negated } => with_sign(*negated, number_at(terms, column)),
        Left::Column { var, number } => {
            if *var == column {
                i128::from(*number)
            } else {
                0
            }
        }
    }
}

/// The number of column `v` among the terms, 0 where it has none.
pub(crate) fn number_at(terms: &[(u32, i64)], v: usize) -> i64
    ensures { result ≡ coef_at terms.now v }
{
    for (var, number) in terms {
        if *var as usize == v {
            return *number;
        }
    }
    0
}
