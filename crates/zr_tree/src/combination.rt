ghost use Rattle.std.specs.Prelude.{◌≡◌, ◌<◌, ℕ, pos, IsErr, IfOk, IfErr, OnOk, ◌⊎◌, length, slice_index_or, Ok};
ghost use Rattle.std.specs.List.{All};
ghost use Rattle.zr_base.specs.Steps.{IsNarrow};
ghost use Rattle.zr_base.specs.Sums.{sum_step};
ghost use Rattle.zr_base.specs.Terms.{coef_at};
ghost use Rattle.zr_game.specs.Forms.{AreTerms};
ghost use Rattle.zr_game.specs.Players.{player_of};
ghost use Rattle.zr_game.specs.Leaves.{at_column};
ghost use Rattle.zr_tree.specs.Paths.{HasPlaces};
ghost use Rattle.zr_tree.specs.Right.{slot_coef, slot_le};
ghost use Rattle.zr_tree.specs.SlotRows.{IsLeft, left_coef, rows_at, signed};
ghost use Rattle.zr_tree.specs.Combining.{AreAdded, HasWideColumn, HasWideStep, IsCombined};
ghost use Rattle.zr_tree.specs.Visits.{HasForms};

use crate::slot::{Left, SlotRow, slot_row};
use zr_base::{Wide, add_product};
use zr_game::{Leaf, Player};

/// The combination of the leaf's slots: its left side in `sums`, by column, and its right side as
/// the answer. A slot that isn't present counts for nothing.
pub(crate) fn combine(
    player: &Player,
    leaf: &Leaf,
    mult: &[(u32, i128)],
    sums: &mut [i128],
) -> Result<i128, Wide>
    requires forms { HasForms (player_of player.now) }
    requires places { HasPlaces (player_of player.now) leaf.now }
    requires columns { length sums.old ≡ length (player_of player.now).vars }
    ensures ok { IfOk result (IsCombined (rows_at player.now leaf.now) mult.now sums.new) }
    ensures wide { IfErr result (λ _. HasWideStep (length (player_of player.now).vars)
        (rows_at player.now leaf.now) mult.now) }
{
    clear(sums);
    let mut le = 0;
    for (slot, by) in mult {
        le = add_slot(player, leaf, *slot as usize, *by, sums, le)?;
    }
    Ok(le)
}

fn clear(sums: &mut [i128])
    ensures { (j : ℕ) → slice_index_or sums.new j (pos 0) ≡ pos 0 }
{
    for place in sums.iter_mut() {
        *place = 0;
    }
}

/// Adds a multiple of a slot's row to the sums, and to the right side `le`.
fn add_slot(
    player: &Player,
    leaf: &Leaf,
    slot: usize,
    by: i128,
    sums: &mut [i128],
    le: i128,
) -> Result<i128, Wide>
    requires forms { HasForms (player_of player.now) }
    requires places { HasPlaces (player_of player.now) leaf.now }
    requires columns { length sums.old ≡ length (player_of player.now).vars }
    requires narrow { All IsNarrow sums.old }
    requires narrow_le { IsNarrow le }
    ensures left { OnOk result (AreAdded sums.old
        (slot_coef (rows_at player.now leaf.now) slot) by sums.new) }
    ensures right { IfOk result (λ new.
        sum_step le (by, slot_le (rows_at player.now leaf.now) slot) ≡ Ok new) }
    ensures wide { IfErr result (λ _.
        HasWideColumn sums.old (slot_coef (rows_at player.now leaf.now) slot) by
        ⊎ IsErr (sum_step le (by, slot_le (rows_at player.now leaf.now) slot))) }
{
    match slot_row(player, leaf, slot) {
        None => Ok(le),
        Some(row) => {
            add_left(&row.left, by, sums)?;
            add_product(le, by, row.le)
        }
    }
}

/// Adds a multiple of a row's numbers to the sums.
fn add_left(left: &Left, by: i128, sums: &mut [i128]) -> Result<(), Wide>
    requires left { IsLeft (length sums.old) left.now }
    requires narrow { All IsNarrow sums.old }
    ensures sums { OnOk result (AreAdded sums.old (left_coef left.now) by sums.new) }
    ensures wide { IfErr result (λ _. HasWideColumn sums.old (left_coef left.now) by) }
{
    match left {
        Left::Terms { terms, negated } => add_terms(terms, *negated, by, sums),
        Left::Column { var, number } => add_column(*var, *number, by, sums),
    }
}

fn add_terms(terms: &[(u32, i64)], negated: bool, by: i128, sums: &mut [i128]) -> Result<(), Wide>
    requires terms { AreTerms (length sums.old) terms.now }
    requires narrow { All IsNarrow sums.old }
    ensures sums { OnOk result (AreAdded sums.old
        (λ j. signed negated (coef_at terms.now j)) by sums.new) }
    ensures wide { IfErr result (λ _.
        HasWideColumn sums.old (λ j. signed negated (coef_at terms.now j)) by) }
{
    for (column, number) in terms {
        let column = *column as usize;
        sums[column] = add_product(sums[column], by, with_sign(negated, *number))?;
    }
    Ok(())
}

/// The number, with its sign turned where `negated`.
pub fn with_sign(negated: bool, number: i64) -> i128
    ensures { result ≡ signed negated number }
{
    if negated {
        -i128::from(number)
    } else {
        i128::from(number)
    }
}

fn add_column(column: usize, number: i64, by: i128, sums: &mut [i128]) -> Result<(), Wide>
    requires column { column < length sums.old }
    requires narrow { All IsNarrow sums.old }
    ensures sums { OnOk result (AreAdded sums.old (at_column column number) by sums.new) }
    ensures wide { IfErr result (λ _. HasWideColumn sums.old (at_column column number) by) }
{
    sums[column] = add_product(sums[column], by, i128::from(number))?;
    Ok(())
}
