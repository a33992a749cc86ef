ghost use Rattle.std.specs.Prelude.{◌≡◌, ◌≤◌, ℕ, IfOk, length, map};
ghost use Rattle.std.specs.List.{All};
ghost use Rattle.zr_base.specs.Steps.{IsNarrow};
ghost use Rattle.zr_game.specs.Players.{player_of};
ghost use Rattle.zr_game.specs.Leaves.{leaf_of, slots};
ghost use Rattle.zr_tree.specs.Paths.{HasPlaces};
ghost use Rattle.zr_tree.specs.SlotRows.{slot_bound};
ghost use Rattle.zr_tree.specs.Visits.{HasForms};
ghost use Rattle.zr_asked.specs.Branches.{present};
ghost use Rattle.zr_asked.specs.Drawn.{places_from};
ghost use Rattle.zr_asked.specs.Parts.{Part as APart};
ghost use Rattle.zr_branch.specs.Columns.{IsWeakRow, by_columns, part_of, row_bound};

use crate::number::{listed, row_by_part};
use crate::part::Part;
use std::alloc::{AllocError, Global};
use zr_game::{Leaf, Player};
use zr_lin::Ineq;
use zr_tree::{SlotRow, slot_count, slot_row};

/// The row of a slot, by column.
fn ineq_of(alloc: Global, row: SlotRow<'_>, parts: &[Part]) -> Result<Ineq, AllocError>
    requires few { length parts.now ≤ 128 }
    requires narrow { IsNarrow row.le }
    ensures weak { IfOk result (IsWeakRow (length parts.now)) }
    ensures bound { IfOk result (λ ineq.
        row_bound ineq ≡ by_columns (map part_of parts.now) (slot_bound row.entry)) }
{
    let list = row_by_part(alloc, row.left, parts)?;
    Ok(Ineq {
        coef: listed(alloc, &list)?,
        le: row.le,
        strict: false,
    })
}

/// The rows of a leaf's slots that are present, in their order, by column, and the numbers of these
/// slots.
pub(crate) fn rows_at(
    alloc: Global,
    player: &Player,
    leaf: &Leaf,
    parts: &[Part],
) -> Result<(Vec<Ineq>, Vec<u32>), AllocError>
    requires forms { HasForms (player_of player.now) }
    requires places { HasPlaces (player_of player.now) leaf.now }
    requires few { length parts.now ≤ 128 }
    ensures rows { IfOk result (λ made. map row_bound made.0.items
        ≡ map (by_columns (map part_of parts.now))
        (present (slots (player_of player.now) (leaf_of leaf.now)))) }
    ensures weak { IfOk result (λ made. All (IsWeakRow (length parts.now)) made.0.items) }
    ensures places { IfOk result (λ made. made.1.items
        ≡ places_from 0 (slots (player_of player.now) (leaf_of leaf.now))) }
{
    let mut rows = Vec::new(alloc);
    let mut places = Vec::new(alloc);
    for slot in 0..slot_count(player) {
        if let Some(row) = slot_row(player, leaf, slot) {
            rows.push(ineq_of(alloc, row, parts)?)?;
            places.push(slot as u32)?;
        }
    }
    Ok((rows, places))
}
