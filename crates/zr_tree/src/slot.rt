ghost use Rattle.std.specs.Prelude.{◌≡◌, ◌↔◌, ◌<◌, ℕ, IsTrue, IfSome, if◌then◌else◌, length, option_map};
ghost use Rattle.zr_base.specs.Steps.{IsNarrow};
ghost use Rattle.zr_game.specs.Players.{pair_of, player_of};
ghost use Rattle.zr_game.specs.Forms.{IsPairForm};
ghost use Rattle.zr_game.specs.Leaves.{LeafOf, high_slot, low_slot, pair_slot, side_slot, slot_of, slots};
ghost use Rattle.zr_tree.specs.Paths.{HasPlaces};
ghost use Rattle.zr_tree.specs.Right.{ArePresent};
ghost use Rattle.zr_tree.specs.SlotRows.{IsLeft, rows_at, slot_bound};
ghost use Rattle.zr_tree.specs.Visits.{HasForms};

use zr_game::{Leaf, Pair, Player, Side};

/// The numbers of a slot's row by column.
#[derive(Clone, Copy)]
pub enum Left<'a> {
    /// The numbers of a row or a pair, with their signs turned where `negated`.
    Terms {
        terms: &'a [(u32, i64)],
        negated: bool,
    },
    /// One number at a column.
    Column {
        var: usize,
        number: i64,
    },
}

/// The row of a slot: its numbers are at most `le`.
#[derive(Clone, Copy)]
pub struct SlotRow<'a> {
    pub left: Left<'a>,
    pub le: i128,
}

/// How many slots a leaf of the player has: one for each row, and two for each variable and pair.
///
/// The player is one of a game's.
pub fn slot_count(player: &Player) -> usize
    requires { HasForms (player_of player.now) }
    ensures { (leaf : LeafOf) → length (slots (player_of player.now) leaf) ≡ result }
{
    player.rows.len() + (player.vars.len() + player.pairs.len()) * 2
}

/// The row of a slot of the leaf, or None where the slot isn't present or there is none of this
/// number.
///
/// The player is one of a game's; the leaf has a low and a high for each of its variables, and a
/// side for each of its pairs. The row's terms ascend by column, each below the number of the
/// player's variables, and its right side is within the limits of a step.
pub fn slot_row<'a>(player: &'a Player, leaf: &Leaf, slot: usize) -> Option<SlotRow<'a>>
    requires forms { HasForms (player_of player.now) }
    requires places { HasPlaces (player_of player.now) leaf.now }
    ensures row { option_map slot_bound result ≡ slot_of (rows_at player.now leaf.now) slot }
    ensures form { IfSome result (λ row. IsLeft (length (player_of player.now).vars) row.left) }
    ensures narrow { IfSome result (λ row. IsNarrow row.le) }
{
    if slot < player.rows.len() {
        let row = &player.rows[slot];
        let left = Left::Terms {
            terms: row.coef.as_slice(),
            negated: false,
        };
        return Some(SlotRow {
            left,
            le: i128::from(row.le),
        });
    }
    let place = slot - player.rows.len();
    let second = place % 2 == 1;
    let v = place / 2;
    if v < player.vars.len() {
        return var_row(v, second, leaf.low[v], leaf.high[v]);
    }
    let p = v - player.vars.len();
    if p < player.pairs.len() {
        return pair_row(&player.pairs[p], second, leaf.sides[p]);
    }
    None
}

/// `-var <= -low`, or where `second` `var <= high`, if there is such a bound.
fn var_row<'a>(var: usize, second: bool, low: Option<i64>, high: Option<i64>) -> Option<SlotRow<'a>>
    ensures row { option_map slot_bound result ≡
        (if second then high_slot var high else low_slot var low) }
    ensures form { (columns : ℕ) → var < columns → IfSome result (λ row. IsLeft columns row.left) }
    ensures narrow { IfSome result (λ row. IsNarrow row.le) }
{
    if second {
        high_row(var, high)
    } else {
        low_row(var, low)
    }
}

fn low_row<'a>(var: usize, low: Option<i64>) -> Option<SlotRow<'a>>
    ensures row { option_map slot_bound result ≡ low_slot var low }
    ensures form { (columns : ℕ) → var < columns → IfSome result (λ row. IsLeft columns row.left) }
    ensures narrow { IfSome result (λ row. IsNarrow row.le) }
{
    match low {
        None => None,
        Some(low) => Some(SlotRow {
            left: Left::Column { var, number: -1 },
            le: -i128::from(low),
        }),
    }
}

fn high_row<'a>(var: usize, high: Option<i64>) -> Option<SlotRow<'a>>
    ensures row { option_map slot_bound result ≡ high_slot var high }
    ensures form { (columns : ℕ) → var < columns → IfSome result (λ row. IsLeft columns row.left) }
    ensures narrow { IfSome result (λ row. IsNarrow row.le) }
{
    match high {
        None => None,
        Some(high) => Some(SlotRow {
            left: Left::Column { var, number: 1 },
            le: i128::from(high),
        }),
    }
}

/// `-coef * x <= add`, or where `second` the row of the pair's side, if it is decided.
fn pair_row(pair: &Pair, second: bool, side: Side) -> Option<SlotRow<'_>>
    ensures row { option_map slot_bound result ≡
        (if second then side_slot (pair_of pair.now) side else pair_slot (pair_of pair.now)) }
    ensures form { (columns : ℕ) → IsPairForm columns (pair_of pair.now)
        → IfSome result (λ row. IsLeft columns row.left) }
    ensures narrow { IfSome result (λ row. IsNarrow row.le) }
{
    let terms = pair.coef.as_slice();
    let add = i128::from(pair.add);
    if !second {
        return Some(SlotRow {
            left: Left::Terms {
                terms,
                negated: true,
            },
            le: add,
        });
    }
    match side {
        Side::Undecided => None,
        Side::VarZero => Some(SlotRow {
            left: Left::Column {
                var: pair.var as usize,
                number: 1,
            },
            le: 0,
        }),
        Side::RowZero => Some(SlotRow {
            left: Left::Terms {
                terms,
                negated: false,
            },
            le: -add,
        }),
    }
}

/// Whether all slots that are multiplied are present.
pub(crate) fn are_present(player: &Player, leaf: &Leaf, mult: &[(u32, i128)]) -> bool
    requires forms { HasForms (player_of player.now) }
    requires places { HasPlaces (player_of player.now) leaf.now }
    ensures { IsTrue result ↔ ArePresent (rows_at player.now leaf.now) mult.now }
{
    let mut all = true;
    for (slot, _) in mult {
        all &= slot_row(player, leaf, *slot as usize).is_some();
    }
    all
}
