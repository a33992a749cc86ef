//! Trees that prove a bound on a player's points.
#![tactic(auto)]

mod check;
mod combination;
mod end;
mod fault;
mod form;
mod known;
mod laws;
mod leaves;
mod node;
mod path;
mod proof;
mod scratch;
mod slot;
mod task;
mod tree;

pub use check::{bounds, cover};
pub use combination::with_sign;
pub use fault::Fault;
pub use form::{COUNT_LIMIT, GREATEST_SPLIT, LEAST_SPLIT, are_multipliers, is_number_to_split_at};
pub use laws::{
    law_of_covers, law_of_later_rows, law_of_nodes, law_of_passing, law_of_passing_covers,
    law_of_refuted_trees, law_of_right_trees, law_of_slots,
};
pub use leaves::{copy_leaf, leaves_of, lower_high, raise_low, set_side};
pub use node::Node;
pub use scratch::Scratch;
pub use slot::{Left, SlotRow, slot_count, slot_row};
pub use tree::Tree;
pub use zr_base::NoMemory;

#[cfg(test)]
mod tests;
