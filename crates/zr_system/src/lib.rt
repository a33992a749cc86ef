//! The linear system whose solutions are a game's equilibria over given leaves: its unknowns in the
//! order of their columns, its rows by name and as inequalities, under choices that are made, and how
//! many there are.
//!
//! The definitions of covers, of what a complete list of choices asks, and of the profile that a
//! solution draws stand here too; what they amount to is proved in the crates above.
#![tactic(auto)]

mod build;
mod counts;
mod laws;
mod leaves;
mod line;
mod narrow;
mod number;
mod present;
mod reading;
mod size;
mod slot;
mod unknown;

pub use build::{is_strict, rows};
pub use counts::{is_exact, leaf_count, named_count, player_count, var_count};
pub use laws::{law_of_columns, law_of_unknowns, law_of_worked_counts};
pub use leaves::{Leaves, Region, SystemError};
pub use line::{Line, base_lines};
pub use narrow::item_is_narrow;
pub use number::number_in_row;
pub use present::{is_present, slot_count};
pub use size::{cells, share_column};
pub use unknown::{Unknown, unknowns};
pub use zr_base::NoMemory;
pub use zr_game::{Choice, Named};

#[cfg(test)]
mod tests;
