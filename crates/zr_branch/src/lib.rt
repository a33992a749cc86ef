//! The linear program of a branch, asked, and its answer in terms of the leaf's slots.
#![tactic(auto)]

mod asking;
mod leaf;
mod multipliers;
mod number;
mod part;
mod program;
mod reply;
mod row;
#[cfg(test)]
mod tests;
mod value;

pub use asking::ask;
pub use leaf::{leaf_at, with_move};
pub use reply::{AskStop, Reply};
