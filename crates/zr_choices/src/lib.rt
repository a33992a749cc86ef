//! The question of a path of choices: whether the system under it has a solution.
#![tactic(auto)]

mod asking;
mod multiplier;
mod part;
mod program;
mod reply;
mod row;
mod sign;
#[cfg(test)]
mod tests;
mod value;

pub use asking::ask;
pub use reply::{ChoiceStop, Reply};
