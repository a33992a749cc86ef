//! Games of any size from a number.
#![tactic(auto)]

mod draws;
mod family;
mod following;
mod item_draws;
mod leader_draws;
mod packing;

pub use family::Family;
pub use following::leaders;
pub use packing::knapsack;
pub use zr_base::NoMemory;

#[cfg(test)]
mod tests;
