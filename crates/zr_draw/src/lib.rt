//! From a solution of a game's system to the profile that it draws, which is an equilibrium.
#![tactic(auto)]

mod laws;
mod parts;
mod profile;

pub use laws::law_of_numbers;
pub use profile::draw;

#[cfg(test)]
mod tests;
