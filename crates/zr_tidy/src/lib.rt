//! Strategies in the form in which they are printed: each point once and in lowest terms, in
//! ascending order, and weights without a common divisor above 1.
#![tactic(auto)]

mod laws;
mod merge;
mod point;
mod strategy;

pub use laws::law_of_tidying;
pub use strategy::tidy;

#[cfg(test)]
mod tests;
