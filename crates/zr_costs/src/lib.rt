//! What each player pays in an equilibrium, with proofs that it can't pay less.
#![tactic(auto)]

mod bound;
mod claim;
mod laws;
mod means;
mod players;
mod stop;

pub use laws::law_of_least;
pub use players::bounds;
pub use stop::CostStop;
pub use zr_cert::Bound;

#[cfg(test)]
mod tests;
