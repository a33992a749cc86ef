//! Branch and bound over a player's points, exactly and with proofs.
#![tactic(auto)]

mod answer;
mod endless;
mod minimum;
mod plan;
mod prove;
mod search;
mod split;
mod stop;
#[cfg(test)]
mod tests;
mod visit;

pub use answer::{BnbStop, LeastAnswer};
pub use minimum::least;
pub use zr_asked::{Asked, AskedLp, Move};
