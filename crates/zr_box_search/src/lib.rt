//! The search for a box tree: for a proof that no pure profile is an equilibrium.
#![tactic(auto)]

mod answer;
mod better;
mod boxes;
mod early;
mod empty;
mod gain;
mod mend;
mod profile;
mod setting;
mod slope;
mod split;
#[cfg(test)]
mod tests;
mod tight;
mod tree;
mod visit;
mod whole;
mod widest;
mod witness;

pub use answer::{BoxAnswer, BoxStop};
pub use tree::search;
pub use zr_asked::{Asked, AskedLp, Move};
pub use zr_cases::{BNode, BoxTree};
