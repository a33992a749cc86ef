//! Box trees: proofs that no pure profile is an equilibrium, since in each box of profiles a player
//! has no point, or a better one.
#![tactic(auto)]

mod bounded;
mod check;
mod close;
mod gain;
mod laws;
mod path;
mod range;
mod refute;
mod root;
mod scratch;
mod slope;

pub use check::box_refuted;
pub use laws::{law_of_box_nodes, law_of_box_trees, law_of_gains, law_of_passing_boxes};
pub use scratch::BoxScratch;
pub use zr_base::NoMemory;
pub use zr_cases::{BNode, BoxTree};
pub use zr_tree::Fault;

#[cfg(test)]
mod tests;
