//! Proofs by cases that there is no equilibrium.
//!
//! A refutation makes cases of the choices of the players' leaves until the rows under each path of
//! choices are refuted. A box tree makes cases of the players' bounds until in each box a player has
//! no point, or deviates. Both are lists of nodes, each before its children.
#![tactic(auto)]

mod bnode;
mod box_tree;
mod form;
mod laws;
mod refutation;
mod rnode;

pub use bnode::BNode;
pub use box_tree::BoxTree;
pub use form::count_of_cases;
pub use laws::law_of_cases;
pub use refutation::Refutation;
pub use rnode::RNode;

#[cfg(test)]
mod tests;
