//! Refutations of the system of an equilibrium, by cases of choices.
#![tactic(auto)]

mod check;
mod laws;
mod open;
mod over;
mod path;
mod place;
mod room;
mod sum;

pub use check::refuted;
pub use laws::{law_of_covered_points, law_of_no_solutions, law_of_passing_cases};
pub use over::leaves_over;
pub use room::CaseRoom;
pub use zr_base::NoMemory;
pub use zr_cases::{RNode, Refutation};
pub use zr_tree::Fault;

#[cfg(test)]
mod tests;
