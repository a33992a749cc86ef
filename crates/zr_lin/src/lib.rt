//! Combinations of weak and strict linear inequalities, and the law of the alternative.
#![tactic(auto)]

mod combination;
mod laws;
mod stuck;
mod system;

pub use combination::{combine, refutes};
pub use laws::{law_of_alternative, law_of_combination, law_of_scaling};
pub use stuck::{Step, Stuck};
pub use system::{Combined, Ineq, System};
