//! How much work there may be in a search over one player's points, at the most.
//!
//! The crate holds laws alone, and no code that runs.
#![tactic(auto)]

mod laws;

pub use laws::{law_of_few_units, law_of_worked_choices};
