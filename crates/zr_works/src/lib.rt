//! How much work there may be on a game whose players' whole variables all have both bounds, at the
//! most.
//!
//! The crate holds laws alone, and no code that runs.
#![tactic(auto)]

mod laws;

pub use laws::{
    law_of_all_trees, law_of_all_work, law_of_best_work, law_of_bounded_cases,
    law_of_worked_pennies,
};
