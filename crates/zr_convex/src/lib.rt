//! What the system says of equilibria: each equilibrium gives a solution under a complete list of
//! choices, so that a refutation of the system shows that there is none; over leaves that all count
//! as exact, such a solution draws an equilibrium.
//!
//! The crate holds laws alone, and no code that runs.
#![tactic(auto)]

mod laws;

pub use laws::{law_of_drawn_profiles, law_of_none, law_of_solutions, law_of_unions};
