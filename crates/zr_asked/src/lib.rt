//! Linear programs that are asked of a game, and when such a question is stuck.
#![tactic(auto)]

mod laws;
mod question;

pub use laws::{law_of_branch_points, law_of_branch_values};
pub use question::{Asked, AskedLp, Move};
pub use zr_lin::{Step, Stuck};
