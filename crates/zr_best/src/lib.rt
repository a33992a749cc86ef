//! The least cost of each player against the others' strategies, with proofs.
#![tactic(auto)]

mod aim;
mod answer;
mod means;
mod players;
mod stop;

pub use players::best;
pub use stop::BestStop;
pub use zr_report::Answer;
