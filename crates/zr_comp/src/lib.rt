//! The search over choices: a solution of the system of an equilibrium, or a refutation.
#![tactic(auto)]

mod answer;
mod case;
mod first;
mod guess;
mod index;
mod laws;
mod meeting;
mod path;
mod searching;
mod unmet;
mod unmet_leaf;
mod visit;

pub use answer::{CompStop, Found};
pub use laws::{law_of_few_cases, law_of_few_slots};
pub use searching::search;
pub use zr_asked::{Asked, AskedLp};
pub use zr_cases::{RNode, Refutation};
