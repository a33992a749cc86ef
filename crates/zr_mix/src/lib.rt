//! Mixed strategies: means, slopes, and the claims that a profile has to meet.
#![tactic(auto)]

mod claims;
mod laws;
mod mean;
mod mixture;
mod others;
mod place;
mod slopes;
mod values;

pub use claims::claim;
pub use laws::{law_of_claims, law_of_costs_by_means};
pub use mean::means;
pub use mixture::{Part, Profile, Strategy};
pub use others::rest;
pub use slopes::slope;
pub use values::value;

#[cfg(test)]
mod tests;
