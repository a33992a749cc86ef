//! Followers: their optimality replaced by complementarity conditions.
#![tactic(auto)]

mod conditions;
mod copies;
mod counts;
mod expansion;
mod laws;

pub use expansion::{FollowError, expand};
pub use laws::{
    law_of_expanded_costs, law_of_expanded_equilibria, law_of_expansion, law_of_multipliers,
};

#[cfg(test)]
mod tests;
