//! Bases of linear programs: what their columns determine, and the lexicographic rules by which a
//! simplex method visits no basis twice.
#![tactic(auto)]

mod laws;

pub use laws::{law_of_bases, law_of_choices, law_of_dual_rule, law_of_primal_rule, law_of_runs};
