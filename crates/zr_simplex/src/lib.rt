//! Linear programs by the exact simplex method.
#![tactic(auto)]

mod append;
mod basic;
mod binary;
mod choose;
mod columns;
mod listed;
mod pivot;
mod program;
mod resume;
mod row;
mod solution;
mod solve;
mod start;
mod tableau;
#[cfg(test)]
mod tests;

pub use program::{Lp, LpAnswer, Stop};
pub use resume::OpenLp;
pub use solve::solve_lp;
pub use zr_lin::{Step, Stuck};
