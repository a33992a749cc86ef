//! Weights that may be those of an equilibrium, by small supports, where the leaves of all players
//! are single points.
//!
//! Nothing is promised of the weights: they are to be tried.
#![tactic(auto)]

mod finding;
mod finite;
mod program;
mod rows;
mod sizes;
mod supports;

pub use finding::{WeightedPoint, likely_weights};
