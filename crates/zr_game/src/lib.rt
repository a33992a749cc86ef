//! Games: players, their points and costs, and what an equilibrium is.
#![tactic(auto)]

mod choice;
mod costs;
mod form;
mod game;
mod kind;
mod laws;
mod leaf;
mod named;
mod player;
mod ray;
mod substitution;

pub use choice::Choice;
pub use costs::cost;
pub use form::{are_rows, are_terms, is_coefficient, is_player};
pub use game::Game;
pub use kind::Kind;
pub use laws::{
    law_of_deviations, law_of_equilibria, law_of_means, law_of_pennies, law_of_pure_costs,
    law_of_pure_equilibria, law_of_rays, law_of_relaxed_rays, law_of_root_leaf, law_of_same_costs,
    law_of_same_points,
};
pub use leaf::{Leaf, Side};
pub use named::Named;
pub use player::{CrossTerm, Other, Pair, Player, Var};
pub use ray::is_ray;
pub use substitution::feasible;
pub use zr_base::NoMemory;

#[cfg(test)]
mod tests;
