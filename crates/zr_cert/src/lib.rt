//! Certificates: what is claimed of a game, and what shows it.
//!
//! A certificate claims that a profile is an equilibrium, with a bound for each player, or that
//! there is none: a refutation over covers of the players' points shows it, a player without a
//! feasible point, or a tree of boxes. It is the content of a text: `Cert::new` keeps out what has
//! none.
#![tactic(auto)]

mod cert;
mod cover;
mod fault;
mod form;

pub use cert::{Bound, Cert, Verdict};
pub use cover::count_leaves;
pub use fault::CertFault;

#[cfg(test)]
mod tests;
