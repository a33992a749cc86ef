//! Exact covers of a player's points: each end is a settled leaf with a point, or has no point.
#![tactic(auto)]

mod cover;
mod ends;
mod split;
mod stop;
#[cfg(test)]
mod tests;
mod visit;

pub use cover::exact_cover;
pub use stop::CoverStop;
pub use zr_asked::{Asked, AskedLp, Move};
