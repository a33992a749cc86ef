//! The points and rays that are named of a player whose cover is loose.
#![tactic(auto)]

mod items;
mod offer;
mod ray;
mod start;
mod stop;
#[cfg(test)]
mod tests;

pub use items::named_items;
pub use stop::NamingStop;
pub use zr_asked::{Asked, AskedLp, Move};
