//! The decision of a game: a certificate, or the cause of the stop.
#![tactic(auto)]

mod boxes;
mod certificate;
mod covers;
mod decision;
mod names;
mod solution;
mod stop;
mod system;
#[cfg(test)]
mod tests;

pub use decision::decide;
pub use stop::DecideStop;
pub use zr_asked::{Asked, AskedLp};
pub use zr_cert::{Cert, Verdict};
