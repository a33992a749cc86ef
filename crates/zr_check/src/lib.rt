//! The check of a certificate: whether its verdict is shown.
#![tactic(auto)]

mod boxes;
mod check;
mod costs;
mod cover_room;
mod covers;
mod laws;
mod room;
mod strategies;

pub use check::{check_cert, check_profile};
pub use laws::{law_of_checks, law_of_right_certs};
pub use room::{Room, scratch_for};
pub use zr_base::NoMemory;
pub use zr_cert::{Bound, Cert, CertFault, Verdict};

#[cfg(test)]
mod tests;
