//! The answer to a game: the text of a certificate that passes its check, or the reason why there
//! is none.
#![tactic(auto)]

mod laws;
mod stop;
#[cfg(test)]
mod tests;
mod verdict;

pub use laws::law_of_wide_certificates;
pub use stop::DriveStop;
pub use verdict::drive;
