//! Games as read: leaders with followers, whose answers are optimal.
#![tactic(auto)]

mod followers;
mod form;
mod laws;
mod names;
mod source;

pub use laws::{law_of_greatest, law_of_leaders_alone};
pub use names::is_name;
pub use source::{Follower, Leader, Source};

#[cfg(test)]
mod tests;
