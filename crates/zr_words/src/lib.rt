//! The words of the command line, read with `clap`.
#![tactic(auto)]

mod arguments;
mod command;
mod laws;
mod matches;
mod reading;

pub use command::{Command, Options};
pub use laws::{law_of_words, words_that_clap_takes};
pub use reading::{Refused, read_words};

#[cfg(test)]
mod tests;
