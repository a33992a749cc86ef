//! Reads the text of a game: the game as it stands there, or the first fault and where it is.
#![tactic(auto)]

mod costs;
mod cross;
mod followers;
mod game;
mod headings;
mod laws;
mod others;
mod pairs;
mod players;
mod rows;

pub use game::{read_game, read_players};
pub use laws::law_of_texts;
pub use zr_value::{Aim, GameError, GameFault, GameFormat};

#[cfg(test)]
mod tests;
