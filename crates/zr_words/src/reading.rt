ghost use Rattle.std.specs.Prelude.{◌≡◌, ◌⊎◌, List, IfOk, IfErr, MatchResult, Err};
ghost use Rattle.clap.specs.Words.{app_of, found_of, kind_of, rows_of};
ghost use Rattle.clap.specs.declared.builder.value_parser.ValueParser.{ValueParser as ParserView};
ghost use Rattle.zr_words.specs.Words.{Said, spelled};
ghost use Rattle.zr_words.specs.Commands.{Asks, IsFaulty, IsMisspelt};
ghost use Rattle.zr_words.specs.Arguments.{TakesKinds, zero_app};
ghost use Rattle.zr_words.specs.Matches.{AreRead, IsRefusal};

use crate::arguments::zero_command;
use crate::command::Command;
use crate::matches::{command_of, options_of};
use clap::error::ErrorKind;
use clap::{ArgMatches, Error};
use std::alloc::Global;

/// Why the words ask for nothing.
#[derive(Debug, Drop)]
pub enum Refused {
    /// The words haven't the form of a command line, or call for help. The text is `clap`'s own.
    Form { text: String },
    /// The texts are of no action, or of one that takes more or fewer.
    Action,
    /// There was no memory.
    NoMemory,
}

/// What the words of the command line ask for. They are without the program's name.
///
/// # Errors
///
/// `Form` exactly where the words haven't the form of a command line: two or three texts, and the
/// options, each at most once and within its range. `Action` where they have it, but their texts are
/// none of `solve GAME`, `check GAME CERT`, `best GAME CERT` and `migrate GAME`.
pub fn read_words<'a>(alloc: Global, words: &'a [String]) -> Result<Command<'a>, Refused>
    ensures ok { IfOk result (Asks (spelled words.now)) }
    ensures err { IfErr result (IsRefusal (spelled words.now)) }
{
    let Ok(command) = zero_command(alloc) else {
        return Err(Refused::NoMemory);
    };
    match parse(command, words) {
        Ok(matches) => match command_of(&matches, options_of(&matches)) {
            Some(asked) => Ok(asked),
            None => Err(Refused::Action),
        },
        Err(error) => Err(refusal_of(alloc, &error)),
    }
}

/// The matches of the words.
fn parse<'a>(command: clap::Command<'a>, words: &'a [String]) -> Result<ArgMatches<'a>, Error>
    requires { (kinds : ParserView) × TakesKinds kinds × (app_of command ≡ zero_app kinds) }
    ensures { MatchResult result (λ matches. AreRead (spelled words.now) (rows_of (found_of matches)))
        (λ error. (kind_of error ≡ ErrorKind.OutOfMemory) ⊎ IsMisspelt (spelled words.now)) }
{
    command.try_get_matches_from(words)
}

/// The refusal of words at which `clap` finds this error.
fn refusal_of(alloc: Global, error: &Error) -> Refused
    ensures { (words : _) → (kind_of error.now ≡ ErrorKind.OutOfMemory) ⊎ IsMisspelt words
        → IsRefusal words result }
{
    if error.kind() == ErrorKind::OutOfMemory {
        return Refused::NoMemory;
    }
    match format!(in alloc; "{error}") {
        Ok(text) => Refused::Form { text },
        Err(_) => Refused::NoMemory,
    }
}
