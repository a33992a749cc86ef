ghost use Rattle.std.specs.Prelude.{◌≡◌, ◌≢◌, IfOk, IfErr, IsErrAnd};
ghost use Rattle.zr_io.specs.Contents.{Bytes};
ghost use Rattle.zr_words.specs.Words.{Words, spelled};
ghost use Rattle.zr_words.specs.Commands.{Asks};
ghost use Rattle.zr_words.specs.Matches.{IsRefusal};
ghost use Rattle.zr_words.specs.declared.command.Command.{Command as CommandView};
ghost use Rattle.zero.specs.Commands.{IsGameName};
ghost use Rattle.zero.specs.Answers.{IsAnswer};
ghost use Rattle.zero.specs.Reads.{Lacks};
ghost use Rattle.zero.specs.Refusals.{ComesOfWords, HasTaken, IsCause, Keeps, refusal_for, status_of};
ghost use Rattle.zero.specs.Told.{IsStatus};

use crate::best::best;
use crate::check::check;
use crate::migrate::migrate;
use crate::refusal::Refusal;
use crate::solve::solve;
use std::alloc::Global;
use zr_io::Shelf;
use zr_words::{Command, Refused, read_words};

/// The text that answers the words.
pub fn answer_to<'w, S: Shelf>(
    alloc: Global,
    words: &'w [String],
    shelf: &mut S,
) -> Result<Vec<u8>, Refusal<'w>>
    ensures ok { IfOk result (λ text. IsAnswer (spelled words.now) (S.contents shelf.old)
        text.items) }
    ensures err { IfErr result (IsCause (spelled words.now) (S.contents shelf.old)) }

    ensures keeps { Keeps S.contents S.faults_of shelf.old shelf.new result }
    ensures lacks { (name : Bytes) → IsGameName (spelled words.now) name
        → Lacks (S.contents shelf.old) name
        → IsErrAnd result (λ refusal. IsStatus 3 (status_of refusal)) }
    ensures taken { IfErr result (HasTaken (S.takes_of shelf.old) (S.takes_of shelf.new)) }
    ensures unwritten { IfErr result (λ refusal. status_of refusal ≢ 12) }
{
    match command_of(alloc, words)? {
        Command::Solve { game, options } => {
            solve(alloc, game, options.kind, options.budget, shelf)
        }
        Command::Check { game, cert } => check(alloc, game, cert, shelf),
        Command::Best {
            game,
            cert,
            options,
        } => best(alloc, game, cert, options.budget, shelf),
        Command::Migrate { game } => migrate(alloc, game, shelf),
    }
}

/// The command of the words.
fn command_of<'w>(alloc: Global, words: &'w [String]) -> Result<Command<'w>, Refusal<'w>>
    ensures ok { IfOk result (Asks (spelled words.now)) }
    ensures err { IfErr result (ComesOfWords (spelled words.now)) }
{
    match read_words(alloc, words) {
        Ok(command) => Ok(command),
        Err(refused) => Err(refusal_of(refused)),
    }
}

/// The refusal of words that ask for nothing. It holds the text of `clap` that goes with them.
fn refusal_of<'w>(refused: Refused) -> Refusal<'w>
    ensures same { result ≡ refusal_for refused }
    ensures cause { (words : Words) → IsRefusal words refused → ComesOfWords words result }
{
    match refused {
        Refused::Form { text } => Refusal::Usage { help: Some(text) },
        Refused::Action => Refusal::Usage { help: None },
        Refused::NoMemory => Refusal::NoMemory,
    }
}
