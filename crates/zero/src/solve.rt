ghost use Rattle.std.specs.Prelude.{◌≡◌, ◌≢◌, ◌≤◌, IfOk, IfErr, IsErrAnd};
ghost use Rattle.zr_game.specs.Games.{game_of};
ghost use Rattle.zr_follow.specs.Expansion.{expansion};
ghost use Rattle.zr_read.specs.Texts.{source_of};
ghost use Rattle.zr_io.specs.Contents.{Bytes, Contents};
ghost use Rattle.zr_drive.specs.Ends.{IsDriveCause};
ghost use Rattle.zr_words.specs.Words.{Words};
ghost use Rattle.zero.specs.Commands.{IsSolve};
ghost use Rattle.zero.specs.Answers.{IsAnswer, IsDecided};
ghost use Rattle.zero.specs.Reads.{IsRead, Lacks, game_limit};
ghost use Rattle.zero.specs.Refusals.{ComesOf, ComesOfWork, HasTaken, IsCause, Keeps, status_of};

use crate::reading::{Reading, content_of, reading_in};
use crate::refusal::Refusal;
use crate::text::Text;
use std::alloc::Global;
use zr_drive::{DriveStop, drive};
use zr_game::Kind;
use zr_io::Shelf;

/// The text of a certificate of the kind that is right for the game under this name. The budget is
/// the limit of each purse.
pub fn solve<'w, S: Shelf>(
    alloc: Global,
    name: &'w str,
    kind: Kind,
    budget: u32,
    shelf: &mut S,
) -> Result<Vec<u8>, Refusal<'w>>
    requires { budget ≤ 1000000000 }
    ensures ok { (words : Words) → IsSolve words kind budget name.now
        → IfOk result (λ text. IsAnswer words (S.contents shelf.old) text.items) }
    ensures err { (words : Words) → IsSolve words kind budget name.now
        → IfErr result (IsCause words (S.contents shelf.old)) }

    ensures keeps { Keeps S.contents S.faults_of shelf.old shelf.new result }
    ensures lacks { Lacks (S.contents shelf.old) name.now
        → IsErrAnd result (λ refusal. status_of refusal ≡ 3) }
    ensures taken { IfErr result (HasTaken (S.takes_of shelf.old) (S.takes_of shelf.new)) }
    ensures unwritten { IfErr result (λ refusal. status_of refusal ≢ 12) }
{
    let bytes = content_of(shelf, name, Text::Game)?;
    let reading = reading_in(alloc, bytes.as_slice())?;
    decide(alloc, &reading, kind, budget)
}

/// The text that decides the game.
fn decide<'w>(
    alloc: Global,
    reading: &Reading,
    kind: Kind,
    budget: u32,
) -> Result<Vec<u8>, Refusal<'w>>
    requires game { game_of reading.now.game ≡ expansion (source_of reading.now.source) }
    requires budget { budget ≤ 1000000000 }
    ensures ok { IfOk result (λ text. IsDecided (source_of reading.now.source) kind text.items) }
    ensures err { IfErr result (ComesOfWork (expansion (source_of reading.now.source)) kind budget) }
    ensures comes { IfErr result (ComesOf Text.Game) }
{
    match drive(alloc, &reading.game, kind, u64::from(budget)) {
        Ok(text) => Ok(text),
        Err(DriveStop::Ended(end)) => Err(Refusal::Ended {
            last: Text::Game,
            end,
        }),
        Err(DriveStop::NoMemory) => Err(Refusal::NoMemory),
    }
}
