ghost use Rattle.std.specs.Prelude.{◌≡◌, ◌≢◌, IfOk, IfErr, IsErrAnd};
ghost use Rattle.zr_io.specs.Contents.{Bytes, Contents};
ghost use Rattle.zr_words.specs.Words.{Words};
ghost use Rattle.zero.specs.Commands.{IsMigrate};
ghost use Rattle.zero.specs.Answers.{IsAnswer, IsSameGame};
ghost use Rattle.zero.specs.Reads.{IsRead, Lacks, game_limit};
ghost use Rattle.zero.specs.Refusals.{ComesOf, HasTaken, IsCause, Keeps, status_of};

use crate::reading::{content_of, reading_in};
use crate::refusal::Refusal;
use crate::text::Text;
use std::alloc::Global;
use zr_io::Shelf;
use zr_write::migrate_game;

/// The canonical text, in today's form, of the game under this name.
pub fn migrate<'w, S: Shelf>(
    alloc: Global,
    name: &'w str,
    shelf: &mut S,
) -> Result<Vec<u8>, Refusal<'w>>
    ensures ok { (words : Words) → IsMigrate words name.now
        → IfOk result (λ text. IsAnswer words (S.contents shelf.old) text.items) }
    ensures err { (words : Words) → IsMigrate words name.now
        → IfErr result (IsCause words (S.contents shelf.old)) }

    ensures keeps { Keeps S.contents S.faults_of shelf.old shelf.new result }
    ensures lacks { Lacks (S.contents shelf.old) name.now
        → IsErrAnd result (λ refusal. status_of refusal ≡ 3) }
    ensures taken { IfErr result (HasTaken (S.takes_of shelf.old) (S.takes_of shelf.new)) }
    ensures unwritten { IfErr result (λ refusal. status_of refusal ≢ 12) }
{
    let bytes = content_of(shelf, name, Text::Game)?;
    migrated(alloc, bytes.as_slice())
}

/// The canonical text of the game for which the bytes stand.
fn migrated<'w>(alloc: Global, bytes: &[u8]) -> Result<Vec<u8>, Refusal<'w>>
    ensures ok { IfOk result (λ text. IsSameGame bytes.now text.items) }
    ensures err { (words : Words) (contents : Contents) (name : Bytes) → IsMigrate words name
        → IsRead contents game_limit name bytes.now → IfErr result (IsCause words contents) }
    ensures comes { IfErr result (ComesOf Text.Game) }
{
    let reading = reading_in(alloc, bytes)?;
    match migrate_game(alloc, &reading.source) {
        Ok(text) => Ok(text),
        Err(_) => Err(Refusal::NoMemory),
    }
}
