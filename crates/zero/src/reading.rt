ghost use Rattle.std.specs.Prelude.{◌≡◌, ◌≢◌, ◌≤◌, ◌⊎◌, ℕ, IfOk, IfErr, OnOk, IsErrAnd, String as AString, length, string_bytes};
ghost use Rattle.std.specs.declared.alloc.Global.{Global as AGlobal};
ghost use Rattle.zr_game.specs.Games.{game_of};
ghost use Rattle.zr_io.specs.Contents.{Bytes, Contents};
ghost use Rattle.zr_io.specs.Faults.{next_count};
ghost use Rattle.zr_follow.specs.Expansion.{IsFirstPast, expansion};
ghost use Rattle.zr_read.specs.Texts.{StandsFor, source_of};
ghost use Rattle.zr_value.specs.declared.fault.GameFault.TheVariants.{Count};
ghost use Rattle.zr_words.specs.Words.{Words};
ghost use Rattle.zr_source.specs.Sources.{SourceOf};
ghost use Rattle.zr_cert.specs.Listed.{cert_of};
ghost use Rattle.zr_text.specs.Faults.{IsText};
ghost use Rattle.zero.specs.Answers.{IsAskedCert};
ghost use Rattle.zero.specs.Commands.{IsGameName, IsPurpose, Purpose};
ghost use Rattle.zero.specs.Games.{IsExpandable, IsReading, followers_path};
ghost use Rattle.zero.specs.Reads.{IsDue, IsLastTake, IsRead, Lacks, cert_limit, game_limit, limit_of};
ghost use Rattle.zero.specs.Refusals.{ComesOf, HasTaken, IsCause, Keeps, status_of};

use crate::refusal::{CertFlaw, Refusal};
use crate::text::Text;
use std::alloc::Global;
use zr_cert::Cert;
use zr_follow::{FollowError, expand};
use zr_game::Game;
use zr_io::{Shelf, ShelfError};
use zr_read::{GameError, GameFault, read_game};
use zr_source::Source;
use zr_text::{TextError, read_cert};

/// A game as it was read, and the same with its followers' conditions.
#[derive(Drop)]
pub struct Reading {
    pub source: Source,
    pub game: Game,
}

/// A game as it was read, and the bytes of a certificate's text.
#[derive(Drop)]
pub struct Texts {
    pub reading: Reading,
    pub cert: Vec<u8>,
}

/// The game under one name, and the bytes of the certificate's text under another.
pub fn both_texts<'w, S: Shelf>(
    alloc: Global,
    game_name: &'w str,
    cert_name: &'w str,
    shelf: &mut S,
) -> Result<Texts, Refusal<'w>>
    ensures game { IfOk result (λ texts. game_of texts.reading.game
        ≡ expansion (source_of texts.reading.source)) }
    ensures within { IfOk result (λ texts. length texts.cert.items ≤ cert_limit) }
    ensures asked { (words : Words) (purpose : Purpose)
        → IsPurpose words purpose game_name.now cert_name.now
        → IfOk result (λ texts. IsAskedCert words (S.contents shelf.old) purpose
        (source_of texts.reading.source) texts.cert.items) }
    ensures err { (words : Words) (purpose : Purpose)
        → IsPurpose words purpose game_name.now cert_name.now
        → IfErr result (IsCause words (S.contents shelf.old)) }

    ensures keeps { Keeps S.contents S.faults_of shelf.old shelf.new result }
    ensures lacks { Lacks (S.contents shelf.old) game_name.now
        → IsErrAnd result (λ refusal. status_of refusal ≡ 3) }
    ensures last { OnOk result (IsLastTake Text.Cert (S.takes_of shelf.old) (S.takes_of shelf.new)) }
    ensures taken { IfErr result (HasTaken (S.takes_of shelf.old) (S.takes_of shelf.new)) }
    ensures unwritten { IfErr result (λ refusal. status_of refusal ≢ 12) }
{
    let game_text = content_of(shelf, game_name, Text::Game)?;
    let reading = reading_in(alloc, game_text.as_slice())?;
    let cert = content_of(shelf, cert_name, Text::Cert)?;
    Ok(Texts { reading, cert })
}

/// The content of this name, which is taken once.
pub fn content_of<'w, S: Shelf>(
    shelf: &mut S,
    name: &'w str,
    text: Text,
) -> Result<Vec<u8>, Refusal<'w>>
    ensures ok { IfOk result (λ v. IsRead (S.contents shelf.old) (limit_of text) name.now v.items) }
    ensures err { (words : Words) → IsDue words (S.contents shelf.old) text name.now
        → IfErr result (IsCause words (S.contents shelf.old)) }

    ensures keeps { Keeps S.contents S.faults_of shelf.old shelf.new result }
    ensures lacks { Lacks (S.contents shelf.old) name.now
        → IsErrAnd result (λ refusal. status_of refusal ≡ 3) }
    ensures counts { S.takes_of shelf.new ≡ next_count (S.takes_of shelf.old) }
    ensures taken { (before : ℕ) → IsLastTake text before (S.takes_of shelf.new)
        → IfErr result (HasTaken before (S.takes_of shelf.new)) }
    ensures unwritten { IfErr result (λ refusal. status_of refusal ≢ 12) }
{
    match shelf.take(name, text.limit()) {
        Ok(bytes) => Ok(bytes),
        Err(ShelfError::Failed) => Err(Refusal::CannotRead { text, name }),
        Err(ShelfError::TooLong) => Err(Refusal::TooLong { text, name }),
        Err(ShelfError::NoMemory) => Err(Refusal::NoMemory),
    }
}

/// The game that the bytes stand for, and the same with its followers' conditions.
pub fn reading_in<'w>(alloc: Global, bytes: &[u8]) -> Result<Reading, Refusal<'w>>
    ensures ok { IfOk result (IsReading bytes.now) }
    ensures err { (words : Words) (contents : Contents) (name : Bytes) → IsGameName words name
        → IsRead contents game_limit name bytes.now → IfErr result (IsCause words contents) }
    ensures comes { IfErr result (ComesOf Text.Game) }
{
    let source = source_in(alloc, bytes)?;
    let game = expanded(alloc, &source)?;
    Ok(Reading { source, game })
}

/// The game that the bytes stand for.
fn source_in<'w>(alloc: Global, bytes: &[u8]) -> Result<Source, Refusal<'w>>
    ensures ok { IfOk result (λ source. StandsFor bytes.now (source_of source)) }
    ensures err { (words : Words) (contents : Contents) (name : Bytes) → IsGameName words name
        → IsRead contents game_limit name bytes.now → IfErr result (IsCause words contents) }
    ensures comes { IfErr result (ComesOf Text.Game) }
{
    match read_game(alloc, bytes) {
        Ok(source) => Ok(source),
        Err(GameError::At { fault, path }) => Err(Refusal::Faulty { fault, path }),
        Err(GameError::NoMemory) => Err(Refusal::NoMemory),
    }
}

/// The game with its followers' conditions.
fn expanded<'w>(alloc: Global, source: &Source) -> Result<Game, Refusal<'w>>
    ensures game { IfOk result (λ game. game_of game ≡ expansion (source_of source.now)) }
    ensures fits { IfOk result (λ game. IsExpandable (source_of source.now)) }
    ensures err { (words : Words) (contents : Contents) (name bytes : Bytes)
        → IsGameName words name → IsRead contents game_limit name bytes
        → StandsFor bytes (source_of source.now) → IfErr result (IsCause words contents) }
    ensures comes { IfErr result (ComesOf Text.Game) }
{
    match expand(alloc, source) {
        Ok(game) => Ok(game),
        Err(FollowError::Count(i)) => Err(too_many(alloc, i)),
        Err(FollowError::NoMemory) => Err(Refusal::NoMemory),
    }
}

/// The refusal of a game whose leader `i` has too many variables or pairs with its followers'
/// conditions.
fn too_many<'w>(alloc: Global, i: u32) -> Refusal<'w>
    ensures { (result ≡ Refusal.NoMemory) ⊎ ((path : AString AGlobal)
        × (result ≡ Refusal.Faulty Count path) × (string_bytes path ≡ followers_path i)) }
{
    match format!(in alloc; "/players/{i}/followers") {
        Ok(path) => Refusal::Faulty {
            fault: GameFault::Count,
            path,
        },
        Err(_) => Refusal::NoMemory,
    }
}

/// The certificate whose text the bytes are.
pub fn cert_in<'w>(alloc: Global, bytes: &[u8]) -> Result<Cert, Refusal<'w>>
    requires { length bytes.now ≤ cert_limit }
    ensures ok { IfOk result (λ cert. IsText (cert_of cert) bytes.now) }
    ensures err { (words : Words) (contents : Contents) (purpose : Purpose) (source : SourceOf)
        → IsAskedCert words contents purpose source bytes.now
        → IfErr result (IsCause words contents) }
    ensures comes { IfErr result (ComesOf Text.Cert) }
{
    match read_cert(alloc, bytes) {
        Ok(cert) => Ok(cert),
        Err(TextError::NotCert(line)) => Err(CertFlaw::Form.at(line)),
        Err(TextError::NumberTooBig(line)) => Err(CertFlaw::Number.at(line)),
        Err(TextError::NoMemory) => Err(Refusal::NoMemory),
    }
}
