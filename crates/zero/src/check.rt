ghost use Rattle.std.specs.Prelude.{◌≡◌, ◌≢◌, ◌≤◌, IfOk, IfErr, IsErrAnd, length};
ghost use Rattle.zr_game.specs.Games.{game_of};
ghost use Rattle.zr_follow.specs.Expansion.{expansion};
ghost use Rattle.zr_read.specs.Texts.{source_of};
ghost use Rattle.zr_io.specs.Contents.{Contents};
ghost use Rattle.zr_cert.specs.Certs.{verdict_of};
ghost use Rattle.zr_cert.specs.Listed.{cert_of};
ghost use Rattle.zr_text.specs.Faults.{IsText};
ghost use Rattle.zr_words.specs.Words.{Words};
ghost use Rattle.zero.specs.Commands.{IsCheck, for_check};
ghost use Rattle.zero.specs.declared.text.Text.TheVariants as kept;
ghost use Rattle.zero.specs.Answers.{IsAccepted, IsAnswer, IsAskedCert, accepted_text, kind_name, verdict_name};
ghost use Rattle.zero.specs.Reads.{Lacks, cert_limit};
ghost use Rattle.zero.specs.Refusals.{ComesOf, HasTaken, IsCause, Keeps, status_of};

use crate::reading::{Reading, both_texts, cert_in};
use crate::refusal::{CertFlaw, Refusal};
use std::alloc::Global;
use zr_check::{Cert, CertFault, Verdict, check_cert, scratch_for};
use zr_game::Kind;
use zr_io::Shelf;

/// The text that says that the certificate is accepted for the game, each under its name.
pub fn check<'w, S: Shelf>(
    alloc: Global,
    game_name: &'w str,
    cert_name: &'w str,
    shelf: &mut S,
) -> Result<Vec<u8>, Refusal<'w>>
    ensures ok { (words : Words) → IsCheck words game_name.now cert_name.now
        → IfOk result (λ text. IsAnswer words (S.contents shelf.old) text.items) }
    ensures err { (words : Words) → IsCheck words game_name.now cert_name.now
        → IfErr result (IsCause words (S.contents shelf.old)) }

    ensures keeps { Keeps S.contents S.faults_of shelf.old shelf.new result }
    ensures lacks { Lacks (S.contents shelf.old) game_name.now
        → IsErrAnd result (λ refusal. status_of refusal ≡ 3) }
    ensures taken { IfErr result (HasTaken (S.takes_of shelf.old) (S.takes_of shelf.new)) }
    ensures unwritten { IfErr result (λ refusal. status_of refusal ≢ 12) }
{
    let texts = both_texts(alloc, game_name, cert_name, shelf)?;
    accept(alloc, &texts.reading, texts.cert.as_slice())
}

/// The text that says that the bytes are the text of a certificate that is accepted for the game.
fn accept<'w>(alloc: Global, reading: &Reading, bytes: &[u8]) -> Result<Vec<u8>, Refusal<'w>>
    requires game { game_of reading.now.game ≡ expansion (source_of reading.now.source) }
    requires len { length bytes.now ≤ cert_limit }
    ensures ok { IfOk result (λ text.
        IsAccepted (source_of reading.now.source) bytes.now text.items) }
    ensures err { (words : Words) (contents : Contents)
        → IsAskedCert words contents for_check (source_of reading.now.source) bytes.now
        → IfErr result (IsCause words contents) }
    ensures comes { IfErr result (ComesOf kept.Cert) }
{
    let cert = cert_in(alloc, bytes)?;
    let game = &reading.game;
    let Ok(mut room) = scratch_for(alloc, game, &cert) else {
        return Err(Refusal::NoMemory);
    };
    match check_cert(game, &cert, &mut room) {
        Ok(()) => accepted(alloc, &cert),
        Err(CertFault::Bad(line)) => Err(CertFlaw::Wrong.at(line)),
        Err(CertFault::Wide(line)) => Err(CertFlaw::Wide.at(line)),
    }
}

/// The line for an accepted certificate.
fn accepted<'w>(alloc: Global, cert: &Cert) -> Result<Vec<u8>, Refusal<'w>>
    ensures ok { IfOk result (λ text. text.items ≡ accepted_text (cert_of cert.now)) }
    ensures err { IfErr result (λ refusal. refusal ≡ Refusal.NoMemory) }
{
    let kind = name_of_kind(cert.kind);
    let verdict = name_of_verdict(&cert.verdict);
    match format!(in alloc; "accepted {kind} {verdict}\n") {
        Ok(text) => Ok(text.into_bytes()),
        Err(_) => Err(Refusal::NoMemory),
    }
}

fn name_of_kind(kind: Kind) -> &'static str
    ensures { result.now ≡ kind_name kind }
{
    match kind {
        Kind::Pure => "pure",
        Kind::Mixed => "mixed",
    }
}

fn name_of_verdict(verdict: &Verdict) -> &'static str
    ensures { result.now ≡ verdict_name (verdict_of verdict.now) }
{
    match verdict {
        Verdict::Profile { .. } => "profile",
        Verdict::NoneCover { .. } | Verdict::NoneEmpty { .. } | Verdict::NoneBoxes { .. } => "none",
    }
}
