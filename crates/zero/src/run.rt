ghost use Rattle.std.specs.Prelude.{◌≡◌, ◌≢◌, ◌≤◌, ◌⊎◌, ℕ, OnOk, IfErr, IsErrAnd};
ghost use Rattle.zr_source.specs.Sources.{SourceOf};
ghost use Rattle.zr_io.specs.Contents.{Bytes};
ghost use Rattle.zr_io.specs.Faults.{Rose};
ghost use Rattle.zr_io.specs.Written.{Appends, AppendsPrefix};
ghost use Rattle.zr_value.specs.declared.fault.GameFault.{GameFault};
ghost use Rattle.zero.specs.declared.refusal.CertFlaw.{CertFlaw};
ghost use Rattle.zero.specs.declared.text.Text.{Text as Kept};
ghost use Rattle.zero.specs.declared.text.Text.TheVariants.{Game, Cert};
ghost use Rattle.zr_words.specs.Words.{spelled};
ghost use Rattle.zr_words.specs.Commands.{IsFaulty};
ghost use Rattle.zr_report.specs.Spelling.{report_text};
ghost use Rattle.zr_report.specs.declared.end.End.{End as EndView};
ghost use Rattle.zero.specs.Commands.{IsGameName, Purpose};
ghost use Rattle.zero.specs.Answers.{HasBegun, IsAnswer, IsEnded, IsFaultyGame, IsRefusedCert};
ghost use Rattle.zero.specs.Messages.{end_line};
ghost use Rattle.zero.specs.Reads.{IsDue, IsLastTake, IsLong, Lacks};
ghost use Rattle.zero.specs.Refusals.{HasReported, HasTaken, IsCause, IsEndStatus, IsLine, IsReported, Keeps, end_status, status_of};
ghost use Rattle.zero.specs.Outcomes.{IsOutcome};
ghost use Rattle.zero.specs.Told.{IsCertStatus, IsGameStatus, IsStatus, IsToldCert, IsToldGame};

use crate::answer::answer_to;
use crate::refusal::Refusal;
use crate::text::Text;
use std::alloc::Global;
use zr_io::{Shelf, Sink, SinkError, put_all};
use zr_report::{End, write_report};

/// Does what the words ask for, and gives the status to end with.
///
/// The words are those of the command line without the program's name. Games and certificates are
/// taken from `shelf`, the answer is written to `out`, and the line that goes with a refusal to `err`; a fault
/// of `err` changes no status.
///
/// | status | comes where |
/// |---|---|
/// | 0 | the answer was written whole |
/// | 2 | the words are of no action |
/// | 3 | the shelf failed |
/// | 4 | the game text is longer than 8,388,608 bytes, or the certificate's than 67,108,864 |
/// | 5 | the game text has a fault, the first of which is named with its path |
/// | 6 | the certificate is refused, and its first line that is so is named |
/// | 7 | the budget was spent, and the report that says so was written whole, as under 8 to 10 |
/// | 8 | a linear program, a step of arithmetic or a certificate's check was too wide |
/// | 9 | a ray changes a whole variable, and the answer is open |
/// | 10 | the system or the certificate's text was too large |
/// | 11 | there was no memory |
/// | 12 | `out` failed |
pub fn zero_run<S: Shelf, O: Sink, E: Sink>(
    alloc: Global,
    words: &[String],
    shelf: &mut S,
    out: &mut O,
    err: &mut E,
) -> u8
    // What a printed answer means: the whole text of a true answer was written.
    ensures solved { result ≡ 0 → (text : Bytes)
        × IsAnswer (spelled words.now) (S.contents shelf.old) text
        × Appends (O.written out.old) text (O.written out.new) }

    // Why there is none, and which text was the last to be taken then.
    ensures usage { result ≡ 2 → IsFaulty (spelled words.now) }
    ensures faulty_words { IsFaulty (spelled words.now) → IsStatus 2 result }
    ensures unread { result ≡ 3 → ((text : Kept) × (name : Bytes)
        × IsDue (spelled words.now) (S.contents shelf.old) text name
        × IsLastTake text (S.takes_of shelf.old) (S.takes_of shelf.new))
        × Rose (S.faults_of shelf.old) (S.faults_of shelf.new) }
    ensures lacks { (name : Bytes) → IsGameName (spelled words.now) name
        → Lacks (S.contents shelf.old) name → IsStatus 3 result }
    ensures long { result ≡ 4 → (text : Kept) × (name : Bytes)
        × IsLong (spelled words.now) (S.contents shelf.old) text name
        × IsLastTake text (S.takes_of shelf.old) (S.takes_of shelf.new) }
    ensures faulty { result ≡ 5 → (fault : GameFault) × (path : Bytes)
        × IsFaultyGame (spelled words.now) (S.contents shelf.old) fault path
        × IsLastTake Game (S.takes_of shelf.old) (S.takes_of shelf.new) }
    ensures refused { result ≡ 6 → (number : ℕ) × (flaw : CertFlaw)
        × IsRefusedCert (spelled words.now) (S.contents shelf.old) number flaw
        × IsLastTake Cert (S.takes_of shelf.old) (S.takes_of shelf.new) }
    ensures ended { IsEndStatus result → (last : Kept) × (end : EndView)
        × (result ≡ end_status end)
        × IsEnded (spelled words.now) (S.contents shelf.old) last end
        × IsLastTake last (S.takes_of shelf.old) (S.takes_of shelf.new)
        × Appends (O.written out.old) (report_text end) (O.written out.new)
        × AppendsPrefix (E.written err.old) (end_line end) (E.written err.new) }
    ensures unwritten { result ≡ 12 → Rose (O.faults_of out.old) (O.faults_of out.new)
        × HasBegun (spelled words.now) (S.contents shelf.old)
        (O.written out.old) (O.written out.new) }

    // A game text that is told, within its limit, with no fault of the shelf or of `out`: its bytes
    // settle the status, but for want of memory.
    ensures told_game { (bytes : Bytes)
        → IsToldGame (spelled words.now) (S.contents shelf.old) bytes
        → (Rose (S.faults_of shelf.old) (S.faults_of shelf.new) → ⊥)
        → (Rose (O.faults_of out.old) (O.faults_of out.new) → ⊥)
        → IsGameStatus (spelled words.now) bytes result }

    // A check of texts that are told, within their limits, of which the game's stands for a game,
    // with no fault of the shelf or of `out`: it ends with 0 exactly where the certificate is right
    // and no step of its check is too wide, and else with 6, but for want of memory. Best answers to
    // a profile come so too, or to one of the ends 7 to 9, exactly where its strategies are right.
    ensures told { (purpose : Purpose) (source : SourceOf) (bytes : Bytes)
        → IsToldCert (spelled words.now) (S.contents shelf.old) purpose source bytes
        → (Rose (S.faults_of shelf.old) (S.faults_of shelf.new) → ⊥)
        → (Rose (O.faults_of out.old) (O.faults_of out.new) → ⊥)
        → IsCertStatus purpose source bytes result }

    // What was written where there is none: a report with 7 to 10, and no other status but 11 and 12
    // leaves a part of an answer or of a report.
    ensures begun { result ≢ 0 → (O.written out.new ≡ O.written out.old)
        ⊎ IsEndStatus result ⊎ (((result ≡ 11) ⊎ (result ≡ 12))
        × HasBegun (spelled words.now) (S.contents shelf.old)
        (O.written out.old) (O.written out.new)) }
    ensures quiet { result ≡ 0 → E.written err.new ≡ E.written err.old }
    ensures line { result ≢ 0 → (text : Bytes)
        × IsLine (spelled words.now) (S.contents shelf.old)
        (S.takes_of shelf.old) (S.takes_of shelf.new) result text
        × AppendsPrefix (E.written err.old) text (E.written err.new) }

    ensures contents { S.contents shelf.new ≡ S.contents shelf.old }
    ensures counts { (S.faults_of shelf.old ≤ S.faults_of shelf.new)
        × (O.faults_of out.old ≤ O.faults_of out.new)
        × (E.faults_of err.old ≤ E.faults_of err.new) }
{
    match answer(alloc, words, shelf, out) {
        Ok(()) => 0,
        Err(refusal) => {
            let _ = refusal.say(err);
            refusal.status()
        }
    }
}

/// Writes the answer to the words.
fn answer<'w, S: Shelf, O: Sink>(
    alloc: Global,
    words: &'w [String],
    shelf: &mut S,
    out: &mut O,
) -> Result<(), Refusal<'w>>
    ensures ok { OnOk result ((text : Bytes)
        × IsAnswer (spelled words.now) (S.contents shelf.old) text
        × Appends (O.written out.old) text (O.written out.new)) }
    ensures err { IfErr result (IsCause (spelled words.now) (S.contents shelf.old)) }

    ensures keeps { Keeps S.contents S.faults_of shelf.old shelf.new result }
    ensures lacks { (name : Bytes) → IsGameName (spelled words.now) name
        → Lacks (S.contents shelf.old) name
        → IsErrAnd result (λ refusal. IsStatus 3 (status_of refusal)) }
    ensures taken { IfErr result (HasTaken (S.takes_of shelf.old) (S.takes_of shelf.new)) }

    ensures unwritten { IfErr result (λ refusal. status_of refusal ≡ 12
        → Rose (O.faults_of out.old) (O.faults_of out.new)
        × HasBegun (spelled words.now) (S.contents shelf.old)
        (O.written out.old) (O.written out.new)) }
    ensures reported { IfErr result (HasReported (O.written out.old) (O.written out.new)) }
    ensures begun { IfErr result (λ refusal. (O.written out.new ≡ O.written out.old)
        ⊎ IsEndStatus (status_of refusal) ⊎ (((status_of refusal ≡ 11) ⊎ (status_of refusal ≡ 12))
        × HasBegun (spelled words.now) (S.contents shelf.old)
        (O.written out.old) (O.written out.new))) }
    ensures counts { O.faults_of out.old ≤ O.faults_of out.new }
{
    match answer_to(alloc, words, shelf) {
        Ok(text) => match put_all(out, text.as_slice()) {
            Ok(()) => Ok(()),
            Err(SinkError::Failed) => Err(Refusal::WriteFault),
            Err(SinkError::NoMemory) => Err(Refusal::NoMemory),
        },
        Err(refusal) => Err(reported(alloc, refusal, out)),
    }
}

/// Writes the report of a refusal that is an end, and gives the refusal that goes with it then.
fn reported<'w, O: Sink>(alloc: Global, refusal: Refusal<'w>, out: &mut O) -> Refusal<'w>
    ensures outcome { IsOutcome refusal.entry result (O.written out.old) (O.written out.new)
        (O.faults_of out.old) (O.faults_of out.new) }
    ensures counts { O.faults_of out.old ≤ O.faults_of out.new }
{
    match refusal {
        Refusal::Ended { last, end } => report(alloc, last, end, out),
        other => other,
    }
}

/// Writes the report of an end, and gives the refusal that goes with it then.
fn report<'w, O: Sink>(alloc: Global, last: Text, end: End, out: &mut O) -> Refusal<'w>
    ensures reported { IsReported last end (O.written out.old) (O.written out.new)
        (O.faults_of out.old) (O.faults_of out.new) result }
    ensures counts { O.faults_of out.old ≤ O.faults_of out.new }
{
    let Ok(text) = write_report(alloc, &end) else {
        return Refusal::NoMemory;
    };
    match put_all(out, text.as_slice()) {
        Ok(()) => Refusal::Ended { last, end },
        Err(SinkError::Failed) => Refusal::WriteFault,
        Err(SinkError::NoMemory) => Refusal::NoMemory,
    }
}
