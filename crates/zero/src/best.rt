ghost use Rattle.std.specs.Prelude.{◌≡◌, ◌≢◌, ◌≤◌, ℕ, List, IfOk, IfErr, IsErrAnd, length};
ghost use Rattle.zr_game.specs.Games.{game_of};
ghost use Rattle.zr_game.specs.Forms.{IsGame};
ghost use Rattle.zr_game.specs.Players.{GameOf};
ghost use Rattle.zr_follow.specs.Expansion.{expansion};
ghost use Rattle.zr_read.specs.Texts.{source_of};
ghost use Rattle.zr_io.specs.Contents.{Contents};
ghost use Rattle.zr_io.specs.Purses.{StartsAt};
ghost use Rattle.zr_io.specs.declared.purse.Purse.{Purse as PurseView};
ghost use Rattle.zr_cert.specs.Certs.{MixtureOf};
ghost use Rattle.zr_cert.specs.Listed.{cert_of};
ghost use Rattle.zr_text.specs.Faults.{IsText};
ghost use Rattle.zr_check.specs.Right.{IsRightHead};
ghost use Rattle.zr_check.specs.WideSteps.{HeadIsWide};
ghost use Rattle.zr_best.specs.Causes.{IsBestCause};
ghost use Rattle.zr_report.specs.Spelling.{best_text};
ghost use Rattle.zr_words.specs.Words.{Words};
ghost use Rattle.zero.specs.declared.text.Text.TheVariants as kept;
ghost use Rattle.zero.specs.Answers.{IsAnswer, IsAskedCert};
ghost use Rattle.zero.specs.BestTexts.{IsBestReply, IsBestText};
ghost use Rattle.zero.specs.Commands.{IsBest, for_best};
ghost use Rattle.zero.specs.Reads.{Lacks, cert_limit};
ghost use Rattle.zero.specs.Refusals.{ComesOf, ComesOfSearch, HasTaken, IsCause, IsStopped, Keeps, status_of};

use crate::reading::{Reading, both_texts, cert_in};
use crate::refusal::{CertFlaw, Refusal};
use crate::text::Text;
use std::alloc::Global;
use zr_best::BestStop;
use zr_check::{Cert, CertFault, Verdict, check_profile, scratch_for};
use zr_game::Game;
use zr_io::{Purse, Shelf};
use zr_report::{Answer, End, write_best};

/// The text of what each player of the game can get at best against the certificate's profile, the
/// game and the certificate each under its name. One purse of this budget pays for all players.
pub fn best<'w, S: Shelf>(
    alloc: Global,
    game_name: &'w str,
    cert_name: &'w str,
    budget: u32,
    shelf: &mut S,
) -> Result<Vec<u8>, Refusal<'w>>
    requires { budget ≤ 1000000000 }
    ensures ok { (words : Words) → IsBest words budget game_name.now cert_name.now
        → IfOk result (λ text. IsAnswer words (S.contents shelf.old) text.items) }
    ensures err { (words : Words) → IsBest words budget game_name.now cert_name.now
        → IfErr result (IsCause words (S.contents shelf.old)) }

    ensures keeps { Keeps S.contents S.faults_of shelf.old shelf.new result }
    ensures lacks { Lacks (S.contents shelf.old) game_name.now
        → IsErrAnd result (λ refusal. status_of refusal ≡ 3) }
    ensures taken { IfErr result (HasTaken (S.takes_of shelf.old) (S.takes_of shelf.new)) }
    ensures unwritten { IfErr result (λ refusal. status_of refusal ≢ 12) }
{
    let texts = both_texts(alloc, game_name, cert_name, shelf)?;
    answers_to(alloc, &texts.reading, texts.cert.as_slice(), budget)
}

/// The text of best answers to the profile of the certificate whose text the bytes are.
fn answers_to<'w>(
    alloc: Global,
    reading: &Reading,
    bytes: &[u8],
    budget: u32,
) -> Result<Vec<u8>, Refusal<'w>>
    requires game { game_of reading.now.game ≡ expansion (source_of reading.now.source) }
    requires len { length bytes.now ≤ cert_limit }
    requires budget { budget ≤ 1000000000 }
    ensures ok { IfOk result (λ text.
        IsBestReply (source_of reading.now.source) bytes.now text.items) }
    ensures err { (words : Words) (contents : Contents)
        → IsAskedCert words contents (for_best budget) (source_of reading.now.source) bytes.now
        → IfErr result (IsCause words contents) }
    ensures comes { IfErr result (ComesOf kept.Cert) }
{
    let cert = cert_in(alloc, bytes)?;
    let game = &reading.game;
    let Ok(mut room) = scratch_for(alloc, game, &cert) else {
        return Err(Refusal::NoMemory);
    };
    match check_profile(game, &cert, &mut room) {
        Ok(()) => answers_of(alloc, game, &cert, budget),
        Err(CertFault::Bad(line)) => Err(CertFlaw::Wrong.at(line)),
        Err(CertFault::Wide(line)) => Err(CertFlaw::Wide.at(line)),
    }
}

/// The text of best answers to the certificate's profile.
fn answers_of<'w>(
    alloc: Global,
    game: &Game,
    cert: &Cert,
    budget: u32,
) -> Result<Vec<u8>, Refusal<'w>>
    requires players { cert.now.players ≡ length (game_of game.now) }
    requires right { IsRightHead (game_of game.now) cert.now.kind (cert_of cert.now).verdict }
    requires narrow { HeadIsWide (game_of game.now) (cert_of cert.now).verdict → ⊥ }
    requires budget { budget ≤ 1000000000 }
    ensures ok { (bytes : List ℕ) → IsText (cert_of cert.now) bytes
        → IfOk result (λ text. IsBestText (game_of game.now) bytes text.items) }
    ensures err { (bytes : List ℕ) → IsText (cert_of cert.now) bytes
        → IfErr result (IsStopped (game_of game.now) bytes budget) }
    ensures comes { IfErr result (ComesOf kept.Cert) }
{
    match &cert.verdict {
        Verdict::Profile { profile, bounds: _ } => {
            let mut purse = Purse::new(u64::from(budget));
            match zr_best::best(alloc, game, profile, &mut purse) {
                Ok(answers) => text_of(alloc, &answers),
                Err(stop) => Err(ended(alloc, budget, stop)),
            }
        }
        // The head of the certificate is right.
        Verdict::NoneCover {
            covers: _,
            named: _,
            proof: _,
        } => unreachable!(),
        Verdict::NoneEmpty { player: _, tree: _ } => unreachable!(),
        Verdict::NoneBoxes { tree: _ } => unreachable!(),
    }
}

/// The text of the answers.
fn text_of<'w>(alloc: Global, answers: &[Answer]) -> Result<Vec<u8>, Refusal<'w>>
    ensures ok { IfOk result (λ text. text.items ≡ best_text answers.now) }
    ensures err { IfErr result (λ refusal. refusal ≡ Refusal.NoMemory) }
{
    match write_best(alloc, answers) {
        Ok(text) => Ok(text),
        Err(_) => Err(Refusal::NoMemory),
    }
}

/// The refusal where a search within this budget stopped so.
fn ended<'w>(alloc: Global, budget: u32, stop: BestStop) -> Refusal<'w>
    ensures ends { (game : GameOf) → IsGame game
        → (mixtures : List MixtureOf) (old new : PurseView) → StartsAt old budget → IsBestCause game mixtures old new stop
        → ComesOfSearch game mixtures budget result }
    ensures comes { ComesOf kept.Cert result }
{
    match stop {
        BestStop::Spent => Refusal::Ended {
            last: Text::Cert,
            end: End::Budget {
                limit: u64::from(budget),
            },
        },
        BestStop::Wide(asked) => Refusal::Ended {
            last: Text::Cert,
            end: End::Stuck(asked),
        },
        BestStop::Step(wide) => Refusal::Ended {
            last: Text::Cert,
            end: End::Step(wide),
        },
        BestStop::Endless { player, var, dir } => Refusal::Ended {
            last: Text::Cert,
            end: End::Open {
                player,
                var,
                dir,
                named: Vec::new(alloc),
            },
        },
        BestStop::NoMemory => Refusal::NoMemory,
    }
}
