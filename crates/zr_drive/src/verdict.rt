ghost use Rattle.std.specs.Prelude.{◌≡◌, ◌≤◌, IfErr, IfOk};
ghost use Rattle.zr_game.specs.Games.{game_of};
ghost use Rattle.zr_cert.specs.Listed.{cert_of};
ghost use Rattle.zr_check.specs.Right.{IsRightCert};
ghost use Rattle.zr_decide.specs.DrawnCerts.{IsDrawnCert};
ghost use Rattle.zr_drive.specs.Ends.{IsDriveCause};
ghost use Rattle.zr_drive.specs.Verdicts.{IsRightOf, IsVerdictText};

use crate::stop::{DriveStop, stop_of};
use std::alloc::Global;
use zr_cert::{Cert, CertFault};
use zr_check::{check_cert, scratch_for};
use zr_decide::decide;
use zr_game::{Game, Kind};
use zr_io::Purse;
use zr_report::End;
use zr_text::write_cert;

/// The most bytes of a certificate's text.
const TEXT_LIMIT: usize = 67_108_864;

/// The text of a right certificate of the kind for the game, which passes its check and has at most
/// 67,108,864 bytes.
///
/// The work is paid by one purse of `limit`, at most 1,000,000,000.
///
/// # Errors
///
/// `Ended` where the decision stops, where the check of a right certificate, drawn from the bases of
/// the game's questions, is too wide at a line, and where its text is too long. `NoMemory` for want
/// of memory.
pub fn drive(alloc: Global, game: &Game, kind: Kind, limit: u64) -> Result<Vec<u8>, DriveStop>
    requires limit { limit ≤ 1000000000 }
    ensures verdict { IfOk result (λ text. IsVerdictText (game_of game.now) kind text.items) }
    ensures cause { IfErr result (IsDriveCause (game_of game.now) kind limit) }
{
    let mut purse = Purse::new(limit);
    match decide(alloc, game, kind, &mut purse) {
        Err(stop) => Err(stop_of(limit, stop)),
        Ok(cert) => checked(alloc, game, cert),
    }
}

/// The text of a right certificate, once it has passed its check.
fn checked(alloc: Global, game: &Game, cert: Cert) -> Result<Vec<u8>, DriveStop>
    requires right { IsRightCert (game_of game.now) (cert_of cert) }
    requires drawn { IsDrawnCert (game_of game.now) (cert_of cert) }
    ensures verdict { IfOk result (λ text. IsVerdictText (game_of game.now) cert.kind text.items) }
    ensures cause { (limit : _) → IfErr result (IsDriveCause (game_of game.now) cert.kind limit) }
{
    let Ok(mut room) = scratch_for(alloc, game, &cert) else {
        return Err(DriveStop::NoMemory);
    };
    match check_cert(game, &cert, &mut room) {
        Ok(()) => written(alloc, game, &cert),
        Err(CertFault::Wide(line)) => Err(DriveStop::Ended(End::Certificate { line, cert })),
        // A right certificate breaks no rule.
        Err(CertFault::Bad(_)) => unreachable!(),
    }
}

/// The text of a certificate that passes its check.
fn written(alloc: Global, game: &Game, cert: &Cert) -> Result<Vec<u8>, DriveStop>
    requires right { IsRightOf (game_of game.now) (cert_of cert.now) }
    requires drawn { IsDrawnCert (game_of game.now) (cert_of cert.now) }
    ensures verdict { IfOk result (λ text.
        IsVerdictText (game_of game.now) cert.now.kind text.items) }
    ensures cause { (limit : _) → IfErr result (IsDriveCause (game_of game.now) cert.now.kind limit) }
{
    let Ok(text) = write_cert(alloc, cert) else {
        return Err(DriveStop::NoMemory);
    };
    if text.len() > TEXT_LIMIT {
        return Err(DriveStop::Ended(End::Long {
            bytes: text.len() as u64,
        }));
    }
    Ok(text)
}
