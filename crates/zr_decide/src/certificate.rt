ghost use Rattle.std.specs.Prelude.{◌≡◌, ◌<◌, length};
ghost use Rattle.zr_game.specs.Games.{game_of};
ghost use Rattle.zr_cert.specs.Certs.{cert_with, verdict_of};
ghost use Rattle.zr_cert.specs.Forms.{IsVerdictForm};
ghost use Rattle.zr_cert.specs.Lines.{verdict_lines};
ghost use Rattle.zr_cert.specs.Listed.{cert_of};

use zr_cert::{Cert, Verdict};
use zr_game::{Game, Kind};

/// The certificate of a verdict that keeps the rules of certificates.
pub(crate) fn certificate(game: &Game, kind: Kind, verdict: Verdict) -> Cert
    requires form { IsVerdictForm (length (game_of game.now)) (verdict_of verdict) }
    requires few { verdict_lines (verdict_of verdict) < 4294967292 }
    ensures { cert_of result
        ≡ cert_with kind (length (game_of game.now)) verdict }
{
    match Cert::new(kind, game.players.len() as u32, verdict) {
        Ok(cert) => cert,
        Err(_) => unreachable!(),
    }
}
