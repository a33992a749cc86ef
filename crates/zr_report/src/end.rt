use zr_asked::AskedLp;
use zr_base::Wide;
use zr_cert::Cert;
use zr_game::Named;

/// Why the work came to an end without an answer.
#[derive(Debug, Drop)]
pub enum End {
    /// The limit of the purse was reached.
    Budget {
        limit: u64,
    },
    /// A linear program is stuck.
    Stuck(AskedLp),
    /// A step of arithmetic is too wide.
    Step(Wide),
    /// The check of the certificate is too wide at this line.
    Certificate {
        line: u32,
        cert: Cert,
    },
    /// The direction, a ray of the relaxation of the player, changes the whole variable `var`. Where
    /// the search named points and rays, there is a list of them for each player.
    Open {
        player: u32,
        var: u32,
        dir: Vec<i128>,
        named: Vec<Vec<Named>>,
    },
    /// The system has so many cells.
    Large {
        cells: u128,
    },
    /// The certificate's text has so many bytes.
    Long {
        bytes: u64,
    },
}
