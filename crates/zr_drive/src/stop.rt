ghost use Rattle.std.specs.Prelude.{◌≡◌};
ghost use Rattle.zr_drive.specs.Ends.{end_of};

use zr_decide::DecideStop;
use zr_report::End;

/// Why there is no certificate.
#[derive(Debug, Drop)]
pub enum DriveStop {
    /// The work came to an end without one.
    Ended(End),
    /// Want of memory.
    NoMemory,
}

/// The end of a decision that stopped so, under a purse of this limit.
pub(crate) fn stop_of(limit: u64, stop: DecideStop) -> DriveStop
    ensures { result ≡ end_of limit stop }
{
    match stop {
        DecideStop::Spent => DriveStop::Ended(End::Budget { limit }),
        DecideStop::Wide(asked) => DriveStop::Ended(End::Stuck(asked)),
        DecideStop::Step(wide) => DriveStop::Ended(End::Step(wide)),
        DecideStop::Endless {
            player,
            var,
            dir,
            named,
        } => DriveStop::Ended(End::Open {
            player,
            var,
            dir,
            named,
        }),
        DecideStop::TooLarge { cells } => DriveStop::Ended(End::Large { cells }),
        DecideStop::NoMemory => DriveStop::NoMemory,
    }
}
