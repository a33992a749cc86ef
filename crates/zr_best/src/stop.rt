ghost use Rattle.std.specs.Prelude.{◌≡◌};
ghost use Rattle.zr_best.specs.Halts.{stop_for};

use zr_asked::AskedLp;
use zr_base::Wide;
use zr_bnb::BnbStop;

/// Why there are no answers.
#[derive(Debug, Drop)]
pub enum BestStop {
    /// A split was due, and the purse was at its limit.
    Spent,
    /// A linear program is stuck.
    Wide(AskedLp),
    /// A step of arithmetic is too wide.
    Step(Wide),
    /// The direction, a ray of the relaxation of the player, changes the whole variable `var`, and
    /// the least value along the player's slope is open.
    Endless {
        player: u32,
        var: u32,
        dir: Vec<i128>,
    },
    /// Want of memory.
    NoMemory,
}

/// Why a list of numbers can't be made.
#[derive(Clone, Copy)]
pub(crate) enum Halt {
    NoMemory,
    Wide(Wide),
}

/// The stop of player `i`'s answer, whose search stopped so.
pub(crate) fn stop_of(i: u32, stop: BnbStop) -> BestStop
    ensures { result ≡ stop_for i stop }
{
    match stop {
        BnbStop::Spent => BestStop::Spent,
        BnbStop::Wide(asked) => BestStop::Wide(asked),
        BnbStop::WideAim(wide) => BestStop::Step(wide),
        BnbStop::Endless { var, dir } => BestStop::Endless {
            player: i,
            var,
            dir,
        },
        BnbStop::NoMemory => BestStop::NoMemory,
    }
}
