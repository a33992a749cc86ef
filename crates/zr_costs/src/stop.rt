ghost use Rattle.zr_costs.specs.Halts.{IsPlainStop, IsStopFor};

use zr_asked::AskedLp;
use zr_base::Wide;
use zr_bnb::BnbStop;

/// Why there are no bounds.
#[derive(Debug, Drop)]
pub enum CostStop {
    /// A split was due, and the purse was at its limit.
    Spent,
    /// A linear program is stuck.
    Wide(AskedLp),
    /// A step of arithmetic is too wide.
    Step(Wide),
    /// The direction, a ray of the relaxation of the player, changes the whole variable `var`, and
    /// the least value along the player's slope is open.
    Endless {
        player: u32,
        var: u32,
        dir: Vec<i128>,
    },
    /// Want of memory.
    NoMemory,
}

/// Why sums can't be made.
#[derive(Clone, Copy)]
pub(crate) enum Halt {
    NoMemory,
    Wide(Wide),
}

/// The stop of player `i`'s bound, whose search stopped so.
pub(crate) fn stop_of(i: u32, stop: BnbStop) -> CostStop
    requires { IsPlainStop stop }
    ensures { IsStopFor i stop result }
{
    match stop {
        BnbStop::Spent => CostStop::Spent,
        BnbStop::Wide(asked) => CostStop::Wide(asked),
        // The least value is a whole number, so the aim is multiplied by 1.
        BnbStop::WideAim(_) => unreachable!(),
        BnbStop::Endless { var, dir } => CostStop::Endless {
            player: i,
            var,
            dir,
        },
        BnbStop::NoMemory => CostStop::NoMemory,
    }
}
