ghost use Rattle.std.specs.Prelude.{ℕ, ℤ, List};
ghost use Rattle.zr_game.specs.Players.{PlayerOf};
ghost use Rattle.zr_asked.specs.declared.question.Move.{Move};
ghost use Rattle.zr_asked.specs.Stuck.{IsPlainAim};
ghost use Rattle.zr_branch.specs.Replies.{IsAskCause};
ghost use Rattle.zr_naming.specs.Causes.{IsNamingCause};

use zr_asked::AskedLp;
use zr_branch::AskStop;

/// Why the named items of a player can't be had.
#[derive(Debug, Drop)]
pub enum NamingStop {
    /// A step of a linear program was too wide.
    Wide(AskedLp),
    /// Want of memory.
    NoMemory,
}

/// The stop of the naming, one of whose questions has no answer.
pub(crate) fn stop_of(stop: AskStop) -> NamingStop
    ensures { (i : ℕ) (player : PlayerOf) (path : List Move) (aim : List ℤ)
        → IsPlainAim player aim → IsAskCause i player path aim stop
        → IsNamingCause i player result }
{
    match stop {
        AskStop::NoMemory => NamingStop::NoMemory,
        AskStop::Wide(asked) => NamingStop::Wide(asked),
    }
}
