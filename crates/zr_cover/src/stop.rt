ghost use Rattle.std.specs.Prelude.{ℕ, ℤ, List};
ghost use Rattle.zr_io.specs.declared.purse.Purse.{Purse};
ghost use Rattle.zr_game.specs.Players.{PlayerOf};
ghost use Rattle.zr_asked.specs.declared.question.Move.{Move};
ghost use Rattle.zr_asked.specs.Stuck.{IsPlainAim};
ghost use Rattle.zr_branch.specs.Replies.{IsAskCause};
ghost use Rattle.zr_cover.specs.Causes.{IsCoverCause};

use zr_asked::AskedLp;
use zr_branch::AskStop;

/// Why a player's exact cover can't be had.
#[derive(Debug, Drop)]
pub enum CoverStop {
    /// A split was due, and the purse was at its limit.
    Spent,
    /// A step of a linear program was too wide.
    Wide(AskedLp),
    /// The ray `dir` of the relaxation changes the whole variable `var`.
    Endless { var: u32, dir: Vec<i128> },
    /// Want of memory.
    NoMemory,
}

/// The stop of a cover whose question has no answer.
pub(crate) fn stop_of(stop: AskStop) -> CoverStop
    ensures { (i : ℕ) (player : PlayerOf) (path : List Move) (aim : List ℤ)
        → IsPlainAim player aim → IsAskCause i player path aim stop
        → (old new : Purse) → IsCoverCause i player old new result }
{
    match stop {
        AskStop::NoMemory => CoverStop::NoMemory,
        AskStop::Wide(asked) => CoverStop::Wide(asked),
    }
}
