ghost use Rattle.std.specs.Prelude.{ℕ, ℤ, List};
ghost use Rattle.zr_io.specs.declared.purse.Purse.{Purse};
ghost use Rattle.zr_game.specs.Players.{PlayerOf};
ghost use Rattle.zr_asked.specs.declared.question.Move.{Move};
ghost use Rattle.zr_branch.specs.Replies.{IsAskCause};
ghost use Rattle.zr_bnb.specs.Answers.{MayAsk};
ghost use Rattle.zr_bnb.specs.Causes.{IsBnbCause};

use crate::answer::BnbStop;
use zr_branch::AskStop;

/// The stop of a search whose question has no answer.
pub(crate) fn stop_of(stop: AskStop) -> BnbStop
    ensures { (i : ℕ) (player : PlayerOf) (path : List Move) (asked main : List ℤ)
        → MayAsk player main asked → IsAskCause i player path asked stop
        → (old new : Purse) → IsBnbCause i player main old new result }
{
    match stop {
        AskStop::NoMemory => BnbStop::NoMemory,
        AskStop::Wide(asked) => BnbStop::Wide(asked),
    }
}
