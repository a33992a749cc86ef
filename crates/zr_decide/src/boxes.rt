ghost use Rattle.std.specs.Prelude.{◌≡◌, ◌≤◌, IfOk, IfSome, None, length};
ghost use Rattle.zr_game.specs.Games.{game_of};
ghost use Rattle.zr_cert.specs.Certs.{boxes_of};
ghost use Rattle.zr_check.specs.Boxes.{AreRightBoxes};
ghost use Rattle.zr_decide.specs.DrawnCerts.{AreDrawnBoxes};
ghost use Rattle.zr_decide.specs.Answers.{MayLackBoxes};

use std::alloc::Global;
use zr_base::NoMemory;
use zr_box_search::{BoxAnswer, BoxStop, search};
use zr_cases::BoxTree;
use zr_game::Game;
use zr_io::Purse;

/// A box tree that shows that no pure profile is an equilibrium, where a search with a purse of
/// its own finds one. The call fails for want of memory alone.
pub(crate) fn box_tree(alloc: Global, game: &Game, limit: u64) -> Result<Option<BoxTree>, NoMemory>
    requires limit { limit ≤ 1000000000 }
    ensures right { IfOk result (λ found.
        IfSome found (λ tree. AreRightBoxes (game_of game.now) (boxes_of tree))) }
    ensures drawn { IfOk result (λ found.
        IfSome found (λ tree. AreDrawnBoxes (game_of game.now) (boxes_of tree))) }
    ensures few { IfOk result (λ found.
        IfSome found (λ tree. length (boxes_of tree) ≤ 2000000001)) }
    ensures none { IfOk result (λ found. found ≡ None
        → MayLackBoxes (game_of game.now) limit) }
{
    let mut purse = Purse::new(limit);
    match search(alloc, game, &mut purse) {
        Ok(BoxAnswer::Refuted(tree)) => Ok(Some(tree)),
        Ok(BoxAnswer::Unsettled) => Ok(None),
        Err(BoxStop::Spent) => Ok(None),
        Err(BoxStop::Wide(_)) => Ok(None),
        Err(BoxStop::NoMemory) => Err(NoMemory),
    }
}
