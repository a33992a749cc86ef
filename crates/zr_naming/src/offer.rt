ghost use Rattle.std.specs.Prelude.{◌≡◌, ◌<◌, Some, true, false, length};
ghost use Rattle.zr_base.specs.declared.step.Wide.{Wide as AWide};
ghost use Rattle.zr_game.specs.Players.{player_of};
ghost use Rattle.zr_game.specs.Games.{game_of};
ghost use Rattle.zr_game.specs.Forms.{IsPlayer};
ghost use Rattle.zr_game.specs.Named.{IsNamed, named_of};
ghost use Rattle.zr_cert.specs.Forms as text;
ghost use Rattle.zr_system.specs.Asked.{IsNamedForm};
ghost use Rattle.zr_naming.specs.Items.{IsDrawnItem, test_wide};
ghost use Rattle.zr_naming.specs.Offers.{IsOffered};

use zr_game::{Game, Named, Player, feasible, is_ray};
use zr_system::item_is_narrow;

/// The item, if it is a point or a ray of the player, and no step of its test or of its row is too
/// wide.
pub(crate) fn offered(game: &Game, i: u32, player: &Player, item: Named) -> Option<Named>
    requires number { i < length (game_of game.now) }
    requires player { IsPlayer (game_of game.now) i (player_of player.now) }
    requires drawn { IsDrawnItem (player_of player.now) (named_of item) }
    requires form { IsNamedForm (length (player_of player.now).vars) (named_of item) }
    requires text_form { text.IsNamedForm (named_of item) }
    ensures { IsOffered (game_of game.now) i (player_of player.now) (named_of item) result }
{
    if passes(game, i, player, &item) && item_is_narrow(game, i as usize, &item) {
        Some(item)
    } else {
        None
    }
}

/// Whether the item is a point or a ray of the player, and no step of its test is too wide.
pub(crate) fn passes(game: &Game, i: u32, player: &Player, item: &Named) -> bool
    requires number { i < length (game_of game.now) }
    requires player { IsPlayer (game_of game.now) i (player_of player.now) }
    requires form { IsNamedForm (length (player_of player.now).vars) (named_of item.now) }
    ensures yes { result ≡ true → IsNamed (player_of player.now) (named_of item.now) }
    ensures no { result ≡ false → IsNamed (player_of player.now) (named_of item.now)
        → (w : AWide) × (test_wide (player_of player.now) (named_of item.now) ≡ Some w) }
{
    let test = match item {
        Named::Point(point) => feasible(game, i, point),
        Named::Ray { base, dir } => is_ray(game, i, base, dir),
    };
    matches!(test, Ok(true))
}
