ghost use Rattle.std.specs.Prelude.{◌≡◌, ℕ, ◌<◌, pos, true, false, Err, IfErr, OnOk, length};
ghost use Rattle.zr_base.specs.declared.step.Wide.{Wide as AWide};
ghost use Rattle.zr_base.specs.Sums.{sum_steps};
ghost use Rattle.zr_game.specs.Games.{game_of};
ghost use Rattle.zr_game.specs.Named.{named_of};
ghost use Rattle.zr_system.specs.Regions as content;
ghost use Rattle.zr_system.specs.Regions.{LeavesOf};
ghost use Rattle.zr_system.specs.Values.{along_products};
ghost use Rattle.zr_system.specs.Asked.{HasWideItem, HaveLeaves, IsNamedForm};

use crate::counts::{player_count, var_count};
use crate::number::along_number;
use crate::unknown::Unknown;
use zr_base::Wide;
use zr_game::{Game, Named};

/// Whether no step of the numbers in a named item's row is too wide, where each player has a leaf.
///
/// The point, or the base and the direction, have a number for each variable of player `i`.
pub fn item_is_narrow(game: &Game, i: usize, item: &Named) -> bool
    requires player { i < length (game_of game.now) }
    requires item { IsNamedForm (content.var_count (game_of game.now) i) (named_of item.now) }
    ensures narrow { result ≡ true → (leaves : LeavesOf) (w : AWide)
        → HasWideItem (game_of game.now) leaves i (named_of item.now) w → ⊥ }
    ensures wide { result ≡ false → (leaves : LeavesOf) → HaveLeaves (game_of game.now) leaves
        → (w : AWide) × HasWideItem (game_of game.now) leaves i (named_of item.now) w }
{
    for j in 0..player_count(game) {
        if share_sums(game, i, item, j).is_err() {
            return false;
        }
    }
    along_number(game, i, var_count(game, i), item, Unknown::One).is_ok()
}

/// Makes the numbers of a player's shares in a named item's row, or finds a step that is too wide.
fn share_sums(game: &Game, i: usize, item: &Named, j: usize) -> Result<(), Wide>
    requires player { i < length (game_of game.now) }
    requires item { IsNamedForm (content.var_count (game_of game.now) i) (named_of item.now) }
    requires other { j < length (game_of game.now) }
    ensures narrow { OnOk result ((v : ℕ) (w : AWide) → v < content.var_count (game_of game.now) j
        → sum_steps (pos 0) (along_products (game_of game.now) i (named_of item.now)
        (Unknown.Share j 0 v) (content.var_count (game_of game.now) i)) ≡ Err w → ⊥) }
    ensures wide { IfErr result (λ w. (v : ℕ) × (v < content.var_count (game_of game.now) j)
        × (sum_steps (pos 0) (along_products (game_of game.now) i (named_of item.now)
        (Unknown.Share j 0 v) (content.var_count (game_of game.now) i)) ≡ Err w)) }
{
    let vars = var_count(game, i);
    for v in 0..var_count(game, j) {
        let share = Unknown::Share {
            player: j,
            leaf: 0,
            var: v,
        };
        match along_number(game, i, vars, item, share) {
            Ok(_) => {}
            Err(wide) => return Err(wide),
        }
    }
    Ok(())
}
