ghost use Rattle.std.specs.Prelude.{◌≡◌, ◌<◌, ℤ, pos, negsuc, ◌⊎◌, IfOk, IfErr, length};
ghost use Rattle.std.specs.List.{All};
ghost use Rattle.zr_base.specs.Steps.{IsNarrow};
ghost use Rattle.zr_game.specs.Players.{PlayerOf, player_of};
ghost use Rattle.zr_game.specs.Games.{game_of};
ghost use Rattle.zr_game.specs.Forms.{IsPlayer};
ghost use Rattle.zr_game.specs.Leaves.{IsLeafOf, leaf_of, root_leaf};
ghost use Rattle.zr_game.specs.Named.{NamedRay};
ghost use Rattle.zr_asked.specs.Drawn.{IsDrawnRay};
ghost use Rattle.zr_asked.specs.Stuck.{IsPlainAim, IsVariableAim};
ghost use Rattle.zr_branch.specs.Replies.{CountsPivotsAlone, IsSomePlayer};
ghost use Rattle.zr_naming.specs.Causes.{IsNamingCause};
ghost use Rattle.zr_naming.specs.Offers.{IsFound, IsFoundFor, IsOffered};
ghost use Rattle.zr_naming.specs.Starts.{start_point};

use crate::offer::offered;
use crate::start::start_point;
use crate::stop::{NamingStop, stop_of};
use std::alloc::{AllocError, Global};
use zr_base::NoMemory;
use zr_branch::{Reply, ask};
use zr_game::{Game, Leaf, Named, Player};
use zr_io::Purse;

/// The aim that is `z` at variable `v`, and 0 at all others.
fn variable_aim(alloc: Global, count: usize, v: usize, z: i128) -> Result<Vec<i128>, AllocError>
    requires place { v < count }
    requires narrow { IsNarrow z }
    ensures narrow { IfOk result (λ aim. All IsNarrow aim.items) }
    ensures aim { (player : PlayerOf) → length player.vars ≡ count
        → IfOk result (λ aim. IsVariableAim player v z aim.items) }
{
    let mut aim = vec![in alloc; 0; count]?;
    aim[v] = z;
    Ok(aim)
}

/// A ray from the start point that changes variable `v`: one along which it rises, if there is
/// one, and else one along which it falls.
pub(crate) fn changing_ray(
    alloc: Global,
    game: &Game,
    i: u32,
    player: &Player,
    root: &Leaf,
    v: usize,
    purse: &mut Purse,
) -> Result<Option<Named>, NamingStop>
    requires number { i < length (game_of game.now) }
    requires player { IsPlayer (game_of game.now) i (player_of player.now) }
    requires some { IsSomePlayer i (player_of player.now) }
    requires lengths { IsLeafOf (player_of player.now) root.now }
    requires root { leaf_of root.now ≡ root_leaf (player_of player.now) }
    requires below { v < length (player_of player.now).vars }
    ensures found { IfOk result (IsFound (game_of game.now) i (player_of player.now) v) }
    ensures cause { IfErr result (IsNamingCause i (player_of player.now)) }
    ensures purse { CountsPivotsAlone purse.old purse.new }
{
    match ray_along(alloc, game, i, player, root, v, -1, purse) {
        Err(stop) => Err(stop),
        Ok(Some(item)) => Ok(Some(item)),
        Ok(None) => {
            if player.vars[v].low.is_some() {
                return Ok(None);
            }
            ray_along(alloc, game, i, player, root, v, 1, purse)
        }
    }
}

/// A ray from the start point along which `z` times variable `v` falls.
fn ray_along(
    alloc: Global,
    game: &Game,
    i: u32,
    player: &Player,
    root: &Leaf,
    v: usize,
    z: i128,
    purse: &mut Purse,
) -> Result<Option<Named>, NamingStop>
    requires number { i < length (game_of game.now) }
    requires player { IsPlayer (game_of game.now) i (player_of player.now) }
    requires some { IsSomePlayer i (player_of player.now) }
    requires lengths { IsLeafOf (player_of player.now) root.now }
    requires root { leaf_of root.now ≡ root_leaf (player_of player.now) }
    requires below { v < length (player_of player.now).vars }
    requires sign { (z ≡ pos 1) ⊎ (z ≡ negsuc 0) }
    ensures found { IfOk result (IsFoundFor (game_of game.now) i (player_of player.now) v z) }
    ensures cause { IfErr result (IsNamingCause i (player_of player.now)) }
    ensures purse { CountsPivotsAlone purse.old purse.new }
{
    let Ok(aim) = variable_aim(alloc, player.vars.len(), v, z) else {
        return Err(NamingStop::NoMemory);
    };
    match ask(alloc, i, player, &[], root, &aim, purse) {
        Ok(Reply::Unbounded { point: _, ray }) => {
            match offered_ray(alloc, game, i, player, ray) {
                Ok(item) => Ok(item),
                Err(_) => Err(NamingStop::NoMemory),
            }
        }
        Ok(
            Reply::Best {
                point: _,
                value: _,
                scale: _,
                mult: _,
            },
        ) => Ok(None),
        Ok(Reply::Empty { mult: _ }) => Ok(None),
        Err(stop) => Err(stop_of(stop)),
    }
}

/// The ray of this direction from the start point, if it is one, and no step of its test or of its
/// row is too wide.
fn offered_ray(
    alloc: Global,
    game: &Game,
    i: u32,
    player: &Player,
    dir: Vec<i128>,
) -> Result<Option<Named>, NoMemory>
    requires number { i < length (game_of game.now) }
    requires player { IsPlayer (game_of game.now) i (player_of player.now) }
    requires some { IsSomePlayer i (player_of player.now) }
    requires len { length dir.items ≡ length (player_of player.now).vars }
    requires narrow { All IsNarrow dir.items }
    requires drawn { IsDrawnRay (player_of player.now) (IsPlainAim (player_of player.now))
        dir.items }
    ensures { IfOk result (IsOffered (game_of game.now) i (player_of player.now)
        (NamedRay (start_point (player_of player.now)) dir.items)) }
{
    let base = start_point(alloc, player)?;
    Ok(offered(game, i, player, Named::Ray { base, dir }))
}
