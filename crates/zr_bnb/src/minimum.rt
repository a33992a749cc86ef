ghost use Rattle.std.specs.Prelude.{◌≡◌, ℕ, ◌+◌, ◌<◌, ◌≤◌, ◌*ℤ◌, IfOk, IfErr, length, map, option_map, None, Some, pos, true};
ghost use Rattle.std.specs.List.{All};
ghost use Rattle.zr_base.specs.Steps.{IsNarrow};
ghost use Rattle.zr_io.specs.declared.purse.Purse.{Purse as APurse};
ghost use Rattle.zr_game.specs.Players.{PlayerOf, player_of};
ghost use Rattle.zr_game.specs.Games.{game_of};
ghost use Rattle.zr_game.specs.Forms.{IsPlayer};
ghost use Rattle.zr_branch.specs.Replies.{CountsPivotsAlone, IsSomePlayer};
ghost use Rattle.zr_bnb.specs.Answers.{HasFewNodes, IsLeastAnswer};
ghost use Rattle.zr_bnb.specs.Causes.{IsBnbCause, SpendsWork};
ghost use Rattle.zr_bnb.specs.Found.{IsGrown};
ghost use Rattle.zr_bnb.specs.Halts.{IsWideProduct};

use crate::answer::{BnbStop, LeastAnswer};
use crate::plan::Plan;
use crate::prove::prove;
use crate::search::{Best, Found, search};
use std::alloc::Global;
use zr_base::{Frac, Wide, cross};
use zr_game::{Game, Player};
use zr_io::Purse;

/// Why an aim can't be multiplied.
#[derive(Clone, Copy)]
pub(crate) enum Halt {
    NoMemory,
    Wide(Wide),
}

/// The aim times a number.
fn times(alloc: Global, aim: &[i128], by: i128) -> Result<Vec<i128>, Halt>
    ensures value { IfOk result (λ list. list.items ≡ map (λ z. by *ℤ z) aim.now) }
    ensures narrow { IfOk result (λ list. All IsNarrow list.items) }
    ensures wide { IfErr result (IsWideProduct by aim.now) }
{
    let mut list = Vec::new(alloc);
    for number in aim {
        match cross((by, *number), (0, 0)) {
            Ok(product) => {
                let Ok(()) = list.push(product) else {
                    return Err(Halt::NoMemory);
                };
            }
            Err(wide) => return Err(Halt::Wide(wide)),
        }
    }
    Ok(list)
}

/// The least value of the aim on the feasible points of player `i`, with a tree that proves it, or
/// a tree that shows that there is no feasible point, or a ray along which the aim falls.
///
/// By branch and bound (A. H. Land and A. G. Doig, 1960), depth first. The purse pays each split,
/// and its limit is at most 1,000,000,000. `aim` has a number for each variable of the player, none
/// of them `i128::MIN`, and `i` is below the number of players. A tree has at most one node more
/// than twice the branches that were spent.
///
/// # Errors
///
/// `Spent` where a split is due and the purse is at its limit: an open tree then has more units
/// than the purse had left. `Wide` where a linear program over a branch is stuck. `WideAim` where
/// the product of the least value's denominator and a number of the aim is too wide. `Endless`
/// where a ray of the relaxation changes a whole variable, and the aim has no least value on the
/// relaxation, or has it at a basic solution that isn't feasible. `NoMemory` for want of memory.
pub fn least(
    alloc: Global,
    game: &Game,
    i: u32,
    aim: &[i128],
    purse: &mut Purse,
) -> Result<LeastAnswer, BnbStop>
    requires number { i < length (game_of game.now) }
    requires aim { (player : PlayerOf) → IsPlayer (game_of game.now) i player
        → length aim.now ≡ length player.vars }
    requires narrow { All IsNarrow aim.now }
    requires limit { purse.old.limit ≤ 1000000000 }
    ensures answer { (player : PlayerOf) → IsPlayer (game_of game.now) i player
        → IfOk result (IsLeastAnswer player aim.now purse.old purse.new) }
    ensures few { IfOk result (HasFewNodes purse.old purse.new) }
    ensures cause { (player : PlayerOf) → IsPlayer (game_of game.now) i player
        → IfErr result (IsBnbCause i player aim.now purse.old purse.new) }
    ensures spends { (player : PlayerOf) → IsPlayer (game_of game.now) i player
        → SpendsWork player purse.old purse.new }
{
    let player = &game.players[i as usize];
    least_of(alloc, game, i, player, aim, purse)
}

/// The same, for the player itself.
fn least_of(
    alloc: Global,
    game: &Game,
    i: u32,
    player: &Player,
    aim: &[i128],
    purse: &mut Purse,
) -> Result<LeastAnswer, BnbStop>
    requires number { i < length (game_of game.now) }
    requires player { IsPlayer (game_of game.now) i (player_of player.now) }
    requires some { IsSomePlayer i (player_of player.now) }
    requires aim { length aim.now ≡ length (player_of player.now).vars }
    requires narrow { All IsNarrow aim.now }
    requires limit { purse.old.limit ≤ 1000000000 }
    ensures answer { IfOk result
        (IsLeastAnswer (player_of player.now) aim.now purse.old purse.new) }
    ensures cause { IfErr result
        (IsBnbCause i (player_of player.now) aim.now purse.old purse.new) }
    ensures spends { SpendsWork (player_of player.now) purse.old purse.new }
{
    match search(alloc, game, i, player, aim, purse) {
        Err(stop) => Err(stop),
        Ok(Found::Below { base, dir }) => Ok(LeastAnswer::Below { base, dir }),
        Ok(Found::Grown { best, plans }) => match best {
            None => empty(alloc, game, i, player, &plans, aim, purse),
            Some(best) => at(alloc, game, i, player, best, &plans, aim, purse),
        },
    }
}

/// The answer where there is no feasible point, with the tree of the plans.
fn empty(
    alloc: Global,
    game: &Game,
    i: u32,
    player: &Player,
    plans: &[Plan],
    aim: &[i128],
    purse: &mut Purse,
) -> Result<LeastAnswer, BnbStop>
    requires number { i < length (game_of game.now) }
    requires player { IsPlayer (game_of game.now) i (player_of player.now) }
    requires some { IsSomePlayer i (player_of player.now) }
    requires grown { (spent : ℕ) × IsGrown (player_of player.now) aim.now spent None plans.now }
    requires aim { length aim.now ≡ length (player_of player.now).vars }
    requires narrow { All IsNarrow aim.now }
    ensures answer { (old : APurse) (spent : ℕ) → purse.old.branches ≡ old.branches + spent
        → IsGrown (player_of player.now) aim.now spent None plans.now
        → IfOk result (IsLeastAnswer (player_of player.now) aim.now old purse.new) }
    ensures cause { (old new : APurse)
        → IfErr result (IsBnbCause i (player_of player.now) aim.now old new) }
    ensures purse { CountsPivotsAlone purse.old purse.new }
{
    match prove(alloc, game, i, player, plans, true, aim, None, purse) {
        Err(stop) => Err(stop),
        Ok(tree) => Ok(LeastAnswer::Empty { tree }),
    }
}

/// Whether a value is whole.
fn is_whole(value: Frac) -> bool
    ensures { result ≡ true → value.den ≡ pos 1 }
{
    value.den() == 1
}

/// The answer with a best point and the tree of the plans.
fn at(
    alloc: Global,
    game: &Game,
    i: u32,
    player: &Player,
    best: Best,
    plans: &[Plan],
    aim: &[i128],
    purse: &mut Purse,
) -> Result<LeastAnswer, BnbStop>
    requires number { i < length (game_of game.now) }
    requires player { IsPlayer (game_of game.now) i (player_of player.now) }
    requires some { IsSomePlayer i (player_of player.now) }
    requires grown { (spent : ℕ)
        × IsGrown (player_of player.now) aim.now spent (Some best) plans.now }
    requires aim { length aim.now ≡ length (player_of player.now).vars }
    requires narrow { All IsNarrow aim.now }
    ensures answer { (old : APurse) (spent : ℕ) → purse.old.branches ≡ old.branches + spent
        → IsGrown (player_of player.now) aim.now spent (Some best) plans.now
        → IfOk result (IsLeastAnswer (player_of player.now) aim.now old purse.new) }
    ensures cause { (old new : APurse)
        → IfErr result (IsBnbCause i (player_of player.now) aim.now old new) }
    ensures purse { CountsPivotsAlone purse.old purse.new }
{
    let Best { point, value } = best;
    let scaled = match times(alloc, aim, value.den()) {
        Ok(scaled) => scaled,
        Err(Halt::NoMemory) => return Err(BnbStop::NoMemory),
        Err(Halt::Wide(wide)) => return Err(BnbStop::WideAim(wide)),
    };
    match prove(
        alloc,
        game,
        i,
        player,
        plans,
        is_whole(value),
        &scaled,
        Some(value.num()),
        purse,
    ) {
        Err(stop) => Err(stop),
        Ok(tree) => Ok(LeastAnswer::At { point, value, tree }),
    }
}
