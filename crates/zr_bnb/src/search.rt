ghost use Rattle.std.specs.Prelude.{◌≡◌, ◌<◌, ◌≤◌, ℤ, [], ◌∷◌, ◌++◌, List, IfOk, IfErr, OnOk, MatchOption, length, option_map, true, ◌⊎◌};
ghost use Rattle.std.specs.List.{All};
ghost use Rattle.zr_base.specs.Steps.{IsNarrow};
ghost use Rattle.zr_io.specs.declared.purse.Purse.{Purse as APurse};
ghost use Rattle.zr_game.specs.Players.{player_of};
ghost use Rattle.zr_game.specs.Games.{game_of};
ghost use Rattle.zr_game.specs.Forms.{IsPlayer};
ghost use Rattle.zr_branch.specs.Replies.{CountsPivotsAlone, IsSomePlayer};
ghost use Rattle.zr_bnb.specs.Causes.{IsBnbCause, IsLeastOpen, SpendsWork};
ghost use Rattle.zr_bnb.specs.Found.{IsFound, pending, plan_of};
ghost use Rattle.zr_bnb.specs.Splits.{first_side, second_side};

use crate::answer::BnbStop;
use crate::endless::are_bounded;
use crate::plan::{EndProof, Plan};
use crate::split::Split;
use crate::visit::{Fate, visit};
use std::alloc::{AllocError, Global};
use zr_asked::Move;
use zr_base::{Frac, Point};
use zr_branch::{leaf_at, with_move};
use zr_game::{Game, Player};
use zr_io::{Purse, Unit};

/// The best feasible point so far, and its value.
#[derive(Drop)]
pub(crate) struct Best {
    pub(crate) point: Point,
    pub(crate) value: Frac,
}

/// What a search found.
#[derive(Drop)]
pub(crate) enum Found {
    /// From this feasible point on the aim falls without end.
    Below {
        base: Point,
        dir: Vec<i128>,
    },
    /// A best feasible point, if there is one, and the nodes of a tree whose ends have no better one.
    Grown {
        best: Option<Best>,
        plans: Vec<Plan>,
    },
}

/// The value of the best point.
fn value_of(best: &Option<Best>) -> Option<Frac>
    ensures { result ≡ option_map (λ b. b.value) best.now }
{
    match best {
        None => None,
        Some(best) => Some(best.value),
    }
}

/// Takes the branch that is next.
fn take_next(due: &mut Vec<Vec<Move>>) -> Option<Vec<Move>>
    ensures { MatchOption result (pending due.old.items ≡ [])
        (λ path. pending due.old.items ≡ path.items ∷ pending due.new.items) }
{
    due.pop()
}

/// Makes a branch the next one.
fn put_next(due: &mut Vec<Vec<Move>>, path: Vec<Move>) -> Result<(), AllocError>
    ensures { OnOk result (pending due.new.items ≡ path.items ∷ pending due.old.items) }
{
    due.push(path)?;
    Ok(())
}

/// Notes that a branch is closed.
fn close(plans: &mut Vec<Plan>, path: Vec<Move>, end: EndProof) -> Result<(), AllocError>
    ensures { OnOk result (plans.new.items ≡ plans.old.items ++ Plan.Close path end ∷ []) }
{
    plans.push(Plan::Close { path, end })?;
    Ok(())
}

/// Notes a split, and makes its two sides the next branches.
fn divide(
    alloc: Global,
    due: &mut Vec<Vec<Move>>,
    plans: &mut Vec<Plan>,
    path: &[Move],
    split: Split,
) -> Result<(), AllocError>
    ensures due { OnOk result (pending due.new.items ≡ (path.now ++ first_side split ∷ [])
        ∷ (path.now ++ second_side split ∷ []) ∷ pending due.old.items) }
    ensures plans { OnOk result (plans.new.items ≡ plans.old.items ++ plan_of split ∷ []) }
{
    let (plan, first, second) = sides_of(split);
    plans.push(plan)?;
    let lower = with_move(alloc, path, first)?;
    let upper = with_move(alloc, path, second)?;
    put_next(due, upper)?;
    put_next(due, lower)
}

/// The node of a split, and the moves to its two sides.
fn sides_of(split: Split) -> (Plan, Move, Move)
    ensures plan { result.0 ≡ plan_of split }
    ensures first { result.1 ≡ first_side split }
    ensures second { result.2 ≡ second_side split }
{
    match split {
        Split::Var { var, at } => (
            Plan::SplitAt { var, at },
            Move::Low { var, at },
            Move::High { var, at },
        ),
        Split::Pair { pair } => (
            Plan::ChooseOf { pair },
            Move::VarZero { pair },
            Move::RowZero { pair },
        ),
    }
}

/// Whether the least value is open on the relaxation, once the branch of all points is known to
/// leave it so.
fn is_still_open(was: bool, path: &[Move], least_open: bool) -> bool
    ensures { result ≡ true → (was ≡ true) ⊎ ((path.now ≡ []) × (least_open ≡ true)) }
{
    was || path.is_empty() && least_open
}

/// Where a variable is to be split, and the least value is open: that no ray of the relaxation
/// changes a whole variable. The answer tells whether that is still to be tested.
fn tests_ends(
    alloc: Global,
    game: &Game,
    i: u32,
    player: &Player,
    least_open: bool,
    split: Split,
    purse: &mut Purse,
) -> Result<bool, BnbStop>
    requires number { i < length (game_of game.now) }
    requires player { IsPlayer (game_of game.now) i (player_of player.now) }
    requires some { IsSomePlayer i (player_of player.now) }
    ensures still { IfOk result (λ still. still ≡ true → least_open ≡ true) }
    ensures cause { (main : List ℤ)
        → (least_open ≡ true → IsLeastOpen (player_of player.now) main)
        → (old new : APurse) → IfErr result (IsBnbCause i (player_of player.now) main old new) }
    ensures purse { CountsPivotsAlone purse.old purse.new }
{
    if !least_open {
        return Ok(false);
    }
    match split {
        Split::Pair { pair: _ } => Ok(true),
        Split::Var { var: _, at: _ } => test_ends(alloc, game, i, player, purse),
    }
}

fn test_ends(
    alloc: Global,
    game: &Game,
    i: u32,
    player: &Player,
    purse: &mut Purse,
) -> Result<bool, BnbStop>
    requires number { i < length (game_of game.now) }
    requires player { IsPlayer (game_of game.now) i (player_of player.now) }
    requires some { IsSomePlayer i (player_of player.now) }
    ensures still { IfOk result (λ still. still ≡ true → ⊥) }
    ensures cause { (main : List ℤ) → IsLeastOpen (player_of player.now) main
        → (old new : APurse) → IfErr result (IsBnbCause i (player_of player.now) main old new) }
    ensures purse { CountsPivotsAlone purse.old purse.new }
{
    let Ok(root) = leaf_at(alloc, game, i, player, &[]) else {
        return Err(BnbStop::NoMemory);
    };
    match are_bounded(alloc, i, player, &root, purse) {
        Ok(()) => Ok(false),
        Err(stop) => Err(stop),
    }
}

/// Goes through the branches, depth first, until none is left or the aim falls without end.
pub(crate) fn search(
    alloc: Global,
    game: &Game,
    i: u32,
    player: &Player,
    aim: &[i128],
    purse: &mut Purse,
) -> Result<Found, BnbStop>
    requires number { i < length (game_of game.now) }
    requires player { IsPlayer (game_of game.now) i (player_of player.now) }
    requires some { IsSomePlayer i (player_of player.now) }
    requires aim { length aim.now ≡ length (player_of player.now).vars }
    requires narrow { All IsNarrow aim.now }
    requires limit { purse.old.limit ≤ 1000000000 }
    ensures found { IfOk result (IsFound (player_of player.now) aim.now purse.old purse.new) }
    ensures cause { IfErr result
        (IsBnbCause i (player_of player.now) aim.now purse.old purse.new) }
    ensures spends { SpendsWork (player_of player.now) purse.old purse.new }
{
    let mut best: Option<Best> = None;
    let mut plans = Vec::new(alloc);
    let mut due = Vec::new(alloc);
    let mut ends = false;
    let Ok(()) = put_next(&mut due, Vec::new(alloc)) else {
        return Err(BnbStop::NoMemory);
    };
    'branches: while let Some(path) = take_next(&mut due) {
        match visit(alloc, game, i, player, &path, aim, value_of(&best), purse) {
            Err(stop) => return Err(stop),
            Ok(Fate::Closed { end }) => {
                let Ok(()) = close(&mut plans, path, end) else {
                    return Err(BnbStop::NoMemory);
                };
            }
            Ok(Fate::Improved { point, value, end }) => {
                best = Some(Best { point, value });
                let Ok(()) = close(&mut plans, path, end) else {
                    return Err(BnbStop::NoMemory);
                };
            }
            Ok(Fate::Divided { split, least_open }) => {
                let least_open = is_still_open(ends, &path, least_open);
                match tests_ends(alloc, game, i, player, least_open, split, purse) {
                    Err(stop) => return Err(stop),
                    Ok(still) => ends = still,
                }
                let Ok(()) = divide(alloc, &mut due, &mut plans, &path, split) else {
                    return Err(BnbStop::NoMemory);
                };
                let Ok(()) = purse.spend(Unit::Branch) else {
                    return Err(BnbStop::Spent);
                };
            }
            Ok(Fate::Below { base, dir }) => return Ok(Found::Below { base, dir }),
        }
    }
    Ok(Found::Grown { best, plans })
}
