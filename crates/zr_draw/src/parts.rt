ghost use Rattle.std.specs.Prelude.{◌≡◌, ◌<◌, ◌<ℤ◌, ◌++◌, ◌∷◌, [], ℕ, pos, int_lt, if◌then◌else◌, length, map, IfOk, OnOk};
ghost use Rattle.std.specs.List.{All};
ghost use Rattle.zr_base.specs.Steps.{IsNarrow};
ghost use Rattle.zr_game.specs.Games.{game_of};
ghost use Rattle.zr_mix.specs.Mixtures.{part_of};
ghost use Rattle.zr_system.specs.Asked.{AreLeaves, LeafExists, firsts};
ghost use Rattle.zr_system.specs.Drawn as content;
ghost use Rattle.zr_system.specs.Regions as regions;
ghost use Rattle.zr_system.specs.Regions.{leaves_of};
ghost use Rattle.zr_system.specs.declared.unknown.Unknown.TheVariants.{Share, Weight};
ghost use Rattle.zr_draw.specs.Numbers.{HasColumns, numbers_of};

use std::alloc::{AllocError, Global};
use zr_base::Point;
use zr_game::Game;
use zr_mix::Part;
use zr_system::{Leaves, leaf_count, share_column, var_count};

/// The number of a leaf's weight.
fn weight_of(game: &Game, leaves: &Leaves, x: &Point, i: usize, k: usize) -> i128
    requires leaves { AreLeaves (game_of game.now) leaves.now }
    requires columns { HasColumns (game_of game.now) (leaves_of leaves.now) x.now }
    requires leaf { LeafExists (game_of game.now) (leaves_of leaves.now) i k }
    ensures value { result ≡ numbers_of (game_of game.now) (leaves_of leaves.now) x.now
        (Weight i k) }
    ensures narrow { IsNarrow result }
{
    x.num(share_column(game, leaves, i, k) + var_count(game, i))
}

/// The numbers of a leaf's shares.
fn shares_of(
    alloc: Global,
    game: &Game,
    leaves: &Leaves,
    x: &Point,
    i: usize,
    k: usize,
) -> Result<Vec<i128>, AllocError>
    requires leaves { AreLeaves (game_of game.now) leaves.now }
    requires columns { HasColumns (game_of game.now) (leaves_of leaves.now) x.now }
    requires leaf { LeafExists (game_of game.now) (leaves_of leaves.now) i k }
    ensures values { IfOk result (λ shares. shares.items
        ≡ firsts (regions.var_count (game_of game.now) i) (λ v. numbers_of (game_of game.now)
        (leaves_of leaves.now) x.now (Share i k v))) }
    ensures narrow { IfOk result (λ shares. All IsNarrow shares.items) }
{
    let first = share_column(game, leaves, i, k);
    let mut shares = Vec::new(alloc);
    for v in 0..var_count(game, i) {
        shares.push(x.num(first + v))?;
    }
    Ok(shares)
}

/// A leaf's shares over its weight, with this weight.
fn leaf_part(
    alloc: Global,
    game: &Game,
    leaves: &Leaves,
    x: &Point,
    i: usize,
    k: usize,
) -> Result<Part, AllocError>
    requires leaves { AreLeaves (game_of game.now) leaves.now }
    requires columns { HasColumns (game_of game.now) (leaves_of leaves.now) x.now }
    requires leaf { LeafExists (game_of game.now) (leaves_of leaves.now) i k }
    requires used { pos 0 <ℤ numbers_of (game_of game.now) (leaves_of leaves.now) x.now
        (Weight i k) }
    ensures { IfOk result (λ part. part_of part ≡ content.drawn_part (game_of game.now)
        (numbers_of (game_of game.now) (leaves_of leaves.now) x.now) i k) }
{
    let shares = shares_of(alloc, game, leaves, x, i, k)?;
    let weight = weight_of(game, leaves, x, i, k);
    match Point::new(shares, weight) {
        Ok(point) => Ok(Part { weight, point }),
        Err(_) => unreachable!(),
    }
}

/// Appends a leaf's part, if the leaf has weight.
fn push_leaf(
    alloc: Global,
    game: &Game,
    leaves: &Leaves,
    x: &Point,
    i: usize,
    k: usize,
    parts: &mut Vec<Part>,
) -> Result<(), AllocError>
    requires leaves { AreLeaves (game_of game.now) leaves.now }
    requires columns { HasColumns (game_of game.now) (leaves_of leaves.now) x.now }
    requires leaf { LeafExists (game_of game.now) (leaves_of leaves.now) i k }
    ensures { OnOk result (map part_of parts.new.items ≡ map part_of parts.old.items
        ++ (if int_lt (pos 0) (numbers_of (game_of game.now) (leaves_of leaves.now) x.now
        (Weight i k)) then content.drawn_part (game_of game.now)
        (numbers_of (game_of game.now) (leaves_of leaves.now) x.now) i k ∷ [] else [])) }
{
    if weight_of(game, leaves, x, i, k) > 0 {
        parts.push(leaf_part(alloc, game, leaves, x, i, k)?)?;
    }
    Ok(())
}

/// The parts of the strategy that a player's leaves draw: one for each leaf that has weight.
pub(crate) fn drawn_parts(
    alloc: Global,
    game: &Game,
    leaves: &Leaves,
    x: &Point,
    i: usize,
) -> Result<Vec<Part>, AllocError>
    requires leaves { AreLeaves (game_of game.now) leaves.now }
    requires columns { HasColumns (game_of game.now) (leaves_of leaves.now) x.now }
    requires player { i < length (game_of game.now) }
    ensures { IfOk result (λ parts. map part_of parts.items
        ≡ content.drawn_strategy (game_of game.now) (leaves_of leaves.now)
        (numbers_of (game_of game.now) (leaves_of leaves.now) x.now) i) }
{
    let mut parts = Vec::new(alloc);
    for k in 0..leaf_count(game, leaves, i) {
        push_leaf(alloc, game, leaves, x, i, k, &mut parts)?;
    }
    Ok(parts)
}
