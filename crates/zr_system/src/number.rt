ghost use Rattle.std.specs.Prelude.{◌≡◌, ◌<◌, pos, length, IfOk, IfErr, Err, IsErr, slice_get, Some, ◌-ℤ◌, ◌+ℤ◌};
ghost use Rattle.zr_base.specs.declared.step.Wide.{Wide as AWide};
ghost use Rattle.zr_base.specs.Steps.{IsNarrow};
ghost use Rattle.zr_base.specs.Sums.{sum_step, sum_steps};
ghost use Rattle.zr_game.specs.Games.{game_of};
ghost use Rattle.zr_system.specs.Regions as content;
ghost use Rattle.zr_game.specs.Named.{NamedOf, named_of};
ghost use Rattle.zr_system.specs.Regions.{LeavesOf, leaves_of};
ghost use Rattle.zr_system.specs.Forms.{number_at, only};
ghost use Rattle.zr_system.specs.Lines.{named_form, row_of_line};
ghost use Rattle.zr_system.specs.Values.{along_products, gain_value, own_value, pull_value, slope_value, slot_value, weights_value};
ghost use Rattle.zr_system.specs.Asked.{AreLeaves, IsNamedForm, IsPlain, IsUnknown, IsWideAt, LeafExists, LineExists, direction, firsts, slope_products};

use crate::leaves::Leaves;
use crate::line::Line;
use crate::reading::{cross_number, own_number, slot_number, slot_right, turned};
use crate::unknown::Unknown;
use zr_base::{Wide, add_product};
use zr_game::{Game, Named};

/// 1 where the unknowns are the same, and else 0.
fn single_number(u: Unknown, w: Unknown) -> i128
    ensures value { result ≡ only u w }
    ensures narrow { IsNarrow result }
{
    if u == w { 1 } else { 0 }
}

fn weights_number(i: usize, u: Unknown) -> i128
    ensures value { result ≡ weights_value i u }
    ensures narrow { IsNarrow result }
{
    match u {
        Unknown::One => -1,
        Unknown::Weight { player, .. } => { if player == i { 1 } else { 0 } }
        _ => 0,
    }
}

fn slot_form_number(game: &Game, leaves: &Leaves, i: usize, k: usize, s: usize, u: Unknown) -> i128
    requires leaves { AreLeaves (game_of game.now) leaves.now }
    requires leaf { LeafExists (game_of game.now) (leaves_of leaves.now) i k }
    requires unknown { IsUnknown (game_of game.now) (leaves_of leaves.now) u }
    ensures value { result ≡ slot_value (game_of game.now) (leaves_of leaves.now) i k s u }
    ensures narrow { IsNarrow result }
{
    match u {
        Unknown::Share { player, leaf, var } => {
            if player == i && leaf == k {
                slot_number(game, leaves, i, k, s, var)
            } else {
                0
            }
        }
        Unknown::Weight { player, leaf } => {
            if player == i && leaf == k {
                -slot_right(game, leaves, i, k, s)
            } else {
                0
            }
        }
        _ => 0,
    }
}

fn slope_number(game: &Game, i: usize, v: usize, u: Unknown) -> i128
    requires { i < length (game_of game.now) }
    ensures value { result ≡ slope_value (game_of game.now) i v u }
    ensures narrow { IsNarrow result }
{
    match u {
        Unknown::One => own_number(game, i, v),
        Unknown::Share { player, var, .. } => cross_number(game, i, v, player, var),
        _ => 0,
    }
}

fn pull_number(game: &Game, leaves: &Leaves, i: usize, k: usize, v: usize, u: Unknown) -> i128
    requires leaves { AreLeaves (game_of game.now) leaves.now }
    requires leaf { LeafExists (game_of game.now) (leaves_of leaves.now) i k }
    requires var { v < content.var_count (game_of game.now) i }
    ensures value { result ≡ pull_value (game_of game.now) (leaves_of leaves.now) i k v u }
    ensures narrow { IsNarrow result }
{
    match u {
        Unknown::Dual { player, leaf, slot } => {
            if player == i && leaf == k {
                slot_number(game, leaves, i, k, slot, v)
            } else {
                0
            }
        }
        _ => 0,
    }
}

fn gain_number(game: &Game, leaves: &Leaves, i: usize, k: usize, u: Unknown) -> i128
    requires leaves { AreLeaves (game_of game.now) leaves.now }
    requires leaf { LeafExists (game_of game.now) (leaves_of leaves.now) i k }
    ensures value { result ≡ gain_value (game_of game.now) (leaves_of leaves.now) i k u }
    ensures narrow { IsNarrow result }
{
    match u {
        Unknown::Worth { player } => { if player == i { 1 } else { 0 } }
        Unknown::Dual { player, leaf, slot } => {
            if player == i && leaf == k {
                slot_right(game, leaves, i, k, slot)
            } else {
                0
            }
        }
        _ => 0,
    }
}

/// The number of a variable in a named point, or in a ray's direction.
fn direction_number(item: &Named, vars: usize, v: usize) -> i128
    requires item { IsNamedForm vars (named_of item.now) }
    requires var { v < vars }
    ensures value { result ≡ direction (named_of item.now) v }
    ensures narrow { IsNarrow result }
{
    match item {
        Named::Point(point) => point.num(v),
        Named::Ray { dir, .. } => dir[v],
    }
}

/// The sum with one variable more.
fn along_step(
    sum: i128,
    game: &Game,
    i: usize,
    vars: usize,
    item: &Named,
    v: usize,
    u: Unknown,
) -> Result<i128, Wide>
    requires narrow { IsNarrow sum }
    requires player { i < length (game_of game.now) }
    requires item { IsNamedForm vars (named_of item.now) }
    requires var { v < vars }
    ensures step { result ≡ sum_step sum (
      slope_value (game_of game.now) i v u,
      direction
          (named_of item.now) v,
    ) }
    ensures narrow { IfOk result IsNarrow }
{
    add_product(
        sum,
        slope_number(game, i, v, u),
        direction_number(item, vars, v),
    )
}

/// The sum over the variables of the slope's number times the item's.
pub(crate) fn along_number(
    game: &Game,
    i: usize,
    vars: usize,
    item: &Named,
    u: Unknown,
) -> Result<i128, Wide>
    requires player { i < length (game_of game.now) }
    requires item { IsNamedForm vars (named_of item.now) }
    ensures steps { result ≡ sum_steps (pos 0)
        (along_products (game_of game.now) i (named_of item.now) u vars) }
    ensures narrow { IfOk result IsNarrow }
{
    let mut sum = 0;
    for v in 0..vars {
        match along_step(sum, game, i, vars, item, v, u) {
            Ok(next) => sum = next,
            Err(wide) => return Err(wide),
        }
    }
    Ok(sum)
}

/// The number of an unknown in a named item's row.
fn named_number(game: &Game, i: usize, vars: usize, item: &Named, u: Unknown) -> Result<i128, Wide>
    requires player { i < length (game_of game.now) }
    requires vars { vars ≡ content.var_count (game_of game.now) i }
    requires item { IsNamedForm vars (named_of item.now) }
    ensures exact { (leaves : LeavesOf) → IsUnknown (game_of game.now) leaves u
        → IfOk result (λ a. a ≡ number_at (named_form (game_of game.now) leaves i
        (named_of item.now)) u) }
    ensures narrow { IfOk result IsNarrow }
    ensures wide { (leaves : LeavesOf) → IsUnknown (game_of game.now) leaves u
        → IfErr result (λ w. sum_steps (pos 0) (slope_products (game_of game.now) leaves i
        (named_of item.now) u) ≡ Err w) }
    ensures wide_ends { (leaves : LeavesOf) (w : AWide) → IsUnknown (game_of game.now) leaves u
        → sum_steps (pos 0) (slope_products (game_of game.now) leaves i (named_of item.now) u) ≡
        Err w → IsErr result }
{
    match along_number(game, i, vars, item, u) {
        Err(wide) => Err(wide),
        Ok(sum) => Ok(own_part(item, i, u, sum)),
    }
}

/// What a named item's row has besides the negated sum: the point's denominator, at the value.
fn own_part(item: &Named, i: usize, u: Unknown, sum: i128) -> i128
    requires narrow { IsNarrow sum }
    requires none { u ≡ Unknown.Worth i → sum ≡ pos 0 }
    ensures value { result ≡ own_value i (named_of item.now) u -ℤ sum }
    ensures narrow { IsNarrow result }
{
    match (item, u) {
        (Named::Point(point), Unknown::Worth { player }) => {
            if player == i { point.den() } else { -sum }
        }
        _ => -sum,
    }
}

/// The number of an unknown in a row; of the common denominator, the number that stands by itself.
///
/// `Wide` exactly where a step of the sum is too wide, which is that of a named item's row.
pub fn number_in_row(game: &Game, leaves: &Leaves, line: Line, u: Unknown) -> Result<i128, Wide>
    requires leaves { AreLeaves (game_of game.now) leaves.now }
    requires line { LineExists (game_of game.now) (leaves_of leaves.now) line }
    requires unknown { IsUnknown (game_of game.now) (leaves_of leaves.now) u }
    ensures exact { IfOk result (λ a. a ≡ number_at
        (row_of_line (game_of game.now) (leaves_of leaves.now) line).left u) }
    ensures narrow { IfOk result IsNarrow }
    ensures wide { IfErr result (IsWideAt (game_of game.now) (leaves_of leaves.now) line u) }
    ensures wide_ends { (w : AWide) → IsWideAt (game_of game.now) (leaves_of leaves.now) line u w
        → IsErr result }
{
    match line {
        Line::Named { player, item } => { named_at(game, leaves, player, item, u) }
        _ => Ok(plain_number(game, leaves, line, u)),
    }
}

/// The number of an unknown in the row of a named item.
fn named_at(game: &Game, leaves: &Leaves, i: usize, n: usize, u: Unknown) -> Result<i128, Wide>
    requires leaves { AreLeaves (game_of game.now) leaves.now }
    requires line { LineExists (game_of game.now) (leaves_of leaves.now) (Line.Named i n) }
    requires unknown { IsUnknown (game_of game.now) (leaves_of leaves.now) u }
    ensures exact { IfOk result (λ a. a ≡ number_at
        (row_of_line (game_of game.now) (leaves_of leaves.now) (Line.Named i n)).left u) }
    ensures narrow { IfOk result IsNarrow }
    ensures wide { IfErr result (IsWideAt (game_of game.now) (leaves_of leaves.now)
        (Line.Named i n) u) }
    ensures wide_ends { (w : AWide) → IsWideAt (game_of game.now) (leaves_of leaves.now)
        (Line.Named i n) u w → IsErr result }
{
    named_number(game, i, game.players[i].vars.len(), &leaves.named[i][n], u)
}

/// The number of an unknown in a row that isn't that of a named item.
fn plain_number(game: &Game, leaves: &Leaves, line: Line, u: Unknown) -> i128
    requires leaves { AreLeaves (game_of game.now) leaves.now }
    requires line { LineExists (game_of game.now) (leaves_of leaves.now) line }
    requires unknown { IsUnknown (game_of game.now) (leaves_of leaves.now) u }
    requires plain { IsPlain line }
    ensures value { result ≡ number_at (row_of_line (game_of game.now) (leaves_of leaves.now)
        line).left u }
    ensures narrow { IsNarrow result }
{
    match line {
        Line::Weights { player, negated } => turned(weights_number(player, u), negated),
        Line::Slot {
            player,
            leaf,
            slot,
            negated,
        } => turned(
            slot_form_number(game, leaves, player, leaf, slot, u),
            negated,
        ),
        Line::Weight {
            player,
            leaf,
            negated,
        } => turned(-single_number(u, Unknown::Weight { player, leaf }), negated),
        Line::Dual {
            player,
            leaf,
            slot,
            negated,
        } => turned(
            -single_number(u, Unknown::Dual { player, leaf, slot }),
            negated,
        ),
        Line::Pull {
            player,
            leaf,
            var,
            negated,
        } => turned(pull_row_number(game, leaves, player, leaf, var, u), negated),
        Line::Gain {
            player,
            leaf,
            negated,
        } => turned(gain_number(game, leaves, player, leaf, u), negated),
        Line::Named { .. } => unreachable!(),
        Line::Positive { player, leaf } => -single_number(u, Unknown::Weight { player, leaf }),
        Line::Share {
            player,
            leaf,
            var,
            negated,
        } => turned(
            single_number(u, Unknown::Share { player, leaf, var }),
            negated,
        ),
        Line::Whole { player, leaf } => whole_number(player, leaf, u),
    }
}

/// The slope's number and what the multipliers pull, of which one is 0.
fn pull_row_number(game: &Game, leaves: &Leaves, i: usize, k: usize, v: usize, u: Unknown) -> i128
    requires leaves { AreLeaves (game_of game.now) leaves.now }
    requires leaf { LeafExists (game_of game.now) (leaves_of leaves.now) i k }
    requires var { v < content.var_count (game_of game.now) i }
    ensures value { result ≡ slope_value (game_of game.now) i v u +ℤ pull_value (game_of game.now)
        (leaves_of leaves.now) i k v u }
    ensures narrow { IsNarrow result }
{
    match u {
        Unknown::Dual { .. } => pull_number(game, leaves, i, k, v, u),
        _ => slope_number(game, i, v, u),
    }
}

/// 1 less the weight.
fn whole_number(i: usize, k: usize, u: Unknown) -> i128
    ensures value { result ≡ only u Unknown.One -ℤ only u (Unknown.Weight i k) }
    ensures narrow { IsNarrow result }
{
    match u {
        Unknown::One => 1,
        _ => -single_number(u, Unknown::Weight { player: i, leaf: k }),
    }
}
