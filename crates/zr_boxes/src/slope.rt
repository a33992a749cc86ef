ghost use Rattle.std.specs.Prelude.{◌≡◌, ◌==◌, if◌then◌else◌, IfOk, Ok, map};
ghost use Rattle.std.specs.List.{filter, list_any};
ghost use Rattle.zr_base.specs.Steps.{IsNarrow};
ghost use Rattle.zr_base.specs.Sums.{sum_step, sum_steps};
ghost use Rattle.zr_base.specs.Terms.{coef_at};
ghost use Rattle.zr_game.specs.Players.{player_of};
ghost use Rattle.zr_boxes.specs.Gains.{counts as counts_in, end_terms};
ghost use Rattle.zr_boxes.specs.GainSteps.{slope_range_steps};
ghost use Rattle.zr_boxes.specs.Paths.{box_of};
ghost use Rattle.zr_boxes.specs.Ranges.{end_at as end_in, range_of as range_in};

use crate::bounded::range_of;
use crate::range::{End, Range, end_at};
use crate::refute::number_at;
use zr_base::{Wide, add_product};
use zr_game::{CrossTerm, Leaf, Player};

/// Whether the variable stands in the player's own terms or in its cross terms.
pub(crate) fn counts(player: &Player, v: usize) -> bool
    ensures { result ≡ counts_in (player_of player.now) v }
{
    let own = is_in_terms(player.cost.as_slice(), v);
    let cross = is_in_cross(&player.cross, v);
    own | cross
}

fn is_in_terms(cost: &[(u32, i64)], v: usize) -> bool
    ensures { result ≡ list_any (λ t. t.0 == v) cost.now }
{
    for (var, _) in cost {
        if *var as usize == v {
            return true;
        }
    }
    false
}

fn is_in_cross(cross: &[CrossTerm], v: usize) -> bool
    ensures { result ≡ list_any (λ t. t.own == v) cross.now }
{
    for term in cross {
        if term.own as usize == v {
            return true;
        }
    }
    false
}

/// The least and the greatest slope of the cost along variable `v` in the box.
pub(crate) fn slope_range(player: &Player, leaves: &[Leaf], v: usize) -> Result<Range, Wide>
    ensures { result ≡ slope_range_steps (player_of player.now) (box_of leaves.now) v }
{
    let low = slope_end(End::Least, player, leaves, v)?;
    let high = slope_end(End::Greatest, player, leaves, v)?;
    Ok(Range { low, high })
}

/// The own number and the cross terms of variable `v`, each with the other variable at the end
/// where it is least, or greatest.
fn slope_end(end: End, player: &Player, leaves: &[Leaf], v: usize) -> Result<i128, Wide>
    ensures { result ≡ sum_steps (coef_at (player_of player.now).cost v)
        (end_terms end (player_of player.now) (box_of leaves.now) v) }
{
    let own = i128::from(number_at(player.cost.as_slice(), v));
    with_terms(end, own, &player.cross, leaves, v)
}

/// The sum so far and the cross terms of variable `v`.
fn with_terms(
    end: End,
    start: i128,
    cross: &[CrossTerm],
    leaves: &[Leaf],
    v: usize,
) -> Result<i128, Wide>
    requires { IsNarrow start }
    ensures { result ≡ sum_steps start (map (λ t. (
      t.coef,
      end_in end t.coef
          (range_in (box_of leaves.now) t.player t.var),
    )) (filter (λ t. t.own == v) cross.now)) }
{
    let mut sum = start;
    for term in cross {
        sum = with_term(end, sum, term, leaves, v)?;
    }
    Ok(sum)
}

/// The sum so far, and the term where it is one of variable `v`.
fn with_term(end: End, sum: i128, term: &CrossTerm, leaves: &[Leaf], v: usize) -> Result<i128, Wide>
    requires { IsNarrow sum }
    ensures step { result ≡ (if term.now.own == v then sum_step sum (
      term.now.coef,
      end_in end term.now.coef (range_in (box_of leaves.now) term.now.player term.now.var),
    )
        else Ok sum) }
    ensures narrow { IfOk result IsNarrow }
{
    if term.own as usize != v {
        return Ok(sum);
    }
    let value = end_at(
        end,
        term.coef,
        range_of(leaves, term.player, term.var as usize),
    );
    add_product(sum, i128::from(term.coef), value)
}
