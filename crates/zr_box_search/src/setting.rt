ghost use Rattle.std.specs.Prelude.{ℕ};
ghost use Rattle.zr_game.specs.Players.{player_of};
ghost use Rattle.zr_boxes.specs.Paths.{box_of};
ghost use Rattle.zr_box_search.specs.Sizes.{IsNearPlayer};

use crate::slope::{Ends, bound_at, high_at, low_at, slope_ends};
use std::alloc::Global;
use zr_base::NoMemory;
use zr_game::{Leaf, Player};

/// The value of a variable in a point that is sought, its own bounds, and by what the value is
/// judged: its range in a box, and the least and the greatest slope there.
///
/// What is found by these is tested afterwards, so that sums and products may stop at their type's
/// ends.
#[derive(Clone, Copy)]
pub(crate) struct Setting {
    pub(crate) value: i128,
    pub(crate) low: i128,
    pub(crate) up: i128,
    range: Ends,
    slope: Ends,
}

/// The number without its sign.
pub(crate) fn size_of(number: i128) -> i128 {
    if number < 0 {
        0i128.saturating_sub(number)
    } else {
        number
    }
}

fn lesser(a: i128, b: i128) -> i128 {
    if b < a { b } else { a }
}

/// What the value adds to the least gain: the least product of an end of the way from it to the
/// range and an end of the slope.
pub(crate) fn gain_at(setting: &Setting, value: i128) -> i128 {
    let near = setting.range.low.saturating_sub(value);
    let far = setting.range.high.saturating_sub(value);
    lesser(
        least_times(near, setting.slope),
        least_times(far, setting.slope),
    )
}

fn least_times(way: i128, slope: Ends) -> i128 {
    lesser(
        way.saturating_mul(slope.low),
        way.saturating_mul(slope.high),
    )
}

/// The value that adds most: a bound, or an end of the range, between which it never adds more.
pub(crate) fn best_value(setting: &Setting) -> i128 {
    let outer = better_value(setting, setting.low, setting.up);
    let inner = better_value(setting, setting.range.low, setting.range.high);
    better_value(setting, outer, inner)
}

fn better_value(setting: &Setting, a: i128, b: i128) -> i128 {
    if gain_at(setting, a) < gain_at(setting, b) {
        b
    } else {
        a
    }
}

/// The settings of player `i`, each at the value that adds most to its least gain in the box.
pub(crate) fn best_settings(
    alloc: Global,
    player: &Player,
    i: u32,
    leaves: &[Leaf],
) -> Result<Vec<Setting>, NoMemory>
    requires { (k : ℕ) × IsNearPlayer (player_of player.now) k (box_of leaves.now) }
{
    let mut settings = Vec::new(alloc);
    for (v, var) in player.vars.iter().enumerate() {
        let mut setting = Setting {
            value: 0,
            low: i128::from(var.low.unwrap_or(0)),
            up: i128::from(var.up.unwrap_or(0)),
            range: range_at(leaves, i, v),
            slope: slope_ends(player, leaves, v),
        };
        setting.value = best_value(&setting);
        let Ok(()) = settings.push(setting) else {
            return Err(NoMemory);
        };
    }
    Ok(settings)
}

fn range_at(leaves: &[Leaf], i: u32, v: usize) -> Ends {
    Ends {
        low: i128::from(low_at(leaves, i, v)),
        high: i128::from(high_at(leaves, i, v)),
    }
}

/// The settings for a point in the leaf: each range is that of the leaf, each value is at its lower
/// end, and none is better than another.
pub(crate) fn box_settings(alloc: Global, leaf: &Leaf) -> Result<Vec<Setting>, NoMemory> {
    let mut settings = Vec::new(alloc);
    for (v, low) in leaf.low.iter().enumerate() {
        let low = i128::from(low.unwrap_or(0));
        let high = i128::from(bound_at(&leaf.high, v).unwrap_or(0));
        let setting = Setting {
            value: low,
            low,
            up: high,
            range: Ends { low, high },
            slope: Ends { low: 0, high: 0 },
        };
        let Ok(()) = settings.push(setting) else {
            return Err(NoMemory);
        };
    }
    Ok(settings)
}

/// The value of the variable; 0 where there is none.
pub(crate) fn value_at(settings: &[Setting], var: usize) -> i128 {
    if var < settings.len() {
        settings[var].value
    } else {
        0
    }
}

/// Gives the variable another value.
pub(crate) fn set_value(settings: &mut [Setting], var: usize, value: i128) {
    if var < settings.len() {
        settings[var].value = value;
    }
}

/// The sum of what all values add to the least gain.
pub(crate) fn sum_gains(settings: &[Setting]) -> i128 {
    let mut sum: i128 = 0;
    for setting in settings {
        sum = sum.saturating_add(gain_at(setting, setting.value));
    }
    sum
}
