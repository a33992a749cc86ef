ghost use Rattle.std.specs.Prelude.{◌<◌, IfSome, length};

use crate::setting::{Setting, best_value, gain_at, set_value, size_of, value_at};
use crate::slope::number_at;
use zr_base::Row;

/// A change of a value that brings a broken row nearer to its right side.
#[derive(Clone, Copy)]
struct Change {
    var: usize,
    value: i128,
    /// What the change takes from the least gain.
    loss: i128,
    /// How much of the excess it takes away; above 0.
    mended: i128,
}

/// How far the row's left side is above its right one.
fn excess(row: &Row, settings: &[Setting]) -> i128 {
    let mut sum = 0i128.saturating_sub(i128::from(row.le));
    for (var, coef) in row.coef.as_slice() {
        let term = i128::from(*coef).saturating_mul(value_at(settings, *var as usize));
        sum = sum.saturating_add(term);
    }
    sum
}

/// The first row that doesn't hold at the values.
fn first_broken(rows: &[Row], settings: &[Setting]) -> Option<usize>
    ensures { IfSome result (λ k. k < length rows.now) }
{
    for (k, row) in rows.iter().enumerate() {
        if excess(row, settings) > 0 {
            return Some(k);
        }
    }
    None
}

/// The change of the variable that mends the row, or mends it as far as the variable's bounds let
/// it. The row is broken by `over`.
fn mend_by(settings: &[Setting], var: usize, coef: i128, over: i128) -> Option<Change> {
    if var >= settings.len() {
        return None;
    }
    let setting = settings[var];
    let size = size_of(coef);
    if size < 1 {
        return None;
    }
    let units = over.saturating_sub(1).div_euclid(size).saturating_add(1);
    let room = if coef > 0 {
        setting.value.saturating_sub(setting.low)
    } else {
        setting.up.saturating_sub(setting.value)
    };
    let units = if room < units { room } else { units };
    if units < 1 {
        return None;
    }
    let value = if coef > 0 {
        setting.value.saturating_sub(units)
    } else {
        setting.value.saturating_add(units)
    };
    Some(Change {
        var,
        value,
        loss: gain_at(&setting, setting.value).saturating_sub(gain_at(&setting, value)),
        mended: units.saturating_mul(size),
    })
}

/// Of two changes the one that loses less for each unit that it mends.
fn cheaper(best: Option<Change>, other: Option<Change>) -> Option<Change> {
    let Some(b) = best else {
        return other;
    };
    let Some(o) = other else {
        return best;
    };
    if o.loss.saturating_mul(b.mended) < b.loss.saturating_mul(o.mended) {
        other
    } else {
        best
    }
}

/// The cheapest change of one variable that mends the row, at least in part.
fn cheapest(row: &Row, settings: &[Setting]) -> Option<Change> {
    let over = excess(row, settings);
    let mut best = None;
    for (var, coef) in row.coef.as_slice() {
        best = cheaper(
            best,
            mend_by(settings, *var as usize, i128::from(*coef), over),
        );
    }
    best
}

/// Changes values until all rows hold, always the cheapest change for the first broken row, and not
/// too often. Whether they hold.
pub(crate) fn mend(rows: &[Row], settings: &mut [Setting]) -> bool {
    for _ in 0..settings.len().saturating_mul(4) {
        let Some(k) = first_broken(rows, settings) else {
            return true;
        };
        let Some(change) = cheapest(&rows[k], settings) else {
            return false;
        };
        set_value(settings, change.var, change.value);
    }
    first_broken(rows, settings).is_none()
}

/// How far the variable may go up, or down, before the row breaks.
fn row_room(row: &Row, settings: &[Setting], var: usize, up: bool) -> i128 {
    let coef = i128::from(number_at(row.coef.as_slice(), var));
    let rise = if up { coef } else { 0i128.saturating_sub(coef) };
    if rise < 1 {
        return i128::MAX;
    }
    0i128.saturating_sub(excess(row, settings)).div_euclid(rise)
}

/// The value nearest to the best one that the variable can have while the rows hold.
fn reach(rows: &[Row], settings: &[Setting], var: usize) -> i128 {
    if var >= settings.len() {
        return 0;
    }
    let from = settings[var].value;
    let to = best_value(&settings[var]);
    let mut room = size_of(to.saturating_sub(from));
    for row in rows {
        let most = row_room(row, settings, var, from < to);
        room = if most < room { most } else { room };
    }
    if from < to {
        from.saturating_add(room)
    } else {
        from.saturating_sub(room)
    }
}

/// Brings one variable after another as near to its best value as the rows let it, which hold.
pub(crate) fn refill(rows: &[Row], settings: &mut [Setting]) {
    for var in 0..settings.len() {
        let value = reach(rows, settings, var);
        set_value(settings, var, value);
    }
}
