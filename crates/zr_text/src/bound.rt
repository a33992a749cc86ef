//! Bounds: a line for each player's cost, and its tree.

ghost use Rattle.std.specs.Prelude.{◌≡◌, ◌^◌, ◌<◌, length, map, option_map, true, false, MatchOption};
ghost use Rattle.zr_base.specs.Fractions.{ratio};
ghost use Rattle.zr_base.specs.Lowest.{IsRatio};
ghost use Rattle.zr_cert.specs.Certs.{bound_of};
ghost use Rattle.zr_form.specs.Lines.{by_fields, fields_of, lines_of};
ghost use Rattle.zr_form.specs.Reading.{many_read, one_read};
ghost use Rattle.zr_form.specs.Stops.{Gives, ReadsLine};
ghost use Rattle.zr_text.specs.Code.{cost_numbers};
ghost use Rattle.zr_text.specs.Fits.{is_lowest};
ghost use Rattle.zr_text.specs.Reader.{bound_read, cost_at};

use crate::loose::is_cost;
use std::alloc::Global;
use zr_base::{Frac, gcd};
use zr_cert::Bound;
use zr_form::{LineFault, ReadError, first_line, placed, positive, signed, word};
use zr_lines::{Ends, ended, index, take_tree};

/// The fraction, if it is in lowest terms.
fn lowest(num: i128, den: i128) -> Option<Frac>
    requires { IsRatio num den }
    ensures { MatchOption result (is_lowest num den ≡ false) (λ f. (is_lowest num den ≡ true) × (f ≡ ratio num den)) }
{
    if gcd(num.unsigned_abs(), den.unsigned_abs()) != 1 {
        return None;
    }
    Frac::new(num, den)
}

/// The numerator and the denominator of player `i`'s cost, within the upper bounds.
fn cost_numbers(line: &[u8], i: u32) -> Option<(i128, i128)>
    ensures { option_map (λ h. (i, (h.0, h.1))) result ≡ cost_numbers true i (fields_of line.now) }
{
    let rest = word(Some(line), b"cost")?;
    let rest = index(rest, i)?;
    let (num, rest) = signed(rest)?;
    let (den, rest) = positive(rest)?;
    ended(rest)?;
    Some((num, den))
}

/// The cost of player `i`, within the upper bounds.
fn cost(line: &[u8], i: u32) -> Option<Frac>
    ensures { option_map (λ f. (i, (f.num, f.den))) result ≡ cost_at true i (fields_of line.now) }
{
    let (num, den) = cost_numbers(line, i)?;
    lowest(num, den)
}

/// The cost of player `i`.
fn cost_line(line: &[u8], i: u32) -> Result<Frac, LineFault>
    ensures { ReadsLine (λ f. (i, (f.num, f.den))) result (cost_at true i (fields_of line.now)) (cost_at false i (fields_of line.now)) }
{
    match cost(line, i) {
        Some(cost) => Ok(cost),
        None => Err(LineFault::of_line(is_cost(line, i))),
    }
}

/// The bound of player `i`, and what follows it.
fn take_bound(alloc: Global, bytes: &[u8], i: u32) -> Result<(Bound, &[u8]), ReadError>
    requires { length bytes.now < 2 ^ 32 }
    ensures { Gives bound_of result (bound_read true i (lines_of bytes.now)) (bound_read false i (lines_of bytes.now)) }
{
    let (line, rest) = first_line(bytes)?;
    let cost = placed(cost_line(line, i), bytes.len())?;
    match take_tree(alloc, rest, Ends::Proofs) {
        Err(error) => Err(error),
        Ok((tree, rest)) => Ok((Bound { cost, tree }, rest)),
    }
}

/// A bound for each player, and what follows them.
pub(crate) fn take_bounds(
    alloc: Global,
    bytes: &[u8],
    players: u32,
) -> Result<(Vec<Bound>, &[u8]), ReadError>
    requires { length bytes.now < 2 ^ 32 }
    ensures { Gives (λ all. map bound_of all.items) result (many_read (bound_read true) players 0 (lines_of bytes.now)) (many_read (bound_read false) players 0 (lines_of bytes.now)) }
{
    let mut all = Vec::new(alloc);
    let mut rest = bytes;
    for i in 0..players {
        let (bound, after) = take_bound(alloc, rest, i)?;
        all.push(bound)?;
        rest = after;
    }
    Ok((all, rest))
}
