ghost use Rattle.std.specs.Prelude.{◌≡◌, ◌<◌, pos, ◌+ℤ◌, ◌≤ℤ◌, [], length, map, IfOk, OnOk};
ghost use Rattle.std.specs.List.{All};
ghost use Rattle.zr_base.specs.Points.{IsPoint, IsSamePoint};
ghost use Rattle.zr_base.specs.Steps.{IsNarrow};
ghost use Rattle.zr_game.specs.Profiles.{total};
ghost use Rattle.zr_mix.specs.Mixtures.{part_of};
ghost use Rattle.zr_tidy.specs.Merges.{AreMerged, HasPut, HasPutLowest};
ghost use Rattle.zr_tidy.specs.Places.{IsPlace};
ghost use Rattle.zr_tidy.specs.Tidy.{AreParts};

use crate::point::{lowest, order};
use std::alloc::Global;
use std::cmp::Ordering;
use zr_base::{NoMemory, Point};
use zr_mix::Part;

/// Where a point stands among parts, or is to stand.
#[derive(Clone, Copy, Debug)]
pub(crate) enum Place {
    Met(usize),
    Before(usize),
}

/// The parts, each put among those before it.
pub(crate) fn merged(alloc: Global, raw: &[Part]) -> Result<Vec<Part>, NoMemory>
    requires { AreParts (map part_of raw.now) }
    ensures merged { IfOk result (λ parts. AreMerged [] (map part_of raw.now)
        (map part_of parts.items)) }
    ensures points { IfOk result (λ parts. All (λ part. IsPoint part.point.num part.point.den)
        parts.items) }
{
    let mut parts = Vec::new(alloc);
    for part in raw {
        put_lowest(alloc, &mut parts, part)?;
    }
    Ok(parts)
}

/// Puts a part among others, with its point in lowest terms.
fn put_lowest(alloc: Global, parts: &mut Vec<Part>, raw: &Part) -> Result<(), NoMemory>
    requires lengths { All (λ part. length part.point.num ≡ length raw.now.point.num)
        parts.old.items }
    requires weights { All (λ part. pos 1 ≤ℤ part.weight) parts.old.items }
    requires weight { pos 1 ≤ℤ raw.now.weight }
    requires narrow { IsNarrow (total (map part_of parts.old.items) +ℤ raw.now.weight) }
    requires points { All (λ part. IsPoint part.point.num part.point.den) parts.old.items }
    ensures put { OnOk result (HasPutLowest (part_of raw.now) (map part_of parts.old.items)
        (map part_of parts.new.items)) }
    ensures points { OnOk result (All (λ part. IsPoint part.point.num part.point.den)
        parts.new.items) }
{
    let point = lowest(alloc, &raw.point)?;
    put(
        parts,
        Part {
            weight: raw.weight,
            point,
        },
    )
}

/// Puts a part among others, before the first whose point it doesn't come after. Where its point
/// stands there already, its weight is added to that one.
fn put(parts: &mut Vec<Part>, part: Part) -> Result<(), NoMemory>
    requires lengths { All (λ other. length other.point.num ≡ length part.point.num)
        parts.old.items }
    requires weights { All (λ other. pos 1 ≤ℤ other.weight) parts.old.items }
    requires weight { pos 1 ≤ℤ part.weight }
    requires narrow { IsNarrow (total (map part_of parts.old.items) +ℤ part.weight) }
    ensures { OnOk result (HasPut (part_of part) (map part_of parts.old.items)
        (map part_of parts.new.items)) }
{
    match place_of(parts, &part.point) {
        Place::Met(k) => {
            parts[k].weight += part.weight;
            Ok(())
        }
        Place::Before(k) => {
            let Ok(()) = parts.insert(k, part) else {
                return Err(NoMemory);
            };
            Ok(())
        }
    }
}

/// The place of a point of as many numbers as each part's has.
fn place_of(parts: &[Part], point: &Point) -> Place
    requires { All (λ part. length part.point.num ≡ length point.now.num) parts.now }
    ensures { IsPlace (map part_of parts.now) point.now result }
{
    for k in 0..parts.len() {
        match order(&parts[k].point, point) {
            Ordering::Less => {}
            Ordering::Equal => return Place::Met(k),
            Ordering::Greater => return Place::Before(k),
        }
    }
    Place::Before(parts.len())
}
