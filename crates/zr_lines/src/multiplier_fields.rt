//! Multipliers, with their count or after it.

ghost use Rattle.std.specs.Prelude.{◌≡◌, ◌<◌, length, option_map, option_copied, IfOk, IfSome, true};
ghost use Rattle.zr_form.specs.Code.{left_of};
ghost use Rattle.zr_form.specs.Lines.{fields_of};
ghost use Rattle.zr_lines.specs.Fits.{ascend};
ghost use Rattle.zr_lines.specs.Reader.{counted, counting, multipliers};
ghost use Rattle.zr_lines.specs.Code.{TakesPair};

use crate::field::INDEX_LIMIT;
use std::alloc::{AllocError, Global};
use zr_form::{positive, small};

/// A slot and its multiplier.
fn multiplier(line: &[u8]) -> Option<(u32, i128, Option<&[u8]>)>
    ensures reads { TakesPair line.now result }
    ensures shorter { IfSome result (λ x. length (left_of (option_copied x.2)) < length (fields_of line.now)) }
{
    let (slot, rest) = small(Some(line), INDEX_LIMIT)?;
    let (by, rest) = positive(rest)?;
    Some((slot as u32, by, rest))
}

/// Slots and their multipliers, to the end of the line.
fn multipliers(alloc: Global, left: Option<&[u8]>) -> Result<Option<Vec<(u32, i128)>>, AllocError>
    ensures { IfOk result (λ o. option_map (λ v. v.items) o ≡ multipliers true (left_of (option_copied left.entry))) }
{
    let mut mult = Vec::new(alloc);
    let mut rest = left;
    while let Some(line) = rest {
        let Some((slot, by, after)) = multiplier(line) else {
            return Ok(None);
        };
        mult.push((slot, by))?;
        rest = after;
    }
    Ok(Some(mult))
}

/// Whether slots ascend.
fn ascends(mult: &[(u32, i128)]) -> bool
    ensures { result ≡ ascend mult.now }
{
    let mut least: u64 = 0;
    for (slot, _) in mult {
        if (*slot as u64) < least {
            return false;
        }
        least = *slot as u64 + 1;
    }
    true
}

/// So many slots and their multipliers, with slots that ascend, and nothing after them.
pub(crate) fn counted(
    alloc: Global,
    left: Option<&[u8]>,
    count: u64,
) -> Result<Option<Vec<(u32, i128)>>, AllocError>
    ensures { IfOk result (λ o. option_map (λ v. v.items) o ≡ counted true count (left_of (option_copied left.entry))) }
{
    let Some(mult) = multipliers(alloc, left)? else {
        return Ok(None);
    };
    if mult.len() as u64 == count && ascends(&mult) {
        Ok(Some(mult))
    } else {
        Ok(None)
    }
}

/// A count, and so many slots and their multipliers, with nothing after them.
#[tactic(auto, unfolding(crate::specs::Reader::counting))]
pub(crate) fn counting(
    alloc: Global,
    left: Option<&[u8]>,
) -> Result<Option<Vec<(u32, i128)>>, AllocError>
    ensures { IfOk result (λ o. option_map (λ v. v.items) o ≡ counting true (left_of (option_copied left.entry))) }
{
    let Some((count, rest)) = small(left, INDEX_LIMIT) else {
        return Ok(None);
    };
    counted(alloc, rest, count)
}
