//! Points and rays: a denominator, and numbers to the end of the line.

ghost use Rattle.std.specs.Prelude.{◌≡◌, option_map, option_copied, IfOk, true};
ghost use Rattle.zr_game.specs.Named.{named_of};
ghost use Rattle.zr_form.specs.Bounds.{is_narrow};
ghost use Rattle.zr_form.specs.Code.{left_of};
ghost use Rattle.zr_form.specs.Fields.{integers};
ghost use Rattle.zr_lines.specs.Reader.{point_at, ray_at};

use std::alloc::{AllocError, Global};
use zr_base::Point;
use zr_form::{next_field, number, positive};
use zr_game::Named;

/// The numbers to the end of the line.
fn numbers(alloc: Global, left: Option<&[u8]>) -> Result<Option<Vec<i128>>, AllocError>
    ensures { IfOk result (λ o. option_map (λ v. v.items) o ≡ integers (is_narrow true) (left_of (option_copied left.entry))) }
{
    let mut nums = Vec::new(alloc);
    let mut rest = left;
    while let Some(line) = rest {
        let (field, after) = next_field(line);
        let Some(n) = number(field) else {
            return Ok(None);
        };
        nums.push(n)?;
        rest = after;
    }
    Ok(Some(nums))
}

/// The point to the end of the line, within the upper bounds: its denominator, and at least one
/// number.
pub fn point(alloc: Global, left: Option<&[u8]>) -> Result<Option<Point>, AllocError>
    ensures { IfOk result (λ o. option_map (λ x. x) o ≡ point_at true (left_of (option_copied left.entry))) }
{
    let Some((den, rest)) = positive(left) else {
        return Ok(None);
    };
    let Some(nums) = numbers(alloc, rest)? else {
        return Ok(None);
    };
    if nums.is_empty() {
        return Ok(None);
    }
    match Point::new(nums, den) {
        Ok(point) => Ok(Some(point)),
        Err(_) => unreachable!(),
    }
}

/// The ray to the end of the line, within the upper bounds: its base's denominator, and an even
/// number of numbers, the second half of which are the direction's.
pub(crate) fn ray(alloc: Global, left: Option<&[u8]>) -> Result<Option<Named>, AllocError>
    ensures { IfOk result (λ o. option_map named_of o ≡ ray_at true (left_of (option_copied left.entry))) }
{
    let Some((den, rest)) = positive(left) else {
        return Ok(None);
    };
    let Some(mut nums) = numbers(alloc, rest)? else {
        return Ok(None);
    };
    let half = nums.len() / 2;
    if half == 0 {
        return Ok(None);
    }
    if half + half != nums.len() {
        return Ok(None);
    }
    let dir = Vec::from_slice(alloc, &nums[half..])?;
    nums.truncate(half);
    match Point::new(nums, den) {
        Ok(base) => Ok(Some(Named::Ray { base, dir })),
        Err(_) => unreachable!(),
    }
}
