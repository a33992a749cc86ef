ghost use Rattle.std.specs.Prelude.{◌≡◌, pos, ◌≤ℤ◌, length, IfOk};

use super::*;
use std::alloc::Global;
use std::test::Fail;
use zr_base::Point;
use zr_mix::{Part, Strategy};

fn part(alloc: Global, weight: i128, num: [i128; 2], den: i128) -> Result<Part, Fail>
    requires some { pos 1 ≤ℤ weight }
    requires few { weight ≤ℤ pos 100 }
    ensures some { IfOk result (λ part. pos 1 ≤ℤ part.weight) }
    ensures few { IfOk result (λ part. part.weight ≤ℤ pos 100) }
    ensures len { IfOk result (λ part. length part.point.num ≡ 2) }
{
    match Point::new(vec![in alloc; num[0], num[1]]?, den) {
        Ok(point) => Ok(Part { weight, point }),
        Err(_) => Err(Fail::from("no point")),
    }
}

fn printed(alloc: Global, first: Part, second: Part, third: Part) -> Result<Strategy, Fail>
    requires some_first { pos 1 ≤ℤ first.weight }
    requires some_second { pos 1 ≤ℤ second.weight }
    requires some_third { pos 1 ≤ℤ third.weight }
    requires few_first { first.weight ≤ℤ pos 100 }
    requires few_second { second.weight ≤ℤ pos 100 }
    requires few_third { third.weight ≤ℤ pos 100 }
    requires len_first { length first.point.num ≡ 2 }
    requires len_second { length second.point.num ≡ 2 }
    requires len_third { length third.point.num ≡ 2 }
{
    let parts = vec![in alloc; first, second, third]?;
    match tidy(alloc, &parts) {
        Ok(strategy) => Ok(strategy),
        Err(_) => Err(Fail::from("no memory")),
    }
}

/// Whether part `k` has this weight and this point.
fn is_part(strategy: &Strategy, k: usize, weight: i128, num: [i128; 2], den: i128) -> bool {
    let Some(part) = strategy.parts.get(k) else {
        return false;
    };
    let point = &part.point;
    part.weight == weight
        && point.den() == den
        && point.len() == 2
        && point.num(0) == num[0]
        && point.num(1) == num[1]
}

#[test]
fn equal_points_are_one_part(rt: HostRuntime) -> Result<(), Fail> {
    let alloc = rt.alloc();
    let first = part(alloc, 1, [2, 4], 4)?;
    let second = part(alloc, 1, [0, 0], 5)?;
    let third = part(alloc, 1, [3, 6], 6)?;
    let strategy = printed(alloc, first, second, third)?;
    assert_eq!(rt; strategy.total, 3);
    assert_eq!(rt; strategy.parts.len(), 2);
    assert!(rt; is_part(&strategy, 0, 1, [0, 0], 1));
    assert!(rt; is_part(&strategy, 1, 2, [1, 2], 2));
    Ok(())
}

#[test]
fn points_ascend(rt: HostRuntime) -> Result<(), Fail> {
    let alloc = rt.alloc();
    let first = part(alloc, 1, [3, -5], 1)?;
    let second = part(alloc, 2, [1, 1], 2)?;
    let third = part(alloc, 3, [1, -1], 2)?;
    let strategy = printed(alloc, first, second, third)?;
    assert_eq!(rt; strategy.total, 6);
    assert_eq!(rt; strategy.parts.len(), 3);
    assert!(rt; is_part(&strategy, 0, 3, [1, -1], 2));
    assert!(rt; is_part(&strategy, 1, 2, [1, 1], 2));
    assert!(rt; is_part(&strategy, 2, 1, [3, -5], 1));
    Ok(())
}

#[test]
fn weights_have_no_common_divisor(rt: HostRuntime) -> Result<(), Fail> {
    let alloc = rt.alloc();
    let first = part(alloc, 6, [0, 1], 1)?;
    let second = part(alloc, 9, [1, 0], 1)?;
    let third = part(alloc, 12, [1, 1], 1)?;
    let strategy = printed(alloc, first, second, third)?;
    assert_eq!(rt; strategy.total, 9);
    assert_eq!(rt; strategy.parts.len(), 3);
    assert!(rt; is_part(&strategy, 0, 2, [0, 1], 1));
    assert!(rt; is_part(&strategy, 1, 3, [1, 0], 1));
    assert!(rt; is_part(&strategy, 2, 4, [1, 1], 1));
    Ok(())
}
