// Thirty programs that a linear congruential generator makes, with the values that
// bench/made_programs.py finds for them in exact fractions.

ghost use Rattle.std.specs.Prelude.{◌≡◌, ◌<◌, ◌≤◌, ◌*◌, length, map, IfOk, false};
ghost use Rattle.std.specs.List.{All};
ghost use Rattle.zr_base.specs.Steps.{IsNarrow};
ghost use Rattle.zr_base.specs.Terms.{Ascends};
ghost use Rattle.zr_lin.specs.Ineqs.{IsIneq, ineq_of};
ghost use Rattle.zr_simplex.specs.Programs.{IsLp};

use crate::program::{Lp, LpAnswer};
use crate::solve::solve_lp;
use std::alloc::{AllocError, Global};
use std::test::Fail;
use zr_base::{Point, Wide, add_product, cross};
use zr_io::Purse;
use zr_lin::Ineq;

/// What a program has: a least value, no point, or no least value.
#[derive(Clone, Copy)]
enum Found {
    Best(i128, i128),
    Empty,
    Unbounded,
}

/// `state' = (1103515245 * state + 12345) mod 2^31`; a draw below n is `(state' / 2^16) mod n`.
#[derive(Drop)]
struct Draws {
    state: u32,
}

impl Draws {
    fn below(&mut self, n: u32) -> u32
        requires { 0 < n }
        ensures { result < n }
    {
        self.state = ((1103515245 * u64::from(self.state) + 12345) % 2147483648) as u32;
        self.state / 65536 % n
    }
}

/// How the programs' numbers are drawn.
#[derive(Clone, Copy)]
struct Shape {
    parts: u32,
    stride: u32,
    rows: u32,
    low: u32,
    fall: u32,
    slack: u32,
    ghost small: { (0 < stride) × (parts ≤ 12) × (stride ≤ 10) × (rows ≤ 30) },
}

fn shape_of(k: u32) -> Shape
    requires { k < 30 }
{
    let slack = if k % 3 == 2 { 8 } else { 12 };
    if k < 15 {
        let size = 3 + k * 9 / 14;
        Shape {
            parts: size,
            stride: 1,
            rows: size,
            low: 5,
            fall: 8,
            slack,
        }
    } else {
        Shape {
            parts: 3,
            stride: 1 + (k - 14) * 9 / 15,
            rows: 3 + (k - 14) * 27 / 15,
            low: 2,
            fall: 4,
            slack,
        }
    }
}

/// A row with one number in each part of the columns.
fn made_row(alloc: Global, draws: &mut Draws, shape: Shape) -> Result<Ineq, AllocError>
    ensures row { IfOk result (λ row. IsIneq (shape.parts * shape.stride) (ineq_of row)) }
    ensures weak { IfOk result (λ row. row.strict ≡ false) }
{
    let mut coef = Vec::new(alloc);
    for part in 0..shape.parts {
        let column = part * shape.stride + draws.below(shape.stride);
        coef.push((column, i128::from(draws.below(13)) - i128::from(shape.low)))?;
    }
    let le = i128::from(draws.below(20)) - 12 + i128::from(shape.slack);
    Ok(Ineq {
        coef,
        le,
        strict: false,
    })
}

fn made_rows(alloc: Global, draws: &mut Draws, shape: Shape) -> Result<Vec<Ineq>, AllocError>
    ensures count { IfOk result (λ rows. length rows.items ≡ shape.rows) }
    ensures rows { IfOk result (λ rows. All (IsIneq (shape.parts * shape.stride)) (map ineq_of rows.items)) }
    ensures weak { IfOk result (λ rows. All (λ row. row.strict ≡ false) (map ineq_of rows.items)) }
{
    let mut rows = Vec::new(alloc);
    for _i in 0..shape.rows {
        rows.push(made_row(alloc, draws, shape)?)?;
    }
    Ok(rows)
}

fn made_aim(
    alloc: Global,
    draws: &mut Draws,
    columns: u32,
    fall: u32,
) -> Result<Vec<i128>, AllocError>
    ensures count { IfOk result (λ aim. length aim.items ≡ columns) }
    ensures narrow { IfOk result (λ aim. All IsNarrow aim.items) }
{
    let mut aim = Vec::new(alloc);
    for _j in 0..columns {
        aim.push(i128::from(draws.below(12)) - i128::from(fall))?;
    }
    Ok(aim)
}

fn made_program(alloc: Global, k: u32) -> Result<Lp, AllocError>
    requires { k < 30 }
    ensures { IfOk result IsLp }
{
    let shape = shape_of(k);
    let mut draws = Draws { state: k + 1 };
    let rows = made_rows(alloc, &mut draws, shape)?;
    let columns = shape.parts * shape.stride;
    let aim = made_aim(alloc, &mut draws, columns, shape.fall)?;
    Ok(Lp { columns, rows, aim })
}

/// The sum of the terms at a point's numerators.
fn value_at(coef: &[(u32, i128)], point: &Point) -> Result<i128, Wide>
    requires { Ascends 0 (length point.now.num) coef.now }
{
    let mut sum = 0;
    for (column, number) in coef {
        sum = add_product(sum, *number, point.num(*column as usize))?;
    }
    Ok(sum)
}

fn aim_at(aim: &[i128], point: &Point) -> Result<i128, Wide>
    requires { length aim.now ≡ length point.now.num }
{
    let mut sum = 0;
    for j in 0..aim.len() {
        sum = add_product(sum, aim[j], point.num(j))?;
    }
    Ok(sum)
}

/// Whether the point meets the rows and has the value `num / den`.
fn is_right(lp: &Lp, point: &Point, num: i128, den: i128) -> Result<bool, Wide>
    requires lp { IsLp lp.now }
    requires len { length point.now.num ≡ lp.now.columns }
{
    for row in &lp.rows {
        if cross((row.le, point.den()), (1, value_at(&row.coef, point)?))? < 0 {
            return Ok(false);
        }
    }
    Ok(cross((aim_at(&lp.aim, point)?, den), (num, point.den()))? == 0)
}

fn agrees(rt: &HostRuntime, k: u32, found: Found) -> Result<bool, Fail>
    requires { k < 30 }
{
    let alloc = rt.alloc();
    let lp = made_program(alloc, k)?;
    let mut purse = Purse::new(1000);
    let answer = solve_lp(alloc, &lp, &mut purse);
    match (answer, found) {
        (Ok(LpAnswer::Best { point, .. }), Found::Best(num, den)) => Ok(
            is_right(&lp, &point, num, den) == Ok(true),
        ),
        (Ok(LpAnswer::Empty { .. }), Found::Empty) => Ok(true),
        (Ok(LpAnswer::Unbounded { .. }), Found::Unbounded) => Ok(true),
        _ => Ok(false),
    }
}

#[test]
fn made_programs_have_the_values_found_in_fractions(rt: HostRuntime) -> Result<(), Fail> {
    let found = [
        Found::Best(-100, 59),
        Found::Unbounded,
        Found::Empty,
        Found::Best(-4, 1),
        Found::Best(-1253, 51),
        Found::Best(-59, 6),
        Found::Best(-1824, 49),
        Found::Best(-1212, 19),
        Found::Unbounded,
        Found::Best(-172, 23),
        Found::Best(-17290, 227),
        Found::Empty,
        Found::Best(-8, 1),
        Found::Best(-3833299, 113043),
        Found::Best(-33439000, 2145257),
        Found::Best(-3, 2),
        Found::Unbounded,
        Found::Empty,
        Found::Best(-37, 14),
        Found::Best(-629, 70),
        Found::Empty,
        Found::Best(-156, 19),
        Found::Best(-784, 45),
        Found::Empty,
        Found::Best(-1363, 42),
        Found::Best(-569, 28),
        Found::Empty,
        Found::Unbounded,
        Found::Best(-250499, 13356),
        Found::Empty,
    ];
    for (k, expected) in found.iter().enumerate() {
        assert!(rt; agrees(&rt, k as u32, *expected)?, "program {k}");
    }
    Ok(())
}
