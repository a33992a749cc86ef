ghost use Rattle.zr_base.specs.Steps.{IsNarrow};

mod made;
mod resumed;

use crate::program::{Lp, LpAnswer, Stop};
use crate::solve::solve_lp;
use std::test::Fail;
use zr_base::Frac;
use zr_io::Purse;
use zr_lin::Ineq;

fn one_column(
    rt: &HostRuntime,
    coef: i128,
    le: i128,
    aim: i128,
    limit: u64,
) -> Result<Result<LpAnswer, Stop>, Fail>
    requires coef { IsNarrow coef }
    requires le { IsNarrow le }
    requires aim { IsNarrow aim }
{
    let alloc = rt.alloc();
    let row = Ineq {
        coef: vec![in alloc; (0, coef)]?,
        le,
        strict: false,
    };
    let lp = Lp {
        columns: 1,
        rows: vec![in alloc; row]?,
        aim: vec![in alloc; aim]?,
    };
    let mut purse = Purse::new(limit);
    Ok(solve_lp(alloc, &lp, &mut purse))
}

#[test]
fn the_least_value_is_reached(rt: HostRuntime) -> Result<(), Fail> {
    match one_column(&rt, 2, 5, -1, 9)? {
        Ok(
            LpAnswer::Best {
                point,
                scale,
                value,
                mult,
                extra,
            },
        ) => {
            assert_eq!(rt; value, -5);
            assert_eq!(rt; point.len(), 1);
            assert_eq!(rt; (point.num(0), point.den()), (5, 2));
            assert_eq!(rt; scale, 2);
            assert_eq!(rt; mult.len(), 1);
            assert_eq!(rt; mult[0], (0, 1));
            assert_eq!(rt; extra.len(), 0);
            Ok(())
        }
        _ => Err(Fail::from("not best")),
    }
}

#[test]
fn no_point_meets_the_rows(rt: HostRuntime) -> Result<(), Fail> {
    match one_column(&rt, 1, -1, 0, 9)? {
        Ok(LpAnswer::Empty { mult, extra }) => {
            assert_eq!(rt; mult.len(), 1);
            assert_eq!(rt; mult[0], (0, 1));
            assert_eq!(rt; extra.len(), 1);
            assert_eq!(rt; extra[0], (0, 1));
            Ok(())
        }
        _ => Err(Fail::from("not empty")),
    }
}

#[test]
fn the_value_falls_without_end(rt: HostRuntime) -> Result<(), Fail> {
    let alloc = rt.alloc();
    let lp = Lp {
        columns: 1,
        rows: vec![in alloc]?,
        aim: vec![in alloc; -1]?,
    };
    let mut purse = Purse::new(9);
    match solve_lp(alloc, &lp, &mut purse) {
        Ok(LpAnswer::Unbounded { point, ray }) => {
            assert_eq!(rt; (point.num(0), point.den()), (0, 1));
            assert_eq!(rt; ray.len(), 1);
            assert_eq!(rt; ray[0], 1);
            Ok(())
        }
        _ => Err(Fail::from("not unbounded")),
    }
}

#[test]
fn a_purse_with_no_unit_left_counts_pivots(rt: HostRuntime) -> Result<(), Fail> {
    match one_column(&rt, 2, 5, -1, 0)? {
        Ok(LpAnswer::Best { scale, value, .. }) => {
            assert_eq!(rt; (value, scale), (-5, 2));
            Ok(())
        }
        _ => Err(Fail::from("not best")),
    }
}

#[test]
fn ties_end_at_the_point(rt: HostRuntime) -> Result<(), Fail> {
    let alloc = rt.alloc();
    let rows = vec![in alloc;
        Ineq {
            coef: vec![in alloc; (0, 1), (1, -1)]?,
            le: 0,
            strict: false
        },
        Ineq {
            coef: vec![in alloc; (0, -1), (1, 1)]?,
            le: 0,
            strict: false
        },
        Ineq {
            coef: vec![in alloc; (0, 1), (1, 1)]?,
            le: 2,
            strict: false
        },
    ]?;
    let lp = Lp {
        columns: 2,
        rows,
        aim: vec![in alloc; -1, 0]?,
    };
    let mut purse = Purse::new(9);
    match solve_lp(alloc, &lp, &mut purse) {
        Ok(LpAnswer::Best { point, .. }) => {
            assert_eq!(rt; (point.num(0), point.num(1)), (point.den(), point.den()));
            Ok(())
        }
        _ => Err(Fail::from("not best")),
    }
}

#[test]
fn beales_degenerate_program_ends(rt: HostRuntime) -> Result<(), Fail> {
    let alloc = rt.alloc();
    let rows = vec![in alloc;
        Ineq {
            coef: vec![in alloc; (0, 25), (1, -6000), (2, -4), (3, 900)]?,
            le: 0,
            strict: false
        },
        Ineq {
            coef: vec![in alloc; (0, 50), (1, -9000), (2, -2), (3, 300)]?,
            le: 0,
            strict: false
        },
        Ineq {
            coef: vec![in alloc; (2, 1)]?,
            le: 1,
            strict: false
        },
    ]?;
    let lp = Lp {
        columns: 4,
        rows,
        aim: vec![in alloc; -75, 15000, -2, 600]?,
    };
    let mut purse = Purse::new(0);
    match solve_lp(alloc, &lp, &mut purse) {
        Ok(LpAnswer::Best { scale, value, .. }) => {
            assert_eq!(rt; Frac::new(value, scale), Frac::new(-5, 1));
            Ok(())
        }
        _ => Err(Fail::from("not best")),
    }
}

#[test]
fn a_program_that_cycles_by_first_rows_ends(rt: HostRuntime) -> Result<(), Fail> {
    let alloc = rt.alloc();
    let rows = vec![in alloc;
        Ineq {
            coef: vec![in alloc; (0, -1), (1, 2), (2, -4), (3, 2), (4, -3)]?,
            le: 0,
            strict: false
        },
        Ineq {
            coef: vec![in alloc; (0, -3), (1, 1), (3, -3), (4, -2)]?,
            le: 0,
            strict: false
        },
        Ineq {
            coef: vec![in alloc; (0, -1), (1, 4), (2, 2), (3, 3), (4, -1)]?,
            le: 0,
            strict: false
        },
        Ineq {
            coef: vec![in alloc; (0, 1), (1, 1), (2, 1), (3, 1), (4, 1)]?,
            le: 1,
            strict: false
        },
    ]?;
    let lp = Lp {
        columns: 5,
        rows,
        aim: vec![in alloc; 1, 1, 4, -3, -1]?,
    };
    let mut purse = Purse::new(0);
    match solve_lp(alloc, &lp, &mut purse) {
        Ok(LpAnswer::Best { scale, value, .. }) => {
            assert_eq!(rt; Frac::new(value, scale), Frac::new(-3, 2));
            Ok(())
        }
        _ => Err(Fail::from("not best")),
    }
}
