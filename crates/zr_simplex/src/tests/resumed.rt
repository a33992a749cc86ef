use crate::program::{Lp, LpAnswer};
use crate::resume::OpenLp;
use std::test::Fail;
use zr_base::Frac;
use zr_io::Purse;
use zr_lin::Ineq;

/// The least value of `-x - y` where `x + 2 y <= 4` and `3 x + y <= 6` is `-14 / 5`, then where
/// `x <= 1` too `-5 / 2`, and no point has `x + y >= 3` besides. The second solution goes on from
/// the first by one pivot, where two lead to it from the slacks.
#[test]
fn rows_are_added_between_solutions(rt: HostRuntime) -> Result<(), Fail> {
    let alloc = rt.alloc();
    let rows = vec![in alloc;
        Ineq {
            coef: vec![in alloc; (0, 1), (1, 2)]?,
            le: 4,
            strict: false
        },
        Ineq {
            coef: vec![in alloc; (0, 3), (1, 1)]?,
            le: 6,
            strict: false
        },
    ]?;
    let lp = Lp {
        columns: 2,
        rows,
        aim: vec![in alloc; -1, -1]?,
    };
    let mut purse = Purse::new(0);
    let mut open = OpenLp::new(lp);
    match open.solve(alloc, &mut purse) {
        Ok(LpAnswer::Best { scale, value, .. }) => {
            assert_eq!(rt; Frac::new(value, scale), Frac::new(-14, 5));
        }
        _ => return Err(Fail::from("not best")),
    }
    let before = purse.pivots;
    let upper = Ineq {
        coef: vec![in alloc; (0, 1)]?,
        le: 1,
        strict: false,
    };
    open.add_row(alloc, upper)?;
    match open.solve(alloc, &mut purse) {
        Ok(LpAnswer::Best { scale, value, .. }) => {
            assert_eq!(rt; Frac::new(value, scale), Frac::new(-5, 2));
        }
        _ => return Err(Fail::from("not best")),
    }
    assert_eq!(rt; before.checked_add(1), Some(purse.pivots));
    let lower = Ineq {
        coef: vec![in alloc; (0, -1), (1, -1)]?,
        le: -3,
        strict: false,
    };
    open.add_row(alloc, lower)?;
    match open.solve(alloc, &mut purse) {
        Ok(LpAnswer::Empty { .. }) => Ok(()),
        _ => Err(Fail::from("not empty")),
    }
}
