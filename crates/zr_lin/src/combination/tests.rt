ghost use Rattle.std.specs.Prelude.{◌≡◌, length, IfOk};
ghost use Rattle.std.specs.List.{All};
ghost use Rattle.zr_base.specs.Steps.{IsNarrow};
ghost use Rattle.zr_lin.specs.Ineqs.{IsIneq, ineq_of, rows_of};

use super::refutes;
use crate::system::{Ineq, System};
use std::alloc::{AllocError, Global};
use std::test::Fail;
use zr_base::Wide;

/// The row `each * x + each * y <= le`.
fn row(alloc: Global, each: i128, le: i128, strict: bool) -> Result<Ineq, AllocError>
    requires each { IsNarrow each }
    requires le { IsNarrow le }
    ensures { IfOk result (λ row. IsIneq 2 (ineq_of row)) }
{
    let coef = vec![in alloc; (0, each), (1, each)]?;
    Ok(Ineq { coef, le, strict })
}

/// `x + y <= 1`, `-x - y <= -1`, `-x - y < -1` and `-x - y <= -2`.
fn system(alloc: Global) -> Result<System, AllocError>
    ensures { IfOk result (λ sys. (sys.columns ≡ 2) × All (IsIneq 2) (rows_of sys) × (length (rows_of sys) ≡ 4)) }
{
    let rows = vec![in alloc;
        row(alloc, 1, 1, false)?,
        row(alloc, -1, -1, false)?,
        row(alloc, -1, -1, true)?,
        row(alloc, -1, -2, false)?,
    ]?;
    Ok(System { columns: 2, rows })
}

#[test]
fn combinations_refute(rt: HostRuntime) -> Result<(), Fail> {
    let sys = system(rt.alloc())?;
    let mut left = [0; 2];
    assert_eq!(rt; refutes(&sys, &[(0, 1), (1, 1)], &mut left), Ok(false));
    assert_eq!(rt; refutes(&sys, &[(0, 1), (2, 1)], &mut left), Ok(true));
    assert_eq!(rt; refutes(&sys, &[(0, 1), (3, 1)], &mut left), Ok(true));
    assert_eq!(rt; refutes(&sys, &[(0, 2), (3, 1)], &mut left), Ok(false));

    // The right sides: after `2^126`, the product `-2 * 2^126` is below `-(2^127 - 1)`.
    let big = 1 << 126;
    let wide = Wide {
        left: (big, -2),
        right: (-big, 1),
    };
    assert_eq!(rt; refutes(&sys, &[(0, big), (3, big)], &mut left), Err(wide));
    Ok(())
}
