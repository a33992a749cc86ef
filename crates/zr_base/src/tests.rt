use super::*;
use smallvec::SmallVec;
use std::cmp::Ordering;
use std::test::Fail;

#[test]
fn fractions_are_exact(rt: HostRuntime) -> Result<(), Fail> {
    let third = Frac::new(1, 3).ok_or("a third")?;
    let sixth = Frac::new(1, 6).ok_or("a sixth")?;
    let half = third.add(sixth).map_err(|_| "wide")?;
    assert_eq!(rt; half.num(), 1);
    assert_eq!(rt; half.den(), 2);
    let most = Frac::new(i128::MAX, 1).ok_or("the most")?;
    let one = Frac::new(1, 1).ok_or("one")?;
    match most.add(one) {
        Ok(_) => return Err(Fail::from("not wide")),
        Err(wide) => {
            assert_eq!(rt; wide.left, (i128::MAX, 1));
            assert_eq!(rt; wide.right, (-1, 1));
        }
    }
    let near = Frac::new(i128::MAX, i128::MAX - 1).ok_or("near one")?;
    let next = Frac::new(i128::MAX - 1, i128::MAX - 2).ok_or("next to it")?;
    assert_eq!(rt; near.compare(next), Ordering::Less);
    Ok(())
}

#[test]
fn rows_hold_at_points(rt: HostRuntime) -> Result<(), Fail> {
    let point = match Point::new(vec![in rt.alloc(); 1, 3]?, 2) {
        Ok(point) => point,
        Err(_) => return Err(Fail::from("no point")),
    };
    match Point::new(vec![in rt.alloc(); 1, 3]?, 0) {
        Ok(_) => return Err(Fail::from("a point")),
        Err(num) => assert_eq!(rt; num.len(), 2),
    }
    let mut row = Row {
        coef: SmallVec::from_slice(rt.alloc(), &[(0, 1), (1, 1)])?,
        le: 2,
    };
    assert_eq!(rt; row.holds(&point).map_err(|_| "wide")?, true);
    row.le = 1;
    assert_eq!(rt; row.holds(&point).map_err(|_| "wide")?, false);
    Ok(())
}
