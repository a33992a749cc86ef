use crate::tests::{check_over, compare, with_line};
use std::alloc::Global;
use std::test::Fail;

/// One player with x of at least 0 and no upper bound, who pays -x.
pub const UNBOUNDED: &str =
    r#"{"format":"zero-game/1","players":[{"name":"A","vars":[{"name":"x"}],"cost":[["x",-1]]}]}"#;

/// Row 4 is the negated multiplier of `-x <= 0`, and row 6 says that the multiplier is at most -1.
pub const UNBOUNDED_CERT: &str = "zero-cert/1
kind mixed 1
verdict none cover
known 1 0
named 0
close 2 4 1 6 1
end
";

/// The same with whole x.
pub const ENDLESS: &str =
    r#"{"format":"zero-game/1","players":[{"name":"A","vars":[{"name":"x","int":true}],"cost":[["x",-1]]}]}"#;

/// Row 4 is the ray's: `0 <= -1`.
pub const ENDLESS_CERT: &str = "zero-cert/1
kind mixed 1
verdict none cover
loose
named 1
ray 1 0 1
close 1 4 1
end
";

/// A has s of at least 0 and t from 0 to 1, one of s and 1 - t is 0, and it pays t - s + 2su. B has u
/// from 0 to 1 and pays u - su. Over the closed hulls of the points s = 1, t = 0, u = 1/2 would be an
/// equilibrium; the game has none. `bench/make_none.py` wrote the certificates.
pub const HULLS: &str = r#"{"format":"zero-game/1","players":[
{"name":"A","vars":[{"name":"s"},{"name":"t","up":1}],
 "pairs":[{"var":"s","terms":[["t",-1]],"add":1}],
 "cost":[["s",-1],["t",1]],"cross":[["s","B","u",2]]},
{"name":"B","vars":[{"name":"u","up":1}],"cost":[["u",1]],"cross":[["u","A","s",-1]]}]}"#;

pub const HULLS_CERT: &str = "zero-cert/1
kind mixed 2
verdict none cover
choose 0
known 1 0 1
known 1 0 1
named 0
known 1 1
named 0
onoff 0 0
row 0 0 2
close 8 0 1 10 1 11 1 15 1 19 1 20 1 44 1 46 1
onoff 0 1
row 0 1 0
row 0 1 2
close 9 0 1 10 1 11 1 17 1 31 1 44 1 47 1 48 1 50 1
close 3 22 1 47 1 50 1
row 0 1 2
close 9 0 1 10 1 11 1 17 1 31 1 44 1 47 1 48 1 50 1
close 3 22 1 47 1 50 1
onoff 1 0
row 1 0 0
close 9 0 1 6 1 19 1 20 1 40 1 41 1 44 1 48 1 54 1
close 7 0 1 19 1 20 1 24 1 30 1 44 1 54 2
close 8 0 1 19 1 20 1 24 1 30 1 37 2 44 1 52 2
onoff 0 1
row 0 1 0
row 0 1 2
close 10 0 1 3 1 4 1 10 1 11 1 17 1 31 1 49 1 50 1 52 1
close 3 22 1 49 1 52 1
row 0 1 2
close 10 0 1 3 1 4 1 10 1 11 1 17 1 31 1 49 1 50 1 52 1
close 3 22 1 49 1 52 1
close 3 1 1 44 1 49 1
end
";

const PURE_HULLS_CERT: &str = "zero-cert/1
kind pure 2
verdict none cover
choose 0
known 1 0 1
known 1 0 1
named 0
known 1 1
named 0
which 0
row 0 0 2
close 4 10 1 11 1 15 1 51 1
which 1
row 1 0 0
close 5 6 1 40 1 41 1 47 1 54 1
close 3 24 1 30 1 54 2
row 0 1 0
row 0 1 2
close 6 10 1 11 1 17 1 31 1 45 1 52 1
close 3 22 1 44 1 52 1
row 0 1 2
close 6 10 1 11 1 17 1 31 1 45 1 52 1
close 3 22 1 44 1 52 1
end
";

const WIDEST: &str = "170141183460469231731687303715884105727";

/// Certificates with one line in place of their own, which show that there is no equilibrium.
#[test]
fn covers_leave_no_equilibrium(rt: HostRuntime) -> Result<(), Fail> {
    let alloc = rt.alloc();
    for (game, cert, at, line, answer) in [
        (
            UNBOUNDED,
            UNBOUNDED_CERT,
            2,
            "kind mixed 1",
            "accepted mixed none\n",
        ),
        (
            UNBOUNDED,
            UNBOUNDED_CERT,
            2,
            "kind pure 1",
            "accepted pure none\n",
        ),
        (
            UNBOUNDED,
            UNBOUNDED_CERT,
            5,
            "named 2\npoint 2 1\nray 1 0 1",
            "accepted mixed none\n",
        ),
        (
            ENDLESS,
            ENDLESS_CERT,
            2,
            "kind mixed 1",
            "accepted mixed none\n",
        ),
        (
            ENDLESS,
            ENDLESS_CERT,
            7,
            "onoff 0 0\nclose 1 4 1\nclose 1 4 1",
            "accepted mixed none\n",
        ),
        (
            HULLS,
            HULLS_CERT,
            2,
            "kind mixed 2",
            "accepted mixed none\n",
        ),
        (HULLS, HULLS_CERT, 2, "kind pure 2", "accepted pure none\n"),
        (
            HULLS,
            PURE_HULLS_CERT,
            2,
            "kind pure 2",
            "accepted pure none\n",
        ),
    ] {
        let changed = with_line(alloc, cert, at, line)?;
        let ran = check_over(alloc, game, changed.as_str())?;
        compare(&rt, &ran, (0, answer, ""));
    }
    Ok(())
}

/// Copies with one line changed, and the first line that is refused.
#[test]
fn changed_covers_are_refused(rt: HostRuntime) -> Result<(), Fail> {
    let alloc = rt.alloc();
    for (game, cert, at, line, refused) in [
        (UNBOUNDED, UNBOUNDED_CERT, 4, "known 1 -1", "4: wrong"),
        (UNBOUNDED, UNBOUNDED_CERT, 4, "known 1 0 0", "4: wrong"),
        (UNBOUNDED, UNBOUNDED_CERT, 4, "leaf 0 1 0 1", "4: wrong"),
        (UNBOUNDED, UNBOUNDED_CERT, 4, "loose", "6: wrong"),
        (
            UNBOUNDED,
            UNBOUNDED_CERT,
            5,
            "named 1\npoint 1 -1",
            "6: wrong",
        ),
        (
            UNBOUNDED,
            UNBOUNDED_CERT,
            5,
            "named 1\npoint 1 0 0",
            "6: wrong",
        ),
        (UNBOUNDED, UNBOUNDED_CERT, 6, "close 1 4 1", "6: wrong"),
        (
            UNBOUNDED,
            UNBOUNDED_CERT,
            6,
            "close 3 4 1 6 1 8 1",
            "6: wrong",
        ),
        (ENDLESS, ENDLESS_CERT, 4, "known 1 0", "4: wrong"),
        (ENDLESS, ENDLESS_CERT, 6, "ray 1 0 -1", "6: wrong"),
        (ENDLESS, ENDLESS_CERT, 6, "ray 2 1 1", "6: wrong"),
        (ENDLESS, ENDLESS_CERT, 6, "point 1 0", "7: wrong"),
        (ENDLESS, ENDLESS_CERT, 7, "close 1 3 1", "7: wrong"),
        (
            ENDLESS,
            ENDLESS_CERT,
            7,
            "row 0 0 0\nclose 1 4 1\nclose 1 4 1",
            "7: wrong",
        ),
        (HULLS, HULLS_CERT, 8, "known 1 2", "8: wrong"),
        (HULLS, PURE_HULLS_CERT, 2, "kind mixed 2", "10: wrong"),
    ] {
        let changed = with_line(alloc, cert, at, line)?;
        let said = format!(in alloc; "zero: certificate: line {refused}\n")?;
        let ran = check_over(alloc, game, changed.as_str())?;
        compare(&rt, &ran, (6, "", said.as_str()));
    }
    Ok(())
}

/// Sums that are too wide, at a named item and at the refutation.
#[test]
fn wide_covers_are_refused(rt: HostRuntime) -> Result<(), Fail> {
    let alloc = rt.alloc();
    let point = format!(in alloc; "named 1\npoint {WIDEST} 0 -{WIDEST}")?;
    let close = format!(in alloc; "close 3 4 {WIDEST} 5 {WIDEST} 6 1")?;
    for (game, cert, at, line, refused) in [
        (HULLS, HULLS_CERT, 7, point.as_str(), "8: wide"),
        (UNBOUNDED, UNBOUNDED_CERT, 6, close.as_str(), "6: wide"),
    ] {
        let changed = with_line(alloc, cert, at, line)?;
        let said = format!(in alloc; "zero: certificate: line {refused}\n")?;
        let ran = check_over(alloc, game, changed.as_str())?;
        compare(&rt, &ran, (6, "", said.as_str()));
    }
    Ok(())
}
