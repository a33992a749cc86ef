use crate::tests::{PENNIES, PENNIES_CERT, Run, compare, run_over};
use std::alloc::Global;
use std::process::Abort;
use std::test::Fail;

const BUDGET_OF_0: &str = "zero-report/1
stop budget 0
end
";

const BUDGET_OF_1: &str = "zero-report/1
stop budget 1
end
";

/// Six numbers of which the first is at most 1 and each other one at most a thousand million times
/// the one before it. The player wants the last one, which could be 10^45.
const WIDE: &str = r#"{"format":"zero-game/1","players":[{"name":"A",
"vars":[{"name":"a","up":1},{"name":"b"},{"name":"c"},{"name":"d"},{"name":"e"},{"name":"f"}],
"rows":[{"terms":[["a",-1000000000],["b",1]],"le":0},{"terms":[["b",-1000000000],["c",1]],"le":0},
{"terms":[["c",-1000000000],["d",1]],"le":0},{"terms":[["d",-1000000000],["e",1]],"le":0},
{"terms":[["e",-1000000000],["f",1]],"le":0}],"cost":[["f",-1]]}]}"#;

/// A plays 0 in WIDE.
const ZERO_CERT: &str = "zero-cert/1
kind mixed 1
verdict profile
player 0 total 1 parts 1
part 1 1 0 0 0 0 0 0
cost 0 0 1
leaf 1 0
end
";

/// B and C each play numbers up to 10^27, and A pays the product of both, which is 10^54.
const FAR_OTHERS: &str = r#"{"format":"zero-game/1","players":[
{"name":"A","vars":[{"name":"x","up":1}],"cost":[["x",-1]],"others":[["B","d","C","d",1]]},
{"name":"B","vars":[{"name":"a","up":1},{"name":"b"},{"name":"c"},{"name":"d"}],
"rows":[{"terms":[["a",-1000000000],["b",1]],"le":0},{"terms":[["b",-1000000000],["c",1]],"le":0},
{"terms":[["c",-1000000000],["d",1]],"le":0}],"cost":[["d",-1]]},
{"name":"C","vars":[{"name":"a","up":1},{"name":"b"},{"name":"c"},{"name":"d"}],
"rows":[{"terms":[["a",-1000000000],["b",1]],"le":0},{"terms":[["b",-1000000000],["c",1]],"le":0},
{"terms":[["c",-1000000000],["d",1]],"le":0}],"cost":[["d",-1]]}]}"#;

const PRODUCT_TOO_WIDE: &str = "zero-report/1
stop step 1000000000000000000000000000 1000000000000000000000000000 0 0
end
";

/// A's whole x has no end; the least one that the row allows, 1, isn't a corner of the relaxation.
const PAST_A_HALF: &str = r#"{"format":"zero-game/1","players":[{"name":"A",
"vars":[{"name":"x","int":true}],"rows":[{"terms":[["x",-2]],"le":-1}],"cost":[["x",1]]}]}"#;

const ONE_CERT: &str = "zero-cert/1
kind mixed 1
verdict profile
player 0 total 1 parts 1
part 1 1 1
cost 0 1 1
leaf 1 0
end
";

const OPEN_LEAST: &str = "zero-report/1
stop open 0 0 1
end
";

/// Two players of eight variables of 0 or 1: 256 leaves each, 25,604 rows and 12,802 columns.
const LARGE: &str = r#"{"format":"zero-game/1","players":[
{"name":"A","vars":[{"name":"a","int":true,"up":1},{"name":"b","int":true,"up":1},
{"name":"c","int":true,"up":1},{"name":"d","int":true,"up":1},{"name":"e","int":true,"up":1},
{"name":"f","int":true,"up":1},{"name":"g","int":true,"up":1},{"name":"h","int":true,"up":1}]},
{"name":"B","vars":[{"name":"a","int":true,"up":1},{"name":"b","int":true,"up":1},
{"name":"c","int":true,"up":1},{"name":"d","int":true,"up":1},{"name":"e","int":true,"up":1},
{"name":"f","int":true,"up":1},{"name":"g","int":true,"up":1},{"name":"h","int":true,"up":1}]}]}"#;

const TOO_LARGE: &str = "zero-report/1
stop large 327782408
end
";

/// A budget is spent; where the report can't be written the status is 12, and where the line can't
/// be, it stays.
#[test]
fn budgets_are_spent(rt: HostRuntime) -> Result<(), Fail> {
    let alloc = rt.alloc();
    let held = [("g", PENNIES.as_bytes())];
    let spent = "zero: budget of 1 spent\n";
    for (line, fails, want) in [
        ("solve g --budget 1", [None; 3], (7, BUDGET_OF_1, spent)),
        (
            "solve g --budget 0 --kind pure",
            [None; 3],
            (7, BUDGET_OF_0, "zero: budget of 0 spent\n"),
        ),
        ("solve g --budget 8200", [None; 3], (0, PENNIES_CERT, "")),
        (
            "solve g --budget 1",
            [None, Some(0), None],
            (12, "", "zero: write fault\n"),
        ),
        (
            "solve g --budget 1",
            [None, None, Some(0)],
            (7, BUDGET_OF_1, ""),
        ),
    ] {
        let ran = run_over(alloc, line, &held, fails)?;
        compare(&rt, &ran, want);
    }
    Ok(())
}

/// The run of `best g c`.
fn best_over(alloc: Global, game: &str, cert: &str) -> Result<Run, Fail> {
    let held = [("g", game.as_bytes()), ("c", cert.as_bytes())];
    Ok(run_over(alloc, "best g c", &held, [None; 3])?)
}

/// Compares a run with the status 8 and the report of a linear program that is stuck, which begins
/// so.
fn compare_stuck(rt: &impl Abort, ran: &Run, begins: &str) {
    assert_eq!(rt; ran.status, 8);
    assert!(rt; ran.out.bytes().starts_with(begins.as_bytes()));
    assert!(rt; ran.out.bytes().ends_with(b"\nend\n"));
    assert_eq!(rt; ran.err.bytes(), b"zero: too wide\n".as_slice());
}

/// A value past 128 bits, in the system, in a best answer, and in a product of others' numbers.
#[test]
fn numbers_are_too_wide(rt: HostRuntime) -> Result<(), Fail> {
    let alloc = rt.alloc();
    let held = [("g", WIDE.as_bytes())];
    for line in ["solve g", "solve g --kind pure"] {
        let ran = run_over(alloc, line, &held, [None; 3])?;
        compare_stuck(
            &rt,
            &ran,
            "zero-report/1\nstop wide\nquestion choices\naim 0 0",
        );
    }
    let ran = best_over(alloc, WIDE, ZERO_CERT)?;
    let begins = "zero-report/1\nstop wide\nquestion branch 0\naim 0 0 0 0 0 -1\nbasis ";
    compare_stuck(&rt, &ran, begins);
    let ran = run_over(alloc, "solve g", &[("g", FAR_OTHERS.as_bytes())], [None; 3])?;
    compare(&rt, &ran, (8, PRODUCT_TOO_WIDE, "zero: too wide\n"));
    Ok(())
}

/// The least cost of a whole variable without end, at a corner that isn't whole, stays open.
#[test]
fn least_costs_stay_open(rt: HostRuntime) -> Result<(), Fail> {
    let ran = best_over(rt.alloc(), PAST_A_HALF, ONE_CERT)?;
    let open = "zero: open: player 0 variable 0\n";
    compare(&rt, &ran, (9, OPEN_LEAST, open));
    Ok(())
}

#[test]
fn systems_are_too_large(rt: HostRuntime) -> Result<(), Fail> {
    let held = [("g", LARGE.as_bytes())];
    let ran = run_over(rt.alloc(), "solve g", &held, [None; 3])?;
    compare(&rt, &ran, (10, TOO_LARGE, "zero: too large: 327782408\n"));
    Ok(())
}
