use crate::tests::{HALF, HALF_CERT, KNAPSACK, KNAPSACK_CERT, compare, run_over, with_line};
use std::test::Fail;

const KNAPSACK_BEST: &str = "zero-best/1
least 0 -1 5
split 1 0
leaf 1 2 2 1 4 1
split 0 0
leaf 1 2 2 1 4 1
leaf 0 3 0 1 1 3 3 4
least 1 -17 9
split 1 0
leaf 1 2 2 17 4 17
leaf 2 2 0 17 3 51
end
";

const BUDGET_SPENT: &str = "zero-report/1
stop budget 0
end
";

/// Best answers to the worked profile, whatever its printed costs; a verdict that is no profile, and
/// a part of another length, are refused; and a budget of 0 doesn't pay the first split.
#[test]
fn best_answers(rt: HostRuntime) -> Result<(), Fail> {
    let alloc = rt.alloc();
    let dear = with_line(alloc, KNAPSACK_CERT, 10, "cost 0 1 5")?;
    let long = with_line(alloc, KNAPSACK_CERT, 5, "part 2 1 1 0 0")?;
    for (game, cert, line, want) in [
        (KNAPSACK, KNAPSACK_CERT, "best g c", (0, KNAPSACK_BEST, "")),
        (KNAPSACK, dear.as_str(), "best g c", (0, KNAPSACK_BEST, "")),
        (
            KNAPSACK,
            KNAPSACK_CERT,
            "best g c --budget 0",
            (7, BUDGET_SPENT, "zero: budget of 0 spent\n"),
        ),
        (
            KNAPSACK,
            long.as_str(),
            "best g c",
            (6, "", "zero: certificate: line 5: wrong\n"),
        ),
        (
            HALF,
            HALF_CERT,
            "best g c",
            (6, "", "zero: certificate: line 3: wrong\n"),
        ),
    ] {
        let held = [("g", game.as_bytes()), ("c", cert.as_bytes())];
        let ran = run_over(alloc, line, &held, [None; 3])?;
        compare(&rt, &ran, want);
    }
    Ok(())
}
