use crate::tests::followers::GREATEST_CERT;
use crate::tests::{check_over, compare, run_over};
use std::test::Fail;

/// One player with whole x from -3 on and 2x at least -5, who pays x.
const FROM_BELOW: &str =
    r#"{"format":"zero-game/2","players":[{"name":"A","vars":[{"name":"x","int":true,"low":-3}],"rows":[{"terms":[["x",2]],"ge":-5}],"cost":[["x",1]]}]}"#;

const FROM_BELOW_MIGRATED: &str =
    r#"{"format":"zero-game/2","players":[{"cost":[["x",1]],"cross":[],"followers":[],"name":"A","pairs":[],"rows":[{"le":5,"terms":[["x",-2]]}],"vars":[{"int":true,"low":-3,"name":"x"}]}]}"#;

const FROM_BELOW_CERT: &str = "zero-cert/1
kind pure 1
verdict profile
player 0 total 1 parts 1
part 1 1 -2
cost 0 -2 1
split 0 -3
leaf 0 2 0 1 2 2
leaf 1 1 1 1
end
";

/// One player with x at most 2, who earns 3x.
const MAXIMISER: &str =
    r#"{"format":"zero-game/2","players":[{"name":"A","aim":"max","vars":[{"name":"x","up":2}],"cost":[["x",3]]}]}"#;

const MAXIMISER_MIGRATED: &str =
    r#"{"format":"zero-game/2","players":[{"cost":[["x",-3]],"cross":[],"followers":[],"name":"A","pairs":[],"rows":[],"vars":[{"int":false,"low":0,"name":"x","up":2}]}]}"#;

const MAXIMISER_CERT: &str = "zero-cert/1
kind pure 1
verdict profile
player 0 total 1 parts 1
part 1 1 2
cost 0 -6 1
leaf 1 1 1 3
end
";

/// One player with any x, who pays x.
const BOTTOMLESS: &str =
    r#"{"format":"zero-game/2","players":[{"name":"A","vars":[{"name":"x","low":null}],"cost":[["x",1]]}]}"#;

const BOTTOMLESS_MIGRATED: &str =
    r#"{"format":"zero-game/2","players":[{"cost":[["x",1]],"cross":[],"followers":[],"name":"A","pairs":[],"rows":[],"vars":[{"int":false,"low":null,"name":"x"}]}]}"#;

const BOTTOMLESS_CERT: &str = "zero-cert/1
kind mixed 1
verdict none cover
known 1 0
named 0
close 1 3 1
end
";

/// One player with whole x from 0 to 5 and 2x = 3.
const EQUATION: &str =
    r#"{"format":"zero-game/2","players":[{"name":"A","vars":[{"name":"x","int":true,"low":0,"up":5}],"rows":[{"terms":[["x",2]],"eq":3}]}]}"#;

const EQUATION_MIGRATED: &str =
    r#"{"format":"zero-game/2","players":[{"cost":[],"cross":[],"followers":[],"name":"A","pairs":[],"rows":[{"le":3,"terms":[["x",2]]},{"le":-3,"terms":[["x",-2]]}],"vars":[{"int":true,"low":0,"name":"x","up":5}]}]}"#;

const EQUATION_CERT: &str = "zero-cert/1
kind mixed 1
verdict none empty 0
split 0 1
leaf 0 2 1 1 3 2
leaf 0 2 0 1 2 2
end
";

const TWO_SIDES: &str =
    r#"{"format":"zero-game/2","players":[{"name":"A","vars":[{"name":"x","int":true,"low":0,"up":5}],"rows":[{"terms":[["x",2]],"le":3,"eq":3}]}]}"#;

/// The leader earns 3f - 2x, with x at most 2; its follower earns f, which is at most x.
const EARNING: &str =
    r#"{"format":"zero-game/2","players":[{"name":"L","aim":"max","vars":[{"name":"x","up":2}],"cost":[["f",3],["x",-2]],"followers":[{"vars":["f"],"aim":"max","rows":[{"terms":[["x",1],["f",-1]],"ge":0}],"cost":[["f",1]]}]}]}"#;

const EARNING_MIGRATED: &str =
    r#"{"format":"zero-game/2","players":[{"cost":[["x",2],["f",-3]],"cross":[],"followers":[{"cost":[["f",-1]],"cross":[],"rows":[{"le":0,"terms":[["x",-1],["f",1]]}],"vars":["f"]}],"name":"L","pairs":[],"rows":[],"vars":[{"int":false,"low":0,"name":"x","up":2}]}]}"#;

/// Three players, the first of which earns by its follower's variable and by what the others do.
const OTHERS: &str =
    r#"{"format":"zero-game/2","players":[{"name":"A","aim":"max","vars":[{"name":"x"}],"cross":[["f","C","z",3],["x","B","y",2]],"others":[["C","z","B","y",4],["C","z",5],["B","y",6]],"followers":[{"vars":["f"],"aim":"max","rows":[{"terms":[["f",1]],"eq":7}],"cross":[["f","x",8]]}]},{"name":"B","vars":[{"name":"y"}],"pairs":[{"var":"y","terms":[["y",-1]],"add":9}]},{"name":"C","vars":[{"name":"z"}]}]}"#;

const OTHERS_MIGRATED: &str =
    r#"{"format":"zero-game/2","players":[{"cost":[],"cross":[["x","B","y",-2],["f","C","z",-3]],"followers":[{"cost":[],"cross":[["f","x",-8]],"rows":[{"le":7,"terms":[["f",1]]},{"le":-7,"terms":[["f",-1]]}],"vars":["f"]}],"name":"A","others":[["B","y",-6],["C","z",-5],["B","y","C","z",-4]],"pairs":[],"rows":[],"vars":[{"int":false,"low":0,"name":"x"}]},{"cost":[],"cross":[],"followers":[],"name":"B","pairs":[{"add":9,"terms":[["y",-1]],"var":"y"}],"rows":[],"vars":[{"int":false,"low":0,"name":"y"}]},{"cost":[],"cross":[],"followers":[],"name":"C","pairs":[],"rows":[],"vars":[{"int":false,"low":0,"name":"z"}]}]}"#;

/// Two regions that make and exchange power: a game of `examples/` with its certificate.
const EXCHANGE: &str = r#"{"format":"zero-game/2","players":[
{"name":"north","aim":"max",
 "vars":[{"name":"output","up":5},{"name":"import","low":-2,"up":3}],
 "rows":[{"terms":[["output",1],["import",1]],"eq":3},{"terms":[["output",1]],"ge":1}],
 "cost":[["output",-4],["import",-3]],
 "cross":[["import","south","import",-1]]},
{"name":"south","aim":"max",
 "vars":[{"name":"output","up":5},{"name":"import","low":-2,"up":3}],
 "rows":[{"terms":[["output",1],["import",1]],"eq":3},{"terms":[["output",1]],"ge":1}],
 "cost":[["output",-5],["import",-3]],
 "cross":[["import","north","import",-1]]}]}"#;

const EXCHANGE_CERT: &str = "zero-cert/1
kind pure 2
verdict profile
player 0 total 1 parts 1
part 1 1 5 -2
player 1 total 1 parts 1
part 1 1 1 2
cost 0 10 1
leaf 1 2 1 5 4 1
cost 1 7 1
leaf 1 2 1 1 2 4
end
";

/// Texts of format 2 and their canonical texts, which are written again as they are.
#[test]
fn games_are_migrated(rt: HostRuntime) -> Result<(), Fail> {
    for (text, migrated) in [
        (FROM_BELOW, FROM_BELOW_MIGRATED),
        (MAXIMISER, MAXIMISER_MIGRATED),
        (BOTTOMLESS, BOTTOMLESS_MIGRATED),
        (EQUATION, EQUATION_MIGRATED),
        (EARNING, EARNING_MIGRATED),
        (OTHERS, OTHERS_MIGRATED),
    ] {
        for game in [text, migrated] {
            let ran = run_over(
                rt.alloc(),
                "migrate g",
                &[("g", game.as_bytes())],
                [None; 3],
            )?;
            compare(&rt, &ran, (0, migrated, ""));
        }
    }
    Ok(())
}

/// Certificates of games with lower bounds, rows from below, equations and maximisers.
#[test]
fn certificates_of_format_2_are_accepted(rt: HostRuntime) -> Result<(), Fail> {
    for (game, cert, want) in [
        (
            FROM_BELOW,
            FROM_BELOW_CERT,
            (0, "accepted pure profile\n", ""),
        ),
        (
            MAXIMISER,
            MAXIMISER_CERT,
            (0, "accepted pure profile\n", ""),
        ),
        (EQUATION, EQUATION_CERT, (0, "accepted mixed none\n", "")),
        (EXCHANGE, EXCHANGE_CERT, (0, "accepted pure profile\n", "")),
        (EARNING, GREATEST_CERT, (0, "accepted pure profile\n", "")),
        (
            BOTTOMLESS,
            BOTTOMLESS_CERT,
            (0, "accepted mixed none\n", ""),
        ),
        (
            TWO_SIDES,
            EQUATION_CERT,
            (5, "", "zero: game: Twice /players/0/rows/0/eq\n"),
        ),
    ] {
        let ran = check_over(rt.alloc(), game, cert)?;
        compare(&rt, &ran, want);
    }
    Ok(())
}
