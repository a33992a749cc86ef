use crate::tests::covers::{ENDLESS, ENDLESS_CERT, HULLS, HULLS_CERT, UNBOUNDED, UNBOUNDED_CERT};
use crate::tests::followers::{GREATEST, GREATEST_CERT};
use crate::tests::{
    HALF, HALF_CERT, KNAPSACK, KNAPSACK_CERT, PENNIES, PENNIES_CERT, check_over, compare,
    first_lines, with_line,
};
use std::test::Fail;

/// Matching pennies in which A further pays 5y, which no choice of its own changes.
const TAXED_PENNIES: &str = r#"{"format":"zero-game/1","players":[
{"name":"A","vars":[{"name":"x","int":true,"up":1}],"cost":[["x",-2]],"cross":[["x","B","y",4]],
 "others":[["B","y",5]]},
{"name":"B","vars":[{"name":"y","int":true,"up":1}],"cost":[["y",2]],"cross":[["y","A","x",-4]]}]}"#;

/// B and C play matching pennies, and A pays -x + 4yz.
const THREE: &str = r#"{"format":"zero-game/1","players":[
{"name":"A","vars":[{"name":"x","int":true,"up":1}],"cost":[["x",-1]],"others":[["B","y","C","z",4]]},
{"name":"B","vars":[{"name":"y","int":true,"up":1}],"cost":[["y",-2]],"cross":[["y","C","z",4]]},
{"name":"C","vars":[{"name":"z","int":true,"up":1}],"cost":[["z",2]],"cross":[["z","B","y",-4]]}]}"#;

/// The same without the term 4yz.
const THREE_UNTAXED: &str = r#"{"format":"zero-game/1","players":[
{"name":"A","vars":[{"name":"x","int":true,"up":1}],"cost":[["x",-1]]},
{"name":"B","vars":[{"name":"y","int":true,"up":1}],"cost":[["y",-2]],"cross":[["y","C","z",4]]},
{"name":"C","vars":[{"name":"z","int":true,"up":1}],"cost":[["z",2]],"cross":[["z","B","y",-4]]}]}"#;

const THREE_CERT: &str = "zero-cert/1
kind mixed 3
verdict profile
player 0 total 1 parts 1
part 1 1 1
player 1 total 2 parts 2
part 1 1 0
part 1 1 1
player 2 total 2 parts 2
part 1 1 0
part 1 1 1
cost 0 0 1
leaf 1 1 1 1
cost 1 0 1
leaf 1 0
cost 2 0 1
leaf 1 0
end
";

const BOXES_CERT: &str = "zero-cert/1
kind pure 2
verdict none boxes
split 0 0 0
split 1 0 0
deviate 0 1 1
deviate 1 1 0
split 1 0 0
deviate 1 1 1
deviate 0 1 0
end
";

/// A's terms in B's variable alone count in A's cost: y is 1 with probability 1/2.
#[test]
fn others_count_in_printed_costs(rt: HostRuntime) -> Result<(), Fail> {
    let alloc = rt.alloc();
    let taxed = with_line(alloc, PENNIES_CERT, 10, "cost 0 5 2")?;
    let ran = check_over(alloc, TAXED_PENNIES, taxed.as_str())?;
    compare(&rt, &ran, (0, "accepted mixed profile\n", ""));
    let ran = check_over(alloc, TAXED_PENNIES, PENNIES_CERT)?;
    compare(&rt, &ran, (6, "", "zero: certificate: line 10: wrong\n"));
    Ok(())
}

/// A product of two others' variables counts by its mean over all tuples: 4 times 1/4.
#[test]
fn products_of_others_count(rt: HostRuntime) -> Result<(), Fail> {
    let alloc = rt.alloc();
    let ran = check_over(alloc, THREE, THREE_CERT)?;
    compare(&rt, &ran, (0, "accepted mixed profile\n", ""));
    let less = with_line(alloc, THREE_CERT, 12, "cost 0 -1 1")?;
    let ran = check_over(alloc, THREE, less.as_str())?;
    compare(&rt, &ran, (6, "", "zero: certificate: line 12: wrong\n"));
    let ran = check_over(alloc, THREE_UNTAXED, less.as_str())?;
    compare(&rt, &ran, (0, "accepted mixed profile\n", ""));
    Ok(())
}

/// A certificate of any verdict is refused at the first line that is missing.
#[test]
fn every_cut_is_refused(rt: HostRuntime) -> Result<(), Fail> {
    let alloc = rt.alloc();
    for (game, cert) in [
        (PENNIES, PENNIES_CERT),
        (PENNIES, BOXES_CERT),
        (KNAPSACK, KNAPSACK_CERT),
        (UNBOUNDED, UNBOUNDED_CERT),
        (HALF, HALF_CERT),
        (GREATEST, GREATEST_CERT),
        (ENDLESS, ENDLESS_CERT),
        (HULLS, HULLS_CERT),
    ] {
        for count in 0..cert.lines().count() {
            let cut = first_lines(alloc, cert, count)?;
            let ran = check_over(alloc, game, cut.as_str())?;
            let said = format!(in alloc; "zero: certificate: line {}: form\n", count + 1)?;
            compare(&rt, &ran, (6, "", said.as_str()));
        }
    }
    Ok(())
}

/// In each box of one profile of matching pennies one of the two deviates.
#[test]
fn boxes_leave_no_pure_equilibrium(rt: HostRuntime) -> Result<(), Fail> {
    let alloc = rt.alloc();
    let ran = check_over(alloc, PENNIES, BOXES_CERT)?;
    compare(&rt, &ran, (0, "accepted pure none\n", ""));
    let other = with_line(alloc, BOXES_CERT, 10, "deviate 1 1 0")?;
    let ran = check_over(alloc, PENNIES, other.as_str())?;
    compare(&rt, &ran, (6, "", "zero: certificate: line 10: wrong\n"));
    let mixed = with_line(alloc, BOXES_CERT, 2, "kind mixed 2")?;
    let ran = check_over(alloc, PENNIES, mixed.as_str())?;
    compare(&rt, &ran, (6, "", "zero: certificate: line 3: wrong\n"));
    Ok(())
}
