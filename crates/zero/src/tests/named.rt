use crate::tests::covers::ENDLESS;
use crate::tests::{compare, run_over};
use std::test::Fail;

/// A's whole x has no end, and costs 1 - 2y each; B's y of 0 or 1 costs 2x - 1. With y = 1 half of
/// the time, and x = 1 half of the time, nobody gains by leaving alone.
const OPEN: &str = r#"{"format":"zero-game/1","players":[
{"name":"A","vars":[{"name":"x","int":true}],"cost":[["x",1]],"cross":[["x","B","y",-2]]},
{"name":"B","vars":[{"name":"y","int":true,"up":1}],"cost":[["y",-1]],"cross":[["y","A","x",2]]}]}"#;

const OPEN_REPORT: &str = "zero-report/1
stop open 0 0 1
named 2
point 1 0
ray 1 0 1
named 0
end
";

/// Of a player whose whole variable has no end a point and a ray are named; they don't settle it.
#[test]
fn whole_variables_stay_open(rt: HostRuntime) -> Result<(), Fail> {
    let held = [("g", OPEN.as_bytes())];
    for line in ["solve g", "solve g --kind pure"] {
        let ran = run_over(rt.alloc(), line, &held, [None; 3])?;
        let open = "zero: open: player 0 variable 0\n";
        compare(&rt, &ran, (9, OPEN_REPORT, open));
    }
    Ok(())
}

/// Along the ray that is named the cost of the whole variable falls, so there is no equilibrium.
#[test]
fn a_ray_leaves_no_equilibrium(rt: HostRuntime) -> Result<(), Fail> {
    let held = [("g", ENDLESS.as_bytes())];
    for (line, begins, said) in [
        (
            "solve g",
            "zero-cert/1\nkind mixed 1\nverdict none cover\nloose\nnamed ",
            "accepted mixed none\n",
        ),
        (
            "solve g --kind pure",
            "zero-cert/1\nkind pure 1\nverdict none cover\nloose\nnamed ",
            "accepted pure none\n",
        ),
    ] {
        let ran = run_over(rt.alloc(), line, &held, [None; 3])?;
        assert_eq!(rt; ran.status, 0);
        assert!(rt; ran.out.bytes().starts_with(begins.as_bytes()));
        let both = [("g", ENDLESS.as_bytes()), ("c", ran.out.bytes())];
        let checked = run_over(rt.alloc(), "check g c", &both, [None; 3])?;
        compare(&rt, &checked, (0, said, ""));
    }
    Ok(())
}
