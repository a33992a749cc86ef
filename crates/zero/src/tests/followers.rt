use crate::tests::{check_over, compare, run_over};
use std::test::Fail;

/// The leader pays 2x - 3f, with x at most 2; its follower takes the greatest f that is at most x.
pub const GREATEST: &str =
    r#"{"format":"zero-game/1","players":[{"name":"L","vars":[{"name":"x","up":2}],"cost":[["x",2],["f",-3]],
"followers":[{"vars":["f"],"rows":[{"terms":[["f",1],["x",-1]],"le":0}],"cost":[["f",-1]]}]}]}"#;

pub const GREATEST_CERT: &str = "zero-cert/1
kind pure 1
verdict profile
player 0 total 1 parts 1
part 1 1 2 2 1
cost 0 -2 1
leaf 1 2 1 1 8 3
end
";

/// The leader pays x - f. Its follower has f at most 1 and no cost, so each f from 0 to 1 is one of
/// its best answers, and the leader has f = 1 at x = 0: it pays -1, and no choice pays less.
const FREE: &str =
    r#"{"format":"zero-game/1","players":[{"name":"L","vars":[{"name":"x","up":2}],"cost":[["x",1],["f",-1]],
"followers":[{"vars":["f"],"rows":[{"terms":[["f",1]],"le":1}]}]}]}"#;

const FREE_CERT: &str = "zero-cert/1
kind pure 1
verdict profile
player 0 total 1 parts 1
part 1 1 0 1 0
cost 0 -1 1
leaf 1 2 0 1 8 1
end
";

/// The leader pays -x, with x at most 3. Its follower takes the least f of at least x, and f is at
/// most 1: at x above 1 it has no answer, so the leader has x = 1, with f = 1, and pays -1.
const UNANSWERED: &str =
    r#"{"format":"zero-game/1","players":[{"name":"L","vars":[{"name":"x","up":3}],"cost":[["x",-1]],
"followers":[{"vars":["f"],"rows":[{"terms":[["f",1]],"le":1},{"terms":[["x",1],["f",-1]],"le":0}],"cost":[["f",1]]}]}]}"#;

const UNANSWERED_CERT: &str = "zero-cert/1
kind pure 1
verdict profile
player 0 total 1 parts 1
part 1 1 1 1 0 1
cost 0 -1 1
leaf 1 2 10 1 12 1
end
";

/// Two power producers with two groups of small plants each, which run where their premium is at
/// least 3 and 2. The certificate is one that `bench/make_cert.py` writes.
const TWO_EACH: &str = r#"{"format":"zero-game/1","players":[
{"name":"north",
 "vars":[{"name":"own","up":3},{"name":"wind_premium","up":5},{"name":"sun_premium","up":5}],
 "cost":[["own",-7],["wind_premium",2],["wind",-8],["sun_premium",1],["sun",-8]],
 "cross":[["own","south","own",1],["own","south","wind",1],["own","south","sun",1],
          ["wind","south","own",1],["wind","south","wind",1],["wind","south","sun",1],
          ["sun","south","own",1],["sun","south","wind",1],["sun","south","sun",1]],
 "followers":[
  {"vars":["wind"],"rows":[{"terms":[["wind",1]],"le":2}],"cost":[["wind",3]],"cross":[["wind","wind_premium",-1]]},
  {"vars":["sun"],"rows":[{"terms":[["sun",1]],"le":1}],"cost":[["sun",2]],"cross":[["sun","sun_premium",-1]]}]},
{"name":"south",
 "vars":[{"name":"own","up":3},{"name":"wind_premium","up":5},{"name":"sun_premium","up":5}],
 "cost":[["own",-7],["wind_premium",2],["wind",-8],["sun_premium",1],["sun",-8]],
 "cross":[["own","north","own",1],["own","north","wind",1],["own","north","sun",1],
          ["wind","north","own",1],["wind","north","wind",1],["wind","north","sun",1],
          ["sun","north","own",1],["sun","north","wind",1],["sun","north","sun",1]],
 "followers":[
  {"vars":["wind"],"rows":[{"terms":[["wind",1]],"le":2}],"cost":[["wind",3]],"cross":[["wind","wind_premium",-1]]},
  {"vars":["sun"],"rows":[{"terms":[["sun",1]],"le":1}],"cost":[["sun",2]],"cross":[["sun","sun_premium",-1]]}]}]}"#;

const TWO_EACH_CERT: &str = "zero-cert/1
kind mixed 2
verdict profile
player 0 total 2 parts 2
part 1 1 3 3 2 2 1 0 0
part 1 1 3 0 2 0 1 0 0
player 1 total 2 parts 2
part 1 1 3 3 2 2 1 0 0
part 1 1 3 0 2 0 1 0 0
cost 0 -7 1
choose 0
choose 1
choose 2
leaf 1 5 1 2 2 2 4 1 15 3 19 3
leaf 1 6 1 2 2 2 12 1 15 3 19 1 20 3
leaf 0 2 15 1 17 1
choose 1
choose 2
leaf 1 6 1 2 4 1 10 2 15 2 16 3 19 3
leaf 1 7 1 2 10 2 12 1 15 2 16 3 19 1 20 3
choose 2
leaf 1 6 1 2 4 1 10 2 15 2 16 3 19 3
leaf 1 7 1 2 10 2 12 1 15 2 16 3 19 1 20 3
cost 1 -7 1
choose 0
choose 1
choose 2
leaf 1 5 1 2 2 2 4 1 15 3 19 3
leaf 1 6 1 2 2 2 12 1 15 3 19 1 20 3
leaf 0 2 15 1 17 1
choose 1
choose 2
leaf 1 6 1 2 4 1 10 2 15 2 16 3 19 3
leaf 1 7 1 2 10 2 12 1 15 2 16 3 19 1 20 3
choose 2
leaf 1 6 1 2 4 1 10 2 15 2 16 3 19 3
leaf 1 7 1 2 10 2 12 1 15 2 16 3 19 1 20 3
end
";

/// Two power producers with small plants, which run where their premium is at least 3: a game of
/// `examples/` with its certificate.
const PRODUCERS: &str = r#"{"format":"zero-game/1","players":[
{"name":"north",
 "vars":[{"name":"own","up":3},{"name":"premium","up":5}],
 "cost":[["own",-6],["premium",2],["hired",-7]],
 "cross":[["own","south","own",1],["own","south","hired",1],
          ["hired","south","own",1],["hired","south","hired",1]],
 "followers":[{"vars":["hired"],"rows":[{"terms":[["hired",1]],"le":2}],
  "cost":[["hired",3]],"cross":[["hired","premium",-1]]}]},
{"name":"south",
 "vars":[{"name":"own","up":3},{"name":"premium","up":5}],
 "cost":[["own",-6],["premium",2],["hired",-7]],
 "cross":[["own","north","own",1],["own","north","hired",1],
          ["hired","north","own",1],["hired","north","hired",1]],
 "followers":[{"vars":["hired"],"rows":[{"terms":[["hired",1]],"le":2}],
  "cost":[["hired",3]],"cross":[["hired","premium",-1]]}]}]}"#;

const PRODUCERS_CERT: &str = "zero-cert/1
kind mixed 2
verdict profile
player 0 total 2 parts 2
part 1 1 3 3 2 0
part 1 1 3 0 0 0
player 1 total 2 parts 2
part 1 1 3 3 2 0
part 1 1 3 0 0 0
cost 0 -6 1
choose 0
leaf 1 3 1 2 2 2 9 3
leaf 1 4 1 2 6 2 9 2 10 3
cost 1 -6 1
choose 0
leaf 1 3 1 2 2 2 9 3
leaf 1 4 1 2 6 2 9 2 10 3
end
";

/// A city takes a toll of a road, and four cars go through the city or round it: a game of
/// `examples/` with its certificate.
const TOLL: &str = r#"{"format":"zero-game/1","players":[
{"name":"city",
 "vars":[{"name":"toll","up":5}],
 "cost":[["toll",2],["centre",3]],
 "followers":[{"vars":["centre","ring"],
  "rows":[{"terms":[["centre",-1],["ring",-1]],"le":-4}],
  "cost":[["centre",1],["ring",3]],"cross":[["centre","toll",1]]}]}]}"#;

const TOLL_CERT: &str = "zero-cert/1
kind pure 1
verdict profile
player 0 total 1 parts 1
part 1 1 2 0 4 3
cost 0 4 1
choose 0
choose 1
leaf 0 3 9 1 11 1 12 1
leaf 1 3 2 3 8 2 11 2
choose 1
leaf 1 3 0 2 11 3 12 3
leaf 1 3 2 3 8 2 11 2
end
";

/// A leader of 40 variables with a follower of 20 variables and 10 rows: 70 variables with the
/// multipliers.
const LARGE: &str = concat!(
    r#"{"format":"zero-game/1","players":[{"name":"A","vars":[{"name":"x0"},{"name":"x1"},{"nam"#,
    r#"e":"x2"},{"name":"x3"},{"name":"x4"},{"name":"x5"},{"name":"x6"},{"name":"x7"},{"name":""#,
    r#"x8"},{"name":"x9"},{"name":"x10"},{"name":"x11"},{"name":"x12"},{"name":"x13"},{"name":""#,
    r#"x14"},{"name":"x15"},{"name":"x16"},{"name":"x17"},{"name":"x18"},{"name":"x19"},{"name""#,
    r#":"x20"},{"name":"x21"},{"name":"x22"},{"name":"x23"},{"name":"x24"},{"name":"x25"},{"nam"#,
    r#"e":"x26"},{"name":"x27"},{"name":"x28"},{"name":"x29"},{"name":"x30"},{"name":"x31"},{"n"#,
    r#"ame":"x32"},{"name":"x33"},{"name":"x34"},{"name":"x35"},{"name":"x36"},{"name":"x37"},{"#,
    r#""name":"x38"},{"name":"x39"}],"followers":[{"vars":["y0","y1","y2","y3","y4","y5","y6",""#,
    r#"y7","y8","y9","y10","y11","y12","y13","y14","y15","y16","y17","y18","y19"],"rows":[{"ter"#,
    r#"ms":[],"le":0},{"terms":[],"le":0},{"terms":[],"le":0},{"terms":[],"le":0},{"terms":[],""#,
    r#"le":0},{"terms":[],"le":0},{"terms":[],"le":0},{"terms":[],"le":0},{"terms":[],"le":0},{"#,
    r#""terms":[],"le":0}]}]}]}"#,
);

/// A profile is an equilibrium of the leaders, whose followers answer optimally.
#[test]
fn followers_answer(rt: HostRuntime) -> Result<(), Fail> {
    for (game, cert, answer) in [
        (GREATEST, GREATEST_CERT, "accepted pure profile\n"),
        (FREE, FREE_CERT, "accepted pure profile\n"),
        (UNANSWERED, UNANSWERED_CERT, "accepted pure profile\n"),
        (TWO_EACH, TWO_EACH_CERT, "accepted mixed profile\n"),
        (PRODUCERS, PRODUCERS_CERT, "accepted mixed profile\n"),
        (TOLL, TOLL_CERT, "accepted pure profile\n"),
    ] {
        let ran = check_over(rt.alloc(), game, cert)?;
        compare(&rt, &ran, (0, answer, ""));
    }
    Ok(())
}

/// Certificates of a profile in which a follower could do better, and of a leader that could.
#[test]
fn worse_answers_are_refused(rt: HostRuntime) -> Result<(), Fail> {
    for (game, cert, said) in [
        (
            GREATEST,
            "zero-cert/1\nkind pure 1\nverdict profile\nplayer 0 total 1 parts 1\npart 1 1 2 1 1\ncost 0 1 1\nleaf 1 0\nend\n",
            "zero: certificate: line 5: wrong\n",
        ),
        (
            FREE,
            "zero-cert/1\nkind pure 1\nverdict profile\nplayer 0 total 1 parts 1\npart 1 1 0 0 0\ncost 0 0 1\nleaf 1 2 0 1 8 1\nend\n",
            "zero: certificate: line 7: wrong\n",
        ),
    ] {
        let ran = check_over(rt.alloc(), game, cert)?;
        compare(&rt, &ran, (6, "", said));
    }
    Ok(())
}

/// Too many variables with the followers' conditions are a fault of the game's text, for each action.
#[test]
fn too_many_conditions_are_refused(rt: HostRuntime) -> Result<(), Fail> {
    for line in ["check g c", "migrate g", "solve g --kind pure"] {
        let ran = run_over(rt.alloc(), line, &[("g", LARGE.as_bytes())], [None; 3])?;
        compare(
            &rt,
            &ran,
            (5, "", "zero: game: Count /players/0/followers\n"),
        );
    }
    Ok(())
}
