mod best;
mod certificates;
mod covers;
mod ends;
mod faults;
mod followers;
mod formats;
mod named;
mod places;

use crate::run::zero_run;
use std::alloc::{AllocError, Global};
use std::process::Abort;
use std::test::Fail;
use zr_io::{MemShelf, MemSink};

const SOLVE: &str = "solve g --kind pure";

const ONE_BINARY: &str =
    r#"{"format":"zero-game/1","players":[{"name":"A","vars":[{"name":"x","int":true,"up":1}],"cost":[["x",-1]]}]}"#;

const PENNIES: &str = r#"{"format":"zero-game/1","players":[
{"name":"A","vars":[{"name":"x","int":true,"up":1}],"cost":[["x",-2]],"cross":[["x","B","y",4]]},
{"name":"B","vars":[{"name":"y","int":true,"up":1}],"cost":[["y",2]],"cross":[["y","A","x",-4]]}]}"#;

const KNAPSACK: &str = r#"{"format":"zero-game/1","players":[
{"name":"A","vars":[{"name":"x1","int":true,"up":1},{"name":"x2","int":true,"up":1}],
 "rows":[{"terms":[["x1",3],["x2",4]],"le":5}],
 "cost":[["x1",-1],["x2",-2]],"cross":[["x1","B","y1",2],["x2","B","y2",3]]},
{"name":"B","vars":[{"name":"y1","int":true,"up":1},{"name":"y2","int":true,"up":1}],
 "rows":[{"terms":[["y1",2],["y2",5]],"le":5}],
 "cost":[["y1",-3],["y2",-5]],"cross":[["y1","A","x1",5],["y2","A","x2",4]]}]}"#;

const TENTHS: &str =
    r#"{"format":"zero-game/1","players":[{"name":"A","vars":[{"name":"x","int":true,"up":1}],"cost":[["x",1.0]]}]}"#;

const CONTINUOUS: &str =
    r#"{"format":"zero-game/1","players":[{"name":"A","vars":[{"name":"x","up":1}],"cost":[["x",-1]]}]}"#;

const FOUND: &str = "zero-cert/1
kind pure 1
verdict profile
player 0 total 1 parts 1
part 1 1 1
cost 0 -1 1
leaf 1 1 1 1
end
";

const FOUND_MIXED: &str = "zero-cert/1
kind mixed 1
verdict profile
player 0 total 1 parts 1
part 1 1 1
cost 0 -1 1
leaf 1 1 1 1
end
";

const HALF: &str = r#"{"format":"zero-game/1","players":[
{"name":"A","vars":[{"name":"x","int":true}],
 "rows":[{"terms":[["x",2]],"le":1},{"terms":[["x",-2]],"le":-1}]}]}"#;

const PAIRED: &str =
    r#"{"format":"zero-game/1","players":[{"name":"A","vars":[{"name":"x"}],"pairs":[{"var":"x","terms":[],"add":1}]}]}"#;

/// Matching pennies in which each side may be mixed at will.
const MIXED_PENNIES: &str = r#"{"format":"zero-game/1","players":[
{"name":"A","vars":[{"name":"x","up":1}],"cost":[["x",-2]],"cross":[["x","B","y",4]]},
{"name":"B","vars":[{"name":"y","up":1}],"cost":[["y",2]],"cross":[["y","A","x",-4]]}]}"#;

const MIXED_PENNIES_CERT: &str = "zero-cert/1
kind pure 2
verdict profile
player 0 total 1 parts 1
part 1 2 1
player 1 total 1 parts 1
part 1 2 1
cost 0 0 1
leaf 1 0
cost 1 0 1
leaf 1 0
end
";

const PENNIES_CERT: &str = "zero-cert/1
kind mixed 2
verdict profile
player 0 total 2 parts 2
part 1 1 0
part 1 1 1
player 1 total 2 parts 2
part 1 1 0
part 1 1 1
cost 0 0 1
leaf 1 0
cost 1 0 1
leaf 1 0
end
";

const KNAPSACK_CERT: &str = "zero-cert/1
kind mixed 2
verdict profile
player 0 total 9 parts 2
part 2 1 1 0
part 7 1 0 1
player 1 total 5 parts 2
part 2 1 1 0
part 3 1 0 1
cost 0 -1 5
split 1 0
leaf 1 2 2 1 4 1
split 0 0
leaf 1 2 2 1 4 1
leaf 0 3 0 1 1 3 3 4
cost 1 -17 9
split 1 0
leaf 1 2 2 17 4 17
leaf 2 2 0 17 3 51
end
";

const HALF_CERT: &str = "zero-cert/1
kind mixed 1
verdict none empty 0
split 0 0
leaf 0 2 1 1 3 2
leaf 0 2 0 1 2 2
end
";

const MIGRATED: &str =
    r#"{"format":"zero-game/2","players":[{"cost":[["x",-1]],"cross":[],"followers":[],"name":"A","pairs":[],"rows":[],"vars":[{"int":true,"low":0,"name":"x","up":1}]}]}"#;

const NO_PENNIES: &str = "zero-cert/1
kind pure 2
verdict none boxes
split 0 0 0
split 1 0 0
deviate 0 1 1
deviate 1 1 0
split 1 0 0
deviate 1 1 1
deviate 0 1 0
end
";

/// What a run over a shelf and sinks in memory gives.
#[derive(Drop)]
struct Run {
    status: u8,
    out: MemSink,
    err: MemSink,
}

fn words_of(alloc: Global, line: &str) -> Result<Vec<String>, AllocError> {
    let mut words = Vec::new(alloc);
    for word in line.split_ascii_whitespace() {
        words.push(String::from_str(alloc, word)?)?;
    }
    Ok(words)
}

fn one_call(alloc: Global, call: Option<u64>) -> Result<Vec<u64>, AllocError> {
    let mut calls = Vec::new(alloc);
    if let Some(call) = call {
        calls.push(call)?;
    }
    Ok(calls)
}

/// Runs the words over a shelf in which these names hold the contents. The calls of the shelf, of
/// `out` and of `err` with these numbers fail.
fn run_over(
    alloc: Global,
    line: &str,
    held: &[(&str, &[u8])],
    fails: [Option<u64>; 3],
) -> Result<Run, AllocError> {
    let [shelf_fails, out_fails, err_fails] = fails;
    let mut items = Vec::new(alloc);
    for (name, content) in held {
        items.push((String::from_str(alloc, name)?, content.to_vec(alloc)?))?;
    }
    let mut shelf = MemShelf::new(alloc, items, one_call(alloc, shelf_fails)?);
    let mut out = MemSink::new(alloc, one_call(alloc, out_fails)?);
    let mut err = MemSink::new(alloc, one_call(alloc, err_fails)?);
    let words = words_of(alloc, line)?;
    let status = zero_run(alloc, words.as_slice(), &mut shelf, &mut out, &mut err);
    Ok(Run { status, out, err })
}

/// Compares a run with the status and the texts that it is to give.
fn compare(rt: &impl Abort, ran: &Run, want: (u8, &str, &str)) {
    assert_eq!(rt; ran.status, want.0);
    assert_eq!(rt; ran.out.bytes(), want.1.as_bytes());
    assert_eq!(rt; ran.err.bytes(), want.2.as_bytes());
}

#[test]
fn games_are_solved(rt: HostRuntime) -> Result<(), Fail> {
    for (text, answer) in [
        (ONE_BINARY, FOUND),
        (PENNIES, NO_PENNIES),
        (MIXED_PENNIES, MIXED_PENNIES_CERT),
    ] {
        let ran = run_over(rt.alloc(), SOLVE, &[("g", text.as_bytes())], [None; 3])?;
        compare(&rt, &ran, (0, answer, ""));
    }
    Ok(())
}

/// Words out of form, and a call for help: what `clap` says of them, which names the word that is
/// at fault, comes before the line.
#[test]
fn words_out_of_form_are_refused(rt: HostRuntime) -> Result<(), Fail> {
    for (line, said) in [
        ("", "error: "),
        ("solve", "error: "),
        ("solve g --kind", "error: a value is required for '--kind"),
        (
            "solve g --kind both",
            "error: invalid value 'both' for '--kind",
        ),
        (
            "solve g --budget 1000000001",
            "error: invalid value '1000000001' for '--budget",
        ),
        (
            "solve g --rounds 10001 --kind pure",
            "error: invalid value '10001' for '--rounds",
        ),
        (
            "solve g --speed 3",
            "error: unexpected argument '--speed' found",
        ),
        ("check g c d", "error: unexpected argument 'd' found"),
        ("--help", "Usage: zero "),
    ] {
        let ran = run_over(rt.alloc(), line, &[("g", ONE_BINARY.as_bytes())], [None; 3])?;
        assert_eq!(rt; ran.status, 2);
        assert!(rt; ran.out.bytes().is_empty());
        assert!(rt; ran.err.bytes().starts_with(said.as_bytes()));
        assert!(rt; ran.err.bytes().ends_with(b"\nzero: usage\n"));
    }
    Ok(())
}

/// Words in the form of a command line, but of no action: the line alone.
#[test]
fn words_of_no_action_are_refused(rt: HostRuntime) -> Result<(), Fail> {
    for line in [
        "solve g h",
        "check g",
        "migrate g h",
        "best g",
        "play g",
        "gen knapsack 7",
        "select g",
        "matrix g",
        "market g",
    ] {
        let ran = run_over(rt.alloc(), line, &[("g", ONE_BINARY.as_bytes())], [None; 3])?;
        compare(&rt, &ran, (2, "", "zero: usage\n"));
    }
    Ok(())
}

/// Options may stand at any place, and each is read.
#[test]
fn options_are_read(rt: HostRuntime) -> Result<(), Fail> {
    for (line, want) in [
        ("--kind=pure solve g", (0, FOUND, "")),
        (
            "solve --budget 7 g --rounds=0 --kind pure --order 7",
            (0, FOUND, ""),
        ),
        ("solve --kind pure -- g", (0, FOUND, "")),
        ("solve g", (0, FOUND_MIXED, "")),
        ("solve g --kind mixed", (0, FOUND_MIXED, "")),
        ("migrate g", (0, MIGRATED, "")),
    ] {
        let ran = run_over(rt.alloc(), line, &[("g", ONE_BINARY.as_bytes())], [None; 3])?;
        compare(&rt, &ran, want);
    }
    Ok(())
}

#[test]
fn contents_are_refused(rt: HostRuntime) -> Result<(), Fail> {
    let alloc = rt.alloc();
    let long = vec![in alloc; b' '; 8_388_609]?;
    let half = &KNAPSACK.as_bytes()[..KNAPSACK.len() / 2];
    for (name, content, status, said) in [
        ("h", ONE_BINARY.as_bytes(), 3, "zero: cannot read g\n"),
        (
            "g",
            long.as_slice(),
            4,
            "zero: g is longer than 8388608 bytes\n",
        ),
        ("g", half, 5, "zero: game: NotJson\n"),
        (
            "g",
            TENTHS.as_bytes(),
            5,
            "zero: game: NotWhole /players/0/cost/0/1\n",
        ),
        ("g", b"[]".as_slice(), 5, "zero: game: Kind \n"),
    ] {
        let ran = run_over(alloc, SOLVE, &[(name, content)], [None; 3])?;
        compare(&rt, &ran, (status, "", said));
    }
    Ok(())
}

/// A game that can't be migrated: there is none, its text is too long, or there is no place for it.
#[test]
fn migrations_are_refused(rt: HostRuntime) -> Result<(), Fail> {
    let alloc = rt.alloc();
    let long = vec![in alloc; b' '; 8_388_609]?;
    let text = ONE_BINARY.as_bytes();
    for (name, content, fails, want) in [
        ("h", text, [None; 3], (3, "", "zero: cannot read g\n")),
        (
            "g",
            text,
            [Some(0), None, None],
            (3, "", "zero: cannot read g\n"),
        ),
        (
            "g",
            long.as_slice(),
            [None; 3],
            (4, "", "zero: g is longer than 8388608 bytes\n"),
        ),
        (
            "g",
            text,
            [None, Some(0), None],
            (12, "", "zero: write fault\n"),
        ),
    ] {
        let ran = run_over(alloc, "migrate g", &[(name, content)], fails)?;
        compare(&rt, &ran, want);
    }
    Ok(())
}

#[test]
fn calls_fail_in_turn(rt: HostRuntime) -> Result<(), Fail> {
    let alloc = rt.alloc();
    let held = [("g", ONE_BINARY.as_bytes())];
    for (fails, want) in [
        ([Some(0), None, None], (3, "", "zero: cannot read g\n")),
        ([None, Some(0), None], (12, "", "zero: write fault\n")),
        ([None, None, Some(0)], (0, FOUND, "")),
        ([Some(0), None, Some(0)], (3, "", "")),
        ([None, Some(0), Some(0)], (12, "", "")),
        ([Some(1), Some(1), Some(1)], (0, FOUND, "")),
    ] {
        let ran = run_over(alloc, SOLVE, &held, fails)?;
        compare(&rt, &ran, want);
    }
    Ok(())
}

/// The text with this line, counted from 1, in place of its own.
fn with_line(alloc: Global, text: &str, at: usize, line: &str) -> Result<String, AllocError> {
    let mut changed = String::new(alloc);
    for (i, old) in text.lines().enumerate() {
        changed.push_str(if i + 1 == at { line } else { old })?;
        changed.push_str("\n")?;
    }
    Ok(changed)
}

/// The first lines of the text.
fn first_lines(alloc: Global, text: &str, count: usize) -> Result<String, AllocError> {
    let mut start = String::new(alloc);
    for line in text.lines().take(count) {
        start.push_str(line)?;
        start.push_str("\n")?;
    }
    Ok(start)
}

fn check_over(alloc: Global, game: &str, cert: &str) -> Result<Run, AllocError> {
    let held = [("g", game.as_bytes()), ("c", cert.as_bytes())];
    run_over(alloc, "check g c", &held, [None; 3])
}

#[test]
fn certificates_are_accepted(rt: HostRuntime) -> Result<(), Fail> {
    for (game, cert, answer) in [
        (PENNIES, PENNIES_CERT, "accepted mixed profile\n"),
        (KNAPSACK, KNAPSACK_CERT, "accepted mixed profile\n"),
        (HALF, HALF_CERT, "accepted mixed none\n"),
        (MIXED_PENNIES, MIXED_PENNIES_CERT, "accepted pure profile\n"),
    ] {
        let ran = check_over(rt.alloc(), game, cert)?;
        compare(&rt, &ran, (0, answer, ""));
    }
    let pure = with_line(rt.alloc(), HALF_CERT, 2, "kind pure 1")?;
    let ran = check_over(rt.alloc(), HALF, pure.as_str())?;
    compare(&rt, &ran, (0, "accepted pure none\n", ""));
    Ok(())
}

const GREAT_FIRST: &str = "part 100000000000000000000000000000000000000 1 0";

const GREAT_SECOND: &str = "part 100000000000000000000000000000000000000 1 1";

/// Copies of the certificate for matching pennies with one line changed.
#[test]
fn changed_certificates_are_refused(rt: HostRuntime) -> Result<(), Fail> {
    let alloc = rt.alloc();
    for (at, line, said) in [
        (6, "part 2 1 1", "zero: certificate: line 6: wrong\n"),
        (11, "leaf 1 1 0 -1", "zero: certificate: line 11: form\n"),
        (5, "part 1  1 0", "zero: certificate: line 5: form\n"),
        (
            11,
            "leaf 1 1 0 100000000000000000000000000000000000000",
            "zero: certificate: line 11: wrong\n",
        ),
        (
            11,
            "leaf 1 1 0 1000000000000000000000000000000000000000",
            "zero: certificate: line 11: number\n",
        ),
        (1, "zero-cert/2", "zero: certificate: line 1: form\n"),
        (2, "kind pure 2", "zero: certificate: line 6: wrong\n"),
        (2, "kind mixed 17", "zero: certificate: line 2: number\n"),
        (3, "verdict none cover", "zero: certificate: line 4: form\n"),
        (
            4,
            "player 0 total 2 parts 4294967295",
            "zero: certificate: line 7: form\n",
        ),
        (
            4,
            "player 0 total 2 parts 4294967296",
            "zero: certificate: line 4: number\n",
        ),
        (
            4,
            "player 1 total 2 parts 2",
            "zero: certificate: line 4: form\n",
        ),
        (
            11,
            "leaf 1 4294967295",
            "zero: certificate: line 11: form\n",
        ),
        (10, "cost 0 1 2", "zero: certificate: line 10: wrong\n"),
        (14, "end\nx", "zero: certificate: line 15: form\n"),
    ] {
        let cert = with_line(alloc, PENNIES_CERT, at, line)?;
        let ran = check_over(alloc, PENNIES, cert.as_str())?;
        compare(&rt, &ran, (6, "", said));
    }
    let first = with_line(alloc, PENNIES_CERT, 5, GREAT_FIRST)?;
    let both = with_line(alloc, first.as_str(), 6, GREAT_SECOND)?;
    let ran = check_over(alloc, PENNIES, both.as_str())?;
    compare(&rt, &ran, (6, "", "zero: certificate: line 6: wide\n"));
    Ok(())
}

/// A certificate of which only the first lines are there is refused at the first that is missing.
#[test]
fn cut_certificates_are_refused(rt: HostRuntime) -> Result<(), Fail> {
    let alloc = rt.alloc();
    for (count, said) in [
        (0, "zero: certificate: line 1: form\n"),
        (2, "zero: certificate: line 3: form\n"),
        (5, "zero: certificate: line 6: form\n"),
        (10, "zero: certificate: line 11: form\n"),
        (13, "zero: certificate: line 14: form\n"),
    ] {
        let cert = first_lines(alloc, PENNIES_CERT, count)?;
        let ran = check_over(alloc, PENNIES, cert.as_str())?;
        compare(&rt, &ran, (6, "", said));
    }
    let feedless = &PENNIES_CERT.as_bytes()[..PENNIES_CERT.len() - 1];
    let held = [("g", PENNIES.as_bytes()), ("c", feedless)];
    let ran = run_over(alloc, "check g c", &held, [None; 3])?;
    compare(&rt, &ran, (6, "", "zero: certificate: line 14: form\n"));
    Ok(())
}

/// The game's causes come before the certificate's.
#[test]
fn checks_are_refused_in_order(rt: HostRuntime) -> Result<(), Fail> {
    let alloc = rt.alloc();
    let pennies = ("g", PENNIES.as_bytes());
    let cert = ("c", PENNIES_CERT.as_bytes());
    let faulty = ("g", b"[]".as_slice());
    let paired = ("g", PAIRED.as_bytes());
    let empty = ("c", b"".as_slice());
    for (held, fails, want) in [
        ([cert, cert], [None; 3], (3, "", "zero: cannot read g\n")),
        ([faulty, faulty], [None; 3], (5, "", "zero: game: Kind \n")),
        (
            [paired, empty],
            [None; 3],
            (6, "", "zero: certificate: line 1: form\n"),
        ),
        (
            [pennies, pennies],
            [None; 3],
            (3, "", "zero: cannot read c\n"),
        ),
        (
            [pennies, cert],
            [Some(1), None, None],
            (3, "", "zero: cannot read c\n"),
        ),
        (
            [pennies, empty],
            [None; 3],
            (6, "", "zero: certificate: line 1: form\n"),
        ),
        ([pennies, empty], [None, None, Some(0)], (6, "", "")),
        (
            [pennies, cert],
            [None, Some(0), None],
            (12, "", "zero: write fault\n"),
        ),
    ] {
        let ran = run_over(alloc, "check g c", &held, fails)?;
        compare(&rt, &ran, want);
    }
    Ok(())
}

#[test]
fn a_long_certificate_is_refused(rt: HostRuntime) -> Result<(), Fail> {
    let alloc = rt.alloc();
    let spaces = vec![in alloc; b' '; 67_108_865]?;
    let held = [("g", PENNIES.as_bytes()), ("c", spaces.as_slice())];
    let ran = run_over(alloc, "check g c", &held, [None; 3])?;
    compare(
        &rt,
        &ran,
        (4, "", "zero: c is longer than 67108864 bytes\n"),
    );
    Ok(())
}
