use super::*;
use smallvec::SmallVec;
use std::test::Fail;
use zr_game::Player;

/// One player of one binary variable, which it wants as great as can be.
fn one_binary(alloc: Global) -> Result<Vec<Leader>, Fail> {
    let base = Player {
        name: String::from_str(alloc, "A")?,
        vars: vec![in alloc;
            Var {
                name: String::from_str(alloc, "x")?,
                whole: true,
                low: Some(0),
                up: Some(1),
            },
        ]?,
        rows: Vec::new(alloc),
        pairs: Vec::new(alloc),
        cost: SmallVec::from_slice(alloc, &[(0, -1)])?,
        cross: Vec::new(alloc),
        others: Vec::new(alloc),
    };
    let leader = Leader {
        base,
        followers: Vec::new(alloc),
    };
    Ok(vec![in alloc; leader]?)
}

const SECOND: &str =
    r#"{"format":"zero-game/2","players":[{"cost":[["x",-1]],"cross":[],"followers":[],"name":"A","pairs":[],"rows":[],"vars":[{"int":true,"low":0,"name":"x","up":1}]}]}"#;

const FIRST: &str =
    r#"{"format":"zero-game/1","players":[{"cost":[["x",-1]],"cross":[],"followers":[],"name":"A","pairs":[],"rows":[],"vars":[{"int":true,"name":"x","up":1}]}]}"#;

/// The texts of a game of one binary, byte for byte.
#[test]
fn texts_of_one_binary(rt: HostRuntime) -> Result<(), Fail> {
    let alloc = rt.alloc();
    let Ok(source) = Source::new(one_binary(alloc)?) else {
        return Err(Fail::from("no source"));
    };
    let second = migrate_game(alloc, &source)?;
    assert!(rt; second.as_slice() == SECOND.as_bytes());
    let first = write_game(alloc, &source)?;
    assert!(rt; first.as_slice() == FIRST.as_bytes());
    Ok(())
}
