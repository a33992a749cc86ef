use crate::tests::faults::compare_all;
use std::alloc::{AllocError, Global};
use std::test::Fail;

/// Terms of pairs: the first fault, and the text.
const PAIR_TERMS: [(&str, &str); 8] = [
    (
        "Kind /players/0/pairs/0/terms/0",
        r#"{"format":"zero-game/2","players":[{"name":"A","vars":[{"name":"x"}],"pairs":[{"var":"x","terms":[1],"add":0}]}]}"#,
    ),
    (
        "Kind /players/0/pairs/0/terms/0",
        r#"{"format":"zero-game/2","players":[{"name":"A","vars":[{"name":"x"}],"pairs":[{"var":"x","terms":[["x",1,2]],"add":0}]}]}"#,
    ),
    (
        "Kind /players/0/pairs/0/terms/0/0",
        r#"{"format":"zero-game/2","players":[{"name":"A","vars":[{"name":"x"}],"pairs":[{"var":"x","terms":[[1,1]],"add":0}]}]}"#,
    ),
    (
        "BadName /players/0/pairs/0/terms/0/0",
        r#"{"format":"zero-game/2","players":[{"name":"A","vars":[{"name":"x"}],"pairs":[{"var":"x","terms":[["a b",1]],"add":0}]}]}"#,
    ),
    (
        "Twice /players/0/pairs/0/terms/1/0",
        r#"{"format":"zero-game/2","players":[{"name":"A","vars":[{"name":"x"}],"pairs":[{"var":"x","terms":[["x",1],["x",2]],"add":0}]}]}"#,
    ),
    (
        "Kind /players/0/pairs/0/terms/0/1",
        r#"{"format":"zero-game/2","players":[{"name":"A","vars":[{"name":"x"}],"pairs":[{"var":"x","terms":[["x","1"]],"add":0}]}]}"#,
    ),
    (
        "NotWhole /players/0/pairs/0/terms/0/1",
        r#"{"format":"zero-game/2","players":[{"name":"A","vars":[{"name":"x"}],"pairs":[{"var":"x","terms":[["x",1.5]],"add":0}]}]}"#,
    ),
    (
        "TooBig /players/0/pairs/0/terms/0/1",
        r#"{"format":"zero-game/1","players":[{"name":"A","vars":[{"name":"x"}],"pairs":[{"var":"x","terms":[["x",1000000001]],"add":0}]}]}"#,
    ),
];

/// Sides of rows: the first fault, and the text.
const SIDES: [(&str, &str); 2] = [
    (
        "TooBig /players/0/rows/0/ge",
        r#"{"format":"zero-game/2","players":[{"name":"A","vars":[{"name":"x"}],"rows":[{"terms":[],"ge":-1000000001}]}]}"#,
    ),
    (
        "NotWhole /players/0/rows/0/eq",
        r#"{"format":"zero-game/2","players":[{"name":"A","vars":[{"name":"x"}],"rows":[{"terms":[],"eq":0.5}]}]}"#,
    ),
];

/// Terms of costs and cross terms: the first fault, and the text.
const COST_TERMS: [(&str, &str); 8] = [
    (
        "Kind /players/0/cost/0",
        r#"{"format":"zero-game/2","players":[{"name":"A","vars":[{"name":"x"}],"cost":[1]}]}"#,
    ),
    (
        "Kind /players/0/cost/0",
        r#"{"format":"zero-game/2","players":[{"name":"A","vars":[{"name":"x"}],"cost":[["x"]]}]}"#,
    ),
    (
        "Kind /players/0/cost/0/0",
        r#"{"format":"zero-game/2","players":[{"name":"A","vars":[{"name":"x"}],"cost":[[null,1]]}]}"#,
    ),
    (
        "BadName /players/0/cost/0/0",
        r#"{"format":"zero-game/1","players":[{"name":"A","vars":[{"name":"x"}],"cost":[["",1]]}]}"#,
    ),
    (
        "Kind /players/0/cost/0/1",
        r#"{"format":"zero-game/2","players":[{"name":"A","vars":[{"name":"x"}],"cost":[["x",true]]}]}"#,
    ),
    (
        "BadName /players/0/cross/0/0",
        r#"{"format":"zero-game/2","players":[{"name":"A","vars":[{"name":"x"}],"cross":[["a b","B","y",1]]},{"name":"B","vars":[{"name":"y"}]}]}"#,
    ),
    (
        "BadName /players/0/cross/0/1",
        r#"{"format":"zero-game/2","players":[{"name":"A","vars":[{"name":"x"}],"cross":[["x","a b","y",1]]},{"name":"B","vars":[{"name":"y"}]}]}"#,
    ),
    (
        "BadName /players/0/cross/0/2",
        r#"{"format":"zero-game/1","players":[{"name":"A","vars":[{"name":"x"}],"cross":[["x","B","y-",1]]},{"name":"B","vars":[{"name":"y"}]}]}"#,
    ),
];

/// Terms in the others' variables: the first fault, and the text.
const OTHERS_TERMS: [(&str, &str); 12] = [
    (
        "Kind /players/0/others/0/0",
        r#"{"format":"zero-game/2","players":[{"name":"A","vars":[{"name":"x"}],"others":[[1,"y",1]]},{"name":"B","vars":[{"name":"y"}]},{"name":"C","vars":[{"name":"z"}]}]}"#,
    ),
    (
        "BadName /players/0/others/0/0",
        r#"{"format":"zero-game/2","players":[{"name":"A","vars":[{"name":"x"}],"others":[["a b","y",1]]},{"name":"B","vars":[{"name":"y"}]},{"name":"C","vars":[{"name":"z"}]}]}"#,
    ),
    (
        "Kind /players/0/others/0/1",
        r#"{"format":"zero-game/2","players":[{"name":"A","vars":[{"name":"x"}],"others":[["B",1,1]]},{"name":"B","vars":[{"name":"y"}]},{"name":"C","vars":[{"name":"z"}]}]}"#,
    ),
    (
        "BadName /players/0/others/0/1",
        r#"{"format":"zero-game/1","players":[{"name":"A","vars":[{"name":"x"}],"others":[["B","a b",1]]},{"name":"B","vars":[{"name":"y"}]},{"name":"C","vars":[{"name":"z"}]}]}"#,
    ),
    (
        "Kind /players/0/others/0/2",
        r#"{"format":"zero-game/2","players":[{"name":"A","vars":[{"name":"x"}],"others":[["B","y","1"]]},{"name":"B","vars":[{"name":"y"}]},{"name":"C","vars":[{"name":"z"}]}]}"#,
    ),
    (
        "TooBig /players/0/others/0/2",
        r#"{"format":"zero-game/2","players":[{"name":"A","vars":[{"name":"x"}],"others":[["B","y",-1000000001]]},{"name":"B","vars":[{"name":"y"}]},{"name":"C","vars":[{"name":"z"}]}]}"#,
    ),
    (
        "Kind /players/0/others/0/2",
        r#"{"format":"zero-game/2","players":[{"name":"A","vars":[{"name":"x"}],"others":[["B","y",1,"z",1]]},{"name":"B","vars":[{"name":"y"}]},{"name":"C","vars":[{"name":"z"}]}]}"#,
    ),
    (
        "BadName /players/0/others/0/2",
        r#"{"format":"zero-game/2","players":[{"name":"A","vars":[{"name":"x"}],"others":[["B","y","a b","z",1]]},{"name":"B","vars":[{"name":"y"}]},{"name":"C","vars":[{"name":"z"}]}]}"#,
    ),
    (
        "Kind /players/0/others/0/3",
        r#"{"format":"zero-game/2","players":[{"name":"A","vars":[{"name":"x"}],"others":[["B","y","C",1,1]]},{"name":"B","vars":[{"name":"y"}]},{"name":"C","vars":[{"name":"z"}]}]}"#,
    ),
    (
        "BadName /players/0/others/0/3",
        r#"{"format":"zero-game/1","players":[{"name":"A","vars":[{"name":"x"}],"others":[["B","y","C","a b",1]]},{"name":"B","vars":[{"name":"y"}]},{"name":"C","vars":[{"name":"z"}]}]}"#,
    ),
    (
        "Kind /players/0/others/0/4",
        r#"{"format":"zero-game/2","players":[{"name":"A","vars":[{"name":"x"}],"others":[["B","y","C","z","1"]]},{"name":"B","vars":[{"name":"y"}]},{"name":"C","vars":[{"name":"z"}]}]}"#,
    ),
    (
        "NotWhole /players/0/others/0/4",
        r#"{"format":"zero-game/2","players":[{"name":"A","vars":[{"name":"x"}],"others":[["B","y","C","z",0.5]]},{"name":"B","vars":[{"name":"y"}]},{"name":"C","vars":[{"name":"z"}]}]}"#,
    ),
];

/// Followers' rows, costs and cross terms: the first fault, and the text.
const FOLLOWERS_TERMS: [(&str, &str); 32] = [
    (
        "Kind /players/0/followers/0/rows/0",
        r#"{"format":"zero-game/2","players":[{"name":"A","vars":[{"name":"x"}],"followers":[{"vars":["f"],"rows":[1]}]}]}"#,
    ),
    (
        "Kind /players/0/followers/0/rows/0/terms/0",
        r#"{"format":"zero-game/2","players":[{"name":"A","vars":[{"name":"x"}],"followers":[{"vars":["f"],"rows":[{"terms":[1],"le":1}]}]}]}"#,
    ),
    (
        "Kind /players/0/followers/0/rows/0/terms/0",
        r#"{"format":"zero-game/2","players":[{"name":"A","vars":[{"name":"x"}],"followers":[{"vars":["f"],"rows":[{"terms":[["f",1,2]],"le":1}]}]}]}"#,
    ),
    (
        "Kind /players/0/followers/0/rows/0/terms",
        r#"{"format":"zero-game/2","players":[{"name":"A","vars":[{"name":"x"}],"followers":[{"vars":["f"],"rows":[{"terms":1,"le":1}]}]}]}"#,
    ),
    (
        "Kind /players/0/followers/0/rows/0/terms/0/0",
        r#"{"format":"zero-game/2","players":[{"name":"A","vars":[{"name":"x"}],"followers":[{"vars":["f"],"rows":[{"terms":[[1,1]],"le":1}]}]}]}"#,
    ),
    (
        "BadName /players/0/followers/0/rows/0/terms/0/0",
        r#"{"format":"zero-game/2","players":[{"name":"A","vars":[{"name":"x"}],"followers":[{"vars":["f"],"rows":[{"terms":[["a b",1]],"le":1}]}]}]}"#,
    ),
    (
        "Twice /players/0/followers/0/rows/0/terms/2/0",
        r#"{"format":"zero-game/2","players":[{"name":"A","vars":[{"name":"x"}],"followers":[{"vars":["f"],"rows":[{"terms":[["f",1],["x",1],["f",2]],"le":1}]}]}]}"#,
    ),
    (
        "Kind /players/0/followers/0/rows/0/terms/0/1",
        r#"{"format":"zero-game/2","players":[{"name":"A","vars":[{"name":"x"}],"followers":[{"vars":["f"],"rows":[{"terms":[["f","1"]],"le":1}]}]}]}"#,
    ),
    (
        "NotWhole /players/0/followers/0/rows/0/terms/0/1",
        r#"{"format":"zero-game/2","players":[{"name":"A","vars":[{"name":"x"}],"followers":[{"vars":["f"],"rows":[{"terms":[["f",1.5]],"le":1}]}]}]}"#,
    ),
    (
        "TooBig /players/0/followers/0/rows/0/terms/0/1",
        r#"{"format":"zero-game/2","players":[{"name":"A","vars":[{"name":"x"}],"followers":[{"vars":["f"],"rows":[{"terms":[["f",1000000001]],"le":1}]}]}]}"#,
    ),
    (
        "Kind /players/0/followers/0/rows/0/le",
        r#"{"format":"zero-game/2","players":[{"name":"A","vars":[{"name":"x"}],"followers":[{"vars":["f"],"rows":[{"terms":[],"le":"1"}]}]}]}"#,
    ),
    (
        "NotWhole /players/0/followers/0/rows/0/le",
        r#"{"format":"zero-game/2","players":[{"name":"A","vars":[{"name":"x"}],"followers":[{"vars":["f"],"rows":[{"terms":[],"le":0.5}]}]}]}"#,
    ),
    (
        "TooBig /players/0/followers/0/rows/0/le",
        r#"{"format":"zero-game/2","players":[{"name":"A","vars":[{"name":"x"}],"followers":[{"vars":["f"],"rows":[{"terms":[],"le":1000000001}]}]}]}"#,
    ),
    (
        "Kind /players/0/followers/0/rows/0/ge",
        r#"{"format":"zero-game/2","players":[{"name":"A","vars":[{"name":"x"}],"followers":[{"vars":["f"],"rows":[{"terms":[],"ge":"1"}]}]}]}"#,
    ),
    (
        "NotWhole /players/0/followers/0/rows/0/ge",
        r#"{"format":"zero-game/2","players":[{"name":"A","vars":[{"name":"x"}],"followers":[{"vars":["f"],"rows":[{"terms":[],"ge":0.5}]}]}]}"#,
    ),
    (
        "TooBig /players/0/followers/0/rows/0/ge",
        r#"{"format":"zero-game/2","players":[{"name":"A","vars":[{"name":"x"}],"followers":[{"vars":["f"],"rows":[{"terms":[],"ge":1000000001}]}]}]}"#,
    ),
    (
        "Kind /players/0/followers/0/rows/0/eq",
        r#"{"format":"zero-game/2","players":[{"name":"A","vars":[{"name":"x"}],"followers":[{"vars":["f"],"rows":[{"terms":[],"eq":"1"}]}]}]}"#,
    ),
    (
        "NotWhole /players/0/followers/0/rows/0/eq",
        r#"{"format":"zero-game/2","players":[{"name":"A","vars":[{"name":"x"}],"followers":[{"vars":["f"],"rows":[{"terms":[],"eq":0.5}]}]}]}"#,
    ),
    (
        "TooBig /players/0/followers/0/rows/0/eq",
        r#"{"format":"zero-game/2","players":[{"name":"A","vars":[{"name":"x"}],"followers":[{"vars":["f"],"rows":[{"terms":[],"eq":1000000001}]}]}]}"#,
    ),
    (
        "Twice /players/0/followers/0/rows/0/ge",
        r#"{"format":"zero-game/2","players":[{"name":"A","vars":[{"name":"x"}],"followers":[{"vars":["f"],"rows":[{"terms":[],"le":1,"ge":1}]}]}]}"#,
    ),
    (
        "Kind /players/0/followers/0/cost/0",
        r#"{"format":"zero-game/2","players":[{"name":"A","vars":[{"name":"x"}],"followers":[{"vars":["f"],"cost":[1]}]}]}"#,
    ),
    (
        "Kind /players/0/followers/0/cost/0/0",
        r#"{"format":"zero-game/2","players":[{"name":"A","vars":[{"name":"x"}],"followers":[{"vars":["f"],"cost":[[1,1]]}]}]}"#,
    ),
    (
        "BadName /players/0/followers/0/cost/0/0",
        r#"{"format":"zero-game/2","players":[{"name":"A","vars":[{"name":"x"}],"followers":[{"vars":["f"],"cost":[["a b",1]]}]}]}"#,
    ),
    (
        "Kind /players/0/followers/0/cost/0/1",
        r#"{"format":"zero-game/2","players":[{"name":"A","vars":[{"name":"x"}],"followers":[{"vars":["f"],"cost":[["f","1"]]}]}]}"#,
    ),
    (
        "NotWhole /players/0/followers/0/cost/0/1",
        r#"{"format":"zero-game/2","players":[{"name":"A","vars":[{"name":"x"}],"followers":[{"vars":["f"],"cost":[["f",1.5]]}]}]}"#,
    ),
    (
        "TooBig /players/0/followers/0/cost/0/1",
        r#"{"format":"zero-game/2","players":[{"name":"A","vars":[{"name":"x"}],"followers":[{"vars":["f"],"cost":[["f",-1000000001]]}]}]}"#,
    ),
    (
        "Kind /players/0/followers/0/cross/0",
        r#"{"format":"zero-game/2","players":[{"name":"A","vars":[{"name":"x"}],"followers":[{"vars":["f"],"cross":[1]}]}]}"#,
    ),
    (
        "Kind /players/0/followers/0/cross/0/0",
        r#"{"format":"zero-game/2","players":[{"name":"A","vars":[{"name":"x"}],"followers":[{"vars":["f"],"cross":[[1,"x",1]]}]}]}"#,
    ),
    (
        "BadName /players/0/followers/0/cross/0/0",
        r#"{"format":"zero-game/2","players":[{"name":"A","vars":[{"name":"x"}],"followers":[{"vars":["f"],"cross":[["a b","x",1]]}]}]}"#,
    ),
    (
        "Kind /players/0/followers/0/cross/0/1",
        r#"{"format":"zero-game/2","players":[{"name":"A","vars":[{"name":"x"}],"followers":[{"vars":["f"],"cross":[["f",1,1]]}]}]}"#,
    ),
    (
        "BadName /players/0/followers/0/cross/0/1",
        r#"{"format":"zero-game/2","players":[{"name":"A","vars":[{"name":"x"}],"followers":[{"vars":["f"],"cross":[["f","a b",1]]}]}]}"#,
    ),
    (
        "Kind /players/0/followers/0/cross/0/2",
        r#"{"format":"zero-game/2","players":[{"name":"A","vars":[{"name":"x"}],"followers":[{"vars":["f"],"cross":[["f","x","1"]]}]}]}"#,
    ),
];

/// The places of terms, and the sides of followers' rows.
#[test]
fn faults_of_terms_are_told(rt: HostRuntime) -> Result<(), Fail> {
    for texts in [
        PAIR_TERMS.as_slice(),
        SIDES.as_slice(),
        COST_TERMS.as_slice(),
        OTHERS_TERMS.as_slice(),
        FOLLOWERS_TERMS.as_slice(),
    ] {
        compare_all(&rt, texts)?;
    }
    Ok(())
}

/// What stands before a member of the one player, in format 2.
const START: &str = r#"{"format":"zero-game/2","players":[{"name":"A","vars":[{"name":"x"}],"#;

/// Lists of one item again and again: the first fault, what stands before and after them in the
/// player, the item, and how often it stands. At the limit the fault is the item's.
const LISTS: [(&str, [&str; 3], usize); 10] = [
    ("Kind /players/0/rows/0", [r#""rows":["#, "1", "]"], 256),
    ("Count /players/0/rows", [r#""rows":["#, "1", "]"], 257),
    (
        "Missing /players/0/rows/0/terms",
        [r#""rows":["#, r#"{"eq":1}"#, "]"],
        128,
    ),
    (
        "Count /players/0/rows",
        [r#""rows":["#, r#"{"eq":1}"#, "]"],
        129,
    ),
    (
        "Kind /players/0/cross/0",
        [r#""cross":["#, "1", "]"],
        65_536,
    ),
    ("Count /players/0/cross", [r#""cross":["#, "1", "]"], 65_537),
    (
        "Kind /players/0/others/0",
        [r#""others":["#, "1", "]"],
        65_536,
    ),
    (
        "Count /players/0/others",
        [r#""others":["#, "1", "]"],
        65_537,
    ),
    (
        "Kind /players/0/followers/0/cross/0",
        [r#""followers":[{"vars":[],"cross":["#, "1", "]}]"],
        65_536,
    ),
    (
        "Count /players/0/followers/0/cross",
        [r#""followers":[{"vars":[],"cross":["#, "1", "]}]"],
        65_537,
    ),
];

/// A text of one player with a list of this item again and again.
fn with_list(alloc: Global, parts: [&str; 3], count: usize) -> Result<String, AllocError> {
    let [before, item, after] = parts;
    let mut text = String::from_str(alloc, START)?;
    text.push_str(before)?;
    text.push_str(item)?;
    for _ in 1..count {
        text.push_str(",")?;
        text.push_str(item)?;
    }
    text.push_str(after)?;
    text.push_str("}]}")?;
    Ok(text)
}

/// Lists at their limits, and longer by one.
#[test]
fn long_lists_are_refused(rt: HostRuntime) -> Result<(), Fail> {
    let alloc = rt.alloc();
    for (fault, parts, count) in LISTS {
        let text = with_list(alloc, parts, count)?;
        compare_all(&rt, &[(fault, text.as_str())])?;
    }
    Ok(())
}

/// A text whose first player has so many variables of its own, and then these members.
fn with_variables(alloc: Global, count: usize, members: &str) -> Result<String, AllocError> {
    let mut text = String::from_str(
        alloc,
        r#"{"format":"zero-game/2","players":[{"name":"A","vars":["#,
    )?;
    for i in 0..count {
        let separator = if i == 0 { "" } else { "," };
        let variable = format!(in alloc; "{separator}{{\"name\":\"x{i}\"}}")?;
        text.push_str(variable.as_str())?;
    }
    text.push_str("],")?;
    text.push_str(members)?;
    text.push_str("}]}")?;
    Ok(text)
}

/// Variables are counted with the followers' after the names of all of these, and before the next
/// player.
#[test]
fn followers_variables_are_counted(rt: HostRuntime) -> Result<(), Fail> {
    let alloc = rt.alloc();
    for (fault, count, members) in [
        (
            "Kind /players/0/followers/0/rows",
            63,
            r#""followers":[{"vars":["f"],"rows":1}]"#,
        ),
        (
            "Count /players/0/followers",
            64,
            r#""followers":[{"vars":["f"],"rows":1}]"#,
        ),
        (
            "Twice /players/0/followers/1/vars/0",
            64,
            r#""followers":[{"vars":["f"]},{"vars":["f"]}]"#,
        ),
        (
            "Count /players/0/followers",
            64,
            r#""followers":[{"vars":["f"]}]},{"#,
        ),
        (
            "Count /players/0/followers",
            64,
            r#""rows":1,"followers":[{"vars":["f"]}]"#,
        ),
    ] {
        let text = with_variables(alloc, count, members)?;
        compare_all(&rt, &[(fault, text.as_str())])?;
    }
    Ok(())
}
