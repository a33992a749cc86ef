use crate::tests::{compare, run_over};
use std::alloc::{AllocError, Global};
use std::process::Abort;
use std::test::Fail;

/// The game itself, its players' names and aims: the first fault, and the text.
const TOPS: [(&str, &str); 22] = [
    ("NotJson", ""),
    ("NotJson", r#"{"format":"zero-game/2",}"#),
    (
        "NotJson",
        r#"{"format":"zero-game/2","players":[{"name":"A","vars":[{"name":"x"}]}]"#,
    ),
    (
        "NotJson",
        "[[[[[[[[[[[[[[[[[[[[[[[[[[[[[[[[[[[[[[[[[[[[[[[[[[[[[[[[[[[[[[[[[[[[[[[[[[[[[[[[[[[[[[[[[[[[[[[[[[[[[[[[[[[[[[[[[[[[[[[[[[[[[[[[]]]]]]]]]]]]]]]]]]]]]]]]]]]]]]]]]]]]]]]]]]]]]]]]]]]]]]]]]]]]]]]]]]]]]]]]]]]]]]]]]]]]]]]]]]]]]]]]]]]]]]]]]]]]]]]]]]]]]]]]]]]]]]]]",
    ),
    ("Kind ", "[]"),
    (
        "Kind ",
        "[[[[[[[[[[[[[[[[[[[[[[[[[[[[[[[[[[[[[[[[[[[[[[[[[[[[[[[[[[[[[[[[[[[[[[[[[[[[[[[[[[[[[[[[[[[[[[[[[[[[[[[[[[[[[[[[[[[[[[[[[[[[[[[]]]]]]]]]]]]]]]]]]]]]]]]]]]]]]]]]]]]]]]]]]]]]]]]]]]]]]]]]]]]]]]]]]]]]]]]]]]]]]]]]]]]]]]]]]]]]]]]]]]]]]]]]]]]]]]]]]]]]]]]]]]]]]]",
    ),
    ("Missing /format", "{}"),
    ("Kind /format", r#"{"format":1}"#),
    ("Format /format", r#"{"format":"zero-game/3","players":1}"#),
    ("Missing /players", r#"{"format":"zero-game/1"}"#),
    ("Kind /players", r#"{"format":"zero-game/1","players":{}}"#),
    ("Count /players", r#"{"format":"zero-game/1","players":[]}"#),
    (
        "Count /players",
        r#"{"format":"zero-game/2","players":[1,1,1,1,1,1,1,1,1,1,1,1,1,1,1,1,1]}"#,
    ),
    (
        "Kind /players/0",
        r#"{"format":"zero-game/2","players":[1]}"#,
    ),
    (
        "Missing /players/0/name",
        r#"{"format":"zero-game/2","players":[{}]}"#,
    ),
    (
        "Kind /players/0/name",
        r#"{"format":"zero-game/2","players":[{"name":1}]}"#,
    ),
    (
        "BadName /players/0/name",
        r#"{"format":"zero-game/2","players":[{"name":"","vars":[{"name":"x"}]}]}"#,
    ),
    (
        "BadName /players/0/name",
        r#"{"format":"zero-game/2","players":[{"name":"aaaaaaaaaaaaaaaaaaaaaaaaaaaaaaaaa","vars":[{"name":"x"}]}]}"#,
    ),
    (
        "BadName /players/0/name",
        r#"{"format":"zero-game/2","players":[{"name":"a b","vars":[{"name":"x"}]}]}"#,
    ),
    (
        "Twice /players/1/name",
        r#"{"format":"zero-game/2","players":[{"name":"A","vars":[{"name":"x"}]},{"name":"A","vars":[{"name":"y"}]}]}"#,
    ),
    (
        "Kind /players/0/aim",
        r#"{"format":"zero-game/2","players":[{"name":"A","vars":[{"name":"x"}],"aim":1}]}"#,
    ),
    (
        "Format /players/0/aim",
        r#"{"format":"zero-game/2","players":[{"name":"A","vars":[{"name":"x"}],"aim":"most"}]}"#,
    ),
];

/// Variables, a player's and its followers': the first fault, and the text.
const VARIABLES: [(&str, &str); 34] = [
    (
        "Missing /players/0/vars",
        r#"{"format":"zero-game/2","players":[{"name":"A"}]}"#,
    ),
    (
        "Kind /players/0/vars",
        r#"{"format":"zero-game/2","players":[{"name":"A","vars":1}]}"#,
    ),
    (
        "Count /players/0/vars",
        r#"{"format":"zero-game/2","players":[{"name":"A","vars":[]}]}"#,
    ),
    (
        "Count /players/0/vars",
        r#"{"format":"zero-game/2","players":[{"name":"A","vars":[1,1,1,1,1,1,1,1,1,1,1,1,1,1,1,1,1,1,1,1,1,1,1,1,1,1,1,1,1,1,1,1,1,1,1,1,1,1,1,1,1,1,1,1,1,1,1,1,1,1,1,1,1,1,1,1,1,1,1,1,1,1,1,1,1]}]}"#,
    ),
    (
        "Kind /players/0/vars/0",
        r#"{"format":"zero-game/2","players":[{"name":"A","vars":[1]}]}"#,
    ),
    (
        "Missing /players/0/vars/0/name",
        r#"{"format":"zero-game/2","players":[{"name":"A","vars":[{}]}]}"#,
    ),
    (
        "Kind /players/0/vars/0/name",
        r#"{"format":"zero-game/2","players":[{"name":"A","vars":[{"name":1}]}]}"#,
    ),
    (
        "BadName /players/0/vars/0/name",
        r#"{"format":"zero-game/2","players":[{"name":"A","vars":[{"name":"a-b"}]}]}"#,
    ),
    (
        "Twice /players/0/vars/1/name",
        r#"{"format":"zero-game/2","players":[{"name":"A","vars":[{"name":"x"},{"name":"x"}]}]}"#,
    ),
    (
        "Kind /players/0/vars/0/int",
        r#"{"format":"zero-game/2","players":[{"name":"A","vars":[{"name":"x","int":1}]}]}"#,
    ),
    (
        "Kind /players/0/vars/0/low",
        r#"{"format":"zero-game/2","players":[{"name":"A","vars":[{"name":"x","low":"0"}]}]}"#,
    ),
    (
        "Kind /players/0/vars/0/low",
        r#"{"format":"zero-game/2","players":[{"name":"A","vars":[{"name":"x","low":true}]}]}"#,
    ),
    (
        "NotWhole /players/0/vars/0/low",
        r#"{"format":"zero-game/2","players":[{"name":"A","vars":[{"name":"x","low":1.5}]}]}"#,
    ),
    (
        "TooBig /players/0/vars/0/low",
        r#"{"format":"zero-game/2","players":[{"name":"A","vars":[{"name":"x","low":-1000000001}]}]}"#,
    ),
    (
        "TooBig /players/0/vars/0/low",
        r#"{"format":"zero-game/2","players":[{"name":"A","vars":[{"name":"x","low":1000000001}]}]}"#,
    ),
    (
        "Kind /players/0/vars/0/up",
        r#"{"format":"zero-game/2","players":[{"name":"A","vars":[{"name":"x","up":null}]}]}"#,
    ),
    (
        "NotWhole /players/0/vars/0/up",
        r#"{"format":"zero-game/2","players":[{"name":"A","vars":[{"name":"x","up":1.0}]}]}"#,
    ),
    (
        "TooBig /players/0/vars/0/up",
        r#"{"format":"zero-game/1","players":[{"name":"A","vars":[{"name":"x","up":-1}]}]}"#,
    ),
    (
        "TooBig /players/0/vars/0/up",
        r#"{"format":"zero-game/2","players":[{"name":"A","vars":[{"name":"x","up":-1}]}]}"#,
    ),
    (
        "TooBig /players/0/vars/0/up",
        r#"{"format":"zero-game/2","players":[{"name":"A","vars":[{"name":"x","up":1000000001}]}]}"#,
    ),
    (
        "TooBig /players/0/vars/0/up",
        r#"{"format":"zero-game/2","players":[{"name":"A","vars":[{"name":"x","low":2,"up":1}]}]}"#,
    ),
    (
        "TooBig /players/0/vars/0/up",
        r#"{"format":"zero-game/2","players":[{"name":"A","vars":[{"name":"x","low":null,"up":-1000000001}]}]}"#,
    ),
    (
        "NotWhole /players/0/vars/0/up",
        r#"{"format":"zero-game/2","players":[{"name":"A","vars":[{"name":"x","up":18446744073709551616}]}]}"#,
    ),
    (
        "TooBig /players/0/vars/0/up",
        r#"{"format":"zero-game/2","players":[{"name":"A","vars":[{"name":"x","up":9223372036854775808}]}]}"#,
    ),
    (
        "Kind /players/0/followers",
        r#"{"format":"zero-game/2","players":[{"name":"A","vars":[{"name":"x"}],"followers":1}]}"#,
    ),
    (
        "Kind /players/0/followers/0",
        r#"{"format":"zero-game/2","players":[{"name":"A","vars":[{"name":"x"}],"followers":[1]}]}"#,
    ),
    (
        "Missing /players/0/followers/0/vars",
        r#"{"format":"zero-game/2","players":[{"name":"A","vars":[{"name":"x"}],"followers":[{}]}]}"#,
    ),
    (
        "Kind /players/0/followers/0/vars",
        r#"{"format":"zero-game/2","players":[{"name":"A","vars":[{"name":"x"}],"followers":[{"vars":1}]}]}"#,
    ),
    (
        "Kind /players/0/followers/0/vars/0",
        r#"{"format":"zero-game/2","players":[{"name":"A","vars":[{"name":"x"}],"followers":[{"vars":[1]}]}]}"#,
    ),
    (
        "BadName /players/0/followers/0/vars/0",
        r#"{"format":"zero-game/2","players":[{"name":"A","vars":[{"name":"x"}],"followers":[{"vars":["a b"]}]}]}"#,
    ),
    (
        "Twice /players/0/followers/0/vars/0",
        r#"{"format":"zero-game/2","players":[{"name":"A","vars":[{"name":"x"}],"followers":[{"vars":["x"]}]}]}"#,
    ),
    (
        "Twice /players/0/followers/1/vars/0",
        r#"{"format":"zero-game/2","players":[{"name":"A","vars":[{"name":"x"}],"followers":[{"vars":["f"]},{"vars":["f"]}]}]}"#,
    ),
    (
        "Twice /players/0/followers/0/vars/1",
        r#"{"format":"zero-game/2","players":[{"name":"A","vars":[{"name":"x"}],"followers":[{"vars":["f","f"]}]}]}"#,
    ),
    (
        "Count /players/0/followers",
        r#"{"format":"zero-game/2","players":[{"name":"A","vars":[{"name":"x"}],"followers":[{"vars":[]},{"vars":[]},{"vars":[]},{"vars":[]},{"vars":[]},{"vars":[]},{"vars":[]},{"vars":[]},{"vars":[]},{"vars":[]},{"vars":[]},{"vars":[]},{"vars":[]},{"vars":[]},{"vars":[]},{"vars":[]},{"vars":[]}]}]}"#,
    ),
];

/// Rows: the first fault, and the text.
const ROWS: [(&str, &str); 30] = [
    (
        "Kind /players/0/rows",
        r#"{"format":"zero-game/2","players":[{"name":"A","vars":[{"name":"x"}],"rows":1}]}"#,
    ),
    (
        "Kind /players/0/rows/0",
        r#"{"format":"zero-game/2","players":[{"name":"A","vars":[{"name":"x"}],"rows":[1]}]}"#,
    ),
    (
        "Missing /players/0/rows/0/terms",
        r#"{"format":"zero-game/2","players":[{"name":"A","vars":[{"name":"x"}],"rows":[{}]}]}"#,
    ),
    (
        "Kind /players/0/rows/0/terms",
        r#"{"format":"zero-game/2","players":[{"name":"A","vars":[{"name":"x"}],"rows":[{"terms":1}]}]}"#,
    ),
    (
        "Kind /players/0/rows/0/terms/0",
        r#"{"format":"zero-game/2","players":[{"name":"A","vars":[{"name":"x"}],"rows":[{"terms":[1]}]}]}"#,
    ),
    (
        "Kind /players/0/rows/0/terms/0",
        r#"{"format":"zero-game/2","players":[{"name":"A","vars":[{"name":"x"}],"rows":[{"terms":[["x"]]}]}]}"#,
    ),
    (
        "Kind /players/0/rows/0/terms/0",
        r#"{"format":"zero-game/2","players":[{"name":"A","vars":[{"name":"x"}],"rows":[{"terms":[["x",1,2]]}]}]}"#,
    ),
    (
        "Kind /players/0/rows/0/terms/0/0",
        r#"{"format":"zero-game/2","players":[{"name":"A","vars":[{"name":"x"}],"rows":[{"terms":[[1,1]]}]}]}"#,
    ),
    (
        "UnknownName /players/0/rows/0/terms/0/0",
        r#"{"format":"zero-game/2","players":[{"name":"A","vars":[{"name":"x"}],"rows":[{"terms":[["z",1]]}]}]}"#,
    ),
    (
        "BadName /players/0/rows/0/terms/0/0",
        r#"{"format":"zero-game/2","players":[{"name":"A","vars":[{"name":"x"}],"rows":[{"terms":[["a b",1]]}]}]}"#,
    ),
    (
        "Kind /players/0/rows/0/terms/0/1",
        r#"{"format":"zero-game/2","players":[{"name":"A","vars":[{"name":"x"}],"rows":[{"terms":[["x","1"]]}]}]}"#,
    ),
    (
        "NotWhole /players/0/rows/0/terms/0/1",
        r#"{"format":"zero-game/2","players":[{"name":"A","vars":[{"name":"x"}],"rows":[{"terms":[["x",1.5]]}]}]}"#,
    ),
    (
        "TooBig /players/0/rows/0/terms/0/1",
        r#"{"format":"zero-game/2","players":[{"name":"A","vars":[{"name":"x"}],"rows":[{"terms":[["x",1000000001]]}]}]}"#,
    ),
    (
        "Twice /players/0/rows/0/terms/1/0",
        r#"{"format":"zero-game/2","players":[{"name":"A","vars":[{"name":"x"}],"rows":[{"terms":[["x",1],["x",1]]}]}]}"#,
    ),
    (
        "Twice /players/0/rows/0/terms/1/0",
        r#"{"format":"zero-game/2","players":[{"name":"A","vars":[{"name":"x"}],"rows":[{"terms":[["x",0],["x",1.5]]}]}]}"#,
    ),
    (
        "NotWhole /players/0/rows/0/terms/0/1",
        r#"{"format":"zero-game/2","players":[{"name":"A","vars":[{"name":"x"}],"rows":[{"terms":[["x",1.5],["x",1]]}]}]}"#,
    ),
    (
        "Missing /players/0/rows/0/le",
        r#"{"format":"zero-game/2","players":[{"name":"A","vars":[{"name":"x"}],"rows":[{"terms":[]}]}]}"#,
    ),
    (
        "Missing /players/0/rows/0/le",
        r#"{"format":"zero-game/1","players":[{"name":"A","vars":[{"name":"x"}],"rows":[{"terms":[],"ge":1}]}]}"#,
    ),
    (
        "Kind /players/0/rows/0/le",
        r#"{"format":"zero-game/2","players":[{"name":"A","vars":[{"name":"x"}],"rows":[{"terms":[],"le":"1"}]}]}"#,
    ),
    (
        "NotWhole /players/0/rows/0/le",
        r#"{"format":"zero-game/1","players":[{"name":"A","vars":[{"name":"x"}],"rows":[{"terms":[],"le":0.5}]}]}"#,
    ),
    (
        "TooBig /players/0/rows/0/le",
        r#"{"format":"zero-game/2","players":[{"name":"A","vars":[{"name":"x"}],"rows":[{"terms":[],"le":-1000000001}]}]}"#,
    ),
    (
        "Kind /players/0/rows/0/ge",
        r#"{"format":"zero-game/2","players":[{"name":"A","vars":[{"name":"x"}],"rows":[{"terms":[],"ge":"1"}]}]}"#,
    ),
    (
        "NotWhole /players/0/rows/0/ge",
        r#"{"format":"zero-game/2","players":[{"name":"A","vars":[{"name":"x"}],"rows":[{"terms":[],"ge":0.5}]}]}"#,
    ),
    (
        "TooBig /players/0/rows/0/eq",
        r#"{"format":"zero-game/2","players":[{"name":"A","vars":[{"name":"x"}],"rows":[{"terms":[],"eq":1000000001}]}]}"#,
    ),
    (
        "Kind /players/0/rows/0/eq",
        r#"{"format":"zero-game/2","players":[{"name":"A","vars":[{"name":"x"}],"rows":[{"terms":[],"eq":null}]}]}"#,
    ),
    (
        "Twice /players/0/rows/0/ge",
        r#"{"format":"zero-game/2","players":[{"name":"A","vars":[{"name":"x"}],"rows":[{"terms":[],"le":1,"ge":1}]}]}"#,
    ),
    (
        "Twice /players/0/rows/0/eq",
        r#"{"format":"zero-game/2","players":[{"name":"A","vars":[{"name":"x"}],"rows":[{"terms":[],"le":1,"eq":1}]}]}"#,
    ),
    (
        "Twice /players/0/rows/0/eq",
        r#"{"format":"zero-game/2","players":[{"name":"A","vars":[{"name":"x"}],"rows":[{"terms":[],"ge":1,"eq":1}]}]}"#,
    ),
    (
        "Twice /players/0/rows/0/ge",
        r#"{"format":"zero-game/2","players":[{"name":"A","vars":[{"name":"x"}],"rows":[{"terms":[],"le":1,"ge":1,"eq":1}]}]}"#,
    ),
    (
        "Kind /players/0/rows/0/le",
        r#"{"format":"zero-game/2","players":[{"name":"A","vars":[{"name":"x"}],"rows":[{"terms":[],"le":"1","ge":1}]}]}"#,
    ),
];

/// Pairs: the first fault, and the text.
const PAIRS: [(&str, &str); 16] = [
    (
        "Kind /players/0/pairs",
        r#"{"format":"zero-game/2","players":[{"name":"A","vars":[{"name":"x"}],"pairs":1}]}"#,
    ),
    (
        "Count /players/0/pairs",
        r#"{"format":"zero-game/2","players":[{"name":"A","vars":[{"name":"x"}],"pairs":[1,1,1,1,1,1,1,1,1,1,1,1,1,1,1,1,1,1,1,1,1,1,1,1,1,1,1,1,1,1,1,1,1]}]}"#,
    ),
    (
        "Kind /players/0/pairs/0",
        r#"{"format":"zero-game/2","players":[{"name":"A","vars":[{"name":"x"}],"pairs":[1]}]}"#,
    ),
    (
        "Missing /players/0/pairs/0/var",
        r#"{"format":"zero-game/2","players":[{"name":"A","vars":[{"name":"x"}],"pairs":[{}]}]}"#,
    ),
    (
        "Kind /players/0/pairs/0/var",
        r#"{"format":"zero-game/2","players":[{"name":"A","vars":[{"name":"x"}],"pairs":[{"var":1}]}]}"#,
    ),
    (
        "UnknownName /players/0/pairs/0/var",
        r#"{"format":"zero-game/2","players":[{"name":"A","vars":[{"name":"x"}],"pairs":[{"var":"z"}]}]}"#,
    ),
    (
        "BadName /players/0/pairs/0/var",
        r#"{"format":"zero-game/2","players":[{"name":"A","vars":[{"name":"x"}],"pairs":[{"var":"a b"}]}]}"#,
    ),
    (
        "PairLow /players/0/pairs/0/var",
        r#"{"format":"zero-game/2","players":[{"name":"A","vars":[{"name":"x","low":1}],"pairs":[{"var":"x"}]}]}"#,
    ),
    (
        "PairLow /players/0/pairs/0/var",
        r#"{"format":"zero-game/2","players":[{"name":"A","vars":[{"name":"x","low":null}],"pairs":[{"var":"x","terms":[],"add":0}]}]}"#,
    ),
    (
        "Missing /players/0/pairs/0/terms",
        r#"{"format":"zero-game/2","players":[{"name":"A","vars":[{"name":"x"}],"pairs":[{"var":"x"}]}]}"#,
    ),
    (
        "Kind /players/0/pairs/0/terms",
        r#"{"format":"zero-game/2","players":[{"name":"A","vars":[{"name":"x"}],"pairs":[{"var":"x","terms":{}}]}]}"#,
    ),
    (
        "UnknownName /players/0/pairs/0/terms/0/0",
        r#"{"format":"zero-game/2","players":[{"name":"A","vars":[{"name":"x"}],"pairs":[{"var":"x","terms":[["y",1]]}]}]}"#,
    ),
    (
        "Missing /players/0/pairs/0/add",
        r#"{"format":"zero-game/2","players":[{"name":"A","vars":[{"name":"x"}],"pairs":[{"var":"x","terms":[]}]}]}"#,
    ),
    (
        "Kind /players/0/pairs/0/add",
        r#"{"format":"zero-game/2","players":[{"name":"A","vars":[{"name":"x"}],"pairs":[{"var":"x","terms":[],"add":"1"}]}]}"#,
    ),
    (
        "NotWhole /players/0/pairs/0/add",
        r#"{"format":"zero-game/1","players":[{"name":"A","vars":[{"name":"x"}],"pairs":[{"var":"x","terms":[],"add":0.5}]}]}"#,
    ),
    (
        "TooBig /players/0/pairs/0/add",
        r#"{"format":"zero-game/2","players":[{"name":"A","vars":[{"name":"x"}],"pairs":[{"var":"x","terms":[],"add":1000000001}]}]}"#,
    ),
];

/// Costs, cross terms and terms in the others' variables: the first fault, and the text.
const COSTS: [(&str, &str); 36] = [
    (
        "Kind /players/0/cost",
        r#"{"format":"zero-game/2","players":[{"name":"A","vars":[{"name":"x"}],"cost":1},{"name":"B","vars":[{"name":"y"}]}]}"#,
    ),
    (
        "UnknownName /players/0/cost/0/0",
        r#"{"format":"zero-game/2","players":[{"name":"A","vars":[{"name":"x"}],"cost":[["y",1]]},{"name":"B","vars":[{"name":"y"}]}]}"#,
    ),
    (
        "Twice /players/0/cost/1/0",
        r#"{"format":"zero-game/2","players":[{"name":"A","vars":[{"name":"x"}],"cost":[["x",1],["x",2]]},{"name":"B","vars":[{"name":"y"}]}]}"#,
    ),
    (
        "TooBig /players/0/cost/0/1",
        r#"{"format":"zero-game/2","players":[{"name":"A","vars":[{"name":"x"}],"cost":[["x",-1000000001]]},{"name":"B","vars":[{"name":"y"}]}]}"#,
    ),
    (
        "NotWhole /players/0/cost/0/1",
        r#"{"format":"zero-game/1","players":[{"name":"A","vars":[{"name":"x"}],"cost":[["x",1e3]]}]}"#,
    ),
    (
        "NotWhole /players/0/cost/0/1",
        r#"{"format":"zero-game/1","players":[{"name":"A","vars":[{"name":"x"}],"cost":[["x",-0]]}]}"#,
    ),
    (
        "NotJson",
        r#"{"format":"zero-game/1","players":[{"name":"A","vars":[{"name":"x"}],"cost":[["x",1e400]]}]}"#,
    ),
    (
        "Kind /players/0/cross",
        r#"{"format":"zero-game/2","players":[{"name":"A","vars":[{"name":"x"}],"cross":1},{"name":"B","vars":[{"name":"y"}]}]}"#,
    ),
    (
        "Kind /players/0/cross/0",
        r#"{"format":"zero-game/2","players":[{"name":"A","vars":[{"name":"x"}],"cross":[1]},{"name":"B","vars":[{"name":"y"}]}]}"#,
    ),
    (
        "Kind /players/0/cross/0",
        r#"{"format":"zero-game/2","players":[{"name":"A","vars":[{"name":"x"}],"cross":[["x","B","y"]]},{"name":"B","vars":[{"name":"y"}]}]}"#,
    ),
    (
        "Kind /players/0/cross/0/0",
        r#"{"format":"zero-game/2","players":[{"name":"A","vars":[{"name":"x"}],"cross":[[1,"B","y",1]]},{"name":"B","vars":[{"name":"y"}]}]}"#,
    ),
    (
        "UnknownName /players/0/cross/0/0",
        r#"{"format":"zero-game/2","players":[{"name":"A","vars":[{"name":"x"}],"cross":[["z","B","y",1]]},{"name":"B","vars":[{"name":"y"}]}]}"#,
    ),
    (
        "UnknownName /players/0/cross/0/0",
        r#"{"format":"zero-game/2","players":[{"name":"A","vars":[{"name":"x"}],"cross":[["y","B","y",1]]},{"name":"B","vars":[{"name":"y"}]}]}"#,
    ),
    (
        "Kind /players/0/cross/0/1",
        r#"{"format":"zero-game/2","players":[{"name":"A","vars":[{"name":"x"}],"cross":[["x",1,"y",1]]},{"name":"B","vars":[{"name":"y"}]}]}"#,
    ),
    (
        "UnknownName /players/0/cross/0/1",
        r#"{"format":"zero-game/2","players":[{"name":"A","vars":[{"name":"x"}],"cross":[["x","C","y",1]]},{"name":"B","vars":[{"name":"y"}]}]}"#,
    ),
    (
        "OwnCross /players/0/cross/0/1",
        r#"{"format":"zero-game/2","players":[{"name":"A","vars":[{"name":"x"}],"cross":[["x","A","x",1]]},{"name":"B","vars":[{"name":"y"}]}]}"#,
    ),
    (
        "Kind /players/0/cross/0/2",
        r#"{"format":"zero-game/2","players":[{"name":"A","vars":[{"name":"x"}],"cross":[["x","B",1,1]]},{"name":"B","vars":[{"name":"y"}]}]}"#,
    ),
    (
        "UnknownName /players/0/cross/0/2",
        r#"{"format":"zero-game/2","players":[{"name":"A","vars":[{"name":"x"}],"cross":[["x","B","x",1]]},{"name":"B","vars":[{"name":"y"}]}]}"#,
    ),
    (
        "Kind /players/0/cross/0/3",
        r#"{"format":"zero-game/2","players":[{"name":"A","vars":[{"name":"x"}],"cross":[["x","B","y","1"]]},{"name":"B","vars":[{"name":"y"}]}]}"#,
    ),
    (
        "NotWhole /players/0/cross/0/3",
        r#"{"format":"zero-game/2","players":[{"name":"A","vars":[{"name":"x"}],"cross":[["x","B","y",0.5]]},{"name":"B","vars":[{"name":"y"}]}]}"#,
    ),
    (
        "TooBig /players/0/cross/0/3",
        r#"{"format":"zero-game/1","players":[{"name":"A","vars":[{"name":"x"}],"cross":[["x","B","y",1000000001]]},{"name":"B","vars":[{"name":"y"}]}]}"#,
    ),
    (
        "Twice /players/0/cross/1/2",
        r#"{"format":"zero-game/2","players":[{"name":"A","vars":[{"name":"x"}],"cross":[["x","B","y",1],["x","B","y",0.5]]},{"name":"B","vars":[{"name":"y"}]}]}"#,
    ),
    (
        "Kind /players/0/others",
        r#"{"format":"zero-game/2","players":[{"name":"A","vars":[{"name":"x"}],"others":1},{"name":"B","vars":[{"name":"y"}]},{"name":"C","vars":[{"name":"z"}]}]}"#,
    ),
    (
        "Kind /players/0/others/0",
        r#"{"format":"zero-game/2","players":[{"name":"A","vars":[{"name":"x"}],"others":[1]},{"name":"B","vars":[{"name":"y"}]},{"name":"C","vars":[{"name":"z"}]}]}"#,
    ),
    (
        "Kind /players/0/others/0",
        r#"{"format":"zero-game/2","players":[{"name":"A","vars":[{"name":"x"}],"others":[["B","y","C","z"]]},{"name":"B","vars":[{"name":"y"}]},{"name":"C","vars":[{"name":"z"}]}]}"#,
    ),
    (
        "OwnCross /players/0/others/0/0",
        r#"{"format":"zero-game/2","players":[{"name":"A","vars":[{"name":"x"}],"others":[["A","x",1]]},{"name":"B","vars":[{"name":"y"}]},{"name":"C","vars":[{"name":"z"}]}]}"#,
    ),
    (
        "UnknownName /players/0/others/0/0",
        r#"{"format":"zero-game/2","players":[{"name":"A","vars":[{"name":"x"}],"others":[["D","y",1]]},{"name":"B","vars":[{"name":"y"}]},{"name":"C","vars":[{"name":"z"}]}]}"#,
    ),
    (
        "UnknownName /players/0/others/0/1",
        r#"{"format":"zero-game/2","players":[{"name":"A","vars":[{"name":"x"}],"others":[["B","x",1]]},{"name":"B","vars":[{"name":"y"}]},{"name":"C","vars":[{"name":"z"}]}]}"#,
    ),
    (
        "NotWhole /players/0/others/0/2",
        r#"{"format":"zero-game/2","players":[{"name":"A","vars":[{"name":"x"}],"others":[["B","y",0.5]]},{"name":"B","vars":[{"name":"y"}]},{"name":"C","vars":[{"name":"z"}]}]}"#,
    ),
    (
        "Twice /players/0/others/1/1",
        r#"{"format":"zero-game/1","players":[{"name":"A","vars":[{"name":"x"}],"others":[["B","y",1],["B","y",1]]},{"name":"B","vars":[{"name":"y"}]},{"name":"C","vars":[{"name":"z"}]}]}"#,
    ),
    (
        "OwnCross /players/0/others/0/2",
        r#"{"format":"zero-game/2","players":[{"name":"A","vars":[{"name":"x"}],"others":[["B","y","B","y",1]]},{"name":"B","vars":[{"name":"y"}]},{"name":"C","vars":[{"name":"z"}]}]}"#,
    ),
    (
        "OwnCross /players/0/others/0/2",
        r#"{"format":"zero-game/2","players":[{"name":"A","vars":[{"name":"x"}],"others":[["B","y","A","x",1]]},{"name":"B","vars":[{"name":"y"}]},{"name":"C","vars":[{"name":"z"}]}]}"#,
    ),
    (
        "UnknownName /players/0/others/0/2",
        r#"{"format":"zero-game/2","players":[{"name":"A","vars":[{"name":"x"}],"others":[["B","y","D","z",1]]},{"name":"B","vars":[{"name":"y"}]},{"name":"C","vars":[{"name":"z"}]}]}"#,
    ),
    (
        "UnknownName /players/0/others/0/3",
        r#"{"format":"zero-game/2","players":[{"name":"A","vars":[{"name":"x"}],"others":[["B","y","C","y",1]]},{"name":"B","vars":[{"name":"y"}]},{"name":"C","vars":[{"name":"z"}]}]}"#,
    ),
    (
        "TooBig /players/0/others/0/4",
        r#"{"format":"zero-game/2","players":[{"name":"A","vars":[{"name":"x"}],"others":[["B","y","C","z",1000000001]]},{"name":"B","vars":[{"name":"y"}]},{"name":"C","vars":[{"name":"z"}]}]}"#,
    ),
    (
        "Twice /players/0/others/1/3",
        r#"{"format":"zero-game/2","players":[{"name":"A","vars":[{"name":"x"}],"others":[["B","y","C","z",1],["C","z","B","y",1]]},{"name":"B","vars":[{"name":"y"}]},{"name":"C","vars":[{"name":"z"}]}]}"#,
    ),
];

/// Followers' programs: the first fault, and the text.
const FOLLOWERS: [(&str, &str); 20] = [
    (
        "Kind /players/0/followers/0/aim",
        r#"{"format":"zero-game/2","players":[{"name":"A","vars":[{"name":"x"}],"followers":[{"vars":["f"],"aim":1}]},{"name":"B","vars":[{"name":"y"}]}]}"#,
    ),
    (
        "Format /players/0/followers/0/aim",
        r#"{"format":"zero-game/2","players":[{"name":"A","vars":[{"name":"x"}],"followers":[{"vars":["f"],"aim":"least"}]},{"name":"B","vars":[{"name":"y"}]}]}"#,
    ),
    (
        "Kind /players/0/followers/0/rows",
        r#"{"format":"zero-game/2","players":[{"name":"A","vars":[{"name":"x"}],"followers":[{"vars":["f"],"rows":1}]},{"name":"B","vars":[{"name":"y"}]}]}"#,
    ),
    (
        "Count /players/0/followers/0/rows",
        r#"{"format":"zero-game/2","players":[{"name":"A","vars":[{"name":"x"}],"followers":[{"vars":["f"],"rows":[1,1,1,1,1,1,1,1,1,1,1,1,1,1,1,1,1,1,1,1,1,1,1,1,1,1,1,1,1,1,1,1,1]}]},{"name":"B","vars":[{"name":"y"}]}]}"#,
    ),
    (
        "Count /players/0/followers/0/rows",
        r#"{"format":"zero-game/2","players":[{"name":"A","vars":[{"name":"x"}],"followers":[{"vars":["f"],"rows":[{"eq":1},{"eq":1},{"eq":1},{"eq":1},{"eq":1},{"eq":1},{"eq":1},{"eq":1},{"eq":1},{"eq":1},{"eq":1},{"eq":1},{"eq":1},{"eq":1},{"eq":1},{"eq":1},{"eq":1}]}]},{"name":"B","vars":[{"name":"y"}]}]}"#,
    ),
    (
        "Missing /players/0/followers/0/rows/0/terms",
        r#"{"format":"zero-game/2","players":[{"name":"A","vars":[{"name":"x"}],"followers":[{"vars":["f"],"rows":[{}]}]},{"name":"B","vars":[{"name":"y"}]}]}"#,
    ),
    (
        "Missing /players/0/followers/0/rows/0/le",
        r#"{"format":"zero-game/1","players":[{"name":"A","vars":[{"name":"x"}],"followers":[{"vars":["f"],"rows":[{"terms":[]}]}]},{"name":"B","vars":[{"name":"y"}]}]}"#,
    ),
    (
        "UnknownName /players/0/followers/0/rows/0/terms/0/0",
        r#"{"format":"zero-game/2","players":[{"name":"A","vars":[{"name":"x"}],"followers":[{"vars":["f"],"rows":[{"terms":[["y",1]]}]}]},{"name":"B","vars":[{"name":"y"}]}]}"#,
    ),
    (
        "Twice /players/0/followers/0/rows/0/eq",
        r#"{"format":"zero-game/2","players":[{"name":"A","vars":[{"name":"x"}],"followers":[{"vars":["f"],"rows":[{"terms":[],"ge":1,"eq":1}]}]},{"name":"B","vars":[{"name":"y"}]}]}"#,
    ),
    (
        "Kind /players/0/followers/0/cost",
        r#"{"format":"zero-game/2","players":[{"name":"A","vars":[{"name":"x"}],"followers":[{"vars":["f"],"cost":1}]},{"name":"B","vars":[{"name":"y"}]}]}"#,
    ),
    (
        "UnknownName /players/0/followers/0/cost/0/0",
        r#"{"format":"zero-game/2","players":[{"name":"A","vars":[{"name":"x"}],"followers":[{"vars":["f"],"cost":[["g",1]]}]},{"name":"B","vars":[{"name":"y"}]}]}"#,
    ),
    (
        "Twice /players/0/followers/0/cost/1/0",
        r#"{"format":"zero-game/1","players":[{"name":"A","vars":[{"name":"x"}],"followers":[{"vars":["f"],"cost":[["f",1],["f",1]]}]},{"name":"B","vars":[{"name":"y"}]}]}"#,
    ),
    (
        "Kind /players/0/followers/0/cross",
        r#"{"format":"zero-game/2","players":[{"name":"A","vars":[{"name":"x"}],"followers":[{"vars":["f"],"cross":1}]},{"name":"B","vars":[{"name":"y"}]}]}"#,
    ),
    (
        "Kind /players/0/followers/0/cross/0",
        r#"{"format":"zero-game/2","players":[{"name":"A","vars":[{"name":"x"}],"followers":[{"vars":["f"],"cross":[["f","x",1,1]]}]},{"name":"B","vars":[{"name":"y"}]}]}"#,
    ),
    (
        "UnknownName /players/0/followers/0/cross/0/0",
        r#"{"format":"zero-game/2","players":[{"name":"A","vars":[{"name":"x"}],"followers":[{"vars":["f"],"cross":[["x","x",1]]}]},{"name":"B","vars":[{"name":"y"}]}]}"#,
    ),
    (
        "OwnCross /players/0/followers/0/cross/0/1",
        r#"{"format":"zero-game/2","players":[{"name":"A","vars":[{"name":"x"}],"followers":[{"vars":["f"],"cross":[["f","f",1]]}]},{"name":"B","vars":[{"name":"y"}]}]}"#,
    ),
    (
        "UnknownName /players/0/followers/0/cross/0/1",
        r#"{"format":"zero-game/2","players":[{"name":"A","vars":[{"name":"x"}],"followers":[{"vars":["f"],"cross":[["f","y",1]]}]},{"name":"B","vars":[{"name":"y"}]}]}"#,
    ),
    (
        "NotWhole /players/0/followers/0/cross/0/2",
        r#"{"format":"zero-game/2","players":[{"name":"A","vars":[{"name":"x"}],"followers":[{"vars":["f"],"cross":[["f","x",0.5]]}]},{"name":"B","vars":[{"name":"y"}]}]}"#,
    ),
    (
        "Twice /players/0/followers/0/cross/1/1",
        r#"{"format":"zero-game/2","players":[{"name":"A","vars":[{"name":"x"}],"followers":[{"vars":["f"],"cross":[["f","x",1],["f","x",1]]}]},{"name":"B","vars":[{"name":"y"}]}]}"#,
    ),
    (
        "TooBig /players/0/followers/0/cross/0/2",
        r#"{"format":"zero-game/1","players":[{"name":"A","vars":[{"name":"x"}],"followers":[{"vars":["f"],"cross":[["f","x",1000000001]]}]},{"name":"B","vars":[{"name":"y"}]}]}"#,
    ),
];

/// Two faults in one text: the earlier one, by the order of the two passes: the first fault, and the text.
const ORDERS: [(&str, &str); 20] = [
    (
        "Missing /players/1/name",
        r#"{"format":"zero-game/2","players":[{"name":"A","vars":[{"name":"x"}],"rows":1},{}]}"#,
    ),
    (
        "Kind /players/0/rows",
        r#"{"format":"zero-game/2","players":[{"name":"A","vars":[{"name":"x"}],"rows":1},{"name":"B","vars":[{"name":"y"}],"rows":1}]}"#,
    ),
    (
        "Kind /players/0/rows",
        r#"{"format":"zero-game/2","players":[{"name":"A","vars":[{"name":"x"}],"rows":1,"cost":1}]}"#,
    ),
    (
        "Kind /players/0/pairs",
        r#"{"format":"zero-game/2","players":[{"name":"A","vars":[{"name":"x"}],"pairs":1,"cost":1}]}"#,
    ),
    (
        "Kind /players/0/cost",
        r#"{"format":"zero-game/2","players":[{"name":"A","vars":[{"name":"x"}],"cost":1,"cross":1}]}"#,
    ),
    (
        "Kind /players/0/cross",
        r#"{"format":"zero-game/2","players":[{"name":"A","vars":[{"name":"x"}],"cross":1,"others":1}]}"#,
    ),
    (
        "Kind /players/0/others",
        r#"{"format":"zero-game/2","players":[{"name":"A","vars":[{"name":"x"}],"others":1,"followers":[{"vars":[],"aim":1}]}]}"#,
    ),
    (
        "Kind /players/0/followers/0/aim",
        r#"{"format":"zero-game/2","players":[{"name":"A","vars":[{"name":"x"}],"followers":[{"vars":[],"aim":1,"rows":1}]}]}"#,
    ),
    (
        "Kind /players/0/followers/0/rows",
        r#"{"format":"zero-game/2","players":[{"name":"A","vars":[{"name":"x"}],"followers":[{"vars":[],"rows":1,"cost":1}]}]}"#,
    ),
    (
        "Kind /players/0/followers/0/cost",
        r#"{"format":"zero-game/2","players":[{"name":"A","vars":[{"name":"x"}],"followers":[{"vars":[],"cost":1,"cross":1}]}]}"#,
    ),
    (
        "Kind /players/0/followers/0/cross",
        r#"{"format":"zero-game/2","players":[{"name":"A","vars":[{"name":"x"}],"followers":[{"vars":[],"cross":1}]},{"name":"B","vars":[{"name":"y"}],"rows":1}]}"#,
    ),
    (
        "Kind /players/0/followers/0/vars",
        r#"{"format":"zero-game/2","players":[{"name":"A","vars":[{"name":"x"}],"followers":[{"vars":1}]},{}]}"#,
    ),
    (
        "Kind /players/0/aim",
        r#"{"format":"zero-game/2","players":[{"name":"A","vars":1,"aim":1}]}"#,
    ),
    (
        "Kind /players/0/vars",
        r#"{"format":"zero-game/2","players":[{"name":"A","vars":1,"followers":1}]}"#,
    ),
    (
        "Kind /players/0/vars/0/int",
        r#"{"format":"zero-game/2","players":[{"name":"A","vars":[{"name":"x","int":1,"low":"a"}]}]}"#,
    ),
    (
        "Kind /players/0/vars/0/low",
        r#"{"format":"zero-game/2","players":[{"name":"A","vars":[{"name":"x","low":"a","up":"b"}]}]}"#,
    ),
    (
        "Kind /players/0/rows/0/terms",
        r#"{"format":"zero-game/2","players":[{"name":"A","vars":[{"name":"x"}],"rows":[{"terms":1,"le":"a"}]}]}"#,
    ),
    (
        "Kind /players/0/pairs/0/var",
        r#"{"format":"zero-game/2","players":[{"name":"A","vars":[{"name":"x"}],"pairs":[{"var":1,"terms":1,"add":"a"}]}]}"#,
    ),
    (
        "Format /players/1/aim",
        r#"{"format":"zero-game/2","players":[{"name":"A","vars":[{"name":"x"}],"rows":[{}]},{"name":"B","vars":[{"name":"y"}],"aim":"x"}]}"#,
    ),
    (
        "Missing /players/0/rows/0/le",
        r#"{"format":"zero-game/1","players":[{"name":"A","vars":[{"name":"x"}],"rows":[{"terms":[],"eq":1}]},{"name":"B","vars":[{"name":"y"}],"aim":"x"}]}"#,
    ),
];

/// Runs `migrate` over each text, and compares the line that names its first fault.
pub fn compare_all<R: Abort + AllocGlobal>(
    rt: &R,
    texts: &[(&str, &str)],
) -> Result<(), AllocError> {
    let alloc = rt.alloc();
    for (fault, text) in texts {
        let ran = run_over(alloc, "migrate g", &[("g", text.as_bytes())], [None; 3])?;
        let said = format!(in alloc; "zero: game: {fault}\n")?;
        compare(rt, &ran, (5, "", said.as_str()));
    }
    Ok(())
}

/// Faults at the places of a game's text.
#[test]
fn first_faults_are_told(rt: HostRuntime) -> Result<(), Fail> {
    for texts in [
        TOPS.as_slice(),
        VARIABLES.as_slice(),
        ROWS.as_slice(),
        PAIRS.as_slice(),
        COSTS.as_slice(),
        FOLLOWERS.as_slice(),
        ORDERS.as_slice(),
    ] {
        compare_all(&rt, texts)?;
    }
    Ok(())
}
