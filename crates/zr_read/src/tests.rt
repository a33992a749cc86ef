ghost use Rattle.std.specs.Prelude.{◌≤◌};

use super::*;
use serde_json::Value;
use std::alloc::Global;
use std::test::Fail;

/// A free whole variable from -3 on, with a row from below.
const FROM_BELOW: &[u8] =
    b"{\"format\":\"zero-game/2\",\"players\":[{\"name\":\"A\",\"vars\":[{\"name\":\"x\",\"int\":true,\"low\":-3}],\"rows\":[{\"terms\":[[\"x\",2]],\"ge\":-5}],\"cost\":[[\"x\",1]]}]}";

/// A maximiser, whose variable has no lower bound.
const GREATEST: &[u8] =
    b"{\"format\":\"zero-game/2\",\"players\":[{\"name\":\"A\",\"aim\":\"max\",\"vars\":[{\"name\":\"x\",\"low\":null,\"up\":2}],\"cost\":[[\"x\",3]]}]}";

/// A leader with a follower, a pair, a cross term, a term in another's variable and an equation.
const LEADER: &[u8] =
    b"{\"format\":\"zero-game/2\",\"players\":[{\"name\":\"A\",\"vars\":[{\"name\":\"x\"}],\"rows\":[{\"terms\":[[\"x\",2]],\"eq\":3}],\"pairs\":[{\"var\":\"f\",\"terms\":[[\"x\",1]],\"add\":3}],\"cross\":[[\"f\",\"B\",\"y\",2]],\"others\":[[\"B\",\"y\",1]],\"followers\":[{\"vars\":[\"f\"],\"rows\":[{\"terms\":[[\"f\",1]],\"le\":2}],\"cost\":[[\"f\",4]],\"cross\":[[\"f\",\"x\",7]]}]},{\"name\":\"B\",\"vars\":[{\"name\":\"y\"}]}]}";

/// Texts with their first faults.
const FAULTS: [(&[u8], GameFault, &str); 3] = [
    (
        b"{\"format\":\"zero-game/1\",\"play",
        GameFault::NotJson,
        "",
    ),
    (
        b"{\"format\":\"zero-game/1\",\"players\":[{\"name\":\"A\",\"vars\":[{\"name\":\"x\"}],\"cost\":[[\"x\",1.0]]}]}",
        GameFault::NotWhole,
        "/players/0/cost/0/1",
    ),
    (
        b"{\"format\":\"zero-game/2\",\"players\":[{\"name\":\"A\",\"vars\":[{\"name\":\"x\"}],\"rows\":[{\"terms\":[[\"x\",2]],\"le\":3,\"eq\":3}]}]}",
        GameFault::Twice,
        "/players/0/rows/0/eq",
    ),
];

fn has_fault(alloc: Global, text: &[u8], wanted: GameFault, place: &str) -> bool {
    match read_game(alloc, text) {
        Err(GameError::At { fault, path }) => fault == wanted && path.as_str() == place,
        _ => false,
    }
}

/// Whether a text is read as one player with a variable, of this lower bound and cost, and rows of
/// these numbers and right sides.
fn is_one_player(
    alloc: Global,
    text: &[u8],
    low: Option<i64>,
    cost: i64,
    rows: &[(i64, i64)],
) -> bool {
    match read_game(alloc, text) {
        Ok(source) => match source.leaders.first() {
            Some(leader) => {
                let base = &leader.base;
                base.vars.len() == 1
                    && base.vars[0].low == low
                    && base.cost.as_slice() == [(0, cost)].as_slice()
                    && base.rows.len() == rows.len()
                    && base.rows.iter().zip(rows).all(|(row, (number, le))| {
                        row.le == *le && row.coef.as_slice() == [(0, *number)].as_slice()
                    })
            }
            None => false,
        },
        Err(_) => false,
    }
}

/// Lower bounds, rows from below and aims are read, and first faults are found.
#[test]
fn reads_games_and_first_faults(rt: HostRuntime) -> Result<(), Fail> {
    let alloc = rt.alloc();
    assert!(rt; is_one_player(alloc, FROM_BELOW, Some(-3), 1, &[(-2, 5)]));
    assert!(rt; is_one_player(alloc, GREATEST, None, -3, &[]));
    for (text, fault, path) in &FAULTS {
        assert!(rt; has_fault(alloc, text, *fault, path));
    }
    Ok(())
}

/// A leader with a follower is read with all its parts.
#[test]
fn reads_leaders_with_followers(rt: HostRuntime) -> Result<(), Fail> {
    match read_game(rt.alloc(), LEADER) {
        Ok(source) => {
            assert_eq!(rt; source.leaders.len(), 2);
            let leader = &source.leaders[0];
            assert_eq!(rt; leader.base.vars.len(), 2);
            assert_eq!(rt; leader.base.rows.len(), 2);
            assert_eq!(rt; leader.base.pairs.len(), 1);
            assert_eq!(rt; leader.base.cross.len(), 1);
            assert_eq!(rt; leader.base.others.len(), 1);
            assert_eq!(rt; leader.followers.len(), 1);
            assert!(rt; leader.followers[0].cross.as_slice() == [(1, 0, 7)].as_slice());
        }
        Err(_) => assert!(rt; false),
    }
    Ok(())
}

/// The first fault, with its path, of two players A and B of which A has two cross terms.
fn fault_of(alloc: Global, most: u32, cross: u32, taken: &str) -> Result<Option<String>, Fail>
    requires some { 1 ≤ most }
    requires few { most ≤ 16 }
    requires few_cross { cross ≤ 65536 }
{
    let text =
        "{\"players\":[{\"name\":\"A\",\"vars\":[{\"name\":\"x\",\"low\":-1}],\"cross\":[[\"x\",\"B\",\"y\",1],[\"x\",\"B\",\"z\",1]]},{\"name\":\"B\",\"vars\":[{\"name\":\"y\"},{\"name\":\"z\"}]}]}";
    let Ok(top) = Value::from_str(alloc, text) else {
        return Err(Fail::from("no value"));
    };
    let Value::Object(_) = top else {
        return Err(Fail::from("no object"));
    };
    match read_players(alloc, &top, most, cross, taken) {
        Ok(_) => Ok(None),
        Err(GameError::At { fault, path }) => Ok(Some(format!(in alloc; "{fault:?} {path}")?)),
        Err(_) => Err(Fail::from("no memory")),
    }
}

fn is_told(told: Option<String>, wanted: &str) -> bool {
    match told {
        Some(told) => told.as_str() == wanted,
        None => false,
    }
}

/// Players are read within limits of the caller's own, and without a name that is taken.
#[test]
fn reads_players_within_limits(rt: HostRuntime) -> Result<(), Fail> {
    let alloc = rt.alloc();
    assert!(rt; fault_of(alloc, 2, 2, "")?.is_none());
    assert!(rt; fault_of(alloc, 15, 64_512, "market")?.is_none());
    let first = fault_of(alloc, 15, 64_512, "A")?;
    assert!(rt; is_told(first, "Twice /players/0/name"));
    let second = fault_of(alloc, 15, 64_512, "B")?;
    assert!(rt; is_told(second, "Twice /players/1/name"));
    let many = fault_of(alloc, 1, 2, "")?;
    assert!(rt; is_told(many, "Count /players"));
    let many_terms = fault_of(alloc, 2, 1, "")?;
    assert!(rt; is_told(many_terms, "Count /players/0/cross"));
    Ok(())
}
