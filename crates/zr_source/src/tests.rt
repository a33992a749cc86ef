use super::*;
use smallvec::SmallVec;
use std::alloc::Global;
use std::test::Fail;
use zr_base::Row;
use zr_game::{Player, Var};

/// A continuous variable from 0 on.
fn variable(alloc: Global, name: &str, up: Option<i64>) -> Result<Var, Fail> {
    Ok(Var {
        name: String::from_str(alloc, name)?,
        whole: false,
        low: Some(0),
        up,
    })
}

/// The leader chooses x up to 2, and its follower the greatest f of at most x.
fn one_follower(alloc: Global, second: &str) -> Result<Leader, Fail> {
    let follower = Follower {
        first: 1,
        count: 1,
        rows: vec![in alloc;
            Row {
                coef: SmallVec::from_slice(alloc, &[(0, -1), (1, 1)])?,
                le: 0
            },
        ]?,
        cost: SmallVec::from_slice(alloc, &[(1, -1)])?,
        cross: Vec::new(alloc),
    };
    let base = Player {
        name: String::from_str(alloc, "Leader_1")?,
        vars: vec![in alloc;
            variable(alloc, "x", Some(2))?,
            variable(alloc, second, None)?,
        ]?,
        rows: Vec::new(alloc),
        pairs: Vec::new(alloc),
        cost: SmallVec::from_slice(alloc, &[(0, 2), (1, -3)])?,
        cross: Vec::new(alloc),
        others: Vec::new(alloc),
    };
    Ok(Leader {
        base,
        followers: vec![in alloc; follower]?,
    })
}

/// Names that differ are kept, and a name given twice isn't.
#[test]
fn sources_by_hand(rt: HostRuntime) -> Result<(), Fail> {
    let alloc = rt.alloc();
    for (second, passes) in [("f", true), ("x", false), ("f 1", false), ("", false)] {
        let source = Source::new(vec![in alloc; one_follower(alloc, second)?]?);
        assert_eq!(rt; source.is_ok(), passes);
    }
    Ok(())
}
