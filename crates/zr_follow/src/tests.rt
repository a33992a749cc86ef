use super::*;
use smallvec::SmallVec;
use std::alloc::Global;
use std::test::Fail;
use zr_base::Row;
use zr_game::{Player, Var};
use zr_source::{Follower, Leader, Source};

/// A continuous variable from 0 on.
fn variable(alloc: Global, name: &str, up: Option<i64>) -> Result<Var, Fail> {
    Ok(Var {
        name: String::from_str(alloc, name)?,
        whole: false,
        low: Some(0),
        up,
    })
}

/// The leader chooses x up to 2, and its follower the greatest f of at most x.
fn one_follower(alloc: Global) -> Result<Leader, Fail> {
    let follower = Follower {
        first: 1,
        count: 1,
        rows: vec![in alloc;
            Row {
                coef: SmallVec::from_slice(alloc, &[(0, -1), (1, 1)])?,
                le: 0
            },
        ]?,
        cost: SmallVec::from_slice(alloc, &[(1, -1)])?,
        cross: Vec::new(alloc),
    };
    let base = Player {
        name: String::from_str(alloc, "Leader_1")?,
        vars: vec![in alloc; variable(alloc, "x", Some(2))?, variable(alloc, "f", None)?]?,
        rows: Vec::new(alloc),
        pairs: Vec::new(alloc),
        cost: SmallVec::from_slice(alloc, &[(0, 2), (1, -3)])?,
        cross: Vec::new(alloc),
        others: Vec::new(alloc),
    };
    Ok(Leader {
        base,
        followers: vec![in alloc; follower]?,
    })
}

/// The follower's one variable and one row become a multiplier and two pairs.
#[test]
fn follower_becomes_pairs(rt: HostRuntime) -> Result<(), Fail> {
    let alloc = rt.alloc();
    let Ok(source) = Source::new(vec![in alloc; one_follower(alloc)?]?) else {
        return Err(Fail::from("no source"));
    };
    let Ok(game) = expand(alloc, &source) else {
        return Err(Fail::from("no game"));
    };
    if game.players.len() != 1 {
        return Err(Fail::from("players"));
    }
    let leader = &game.players[0];
    if leader.vars.len() != 3 || leader.pairs.len() != 2 {
        return Err(Fail::from("counts"));
    }
    let choice = &leader.vars[0];
    assert!(rt; choice.name.as_str() == "x" && !choice.whole);
    assert!(rt; choice.low == Some(0) && choice.up == Some(2));
    let greatest = &leader.vars[1];
    assert!(rt; greatest.name.as_str() == "f" && !greatest.whole);
    assert!(rt; greatest.low == Some(0) && greatest.up.is_none());
    let multiplier = &leader.vars[2];
    assert!(rt; !multiplier.whole && multiplier.low == Some(0) && multiplier.up.is_none());
    let answer = &leader.pairs[0];
    assert!(rt; answer.var == 1 && answer.add == -1);
    assert!(rt; answer.coef.as_slice() == [(2u32, 1i64)].as_slice());
    let left = &leader.pairs[1];
    assert!(rt; left.var == 2 && left.add == 0);
    assert!(rt; left.coef.as_slice() == [(0u32, 1i64), (1, -1)].as_slice());
    Ok(())
}

/// A leader of 40 variables with a follower of 20 variables and 10 rows: 70 variables with the
/// multipliers, and 30 pairs.
fn large(alloc: Global) -> Result<Leader, Fail> {
    let mut vars = Vec::new(alloc);
    for i in 0..60u32 {
        let name = format!(in alloc; "x{i}")?;
        vars.push(variable(alloc, name.as_str(), None)?)?;
    }
    let mut rows = Vec::new(alloc);
    for _ in 0..10 {
        rows.push(Row {
            coef: SmallVec::new(alloc),
            le: 0,
        })?;
    }
    let follower = Follower {
        first: 40,
        count: 20,
        rows,
        cost: SmallVec::new(alloc),
        cross: Vec::new(alloc),
    };
    let base = Player {
        name: String::from_str(alloc, "Leader_2")?,
        vars,
        rows: Vec::new(alloc),
        pairs: Vec::new(alloc),
        cost: SmallVec::new(alloc),
        cross: Vec::new(alloc),
        others: Vec::new(alloc),
    };
    Ok(Leader {
        base,
        followers: vec![in alloc; follower]?,
    })
}

/// The number of the first leader that would have too many variables or pairs.
fn first_past(alloc: Global, leaders: Vec<Leader>) -> Option<u32> {
    match Source::new(leaders) {
        Ok(source) => match expand(alloc, &source) {
            Err(FollowError::Count(i)) => Some(i),
            _ => None,
        },
        Err(_) => None,
    }
}

/// The first leader that would have too many variables is told, wherever it stands.
#[test]
fn large_leaders_are_counted(rt: HostRuntime) -> Result<(), Fail> {
    let alloc = rt.alloc();
    assert_eq!(rt; first_past(alloc, vec![in alloc; large(alloc)?]?), Some(0));
    let leaders = vec![in alloc; one_follower(alloc)?, large(alloc)?]?;
    assert_eq!(rt; first_past(alloc, leaders), Some(1));
    assert_eq!(rt;
        first_past(alloc, vec![in alloc; one_follower(alloc)?]?),
        None
    );
    Ok(())
}
