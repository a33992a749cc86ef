use super::*;
use smallvec::SmallVec;
use std::alloc::Global;
use std::test::Fail;
use zr_base::Row;
use zr_game::{CrossTerm, Game, Kind, Player, Var};
use zr_io::Purse;
use zr_report::{End, write_report};

/// A player of one whole variable.
#[derive(Clone, Copy)]
struct Single<'a> {
    up: Option<i64>,
    rows: &'a [(i64, i64)],
    cost: i64,
    /// The other player and the number of the cross term, where there is one.
    cross: Option<(u32, i64)>,
}

fn player(alloc: Global, single: &Single) -> Result<Player, Fail> {
    let variable = Var {
        name: String::from_str(alloc, "x")?,
        whole: true,
        low: Some(0),
        up: single.up,
    };
    let mut rows = Vec::new(alloc);
    for (coef, le) in single.rows {
        rows.push(Row {
            coef: SmallVec::from_slice(alloc, &[(0, *coef)])?,
            le: *le,
        })?;
    }
    let mut cross = Vec::new(alloc);
    if let Some((player, coef)) = single.cross {
        cross.push(CrossTerm {
            own: 0,
            player,
            var: 0,
            coef,
        })?;
    }
    Ok(Player {
        name: String::from_str(alloc, "A")?,
        vars: vec![in alloc; variable]?,
        rows,
        pairs: Vec::new(alloc),
        cost: SmallVec::from_slice(alloc, &[(0, single.cost)])?,
        cross,
        others: Vec::new(alloc),
    })
}

/// A game of these players.
fn game_with(alloc: Global, singles: &[Single]) -> Result<Game, Fail> {
    let mut players = Vec::new(alloc);
    for single in singles {
        players.push(player(alloc, single)?)?;
    }
    match Game::new(players) {
        Ok(game) => Ok(game),
        Err(_) => Err(Fail::from("no game")),
    }
}

/// What is decided with so many units.
fn decided(
    alloc: Global,
    singles: &[Single],
    kind: Kind,
    limit: u64,
) -> Result<&'static str, Fail> {
    let game = game_with(alloc, singles)?;
    if limit > 1000000000 {
        return Err(Fail::from("another limit"));
    }
    let mut purse = Purse::new(limit);
    match decide(alloc, &game, kind, &mut purse) {
        Ok(cert) => Ok(match cert.verdict {
            Verdict::Profile { .. } => "profile",
            Verdict::NoneCover { .. } => "cover",
            Verdict::NoneEmpty { .. } => "empty",
            Verdict::NoneBoxes { .. } => "boxes",
        }),
        Err(DecideStop::Spent) => Ok("spent"),
        Err(_) => Err(Fail::from("another stop")),
    }
}

/// Matching pennies: the first player pays `-2x + 4xy`, the second one `2y - 4xy`.
const PENNIES: [Single; 2] = [
    Single {
        up: Some(1),
        rows: &[],
        cost: -2,
        cross: Some((1, 4)),
    },
    Single {
        up: Some(1),
        rows: &[],
        cost: 2,
        cross: Some((0, -4)),
    },
];

#[test]
fn pennies_have_no_pure_equilibrium(rt: HostRuntime) -> Result<(), Fail> {
    assert_eq!(rt; decided(rt.alloc(), &PENNIES, Kind::Pure, 1000)?, "boxes");
    assert_eq!(rt; decided(rt.alloc(), &PENNIES, Kind::Pure, 0)?, "spent");
    Ok(())
}

/// Matching pennies whose upper bounds are rows, so that no boxes are searched.
const PENNIES_BY_ROWS: [Single; 2] = [
    Single {
        up: None,
        rows: &[(1, 1)],
        cost: -2,
        cross: Some((1, 4)),
    },
    Single {
        up: None,
        rows: &[(1, 1)],
        cost: 2,
        cross: Some((0, -4)),
    },
];

#[test]
fn pennies_by_rows_have_no_pure_equilibrium(rt: HostRuntime) -> Result<(), Fail> {
    let alloc = rt.alloc();
    assert_eq!(rt;
        decided(alloc, &PENNIES_BY_ROWS, Kind::Pure, 1000)?,
        "cover"
    );
    assert_eq!(rt;
        decided(alloc, &PENNIES_BY_ROWS, Kind::Mixed, 1000)?,
        "profile"
    );
    Ok(())
}

#[test]
fn no_whole_number_is_a_half(rt: HostRuntime) -> Result<(), Fail> {
    let half = Single {
        up: Some(5),
        rows: &[(2, 1), (-2, -1)],
        cost: -1,
        cross: None,
    };
    assert_eq!(rt; decided(rt.alloc(), &[half], Kind::Mixed, 1000)?, "empty");
    Ok(())
}

/// A player that pays `-x`, where x is 0 or 1.
#[test]
fn a_single_player_takes_its_best_point(rt: HostRuntime) -> Result<(), Fail> {
    let single = Single {
        up: Some(1),
        rows: &[],
        cost: -1,
        cross: None,
    };
    assert_eq!(rt;
        decided(rt.alloc(), &[single], Kind::Mixed, 1000)?,
        "profile"
    );
    Ok(())
}

/// A player that pays `-x`, where x has no upper bound: a named ray refutes.
#[test]
fn a_player_without_end_has_no_best_point(rt: HostRuntime) -> Result<(), Fail> {
    let endless = Single {
        up: None,
        rows: &[],
        cost: -1,
        cross: None,
    };
    assert_eq!(rt;
        decided(rt.alloc(), &[endless], Kind::Mixed, 1000)?,
        "cover"
    );
    assert_eq!(rt; decided(rt.alloc(), &[endless], Kind::Pure, 1000)?, "cover");
    Ok(())
}

/// The report of a decision that stops with 1,000 units.
fn report(alloc: Global, singles: &[Single], kind: Kind) -> Result<Vec<u8>, Fail> {
    let game = game_with(alloc, singles)?;
    let mut purse = Purse::new(1000);
    let end = match decide(alloc, &game, kind, &mut purse) {
        Err(
            DecideStop::Endless {
                player,
                var,
                dir,
                named,
            },
        ) => End::Open {
            player,
            var,
            dir,
            named,
        },
        Err(DecideStop::TooLarge { cells }) => End::Large { cells },
        _ => return Err(Fail::from("another answer")),
    };
    match write_report(alloc, &end) {
        Ok(text) => Ok(text),
        Err(_) => Err(Fail::from("no memory")),
    }
}

/// The first player pays `x - 2xy`, where x has no upper bound, and the second one `2xy - y`, where
/// y is 0 or 1. Neither the start point nor the ray refutes that y is 1/2.
#[test]
fn a_loose_leaf_with_a_solution_stays_open(rt: HostRuntime) -> Result<(), Fail> {
    let alloc = rt.alloc();
    let singles = [
        Single {
            up: None,
            rows: &[],
            cost: 1,
            cross: Some((1, -2)),
        },
        Single {
            up: Some(1),
            rows: &[],
            cost: -1,
            cross: Some((0, 2)),
        },
    ];
    let text = b"zero-report/1\nstop open 0 0 1\nnamed 2\npoint 1 0\nray 1 0 1\nnamed 0\nend\n";
    assert_eq!(rt;
        report(alloc, &singles, Kind::Mixed)?.as_slice(),
        text.as_slice()
    );
    assert_eq!(rt;
        report(alloc, &singles, Kind::Pure)?.as_slice(),
        text.as_slice()
    );
    Ok(())
}

/// A player with 801 points: 6,410 rows and 3,205 columns.
#[test]
fn too_many_points_are_too_large(rt: HostRuntime) -> Result<(), Fail> {
    let many = Single {
        up: Some(800),
        rows: &[],
        cost: 1,
        cross: None,
    };
    let text = b"zero-report/1\nstop large 20544050\nend\n";
    assert_eq!(rt;
        report(rt.alloc(), &[many], Kind::Mixed)?.as_slice(),
        text.as_slice()
    );
    Ok(())
}
