use super::*;
use smallvec::SmallVec;
use std::alloc::Global;
use std::test::Fail;
use zr_base::Row;
use zr_game::{Game, Kind, Player, Var};
use zr_report::End;

/// The game of one player with a whole x from 0 to 1, its rows `coef * x <= le`, and the cost `-x`.
fn single(alloc: Global, rows: &[(i64, i64)]) -> Result<Game, Fail> {
    let x = Var {
        name: String::from_str(alloc, "x")?,
        whole: true,
        low: Some(0),
        up: Some(1),
    };
    let mut listed = Vec::new(alloc);
    for (coef, le) in rows {
        listed.push(Row {
            coef: SmallVec::from_slice(alloc, &[(0, *coef)])?,
            le: *le,
        })?;
    }
    let player = Player {
        name: String::from_str(alloc, "A")?,
        vars: vec![in alloc; x]?,
        rows: listed,
        pairs: Vec::new(alloc),
        cost: SmallVec::from_slice(alloc, &[(0, -1)])?,
        cross: Vec::new(alloc),
        others: Vec::new(alloc),
    };
    Game::new(vec![in alloc; player]?).map_err(|_| Fail::from("no game"))
}

/// `2x = 1`, which no whole number meets.
const HALF: [(i64, i64); 2] = [(2, 1), (-2, -1)];

/// The player plays `x = 1` and pays -1; its upper bound, slot 1, proves the claim `x <= 1`.
const BEST_POINT: &str = "zero-cert/1\nkind mixed 1\nverdict profile\nplayer 0 total 1 parts 1\n\
part 1 1 1\ncost 0 -1 1\nleaf 1 1 1 1\nend\n";

/// Where `x <= 0` the row `-2x <= -1` is refuted by slot 3, and where `x >= 1` the row `2x <= 1` by
/// slot 2.
const NO_POINT: &str = "zero-cert/1\nkind mixed 1\nverdict none empty 0\nsplit 0 0\n\
leaf 0 2 1 1 3 2\nleaf 0 2 0 1 2 2\nend\n";

#[test]
fn texts_are_of_certificates(rt: HostRuntime) -> Result<(), Fail> {
    let alloc = rt.alloc();
    let Ok(text) = drive(alloc, &single(alloc, &[])?, Kind::Mixed, 1000) else {
        return Err(Fail::from("no text"));
    };
    assert_eq!(rt; text.as_slice(), BEST_POINT.as_bytes());
    let Ok(text) = drive(alloc, &single(alloc, &HALF)?, Kind::Mixed, 1) else {
        return Err(Fail::from("no text"));
    };
    assert_eq!(rt; text.as_slice(), NO_POINT.as_bytes());
    Ok(())
}

#[test]
fn a_split_is_paid(rt: HostRuntime) -> Result<(), Fail> {
    let alloc = rt.alloc();
    let ended = drive(alloc, &single(alloc, &HALF)?, Kind::Mixed, 0);
    let Err(DriveStop::Ended(End::Budget { limit })) = ended else {
        return Err(Fail::from("another end"));
    };
    assert_eq!(rt; limit, 0);
    Ok(())
}
