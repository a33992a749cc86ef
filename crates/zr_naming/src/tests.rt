use super::*;
use smallvec::SmallVec;
use std::alloc::Global;
use std::test::Fail;
use zr_base::{Point, Row};
use zr_game::{Game, Named, Player, Var};
use zr_io::Purse;

fn variable(alloc: Global, low: Option<i64>, up: Option<i64>) -> Result<Var, Fail> {
    Ok(Var {
        name: String::from_str(alloc, "x")?,
        whole: true,
        low,
        up,
    })
}

/// A player of these variables and this row.
fn one_player(alloc: Global, vars: Vec<Var>, coef: &[(u32, i64)], le: i64) -> Result<Game, Fail> {
    let row = Row {
        coef: SmallVec::from_slice(alloc, coef)?,
        le,
    };
    let player = Player {
        name: String::from_str(alloc, "A")?,
        vars,
        rows: vec![in alloc; row]?,
        pairs: Vec::new(alloc),
        cost: SmallVec::from_slice(alloc, &[(0, -1)])?,
        cross: Vec::new(alloc),
        others: Vec::new(alloc),
    };
    match Game::new(vec![in alloc; player]?) {
        Ok(game) => Ok(game),
        Err(_) => Err(Fail::from("no game")),
    }
}

/// The numerators of a point, after its denominator, as text.
fn point_text(alloc: Global, point: &Point) -> Result<String, Fail> {
    let den = point.den();
    let mut all = format!(in alloc; "{den}")?;
    for j in 0..point.len() {
        let num = point.num(j);
        all.push_str(&format!(in alloc; " {num}")?)?;
    }
    Ok(all)
}

fn line(alloc: Global, item: &Named) -> Result<String, Fail> {
    match item {
        Named::Point(point) => {
            let point = point_text(alloc, point)?;
            Ok(format!(in alloc; "point {point};")?)
        }
        Named::Ray { base, dir } => {
            let base = point_text(alloc, base)?;
            let mut all = format!(in alloc; "ray {base} by")?;
            for change in dir {
                all.push_str(&format!(in alloc; " {change}")?)?;
            }
            all.push_str(";")?;
            Ok(all)
        }
    }
}

/// What is named of the game's first player, as text.
fn named(alloc: Global, game: &Game) -> Result<String, Fail> {
    if game.players.len() != 1 {
        return Err(Fail::from("another number of players"));
    }
    let mut purse = Purse::new(100);
    let Ok(items) = named_items(alloc, game, 0, &mut purse) else {
        return Err(Fail::from("no items"));
    };
    let mut all = String::new(alloc);
    for item in &items {
        let one = line(alloc, item)?;
        all.push_str(&one)?;
    }
    Ok(all)
}

/// `x` is whole and has no upper bound, at the cost of `-x`.
#[test]
fn a_variable_rises_from_its_lower_bound(rt: HostRuntime) -> Result<(), Fail> {
    let alloc = rt.alloc();
    let vars = vec![in alloc; variable(alloc, Some(0), None)?]?;
    let game = one_player(alloc, vars, &[], 0)?;
    assert_eq!(rt; named(alloc, &game)?.as_str(), "point 1 0;ray 1 0 by 1;");
    Ok(())
}

/// `x + y <= 5`, `y` from 2 to 3, and `x` has no bound.
#[test]
fn a_variable_falls_that_does_not_rise(rt: HostRuntime) -> Result<(), Fail> {
    let alloc = rt.alloc();
    let vars = vec![in alloc;
        variable(alloc, None, None)?,
        variable(alloc, Some(2), Some(3))?,
    ]?;
    let game = one_player(alloc, vars, &[(0, 1), (1, 1)], 5)?;
    assert_eq!(rt;
        named(alloc, &game)?.as_str(),
        "point 1 0 2;ray 1 0 2 by -1 0;"
    );
    Ok(())
}
