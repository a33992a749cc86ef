use super::*;
use std::alloc::Global;
use std::test::Fail;
use zr_base::Row;
use zr_source::Source;

/// The numbers that a game's leaders drew: of the costs, of the rows and of the cross terms.
fn drawn_numbers(alloc: Global, game: &Source) -> Result<String, Fail> {
    let mut text = String::new(alloc);
    for leader in &game.leaders {
        let cost = format!(in alloc; "{:?}", leader.base.cost.as_slice())?;
        text.push_str(cost.as_str())?;
        push_rows(alloc, &mut text, &leader.base.rows)?;
        for follower in &leader.followers {
            push_rows(alloc, &mut text, &follower.rows)?;
        }
        for term in &leader.base.cross {
            let cross = format!(in alloc; " {}*{}", term.coef, term.var)?;
            text.push_str(cross.as_str())?;
        }
        text.push_str("\n")?;
    }
    Ok(text)
}

fn push_rows(alloc: Global, text: &mut String, rows: &[Row]) -> Result<(), Fail> {
    for row in rows {
        let le = format!(in alloc; " {}", row.le)?;
        text.push_str(le.as_str())?;
    }
    Ok(())
}

/// What a script in Python draws of 1,000,000,000 for two players of four items.
const PACKERS: &str = "[(0, -4), (1, -29), (2, -30), (3, -10)] 13 1*0 2*1 9*2 2*3
[(0, -16), (1, -1), (2, -29), (3, -10)] 24 8*0 7*1 3*2 1*3
";

/// What it draws of 5 for three leaders.
const THREE: &str = "[(0, 2), (1, -5)] 3 3*1 3*1
[(0, 4), (1, -7)] 0 3*1
[(0, 4), (1, -2)] 2 2*1
";

#[test]
fn draws(rt: HostRuntime) -> Result<(), Fail> {
    let alloc = rt.alloc();
    let packers = knapsack(alloc, 2, 4, 1_000_000_000)?;
    assert_eq!(rt; drawn_numbers(alloc, &packers)?.as_str(), PACKERS);
    let three = leaders(alloc, 3, 5)?;
    assert_eq!(rt; drawn_numbers(alloc, &three)?.as_str(), THREE);
    Ok(())
}

/// How many players, and variables of the first one, the families' games of numbers have.
#[test]
fn sizes(rt: HostRuntime) -> Result<(), Fail> {
    let alloc = rt.alloc();
    for (family, number, players, vars) in [
        (Family::Knapsack, 7, 3, 11),
        (Family::Leaders, 0, 2, 2),
        (Family::Leaders, 5, 3, 2),
    ] {
        let game = family.game(alloc, number)?;
        assert_eq!(rt; game.leaders.len(), players);
        assert_eq!(rt; game.leaders[0].base.vars.len(), vars);
    }
    Ok(())
}
