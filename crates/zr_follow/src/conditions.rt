//! The pairs by which followers' optimality is replaced.
ghost use Rattle.std.specs.Prelude.{◌≡◌, ◌+◌, ◌<◌, ◌≤◌, ◌^◌, ◌==◌, ◌++◌, ◌∷◌, [], neg_ℤ, IfOk, OnOk, length, map};
ghost use Rattle.std.specs.List.{All, filter};
ghost use Rattle.zr_base.specs.Terms.{coef_at};
ghost use Rattle.zr_base.specs.Rows.{row_of};
ghost use Rattle.zr_game.specs.Forms.{IsCoefficient, IsRowForm};
ghost use Rattle.zr_game.specs.Players.{pair_of};
ghost use Rattle.zr_source.specs.Sources.{follower_of};
ghost use Rattle.zr_source.specs.SourceForms.{IsFollowerForm};
ghost use Rattle.zr_follow.specs.Expansion.{all_pairs, cross_terms, follower_pairs, multipliers, row_pair, row_pairs, row_terms, var_pair, var_pairs};

use smallvec::SmallVec;
use std::alloc::{AllocError, Global};
use zr_base::Row;
use zr_game::Pair;
use zr_source::Follower;

/// The number at a column, which is 0 where none is listed.
fn number_at(terms: &[(u32, i64)], column: u32) -> i64
    ensures { result ≡ coef_at terms.now column }
{
    for (at, number) in terms {
        if *at == column {
            return *number;
        }
    }
    0
}

/// The follower's cross terms of own variable `j`, by their other variable.
fn cross_terms(
    alloc: Global,
    cross: &[(u32, u32, i64)],
    j: u32,
) -> Result<SmallVec<(u32, i64), 8>, AllocError>
    ensures { IfOk result (λ v. v.items
        ≡ map (λ t. (t.1, t.2)) (filter (λ t. t.0 == j) cross.now)) }
{
    let mut terms = SmallVec::new(alloc);
    for (own, other, number) in cross {
        if *own == j {
            terms.push((*other, *number))?;
        }
    }
    Ok(terms)
}

/// Adds the number of variable `j` in each row that has one, at the row's multiplier. The first
/// multiplier is column `from`.
fn add_row_terms(
    terms: &mut SmallVec<(u32, i64), 8>,
    rows: &[Row],
    from: u32,
    j: u32,
) -> Result<(), AllocError>
    requires { from + length rows.now < 2 ^ 32 }
    ensures { OnOk result
        (terms.new.items ≡ terms.old.items ++ row_terms from j (map row_of rows.now)) }
{
    for (k, row) in rows.iter().enumerate() {
        add_row_term(terms, row, from + k as u32, j)?;
    }
    Ok(())
}

/// Adds the number of variable `j` in the row, where there is one, at column `at`.
fn add_row_term(
    terms: &mut SmallVec<(u32, i64), 8>,
    row: &Row,
    at: u32,
    j: u32,
) -> Result<(), AllocError>
    ensures { OnOk result
        (terms.new.items ≡ terms.old.items ++ row_terms at j (map row_of (row.now ∷ []))) }
{
    let number = number_at(row.coef.as_slice(), j);
    if number != 0 {
        terms.push((at, number))?;
    }
    Ok(())
}

/// The pair of own variable `j`: the follower's slope there, plus its rows' numbers times their
/// multipliers.
fn var_pair(alloc: Global, follower: &Follower, from: u32, j: u32) -> Result<Pair, AllocError>
    requires { from + length follower.now.rows.items < 2 ^ 32 }
    ensures { IfOk result (λ pair. pair_of pair ≡ var_pair from (follower_of follower.now) j) }
{
    let mut coef = cross_terms(alloc, &follower.cross, j)?;
    add_row_terms(&mut coef, &follower.rows, from, j)?;
    let add = number_at(follower.cost.as_slice(), j);
    Ok(Pair { var: j, coef, add })
}

/// The pair of a row: its multiplier, at column `at`, and what the row leaves.
fn row_pair(alloc: Global, row: &Row, at: u32) -> Result<Pair, AllocError>
    requires { All (λ t. IsCoefficient t.1) row.now.coef.items }
    ensures { IfOk result (λ pair. pair_of pair ≡ row_pair at (row_of row.now)) }
{
    let mut coef = SmallVec::new(alloc);
    for (column, number) in row.coef.as_slice() {
        coef.push((*column, -*number))?;
    }
    Ok(Pair {
        var: at,
        coef,
        add: row.le,
    })
}

/// Adds the pairs of a follower's variables.
fn add_var_pairs(
    alloc: Global,
    pairs: &mut Vec<Pair>,
    follower: &Follower,
    from: u32,
) -> Result<(), AllocError>
    requires rows { from + length follower.now.rows.items < 2 ^ 32 }
    requires vars { follower.now.first + follower.now.count < 2 ^ 32 }
    ensures { OnOk result (map pair_of pairs.new.items ≡ map pair_of pairs.old.items
        ++ var_pairs from (follower_of follower.now) follower.now.first follower.now.count) }
{
    for k in 0..follower.count {
        let pair = var_pair(alloc, follower, from, follower.first + k)?;
        pairs.push(pair)?;
    }
    Ok(())
}

/// Adds the pairs of rows, whose multipliers stand from column `from` on.
fn add_row_pairs(
    alloc: Global,
    pairs: &mut Vec<Pair>,
    rows: &[Row],
    from: u32,
) -> Result<(), AllocError>
    requires columns { from + length rows.now < 2 ^ 32 }
    requires numbers { All (λ row. All (λ t. IsCoefficient t.1) row.coef) (map row_of rows.now) }
    ensures { OnOk result (map pair_of pairs.new.items ≡ map pair_of pairs.old.items
        ++ row_pairs from (map row_of rows.now)) }
{
    for (k, row) in rows.iter().enumerate() {
        pairs.push(row_pair(alloc, row, from + k as u32)?)?;
    }
    Ok(())
}

/// Adds the pairs of all followers, whose multipliers stand from column `from` on.
pub(crate) fn add_all_pairs(
    alloc: Global,
    pairs: &mut Vec<Pair>,
    followers: &[Follower],
    from: u32,
    columns: usize,
) -> Result<(), AllocError>
    requires columns { columns ≤ 64 }
    requires from { from + multipliers (map follower_of followers.now) < 2 ^ 32 }
    requires forms { All (IsFollowerForm columns) (map follower_of followers.now) }
    ensures { OnOk result (map pair_of pairs.new.items ≡ map pair_of pairs.old.items
        ++ all_pairs from (map follower_of followers.now)) }
{
    let mut at = from;
    for follower in followers {
        add_follower_pairs(alloc, pairs, follower, at, columns)?;
        at += follower.rows.len() as u32;
    }
    Ok(())
}

/// Adds the pairs of a follower.
fn add_follower_pairs(
    alloc: Global,
    pairs: &mut Vec<Pair>,
    follower: &Follower,
    from: u32,
    columns: usize,
) -> Result<(), AllocError>
    requires columns { columns ≤ 64 }
    requires from { from + length follower.now.rows.items < 2 ^ 32 }
    requires form { IsFollowerForm columns (follower_of follower.now) }
    ensures { OnOk result (map pair_of pairs.new.items ≡ map pair_of pairs.old.items
        ++ follower_pairs from (follower_of follower.now)) }
{
    add_var_pairs(alloc, pairs, follower, from)?;
    add_row_pairs(alloc, pairs, &follower.rows, from)
}
