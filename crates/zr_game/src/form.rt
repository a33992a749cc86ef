ghost use Rattle.std.specs.Prelude.{◌≡◌, ◌≢◌, ◌↔◌, ◌<◌, ◌≤◌, ℕ, IsTrue, length, map, take};
ghost use Rattle.std.specs.List.{All, AllPairs};
ghost use Rattle.std.specs.Option.{ForSome};
ghost use Rattle.std.specs.declared.cmp.Ordering.TheVariants.{Less};
ghost use Rattle.zr_base.specs.Rows.{row_of};
ghost use Rattle.zr_game.specs.Players.{GameOf, PlayerOf, pair_of, player_of, players_of, var_of};
ghost use Rattle.zr_game.specs.Counts.{AreCounts, var_count};
ghost use Rattle.zr_game.specs.Forms.{AreTerms, HasVar, IsCoefficient, IsCrossForm, IsFromZero, IsGame, IsNumber, IsOrdered, IsOtherForm, IsOthersVar, IsPairForm, IsPlayer, IsPlayerForm, IsRowForm, IsVarForm, cross_order, other_order, place_order};

use crate::player::{CrossTerm, Other, Pair, Player, Var};
use std::cmp::Ordering;
use zr_base::Row;

/// The greatest size of a number in a game.
const NUMBER_LIMIT: i64 = 1_000_000_000;

/// Whether the players are a game.
pub(crate) fn is_game(players: &[Player]) -> bool
    ensures { IsTrue result ↔ IsGame (players_of players.now) }
{
    if players.is_empty() || players.len() > 16 {
        return false;
    }
    let counts = var_counts(players);
    are_players(players, &counts[..players.len()])
}

/// How many variables each player has.
fn var_counts(players: &[Player]) -> [usize; 16]
    requires { length players.now ≤ 16 }
    ensures { take (length players.now) result ≡ map var_count (players_of players.now) }
{
    let mut counts = [0; 16];
    for (i, player) in players.iter().enumerate() {
        counts[i] = player.vars.len();
    }
    counts
}

fn are_players(players: &[Player], counts: &[usize]) -> bool
    requires { counts.now ≡ map var_count (players_of players.now) }
    ensures { IsTrue result ↔ ((i : ℕ) (player : PlayerOf)
        → IsPlayer (players_of players.now) i player
        → IsPlayerForm (players_of players.now) i player) }
{
    let mut all = true;
    for (i, player) in players.iter().enumerate() {
        all &= is_player(player, i, counts);
    }
    all
}

/// Whether a player keeps the rules as number `i` of a game whose players have so many variables.
pub fn is_player(player: &Player, i: usize, counts: &[usize]) -> bool
    ensures { (game : GameOf) → map var_count game ≡ counts.now
        → (IsTrue result ↔ IsPlayerForm game i (player_of player.now)) }
{
    let columns = player.vars.len();
    are_counts(player)
        & are_vars(&player.vars)
        & are_rows(&player.rows, columns)
        & are_pairs(&player.pairs, columns)
        & are_terms(player.cost.as_slice(), columns)
        & are_cross_terms(&player.cross, i, columns, counts)
        & ascend(&player.cross)
        & are_from_zero(&player.pairs, &player.vars)
        & are_others(&player.others, i, counts)
        & others_ascend(&player.others)
}

fn are_counts(player: &Player) -> bool
    ensures { IsTrue result ↔ AreCounts (player_of player.now) }
{
    !player.vars.is_empty()
        && player.vars.len() <= 64
        && player.rows.len() <= 256
        && player.pairs.len() <= 32
        && player.cross.len() <= 65536
        && player.others.len() <= 65536
}

fn are_vars(vars: &[Var]) -> bool
    ensures { IsTrue result ↔ All IsVarForm (map var_of vars.now) }
{
    let mut all = true;
    for var in vars {
        all &= is_var(var);
    }
    all
}

fn is_var(var: &Var) -> bool
    ensures { IsTrue result ↔ IsVarForm (var_of var.now) }
{
    is_bound(var.low) && is_bound(var.up) && is_ordered(var.low, var.up)
}

fn is_bound(bound: Option<i64>) -> bool
    ensures { IsTrue result ↔ ForSome bound IsNumber }
{
    match bound {
        None => true,
        Some(z) => is_number(z),
    }
}

/// Whether the first bound isn't above the second.
fn is_ordered(low: Option<i64>, up: Option<i64>) -> bool
    ensures { IsTrue result ↔ IsOrdered low up }
{
    match (low, up) {
        (Some(low), Some(up)) => low <= up,
        _ => true,
    }
}

/// Whether rows keep the rules over so many variables.
pub fn are_rows(rows: &[Row], columns: usize) -> bool
    ensures { IsTrue result ↔ All (IsRowForm columns) (map row_of rows.now) }
{
    let mut all = true;
    for row in rows {
        all &= is_row(row, columns);
    }
    all
}

fn is_row(row: &Row, columns: usize) -> bool
    ensures { IsTrue result ↔ IsRowForm columns (row_of row.now) }
{
    are_terms(row.coef.as_slice(), columns) && is_number(row.le)
}

fn are_pairs(pairs: &[Pair], columns: usize) -> bool
    ensures { IsTrue result ↔ All (IsPairForm columns) (map pair_of pairs.now) }
{
    let mut all = true;
    for pair in pairs {
        all &= is_pair(pair, columns);
    }
    all
}

fn is_pair(pair: &Pair, columns: usize) -> bool
    ensures { IsTrue result ↔ IsPairForm columns (pair_of pair.now) }
{
    (pair.var as usize) < columns && are_terms(pair.coef.as_slice(), columns) && is_number(pair.add)
}

/// Whether terms stand in the order of their columns, each below `columns`.
pub fn are_terms(coef: &[(u32, i64)], columns: usize) -> bool
    ensures { IsTrue result ↔ AreTerms columns coef.now }
{
    let mut low = 0;
    let mut all = true;
    for (column, number) in coef {
        let column = *column as usize;
        all &= is_next_term(low, columns, column, *number);
        low = column + 1;
    }
    all
}

fn is_next_term(low: usize, columns: usize, column: usize, number: i64) -> bool
    ensures { IsTrue result ↔ ((low ≤ column) × (column < columns) × IsCoefficient number) }
{
    low <= column && column < columns && is_coefficient(number)
}

/// Whether a number may be one of a term: it is within ±1,000,000,000, and isn't 0.
pub fn is_coefficient(z: i64) -> bool
    ensures { IsTrue result ↔ IsCoefficient z }
{
    is_number(z) && z != 0
}

fn is_number(z: i64) -> bool
    ensures { IsTrue result ↔ IsNumber z }
{
    -NUMBER_LIMIT <= z && z <= NUMBER_LIMIT
}

fn are_cross_terms(cross: &[CrossTerm], i: usize, columns: usize, counts: &[usize]) -> bool
    ensures { (game : GameOf) → map var_count game ≡ counts.now
        → (IsTrue result ↔ All (IsCrossForm game i columns) cross.now) }
{
    let mut all = true;
    for t in cross {
        all &= is_cross_term(t, i, columns, counts);
    }
    all
}

fn is_cross_term(t: &CrossTerm, i: usize, columns: usize, counts: &[usize]) -> bool
    ensures { (game : GameOf) → map var_count game ≡ counts.now
        → (IsTrue result ↔ IsCrossForm game i columns t.now) }
{
    (t.own as usize) < columns
        && t.player as usize != i
        && has_var(counts, t.player as usize, t.var as usize)
        && is_coefficient(t.coef)
}

/// Whether there is a player `k` with a variable `v`.
fn has_var(counts: &[usize], k: usize, v: usize) -> bool
    ensures { (game : GameOf) → map var_count game ≡ counts.now
        → (IsTrue result ↔ ((k < length game) × HasVar game k v)) }
{
    k < counts.len() && v < counts[k]
}

/// Whether the variable of each pair has the lower bound 0.
fn are_from_zero(pairs: &[Pair], vars: &[Var]) -> bool
    ensures { IsTrue result ↔ All (λ pair. IsFromZero (map var_of vars.now) pair.var)
        (map pair_of pairs.now) }
{
    let mut all = true;
    for pair in pairs {
        all &= is_from_zero(vars, pair.var as usize);
    }
    all
}

fn is_from_zero(vars: &[Var], v: usize) -> bool
    ensures { IsTrue result ↔ IsFromZero (map var_of vars.now) v }
{
    v >= vars.len() || vars[v].low == Some(0)
}

fn are_others(others: &[Other], i: usize, counts: &[usize]) -> bool
    ensures { (game : GameOf) → map var_count game ≡ counts.now
        → (IsTrue result ↔ All (IsOtherForm game i) others.now) }
{
    let mut all = true;
    for t in others {
        all &= is_other(t, i, counts);
    }
    all
}

fn is_other(t: &Other, i: usize, counts: &[usize]) -> bool
    ensures { (game : GameOf) → map var_count game ≡ counts.now
        → (IsTrue result ↔ IsOtherForm game i t.now) }
{
    is_others_var(t.first, i, counts)
        && is_second(t.first, t.second, i, counts)
        && is_coefficient(t.coef)
}

/// Whether the second variable, where there is one, is that of a later player than the first.
fn is_second(first: (u32, u32), second: Option<(u32, u32)>, i: usize, counts: &[usize]) -> bool
    ensures { (game : GameOf) → map var_count game ≡ counts.now
        → (IsTrue result ↔ ForSome second (λ at. (first.0 < at.0) × IsOthersVar game i at)) }
{
    match second {
        None => true,
        Some(at) => first.0 < at.0 && is_others_var(at, i, counts),
    }
}

/// Whether there is such a variable, of another player than `i`.
fn is_others_var(at: (u32, u32), i: usize, counts: &[usize]) -> bool
    ensures { (game : GameOf) → map var_count game ≡ counts.now
        → (IsTrue result ↔ IsOthersVar game i at) }
{
    at.0 as usize != i && has_var(counts, at.0 as usize, at.1 as usize)
}

/// Whether the others' terms stand in their order.
fn others_ascend(others: &[Other]) -> bool
    ensures { IsTrue result ↔ AllPairs (λ s t. other_order s t ≡ Less) others.now }
{
    let mut all = true;
    for k in 1..others.len() {
        all &= is_other_before(&others[k - 1], &others[k]);
    }
    all
}

fn is_other_before(s: &Other, t: &Other) -> bool
    ensures { IsTrue result ↔ (other_order s.now t.now ≡ Less) }
{
    let order = place_order(s.first, t.first);
    match (s.second, t.second) {
        (None, None) => order.is_lt(),
        (None, Some(_)) => true,
        (Some(_), None) => false,
        (Some(a), Some(b)) => order.then(place_order(a, b)).is_lt(),
    }
}

fn place_order(a: (u32, u32), b: (u32, u32)) -> Ordering
    ensures { result ≡ place_order a b }
{
    a.0.cmp(&b.0).then(a.1.cmp(&b.1))
}

/// Whether cross terms stand in their order.
fn ascend(cross: &[CrossTerm]) -> bool
    ensures { IsTrue result ↔ AllPairs (λ s t. cross_order s t ≡ Less) cross.now }
{
    let mut all = true;
    for k in 1..cross.len() {
        all &= is_before(&cross[k - 1], &cross[k]);
    }
    all
}

fn is_before(s: &CrossTerm, t: &CrossTerm) -> bool
    ensures { IsTrue result ↔ (cross_order s.now t.now ≡ Less) }
{
    let order = s.own.cmp(&t.own).then(s.player.cmp(&t.player));
    order.then(s.var.cmp(&t.var)).is_lt()
}
