use smallvec::SmallVec;
use zr_base::Row;

/// A variable. Its bounds are within ±1,000,000,000, and the upper one isn't below the lower one.
#[derive(Debug, Drop)]
pub struct Var {
    pub name: String,
    /// Whether only whole values are allowed.
    pub whole: bool,
    /// The lower bound, if there is one.
    pub low: Option<i64>,
    /// The upper bound, if there is one.
    pub up: Option<i64>,
}

/// The complementarity condition `0 <= var`, `coef * x + add >= 0`, one of the two being 0.
#[derive(Debug, Drop)]
pub struct Pair {
    pub var: u32,
    pub coef: SmallVec<(u32, i64), 8>,
    pub add: i64,
}

/// The cost `coef` times the own variable `own` times the variable `var` of player `player`.
#[derive(Clone, Copy, Debug, PartialEq, Eq)]
pub struct CrossTerm {
    pub own: u32,
    pub player: u32,
    pub var: u32,
    pub coef: i64,
}

/// The cost `coef` times a variable of another player, or times the variables of two other players.
///
/// A variable is named by its player and its number. Of two players the lower one is the first.
#[derive(Clone, Copy, Debug, PartialEq, Eq)]
pub struct Other {
    pub first: (u32, u32),
    pub second: Option<(u32, u32)>,
    pub coef: i64,
}

/// A player: it minimises `cost * x`, its cross terms and its terms in the others' variables alone
/// over the points that keep the bounds of its variables, its rows and its pairs.
///
/// A player has 1 to 64 variables, at most 256 rows, 32 pairs, 65,536 cross terms and 65,536 terms
/// in the others' variables. Cross terms stand in the order of own variable, player and variable;
/// of the others' terms those in one variable come first, in the order of player and variable, and
/// then those in two, in the order of the first and the second. The variable of a pair has the
/// lower bound 0.
#[derive(Debug, Drop)]
pub struct Player {
    pub name: String,
    pub vars: Vec<Var>,
    pub rows: Vec<Row>,
    pub pairs: Vec<Pair>,
    pub cost: SmallVec<(u32, i64), 8>,
    pub cross: Vec<CrossTerm>,
    pub others: Vec<Other>,
}
