use zr_asked::AskedLp;
use zr_cases::BoxTree;

/// Whether a game has no pure equilibrium.
#[derive(Debug, Drop)]
pub enum BoxAnswer {
    /// A box tree that shows that no pure profile is an equilibrium.
    Refuted(BoxTree),
    /// A variable isn't whole or lacks a bound, a player has a pair, or the game has a pure
    /// equilibrium.
    Unsettled,
}

/// Why the search has no answer.
#[derive(Debug, Drop)]
pub enum BoxStop {
    /// A split was due, and the purse was at its limit.
    Spent,
    /// A step of a linear program was too wide.
    Wide(AskedLp),
    /// Want of memory.
    NoMemory,
}
