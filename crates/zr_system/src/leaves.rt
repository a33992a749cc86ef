use zr_base::{Cut, Wide};
use zr_game::{Leaf, Named};

/// A leaf of a player's cover, and whether it counts as exact: then it has multipliers. Of a right
/// cover each leaf at a known point does, and its points are feasible.
#[derive(Debug, Drop)]
pub struct Region {
    pub leaf: Leaf,
    pub exact: bool,
}

/// What the system is over, for each player: its leaves, its named points and rays, and its cuts.
#[derive(Debug, Drop)]
pub struct Leaves {
    pub regions: Vec<Vec<Region>>,
    pub named: Vec<Vec<Named>>,
    pub cuts: Vec<Vec<Cut>>,
}

/// Why there is no system.
#[derive(Clone, Copy, Debug, PartialEq, Eq)]
pub enum SystemError {
    /// A step of a coefficient's sum was too wide.
    Wide(Wide),
    /// Want of memory.
    NoMemory,
}
