use zr_asked::AskedLp;
use zr_base::Wide;
use zr_game::Named;

/// Why there is no certificate.
#[derive(Debug, Drop)]
pub enum DecideStop {
    /// A unit was due, and the purse was at its limit.
    Spent,
    /// A linear program is stuck.
    Wide(AskedLp),
    /// A step of arithmetic is too wide.
    Step(Wide),
    /// The direction, a ray of the player's relaxation, changes the whole variable `var`. The system
    /// over the leaves of the covers has a solution, so no refutation of it is right; or it is open
    /// what the player pays at least against an equilibrium that was drawn. `named` has for each
    /// player what is named of it: of those whose cover is one loose leaf, in the second case of this
    /// player alone.
    Endless {
        player: u32,
        var: u32,
        dir: Vec<i128>,
        named: Vec<Vec<Named>>,
    },
    /// The system of the game has so many cells, up to the last number of 128 bits, which are too
    /// many.
    TooLarge {
        cells: u128,
    },
    /// Want of memory.
    NoMemory,
}
