use zr_asked::AskedLp;
use zr_base::{Frac, Point, Wide};
use zr_tree::Tree;

/// The least value of an aim on a player's points.
#[derive(Debug, Drop)]
pub enum LeastAnswer {
    /// A point with the least value, that value, and a tree that proves that no point has a lower
    /// one: with `n / m` the value in lowest terms, it proves the row `-m * aim * x <= -n`.
    At {
        point: Point,
        value: Frac,
        tree: Tree,
    },
    /// A tree that shows that the player has no point.
    Empty {
        tree: Tree,
    },
    /// A point, and a direction from there along which the points stay feasible and the aim falls.
    Below {
        base: Point,
        dir: Vec<i128>,
    },
}

/// Why a search has no answer.
#[derive(Debug, Drop)]
pub enum BnbStop {
    /// A split was due, and the purse was at its limit.
    Spent,
    /// A step of a linear program was too wide.
    Wide(AskedLp),
    /// The product of the least value's denominator and a number of the aim was too wide.
    WideAim(Wide),
    /// A ray of the relaxation changes the whole variable `var`.
    Endless { var: u32, dir: Vec<i128> },
    /// Want of memory.
    NoMemory,
}
