use zr_asked::AskedLp;
use zr_base::{Point, Wide};
use zr_cases::Refutation;

/// What a search over choices finds.
#[derive(Debug, Drop)]
pub enum Found {
    /// The numbers of the unknowns, in the order of their columns, under a complete list of
    /// choices.
    Solved(Point),
    /// No fractions solve the system under any complete list of choices.
    Refuted(Refutation),
}

/// Why a search over choices ends without an answer.
#[derive(Debug, Drop)]
pub enum CompStop {
    /// A branch is due, and the purse is at its limit.
    Spent,
    /// The question under a path of choices is stuck.
    Wide(AskedLp),
    /// A step of a coefficient of the system is too wide.
    WideRow(Wide),
    /// Want of memory.
    NoMemory,
}
