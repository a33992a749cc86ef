use zr_asked::AskedLp;
use zr_base::{Point, Wide};

/// What is known of the system under a path of choices.
#[derive(Debug, Drop)]
pub enum Reply {
    /// The point, with a number for each column of the system, meets the rows, the strict ones
    /// strictly.
    Point(Point),
    /// The multipliers of the rows, by row number, refute them.
    Close(Vec<(u32, i128)>),
}

/// Why a question has no answer.
#[derive(Debug, Drop)]
pub enum ChoiceStop {
    /// A step of the question's program was too wide.
    Wide(AskedLp),
    /// A step of a coefficient of the system was too wide.
    WideRow(Wide),
    /// Want of memory.
    NoMemory,
}
