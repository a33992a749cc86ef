use zr_asked::AskedLp;
use zr_base::{Frac, Point};

/// What the question of a branch is answered.
#[derive(Debug, Drop)]
pub enum Reply {
    /// A point with the least value, and multipliers of the leaf's slots that prove it: they give
    /// the negated aim times the scale.
    Best {
        point: Point,
        value: Frac,
        scale: i128,
        mult: Vec<(u32, i128)>,
    },
    /// The rows have no solution, by these multipliers of the leaf's slots.
    Empty {
        mult: Vec<(u32, i128)>,
    },
    /// From the point the aim falls along the ray without end.
    Unbounded {
        point: Point,
        ray: Vec<i128>,
    },
}

/// Why a question has no answer.
#[derive(Debug, Drop)]
pub enum AskStop {
    /// Want of memory.
    NoMemory,
    /// A step of the question's program was too wide.
    Wide(AskedLp),
}
