use zr_base::Point;
use zr_lin::{Ineq, Stuck};

/// Minimise `aim * x` over `x >= 0` that meet the rows.
///
/// `aim` has `columns` numbers. No row is strict; the columns of each ascend strictly and are below
/// `columns`. No number is `i128::MIN`, and columns and rows together are at most `2^32 - 3`.
#[derive(Debug, Drop)]
pub struct Lp {
    pub columns: u32,
    pub rows: Vec<Ineq>,
    pub aim: Vec<i128>,
}

/// The answer of a linear program, with what shows that it is right.
///
/// `mult` lists multipliers by row and `extra` extras by column, both ascending strictly, with
/// numbers of at least 1; what isn't listed is zero.
#[derive(Debug, Drop)]
pub enum LpAnswer {
    /// The point meets the rows and has the least value, `value / scale`: `scale` times the aim and
    /// the rows times `mult` are together `extra`, and the right sides times `mult` are `-value`.
    Best {
        point: Point,
        scale: i128,
        value: i128,
        mult: Vec<(u32, i128)>,
        extra: Vec<(u32, i128)>,
    },
    /// No point meets the rows: the rows times `mult` are `extra`, and the right sides times `mult`
    /// are below zero.
    Empty {
        mult: Vec<(u32, i128)>,
        extra: Vec<(u32, i128)>,
    },
    /// There is no least value: the point meets the rows, and so does each point from there along
    /// the ray, on which the aim falls.
    Unbounded {
        point: Point,
        ray: Vec<i128>,
    },
}

/// Why a linear program has no answer.
#[derive(Debug, Drop)]
pub enum Stop {
    /// Want of memory.
    NoMemory,
    /// A step at a basis was too wide.
    Wide(Stuck),
}
