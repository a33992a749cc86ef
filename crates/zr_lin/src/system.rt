/// The row `coef * x <= le`, or `coef * x < le` where it is strict.
///
/// `coef` lists numbers by column. Calls over rows want columns that ascend strictly and are below
/// the system's `columns`, and no number that is `i128::MIN`.
#[derive(Debug, Drop)]
pub struct Ineq {
    pub coef: Vec<(u32, i128)>,
    pub le: i128,
    pub strict: bool,
}

/// Rows over unknowns that are numbered from 0 to `columns - 1`.
#[derive(Debug, Drop)]
pub struct System {
    pub columns: u32,
    pub rows: Vec<Ineq>,
}

/// The right side of a sum of rows, and whether a strict row is among them.
#[derive(Clone, Copy, Debug, PartialEq, Eq)]
pub struct Combined {
    pub le: i128,
    pub strict: bool,
}
