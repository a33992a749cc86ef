use zr_base::Wide;

/// A step of the exact simplex method at a basis of a linear program.
///
/// Of a program over `n` columns, row `r` has the slack column `n + r`, the value has the column
/// after the slacks, and the right sides come last. Equations are numbered in the order of the basis.
#[derive(Clone, Copy, Debug, PartialEq, Eq)]
pub enum Step {
    /// Making the number of equation `at_row` at column `at_col` in a pivot, which puts column `col`
    /// into the basis in the place of the column of equation `row`.
    Pivot {
        row: u32,
        col: u32,
        at_row: u32,
        at_col: u32,
    },
    /// Making the basic solution's denominator, or its numerator, at equation `row`.
    Point {
        row: u32,
    },
    /// Making the denominator, or the numerator, at equation `row` of the basic direction that
    /// raises column `col`.
    Ray {
        row: u32,
        col: u32,
    },
}

/// A step at a basis that is too wide: the basis as a list of columns, whose last is the value's,
/// the step, and its arguments.
#[derive(Debug, Drop)]
pub struct Stuck {
    pub basis: Vec<u32>,
    pub step: Step,
    pub wide: Wide,
}
