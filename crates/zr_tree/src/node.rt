use zr_base::Point;

/// A node of a tree. Split and Choose have two children, the other nodes none.
#[derive(Debug, Drop)]
pub enum Node {
    /// The whole variable `var` is at most `at`, or at least `at + 1`; `at` is -2^62 to 2^62 - 1.
    Split { var: u32, at: i64 },
    /// The pair's variable is 0, or its row is.
    Choose { pair: u32 },
    /// Slots, multiplied, prove `scale` times the row, or refute the leaf where `scale` is 0.
    Leaf { scale: i128, mult: Vec<(u32, i128)> },
    /// The leaf is settled, and this is a point of it.
    Known { point: Point },
    /// Nothing more is said of the leaf.
    Loose,
}
