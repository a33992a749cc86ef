use zr_base::Point;

/// A node of a box tree. Split has two children, the other nodes none.
#[derive(Debug, Drop)]
pub enum BNode {
    /// The player's whole variable `var` is at most `at`, or at least `at + 1`; `at` is -2^62 to
    /// 2^62 - 1.
    Split { player: u32, var: u32, at: i64 },
    /// The player's rows, multiplied, show that it has no point in the box.
    Empty { player: u32, mult: Vec<(u32, i128)> },
    /// The player pays less at this point, whatever is played in the box.
    Deviate { player: u32, point: Point },
}
