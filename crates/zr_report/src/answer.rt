use zr_base::{Frac, Point};
use zr_tree::Tree;

/// What a player can get at best against the others' strategies.
#[derive(Debug, Drop)]
pub enum Answer {
    /// The least cost that it can have, and a tree that proves that no point gives less.
    Least { cost: Frac, tree: Tree },
    /// A point, and a direction from there along which its cost falls without end. The direction has
    /// as many numbers as the point.
    Below { base: Point, dir: Vec<i128> },
}
