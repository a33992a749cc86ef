/// Which profiles are meant.
#[derive(Clone, Copy, Debug, PartialEq, Eq)]
pub enum Kind {
    /// Each player plays one point.
    Pure,
    /// Each player may mix finitely many points.
    Mixed,
}
