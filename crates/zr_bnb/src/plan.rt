use zr_asked::Move;

/// What shows how low the aim is on a branch, or that the branch has no point: multipliers of its
/// leaf's slots, as an end of a tree has them.
#[derive(Drop)]
pub(crate) struct EndProof {
    pub(crate) scale: i128,
    pub(crate) mult: Vec<(u32, i128)>,
}

/// A node that a search came to.
#[derive(Drop)]
pub(crate) enum Plan {
    /// The whole variable `var` is split at `at`.
    SplitAt { var: u32, at: i64 },
    /// A side of the pair is chosen.
    ChooseOf { pair: u32 },
    /// The branch is closed; this path leads to it.
    Close { path: Vec<Move>, end: EndProof },
}
