ghost use Rattle.std.specs.Prelude.{◌≡◌};
ghost use Rattle.zr_lines.specs.Fits.{covers, refutes};

/// Which nodes without children a tree may have.
#[derive(Clone, Copy, Debug, PartialEq, Eq)]
pub enum Ends {
    /// Leaves of any scale.
    Proofs,
    /// Leaves of scale 0.
    Refuted,
    /// Leaves of scale 0, known points and loose leaves.
    Covered,
}

impl Ends {
    /// Whether scales are 0.
    pub(crate) fn are_refuted(self) -> bool
        ensures { result ≡ refutes self }
    {
        match self {
            Ends::Proofs => false,
            Ends::Refuted | Ends::Covered => true,
        }
    }

    /// Whether there are known points and loose leaves.
    pub(crate) fn are_covered(self) -> bool
        ensures { result ≡ covers self }
    {
        match self {
            Ends::Proofs | Ends::Refuted => false,
            Ends::Covered => true,
        }
    }
}
