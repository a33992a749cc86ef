ghost use Rattle.std.specs.Prelude.{◌≡◌, ◌<◌, ◌^◌};

use std::marker::Model;

/// The number of a node in its forest: nodes are numbered from 0 in the order in which they come.
#[derive(Clone, Copy, Debug, PartialEq, Eq)]
pub struct NodeId {
    number: u32,
}

impl Model for NodeId {
    ghost use Rattle.std.specs.Prelude.{ℕ};

    ghost Value = { ℕ };

    ghost view = { λ id. id.number };

    ghost inverse = { λ number. record { number = number } };
}

impl NodeId {
    /// The node of this number.
    pub(crate) fn new(number: u32) -> NodeId
        ensures { result ≡ number }
    {
        NodeId { number }
    }

    /// The number as an index.
    pub(crate) fn index(self) -> usize
        ensures value { result ≡ self }
        ensures in_range { result < 2 ^ 32 }
    {
        self.number as usize
    }
}
