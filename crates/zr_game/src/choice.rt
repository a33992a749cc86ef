/// A choice about the leaves of a player's cover, or about a slot of one of them, by numbers.
#[derive(Clone, Copy, Debug, PartialEq, Eq)]
pub enum Choice {
    /// The leaf has weight.
    On { player: u32, leaf: u32 },
    /// The leaf has no weight.
    Off { player: u32, leaf: u32 },
    /// The slot's multiplier is 0.
    Zero { player: u32, leaf: u32, slot: u32 },
    /// The slot's row holds with equality.
    Tight { player: u32, leaf: u32, slot: u32 },
    /// Of the player's leaves this one has all the weight.
    Which { player: u32, leaf: u32 },
}
