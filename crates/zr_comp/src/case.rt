/// A case that a search makes.
#[derive(Clone, Copy, Debug, PartialEq, Eq)]
pub(crate) enum Case {
    /// Whether the leaf is On or Off.
    Leaf { player: u32, leaf: u32 },
    /// Whether the slot is Zero or Tight.
    Slot { player: u32, leaf: u32, slot: u32 },
    /// Which leaf of the player is chosen.
    Player { player: u32 },
}
