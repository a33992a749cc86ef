/// A node of a refutation. A node stands before its children.
#[derive(Debug, Drop)]
pub enum RNode {
    /// The leaf has weight, or it has none.
    OnOff { player: u32, leaf: u32 },
    /// The multiplier of the slot's row is 0, or the row is tight.
    RowSplit { player: u32, leaf: u32, slot: u32 },
    /// One of the player's leaves has all weight: a child for each leaf, in order.
    Which { player: u32 },
    /// The rows under the choices made, multiplied, are refuted. There are no children.
    Close { mult: Vec<(u32, i128)> },
}
