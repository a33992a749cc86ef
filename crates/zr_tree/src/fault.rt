/// The first node that is refused, by its number in the list.
#[derive(Clone, Copy, Debug, PartialEq, Eq)]
pub enum Fault {
    /// The node breaks a rule.
    Bad(u32),
    /// A step of the node's sums is too wide.
    Wide(u32),
}
