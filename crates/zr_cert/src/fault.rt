/// The first line of a certificate's text that is refused, lines being counted from 1.
#[derive(Clone, Copy, Debug, PartialEq, Eq)]
pub enum CertFault {
    /// The line breaks a rule.
    Bad(u32),
    /// A step of the line's sums is too wide.
    Wide(u32),
}
