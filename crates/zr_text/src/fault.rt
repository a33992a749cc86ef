/// Why bytes are no certificate's text. Lines are counted from 1.
#[derive(Clone, Copy, Debug, PartialEq, Eq)]
pub enum TextError {
    /// The first line that isn't in the form: it is missing, it breaks a rule, or it comes after the
    /// last one.
    NotCert(u32),
    /// The same, where the line would be in the form if numbers had no upper bound.
    NumberTooBig(u32),
    /// An allocation failed.
    NoMemory,
}
