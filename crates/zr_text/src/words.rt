//! The words that tell what shows that there is no equilibrium.

ghost use Rattle.std.specs.Prelude.{◌≡◌};
ghost use Rattle.zr_text.specs.Reader.{none_word};

/// What shows that there is no equilibrium.
#[derive(Clone, Copy)]
pub(crate) enum NoneWord {
    Cover,
    Empty,
    Boxes,
}

/// Which of these words the field is.
pub(crate) fn none_word(field: &[u8]) -> Option<NoneWord>
    ensures { result ≡ none_word field.now }
{
    if field == b"cover".as_slice() {
        return Some(NoneWord::Cover);
    }
    if field == b"empty".as_slice() {
        return Some(NoneWord::Empty);
    }
    if field == b"boxes".as_slice() {
        return Some(NoneWord::Boxes);
    }
    None
}
