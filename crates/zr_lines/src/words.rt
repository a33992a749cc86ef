//! The words that lines begin with.

ghost use Rattle.std.specs.Prelude.{◌≡◌};
ghost use Rattle.zr_lines.specs.Words.{box_word, case_word, named_word, node_word};

/// The word of a tree's node.
#[derive(Clone, Copy)]
pub(crate) enum NodeWord {
    Split,
    Choose,
    Leaf,
    Known,
    Loose,
}

/// Which word of a tree's node the field is.
pub(crate) fn node_word(field: &[u8]) -> Option<NodeWord>
    ensures { result ≡ node_word field.now }
{
    if field == b"split".as_slice() {
        return Some(NodeWord::Split);
    }
    if field == b"choose".as_slice() {
        return Some(NodeWord::Choose);
    }
    if field == b"leaf".as_slice() {
        return Some(NodeWord::Leaf);
    }
    if field == b"known".as_slice() {
        return Some(NodeWord::Known);
    }
    if field == b"loose".as_slice() {
        return Some(NodeWord::Loose);
    }
    None
}

/// The word of a named point or ray.
#[derive(Clone, Copy)]
pub(crate) enum NamedWord {
    Point,
    Ray,
}

/// Which word of a named point or ray the field is.
pub(crate) fn named_word(field: &[u8]) -> Option<NamedWord>
    ensures { result ≡ named_word field.now }
{
    if field == b"point".as_slice() {
        return Some(NamedWord::Point);
    }
    if field == b"ray".as_slice() {
        return Some(NamedWord::Ray);
    }
    None
}

/// The word of a refutation's node.
#[derive(Clone, Copy)]
pub(crate) enum CaseWord {
    OnOff,
    Row,
    Which,
    Close,
}

/// Which word of a refutation's node the field is.
pub(crate) fn case_word(field: &[u8]) -> Option<CaseWord>
    ensures { result ≡ case_word field.now }
{
    if field == b"onoff".as_slice() {
        return Some(CaseWord::OnOff);
    }
    if field == b"row".as_slice() {
        return Some(CaseWord::Row);
    }
    if field == b"which".as_slice() {
        return Some(CaseWord::Which);
    }
    if field == b"close".as_slice() {
        return Some(CaseWord::Close);
    }
    None
}

/// The word of a box tree's node.
#[derive(Clone, Copy)]
pub(crate) enum BoxWord {
    Split,
    Empty,
    Deviate,
}

/// Which word of a box tree's node the field is.
pub(crate) fn box_word(field: &[u8]) -> Option<BoxWord>
    ensures { result ≡ box_word field.now }
{
    if field == b"split".as_slice() {
        return Some(BoxWord::Split);
    }
    if field == b"empty".as_slice() {
        return Some(BoxWord::Empty);
    }
    if field == b"deviate".as_slice() {
        return Some(BoxWord::Deviate);
    }
    None
}
