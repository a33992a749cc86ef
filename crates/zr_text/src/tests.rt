use super::*;
use std::alloc::{AllocError, Global};
use std::test::Fail;
use zr_cert::{Cert, Verdict};
use zr_game::Kind;
use zr_tree::{Node, Tree};

const EMPTY: &str =
    "zero-cert/1\nkind mixed 1\nverdict none empty 0\nsplit 0 0\nleaf 0 2 1 1 3 2\nleaf 0 2 0 1 2 2\nend\n";

#[test]
fn writes_an_empty_player(rt: HostRuntime) -> Result<(), Fail> {
    let alloc = rt.alloc();
    let split = Node::Split { var: 0, at: 0 };
    let below = Node::Leaf {
        scale: 0,
        mult: vec![in alloc; (1, 1), (3, 2)]?,
    };
    let above = Node::Leaf {
        scale: 0,
        mult: vec![in alloc; (0, 1), (2, 2)]?,
    };
    let tree = Tree::new(vec![in alloc; split, below, above]?).map_err(|_| Fail::from("no tree"))?;
    let verdict = Verdict::NoneEmpty { player: 0, tree };
    let cert = Cert::new(Kind::Mixed, 1, verdict).map_err(|_| Fail::from("no certificate"))?;
    let text = write_cert(alloc, &cert).map_err(|_| Fail::from("no memory"))?;
    assert_eq!(rt; text.as_slice(), EMPTY.as_bytes());
    Ok(())
}

/// The profile of matching pennies in which both players mix evenly.
const PENNIES: &[&str] = &[
    "zero-cert/1",
    "kind mixed 2",
    "verdict profile",
    "player 0 total 2 parts 2",
    "part 1 1 0",
    "part 1 1 1",
    "player 1 total 2 parts 2",
    "part 1 1 0",
    "part 1 1 1",
    "cost 0 0 1",
    "leaf 1 0",
    "cost 1 0 1",
    "leaf 1 0",
    "end",
];

/// Matching pennies have no pure equilibrium: in each box a player deviates.
const BOXES: &[&str] = &[
    "zero-cert/1",
    "kind pure 2",
    "verdict none boxes",
    "split 0 0 0",
    "split 1 0 0",
    "deviate 0 1 1",
    "deviate 1 1 0",
    "split 1 0 0",
    "deviate 1 1 1",
    "deviate 0 1 0",
    "end",
];

/// Two knapsacks.
const KNAPSACKS: &[&str] = &[
    "zero-cert/1",
    "kind mixed 2",
    "verdict profile",
    "player 0 total 9 parts 2",
    "part 2 1 1 0",
    "part 7 1 0 1",
    "player 1 total 5 parts 2",
    "part 2 1 1 0",
    "part 3 1 0 1",
    "cost 0 -1 5",
    "split 1 0",
    "leaf 1 2 2 1 4 1",
    "split 0 0",
    "leaf 1 2 2 1 4 1",
    "leaf 0 3 0 1 1 3 3 4",
    "cost 1 -17 9",
    "split 1 0",
    "leaf 1 2 2 17 4 17",
    "leaf 2 2 0 17 3 51",
    "end",
];

/// A known leaf in whose system rows 4 and 6 refute each other.
const COVER: &[&str] = &[
    "zero-cert/1",
    "kind mixed 1",
    "verdict none cover",
    "known 1 0",
    "named 0",
    "close 2 4 1 6 1",
    "end",
];

/// A pair of a leader, and a point over the denominator 1.
const FOLLOWED: &[&str] = &[
    "zero-cert/1",
    "kind pure 1",
    "verdict profile",
    "player 0 total 1 parts 1",
    "part 1 1 2 2 1",
    "cost 0 -2 1",
    "leaf 1 2 1 1 8 3",
    "end",
];

/// A loose leaf with a ray whose row is refuted.
const RAY: &[&str] = &[
    "zero-cert/1",
    "kind mixed 1",
    "verdict none cover",
    "loose",
    "named 1",
    "ray 1 0 1",
    "close 1 4 1",
    "end",
];

/// Each kind of line that the others lack.
const CASES: &[&str] = &[
    "zero-cert/1",
    "kind pure 1",
    "verdict none cover",
    "split 0 -3",
    "choose 0",
    "known 1 0",
    "loose",
    "leaf 0 1 0 1",
    "named 1",
    "point 2 1 3",
    "which 0",
    "row 0 0 2",
    "close 0",
    "onoff 0 1",
    "close 0",
    "close 0",
    "close 1 3 1",
    "end",
];

/// An empty box, by a row of the player's.
const EMPTY_BOX: &[&str] = &[
    "zero-cert/1",
    "kind pure 1",
    "verdict none boxes",
    "empty 0 1 0 1",
    "end",
];

/// The first so many of the lines, with this one in place of the one of this number.
fn text_with(
    alloc: Global,
    lines: &[&str],
    count: usize,
    number: usize,
    line: &str,
) -> Result<Vec<u8>, AllocError> {
    let mut text = Vec::new(alloc);
    for (i, old) in lines.iter().enumerate() {
        if i < count {
            let line = if i + 1 == number { line } else { old };
            text.extend_from_slice(line.as_bytes())?;
            text.push(b'\n')?;
        }
    }
    Ok(text)
}

/// Why the text isn't read, if it isn't.
fn fault_of(alloc: Global, text: &[u8]) -> Option<TextError> {
    if text.len() >= 1 << 32 {
        return None;
    }
    read_cert(alloc, text).err()
}

/// The text of the certificate whose text this is.
fn again(alloc: Global, text: &[u8]) -> Result<Vec<u8>, Fail> {
    if text.len() >= 1 << 32 {
        return Err(Fail::from("too long"));
    }
    let cert = read_cert(alloc, text).map_err(|_| Fail::from("no certificate"))?;
    write_cert(alloc, &cert).map_err(|_| Fail::from("no memory"))
}

#[test]
fn certificates_are_read_and_written_again(rt: HostRuntime) -> Result<(), Fail> {
    assert_eq!(rt;
        again(rt.alloc(), EMPTY.as_bytes())?.as_slice(),
        EMPTY.as_bytes()
    );
    for lines in [
        PENNIES, BOXES, KNAPSACKS, COVER, FOLLOWED, RAY, CASES, EMPTY_BOX,
    ] {
        let text = text_with(rt.alloc(), lines, lines.len(), 0, "")?;
        assert_eq!(rt; again(rt.alloc(), &text)?, text);
    }
    Ok(())
}

#[test]
fn the_first_bad_line_of_none_is_told(rt: HostRuntime) -> Result<(), Fail> {
    use TextError::{NotCert, NumberTooBig};
    let table: [(&[&str], usize, &str, TextError); 19] = [
        (BOXES, 5, "split 1 0", NotCert(5)),
        (BOXES, 6, "deviate 0 1", NotCert(6)),
        (BOXES, 6, "deviate 4294967296 1 1", NumberTooBig(6)),
        (BOXES, 4, "split 0 0 4611686018427387904", NumberTooBig(4)),
        (BOXES, 10, "empty 0 1 0 -1", NotCert(10)),
        (BOXES, 11, "deviate 0 1 1", NotCert(11)),
        (COVER, 4, "known 0 0", NotCert(4)),
        (COVER, 4, "leaf 1 0", NotCert(4)),
        (COVER, 5, "named 1", NotCert(6)),
        (COVER, 5, "named 4294967296", NumberTooBig(5)),
        (COVER, 6, "close 2 6 1 4 1", NotCert(6)),
        (COVER, 6, "close 2 4 1 6 -1", NotCert(6)),
        (COVER, 6, "which 1", NotCert(6)),
        (COVER, 6, "which 0", NotCert(7)),
        (RAY, 6, "ray 1 0 1 2", NotCert(6)),
        (
            RAY,
            6,
            "ray 1 0 170141183460469231731687303715884105728",
            NumberTooBig(6),
        ),
        (RAY, 6, "ray 1", NotCert(6)),
        (RAY, 7, "onoff 0 0", NotCert(8)),
        (CASES, 17, "end", NotCert(17)),
    ];
    for (lines, number, line, fault) in table {
        let text = text_with(rt.alloc(), lines, lines.len(), number, line)?;
        assert_eq!(rt; fault_of(rt.alloc(), &text), Some(fault), "{line}");
    }
    Ok(())
}

#[test]
fn the_first_line_out_of_form_is_told(rt: HostRuntime) -> Result<(), Fail> {
    use TextError::{NotCert, NumberTooBig};
    let table: [(usize, &str, TextError); 16] = [
        (1, "zero-cert/2", NotCert(1)),
        (2, "kind mixed 17", NumberTooBig(2)),
        (2, "kind mixed 0", NotCert(2)),
        (3, "verdict none cover", NotCert(4)),
        (3, "verdict none empty 4294967296", NumberTooBig(3)),
        (4, "player 0 total 2 parts 4294967295", NotCert(7)),
        (4, "player 0 total 2 parts 4294967296", NumberTooBig(4)),
        (5, "part  1 1 0", NotCert(5)),
        (10, "cost 0 0 2", NotCert(10)),
        (11, "leaf 1 1 0 -1", NotCert(11)),
        (
            11,
            "leaf 1 1 0 1000000000000000000000000000000000000000",
            NumberTooBig(11),
        ),
        (
            11,
            "leaf 1 2 1 1 0 1000000000000000000000000000000000000000",
            NotCert(11),
        ),
        (11, "leaf 1 1 0 1 1 1", NotCert(11)),
        (11, "split 0 -4611686018427387904", NotCert(12)),
        (11, "split 0 -4611686018427387905", NumberTooBig(11)),
        (14, "end\nend", NotCert(15)),
    ];
    for (number, line, fault) in table {
        let text = text_with(rt.alloc(), PENNIES, 14, number, line)?;
        assert_eq!(rt; fault_of(rt.alloc(), &text), Some(fault), "{line}");
    }
    let text = text_with(rt.alloc(), PENNIES, 13, 0, "")?;
    assert_eq!(rt; fault_of(rt.alloc(), &text), Some(NotCert(14)));
    assert_eq!(rt; fault_of(rt.alloc(), b"".as_slice()), Some(NotCert(1)));
    Ok(())
}
