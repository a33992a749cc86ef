use crate::{MemShelf, MemSink, Shelf, ShelfError, Sink, SinkError, put_all};
use std::test::Fail;

fn take_by<S: Shelf>(shelf: &mut S, name: &str, limit: usize) -> Result<Vec<u8>, ShelfError> {
    shelf.take(name, limit)
}

#[test]
fn memory_is_taken(rt: HostRuntime) -> Result<(), Fail> {
    let alloc = rt.alloc();
    let mut items = Vec::new(alloc);
    for (name, content) in [("a", "first"), ("b", "other"), ("a", "second")] {
        let name = String::from_str(alloc, name)?;
        items.push((name, content.as_bytes().to_vec(alloc)?))?;
    }
    let mut shelf = MemShelf::new(alloc, items, vec![in alloc; 2]?);
    let calls = [
        ("a", 5, Ok("first"), 0),
        ("b", 4, Err(ShelfError::TooLong), 0),
        ("b", 5, Err(ShelfError::Failed), 1),
        ("b", 5, Ok("other"), 1),
        ("c", 5, Err(ShelfError::Failed), 2),
    ];
    for (name, limit, want, faults) in calls {
        let taken = take_by(&mut shelf, name, limit);
        match want {
            Ok(text) => assert_eq!(rt; taken?.as_slice(), text.as_bytes(), "{name} {limit}"),
            Err(e) => assert_eq!(rt; taken.err(), Some(e), "{name} {limit}"),
        }
        assert_eq!(rt; shelf.faults(), faults, "{name} {limit}");
    }
    Ok(())
}

#[test]
fn memory_is_written(rt: HostRuntime) -> Result<(), Fail> {
    let alloc = rt.alloc();
    let mut sink = MemSink::new(alloc, vec![in alloc; 1]?);
    let pieces = [
        ("ab", Ok(()), "ab", 0),
        ("cd", Err(SinkError::Failed), "ab", 1),
        ("", Ok(()), "ab", 1),
        ("ef", Ok(()), "abef", 1),
    ];
    for (piece, want, bytes, faults) in pieces {
        assert_eq!(rt; put_all(&mut sink, piece.as_bytes()), want, "{piece}");
        assert_eq!(rt; sink.bytes(), bytes.as_bytes(), "{piece}");
        assert_eq!(rt; sink.faults(), faults, "{piece}");
    }
    Ok(())
}
