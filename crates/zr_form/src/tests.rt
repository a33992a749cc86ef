use super::*;
use std::test::Fail;

const MOST: &[u8] = b"170141183460469231731687303715884105727";

const MORE: &[u8] = b"170141183460469231731687303715884105728";

const LEAST: &[u8] = b"-170141183460469231731687303715884105727";

const LESS: &[u8] = b"-170141183460469231731687303715884105728";

#[test]
fn numbers_have_limits(rt: HostRuntime) {
    assert_eq!(rt; number(MOST), Some(170141183460469231731687303715884105727));
    assert_eq!(rt; number(MORE), None);
    assert_eq!(rt;
        number(LEAST),
        Some(-170141183460469231731687303715884105727)
    );
    assert_eq!(rt; number(LESS), None);
    assert_eq!(rt;
        natural(MOST),
        Some(170141183460469231731687303715884105727)
    );
    assert_eq!(rt; natural(MORE), None);
    assert!(rt; any_natural(Some(MORE)).is_some());
    assert!(rt; any_integer(Some(LESS)).is_some());
}

#[test]
fn one_text_for_each_number(rt: HostRuntime) {
    assert_eq!(rt; number(b"0".as_slice()), Some(0));
    for field in [
        b"".as_slice(),
        b"-".as_slice(),
        b"-0".as_slice(),
        b"007".as_slice(),
        b"+1".as_slice(),
        b"1,5".as_slice(),
    ] {
        assert_eq!(rt; number(field), None);
        assert!(rt; any_integer(Some(field)).is_none());
    }
    assert_eq!(rt; natural(b"-7".as_slice()), None);
    assert!(rt; any_natural(Some(b"-7".as_slice())).is_none());
    assert!(rt; any_positive(Some(b"0".as_slice())).is_none());
}

#[test]
fn lines_and_fields_are_cut(rt: HostRuntime) -> Result<(), Fail> {
    let (line, rest) = next_line(b"ab  c\nd".as_slice()).ok_or("a line")?;
    assert_eq!(rt; line, b"ab  c".as_slice());
    assert!(rt; next_line(rest).is_none());
    let (first, left) = next_field(line);
    assert_eq!(rt; first, b"ab".as_slice());
    let (second, left) = next_field(left.ok_or("a second field")?);
    assert_eq!(rt; second, b"".as_slice());
    let (third, left) = next_field(left.ok_or("a third field")?);
    assert_eq!(rt; third, b"c".as_slice());
    assert!(rt; left.is_none());
    Ok(())
}

#[test]
fn a_line_is_read_field_by_field(rt: HostRuntime) -> Result<(), Fail> {
    let line = b"leaf 3 -7 99999999999999999999".as_slice();
    assert!(rt; word(Some(line), b"lea".as_slice()).is_none());
    let left = word(Some(line), b"leaf".as_slice()).ok_or("the word")?;
    assert!(rt; small(left, 3).is_none());
    let (index, left) = small(left, 4).ok_or("an index")?;
    assert_eq!(rt; index, 3);
    assert!(rt; positive(left).is_none());
    let (n, left) = signed(left).ok_or("a number")?;
    assert_eq!(rt; n, -7);
    let (count, end) = any_positive(left).ok_or("a count")?;
    assert_eq!(rt; count, b"99999999999999999999".as_slice());
    assert!(rt; end.is_none());
    assert!(rt; signed(end).is_none());
    Ok(())
}

#[test]
fn texts_are_in_the_order_of_their_numbers(rt: HostRuntime) {
    assert!(rt; is_less(b"9".as_slice(), b"10".as_slice()));
    assert!(rt; !is_less(b"10".as_slice(), b"9".as_slice()));
    assert!(rt; is_less(b"129".as_slice(), b"130".as_slice()));
    assert!(rt; !is_less(b"130".as_slice(), b"129".as_slice()));
    assert!(rt; is_less(MOST, MORE));
    assert!(rt; !is_less(MORE, MORE));
}

#[test]
fn numbers_are_written(rt: HostRuntime) -> Result<(), Fail> {
    let mut out = Vec::new(rt.alloc());
    put_natural(
        rt.alloc(),
        &mut out,
        170141183460469231731687303715884105728,
    )?;
    assert_eq!(rt; out.as_slice(), MORE);
    out.clear();
    put_integer(
        rt.alloc(),
        &mut out,
        -170141183460469231731687303715884105727,
    )?;
    assert_eq!(rt; out.as_slice(), LEAST);
    Ok(())
}

#[test]
fn faults_tell_their_place(rt: HostRuntime) {
    assert!(rt; matches!(LineFault::of_line(true).at(7), ReadError::Number(7)));
    assert!(rt; matches!(LineFault::of_line(false).at(7), ReadError::Form(7)));
}
