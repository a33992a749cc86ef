//! Lines are cut into fields, and fields are read as numbers.

ghost use Rattle.std.specs.Prelude.{◌≡◌, ◌^◌, nat_lt, option_map, option_copied, unsigned_abs, pos};
ghost use Rattle.zr_form.specs.Lines.{split_once};
ghost use Rattle.zr_form.specs.Numbers.{more_digits, natural, negated};
ghost use Rattle.zr_form.specs.Fields.{only_if};
ghost use Rattle.zr_form.specs.Code.{line_cut, narrow_natural, narrow_integer};

/// The bytes before the first `separator`, and those after it if there is one.
fn split_once(input: &[u8], separator: u8) -> (&[u8], Option<&[u8]>)
    ensures before { result.0.now ≡ (split_once separator input.now).0 }
    ensures after { option_copied result.1 ≡ (split_once separator input.now).1 }
{
    match input.iter().position(|&b| b == separator) {
        Some(i) => (&input[..i], Some(&input[i + 1..])),
        None => (input, None),
    }
}

/// The line at the front without its line feed, and what follows it.
///
/// `None` exactly where there is no line feed.
pub fn next_line(bytes: &[u8]) -> Option<(&[u8], &[u8])>
    ensures { option_map (λ x. (x.0.now, x.1.now)) result ≡ line_cut bytes.now }
{
    let (line, rest) = split_once(bytes, b'\n');
    Some((line, rest?))
}

/// The field at the front and, where a space ends it, what follows the space.
///
/// An empty line has one empty field, and between two spaces is another one.
pub fn next_field(line: &[u8]) -> (&[u8], Option<&[u8]>)
    ensures before { result.0.now ≡ (split_once 32 line.now).0 }
    ensures after { option_copied result.1 ≡ (split_once 32 line.now).1 }
{
    split_once(line, b' ')
}

/// The number from 0 to `2^127 - 1` that the field spells: `0`, or digits without a leading zero.
///
/// `None` exactly where the field spells none of these.
pub fn natural(field: &[u8]) -> Option<u128>
    ensures { result ≡ narrow_natural field.now }
{
    if field.is_empty() {
        return None;
    }
    if field[0] == b'0' {
        if field.len() == 1 {
            return Some(0);
        }
        return None;
    }
    digits(field)
}

/// The number below 2^127 that the digits stand for.
fn digits(field: &[u8]) -> Option<u128>
    ensures { result ≡ only_if (λ n. nat_lt n (2 ^ 127)) (more_digits 0 field.now) }
{
    let mut n: u128 = 0;
    for &d in field {
        if d < b'0' {
            return None;
        }
        if b'9' < d {
            return None;
        }
        let digit = (d - b'0') as u128;
        if n > (i128::MAX as u128 - digit) / 10 {
            return None;
        }
        n = n * 10 + digit;
    }
    Some(n)
}

/// The number below zero that stands after a minus sign.
fn below_zero(after: &[u8]) -> Option<i128>
    ensures { result ≡ only_if (λ z. nat_lt (unsigned_abs z) (2 ^ 127)) (negated (natural after.now)) }
{
    let n = natural(after)?;
    if n == 0 { None } else { Some(-(n as i128)) }
}

/// The number from zero on that the field spells.
fn above_zero(field: &[u8]) -> Option<i128>
    ensures { result ≡ only_if (λ z. nat_lt (unsigned_abs z) (2 ^ 127)) (option_map pos (natural field.now)) }
{
    let n = natural(field)?;
    Some(n as i128)
}

/// The number within `±(2^127 - 1)` that the field spells: `0`, or digits without a leading zero,
/// with a `-` before them where it is below 0.
///
/// `None` exactly where the field spells none of these, as for `-0`, `007` and `+1`.
pub fn number(field: &[u8]) -> Option<i128>
    ensures { result ≡ narrow_integer field.now }
{
    if field.is_empty() {
        return None;
    }
    if field[0] == b'-' {
        below_zero(&field[1..])
    } else {
        above_zero(field)
    }
}
