//! Fields that more than one kind of line has.

ghost use Rattle.std.specs.Prelude.{◌≡◌, ◌==◌, option_copied, true};
ghost use Rattle.zr_form.specs.Code.{left_of, Takes};
ghost use Rattle.zr_form.specs.Bounds.{is_count};
ghost use Rattle.zr_form.specs.Fields.{natural_read};
ghost use Rattle.zr_lines.specs.Code.{IsEnd, TakesThis};

use zr_form::small;

/// Indices and counts are below this.
pub const INDEX_LIMIT: u64 = 1 << 32;

/// What follows the number `i`, if it stands there.
pub fn index(left: Option<&[u8]>, i: u32) -> Option<Option<&[u8]>>
    ensures { TakesThis i left.entry result (natural_read (λ n. n == i) (left_of (option_copied left.entry))) }
{
    let (n, rest) = small(left, INDEX_LIMIT)?;
    if n != i as u64 {
        return None;
    }
    Some(rest)
}

/// A count of at least 1, and what follows it.
pub fn count(left: Option<&[u8]>) -> Option<(u64, Option<&[u8]>)>
    ensures { Takes (λ n. n) left.entry result (natural_read (is_count true) (left_of (option_copied left.entry))) }
{
    let (n, rest) = small(left, INDEX_LIMIT)?;
    if n < 1 {
        return None;
    }
    Some((n, rest))
}

/// Nothing, if nothing is left of the line.
pub fn ended(left: Option<&[u8]>) -> Option<()>
    ensures { IsEnd left.entry result }
{
    match left {
        None => Some(()),
        Some(_) => None,
    }
}
