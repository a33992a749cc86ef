//! Covers with their named points and rays, and the refutation over their leaves.

ghost use Rattle.std.specs.Prelude.{◌≡◌, ◌^◌, ◌<◌, length, map, true, false};
ghost use Rattle.std.specs.List.{zip};
ghost use Rattle.zr_cert.specs.Certs.{named_list, nodes_of};
ghost use Rattle.zr_form.specs.Lines.{lines_of};
ghost use Rattle.zr_form.specs.Reading.{many_read};
ghost use Rattle.zr_form.specs.Stops.{Gives};
ghost use Rattle.zr_text.specs.Code.{GivesCovers};
ghost use Rattle.zr_text.specs.Reader.{cover_read};

use std::alloc::Global;
use zr_form::ReadError;
use zr_game::Named;
use zr_lines::{Ends, take_named, take_tree};
use zr_tree::Tree;

/// A cover with its named points and rays, and what follows them.
fn take_cover(alloc: Global, bytes: &[u8]) -> Result<((Tree, Vec<Named>), &[u8]), ReadError>
    requires { length bytes.now < 2 ^ 32 }
    ensures { Gives (λ c. (nodes_of c.0, named_list c.1)) result (cover_read true (lines_of bytes.now)) (cover_read false (lines_of bytes.now)) }
{
    let (tree, rest) = take_tree(alloc, bytes, Ends::Covered)?;
    let (items, rest) = take_named(alloc, rest)?;
    Ok(((tree, items), rest))
}

/// Covers, and the named points and rays of each.
pub(crate) type Covers = (Vec<Tree>, Vec<Vec<Named>>);

/// A cover with its named points and rays for each player, and what follows them.
pub(crate) fn take_covers(
    alloc: Global,
    bytes: &[u8],
    players: u32,
) -> Result<(Covers, &[u8]), ReadError>
    requires { length bytes.now < 2 ^ 32 }
    ensures { GivesCovers result (many_read (λ i. cover_read true) players 0 (lines_of bytes.now)) (many_read (λ i. cover_read false) players 0 (lines_of bytes.now)) }
{
    let mut covers = Vec::new(alloc);
    let mut named = Vec::new(alloc);
    let mut rest = bytes;
    for _ in 0..players {
        let ((cover, items), after) = take_cover(alloc, rest)?;
        covers.push(cover)?;
        named.push(items)?;
        rest = after;
    }
    Ok(((covers, named), rest))
}
