//! Whether a line is that of a tree's node where numbers have no upper bounds. No memory is taken.

ghost use Rattle.std.specs.Prelude.{◌≡◌, ◌^◌, ◌<◌, false, is_some, length, option_copied};
ghost use Rattle.zr_form.specs.Code.{left_of};
ghost use Rattle.zr_form.specs.Lines.{fields_of};
ghost use Rattle.zr_lines.specs.Reader.{node_at, node_rest};
ghost use Rattle.zr_lines.specs.declared.ends.Ends.{Ends as TheEnds};
ghost use Rattle.zr_lines.specs.declared.words.NodeWord.TheVariants as word;

use crate::ends::Ends;
use crate::field::ended;
use crate::loose_field::{after_at, after_natural, after_scale, spelled_natural};
use crate::loose_multipliers::are_counted;
use crate::loose_point::is_point;
use crate::words::{NodeWord, node_word};
use zr_form::next_field;

/// Whether it is the line of a node, in a tree with such ends.
pub(crate) fn is_node(line: &[u8], ends: Ends) -> bool
    ensures { result ≡ is_some (node_at false ends (fields_of line.now)) }
{
    let (field, rest) = next_field(line);
    let Some(word) = node_word(field) else {
        return false;
    };
    match word {
        NodeWord::Split => is_split(rest),
        NodeWord::Choose => is_choice(rest),
        NodeWord::Leaf => is_leaf(rest, ends),
        NodeWord::Known => is_known(rest, ends),
        NodeWord::Loose => is_loose(rest, ends),
    }
}

#[tactic(auto, unfolding(crate::specs::Reader::node_rest))]
fn is_split(left: Option<&[u8]>) -> bool
    ensures { (ends : TheEnds) → result ≡ is_some (node_rest false ends word.Split (left_of (option_copied left.entry))) }
{
    let Some(rest) = after_natural(left) else {
        return false;
    };
    let Some(rest) = after_at(rest) else {
        return false;
    };
    ended(rest).is_some()
}

#[tactic(auto, unfolding(crate::specs::Reader::node_rest))]
fn is_choice(left: Option<&[u8]>) -> bool
    ensures { (ends : TheEnds) → result ≡ is_some (node_rest false ends word.Choose (left_of (option_copied left.entry))) }
{
    let Some(rest) = after_natural(left) else {
        return false;
    };
    ended(rest).is_some()
}

#[tactic(auto, unfolding(crate::specs::Reader::node_rest))]
fn is_leaf(left: Option<&[u8]>, ends: Ends) -> bool
    requires { length (left_of (option_copied left)) < 2 ^ 64 }
    ensures { result ≡ is_some (node_rest false ends word.Leaf (left_of (option_copied left.entry))) }
{
    let Some(rest) = after_scale(left, ends.are_refuted()) else {
        return false;
    };
    let Some((count, rest)) = spelled_natural(rest) else {
        return false;
    };
    are_counted(rest, count)
}

#[tactic(auto, unfolding(crate::specs::Reader::node_rest))]
fn is_known(left: Option<&[u8]>, ends: Ends) -> bool
    requires { length (left_of (option_copied left)) < 2 ^ 64 }
    ensures { result ≡ is_some (node_rest false ends word.Known (left_of (option_copied left.entry))) }
{
    is_point(left) && ends.are_covered()
}

#[tactic(auto, unfolding(crate::specs::Reader::node_rest))]
fn is_loose(left: Option<&[u8]>, ends: Ends) -> bool
    ensures { result ≡ is_some (node_rest false ends word.Loose (left_of (option_copied left.entry))) }
{
    ended(left).is_some() && ends.are_covered()
}
