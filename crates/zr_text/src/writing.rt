//! Certificates are written line after line, each at the end of the text so far.

ghost use Rattle.std.specs.Prelude.{◌≡◌, ◌++◌, ◌∷◌, [], ℕ, IfOk, OnOk, codes, length, map};
ghost use Rattle.std.specs.List.{zip};
ghost use Rattle.zr_game.specs.Named.{named_of};
ghost use Rattle.zr_cases.specs.Cases.{rnode_of};
ghost use Rattle.zr_cert.specs.Forms.{IsVerdictForm};
ghost use Rattle.zr_mix.specs.Mixtures.{part_of};
ghost use Rattle.zr_tree.specs.Nodes.{node_of};
ghost use Rattle.zr_lines.specs.Spelling.{node_line, point_fields};
ghost use Rattle.zr_cert.specs.Certs.{CoverVerdict, ProfileVerdict, bound_of, mixture_of, named_list, nodes_of, verdict_of};
ghost use Rattle.zr_cert.specs.Listed.{cert_of};
ghost use Rattle.zr_form.specs.Lines.{concat, spaced};
ghost use Rattle.zr_form.specs.Numbers.{decimal, signed};
ghost use Rattle.zr_form.specs.Reading.{spell_from};
ghost use Rattle.zr_text.specs.Faults.{IsText};
ghost use Rattle.zr_text.specs.Spelling.{body_lines, bound_lines, cost_line, cover_line, cover_lines, empty_line, kind_line, part_line, player_line, profile_line, strategy_lines, text_of, verdict_line};

use crate::writing_lines::{
    put_boxes, put_cases, put_integer_field, put_named, put_natural_field, put_point, put_tree,
};
use std::alloc::{AllocError, Global};
use zr_base::{Frac, NoMemory};
use zr_cases::RNode;
use zr_cert::{Bound, Cert, Verdict};
use zr_game::{Kind, Named};
use zr_mix::{Part, Strategy};
use zr_tree::{Node, Tree};

/// The text of a certificate (format `zero-cert/1`).
///
/// Every certificate has one; the call fails for want of memory alone.
pub fn write_cert(alloc: Global, cert: &Cert) -> Result<Vec<u8>, NoMemory>
    ensures value { IfOk result (λ bytes. bytes.items ≡ text_of (cert_of cert.now)) }
    ensures text { IfOk result (λ bytes. IsText (cert_of cert.now) bytes.items) }
{
    let mut out = Vec::new(alloc);
    put_cert(alloc, &mut out, cert).map_err(|_| NoMemory)?;
    Ok(out)
}

/// Writes all lines.
fn put_cert(alloc: Global, out: &mut Vec<u8>, cert: &Cert) -> Result<(), AllocError>
    ensures { OnOk result (out.new.items ≡ out.old.items ++ text_of (cert_of cert.now)) }
{
    out.extend_from_slice(b"zero-cert/1\n".as_slice())?;
    put_kind(alloc, out, cert.kind, cert.players)?;
    put_verdict(alloc, out, &cert.verdict)?;
    out.extend_from_slice(b"end\n".as_slice())?;
    Ok(())
}

/// Writes the line of the kind and the number of players.
fn put_kind(alloc: Global, out: &mut Vec<u8>, kind: Kind, players: u32) -> Result<(), AllocError>
    ensures { OnOk result (out.new.items ≡ out.old.items ++ kind_line kind players) }
{
    match kind {
        Kind::Pure => out.extend_from_slice(b"kind pure".as_slice())?,
        Kind::Mixed => out.extend_from_slice(b"kind mixed".as_slice())?,
    }
    put_natural_field(alloc, out, u128::from(players))?;
    out.push(b'\n')?;
    Ok(())
}

/// Writes the verdict's line, and the lines of what shows it.
fn put_verdict(alloc: Global, out: &mut Vec<u8>, verdict: &Verdict) -> Result<(), AllocError>
    requires { (players : ℕ) × IsVerdictForm players (verdict_of verdict.now) }
    ensures { OnOk result (out.new.items ≡ out.old.items ++ concat (verdict_line (verdict_of verdict.now) ∷ body_lines (verdict_of verdict.now))) }
{
    match verdict {
        Verdict::Profile { profile, bounds } => {
            put_profile(alloc, out, &profile.strategies, bounds)
        }
        Verdict::NoneCover {
            covers,
            named,
            proof,
        } => put_cover_proof(alloc, out, covers, named, &proof.nodes),
        Verdict::NoneEmpty { player, tree } => put_empty(alloc, out, *player, &tree.nodes),
        Verdict::NoneBoxes { tree } => {
            out.extend_from_slice(b"verdict none boxes\n".as_slice())?;
            put_boxes(alloc, out, &tree.nodes)
        }
    }
}

/// Writes that the profile is an equilibrium, and what shows it.
fn put_profile(
    alloc: Global,
    out: &mut Vec<u8>,
    strategies: &[Strategy],
    bounds: &[Bound],
) -> Result<(), AllocError>
    ensures { OnOk result (out.new.items ≡ out.old.items ++ concat (profile_line ∷ body_lines (ProfileVerdict (map mixture_of strategies.now) (map bound_of bounds.now)))) }
{
    out.extend_from_slice(b"verdict profile\n".as_slice())?;
    put_strategies(alloc, out, strategies)?;
    put_bounds(alloc, out, bounds)
}

/// Writes that the player has no feasible point, and what shows it.
fn put_empty(
    alloc: Global,
    out: &mut Vec<u8>,
    player: u32,
    nodes: &[Node],
) -> Result<(), AllocError>
    ensures { OnOk result (out.new.items ≡ out.old.items ++ concat (empty_line player ∷ map node_line (map node_of nodes.now))) }
{
    out.extend_from_slice(b"verdict none empty".as_slice())?;
    put_natural_field(alloc, out, u128::from(player))?;
    out.push(b'\n')?;
    put_tree(alloc, out, nodes)
}

/// Writes that there is no equilibrium by covers and a refutation, and what shows it. There are as
/// many lists of named points and rays as covers.
fn put_cover_proof(
    alloc: Global,
    out: &mut Vec<u8>,
    covers: &[Tree],
    named: &[Vec<Named>],
    nodes: &[RNode],
) -> Result<(), AllocError>
    requires { length named.now ≡ length covers.now }
    ensures { OnOk result (out.new.items ≡ out.old.items ++ concat (cover_line ∷ body_lines (CoverVerdict (map nodes_of covers.now) (map named_list named.now) (map rnode_of nodes.now)))) }
{
    out.extend_from_slice(b"verdict none cover\n".as_slice())?;
    put_covers(alloc, out, covers, named)?;
    put_cases(alloc, out, nodes)
}

/// Writes the lines of all covers, each with those of its named points and rays.
fn put_covers(
    alloc: Global,
    out: &mut Vec<u8>,
    covers: &[Tree],
    named: &[Vec<Named>],
) -> Result<(), AllocError>
    requires { length named.now ≡ length covers.now }
    ensures { OnOk result (out.new.items ≡ out.old.items ++ concat (spell_from cover_lines 0 (zip (map nodes_of covers.now) (map named_list named.now)))) }
{
    for i in 0..covers.len() {
        put_cover(alloc, out, &covers[i], &named[i])?;
    }
    Ok(())
}

/// Writes the lines of a cover and of its named points and rays.
fn put_cover(
    alloc: Global,
    out: &mut Vec<u8>,
    cover: &Tree,
    items: &[Named],
) -> Result<(), AllocError>
    ensures { (i : ℕ) → OnOk result (out.new.items ≡ out.old.items ++ concat (cover_lines i (nodes_of cover.now, map named_of items.now))) }
{
    put_tree(alloc, out, &cover.nodes)?;
    put_named(alloc, out, items)
}

/// Writes the lines of all strategies.
fn put_strategies(
    alloc: Global,
    out: &mut Vec<u8>,
    strategies: &[Strategy],
) -> Result<(), AllocError>
    ensures { OnOk result (out.new.items ≡ out.old.items ++ concat (spell_from strategy_lines 0 (map mixture_of strategies.now))) }
{
    for (i, strategy) in strategies.iter().enumerate() {
        put_strategy(alloc, out, i, strategy)?;
    }
    Ok(())
}

/// Writes the lines of player `i`'s strategy.
fn put_strategy(
    alloc: Global,
    out: &mut Vec<u8>,
    i: usize,
    strategy: &Strategy,
) -> Result<(), AllocError>
    ensures { OnOk result (out.new.items ≡ out.old.items ++ concat (strategy_lines i (mixture_of strategy.now))) }
{
    put_player(alloc, out, i, strategy.total, strategy.parts.len())?;
    put_parts(alloc, out, &strategy.parts)
}

/// Writes the line of player `i`'s total and number of parts.
fn put_player(
    alloc: Global,
    out: &mut Vec<u8>,
    i: usize,
    total: i128,
    count: usize,
) -> Result<(), AllocError>
    ensures { OnOk result (out.new.items ≡ out.old.items ++ player_line i total count) }
{
    out.extend_from_slice(b"player".as_slice())?;
    put_natural_field(alloc, out, i as u128)?;
    put_total(alloc, out, total)?;
    put_count(alloc, out, count)?;
    out.push(b'\n')?;
    Ok(())
}

fn put_total(alloc: Global, out: &mut Vec<u8>, total: i128) -> Result<(), AllocError>
    ensures { OnOk result (out.new.items ≡ out.old.items ++ spaced (codes "total" ∷ signed total ∷ [])) }
{
    out.extend_from_slice(b" total".as_slice())?;
    put_integer_field(alloc, out, total)
}

fn put_count(alloc: Global, out: &mut Vec<u8>, count: usize) -> Result<(), AllocError>
    ensures { OnOk result (out.new.items ≡ out.old.items ++ spaced (codes "parts" ∷ decimal count ∷ [])) }
{
    out.extend_from_slice(b" parts".as_slice())?;
    put_natural_field(alloc, out, count as u128)
}

/// Writes the lines of a strategy's parts.
fn put_parts(alloc: Global, out: &mut Vec<u8>, parts: &[Part]) -> Result<(), AllocError>
    ensures { OnOk result (out.new.items ≡ out.old.items ++ concat (map part_line (map part_of parts.now))) }
{
    for part in parts {
        put_part(alloc, out, part)?;
    }
    Ok(())
}

fn put_part(alloc: Global, out: &mut Vec<u8>, part: &Part) -> Result<(), AllocError>
    ensures { OnOk result (out.new.items ≡ out.old.items ++ part_line (part_of part.now)) }
{
    out.extend_from_slice(b"part".as_slice())?;
    put_integer_field(alloc, out, part.weight)?;
    put_point(alloc, out, &part.point)?;
    out.push(b'\n')?;
    Ok(())
}

/// Writes the lines of all bounds.
fn put_bounds(alloc: Global, out: &mut Vec<u8>, bounds: &[Bound]) -> Result<(), AllocError>
    ensures { OnOk result (out.new.items ≡ out.old.items ++ concat (spell_from bound_lines 0 (map bound_of bounds.now))) }
{
    for (i, bound) in bounds.iter().enumerate() {
        put_bound(alloc, out, i, bound)?;
    }
    Ok(())
}

/// Writes the lines of player `i`'s bound.
fn put_bound(alloc: Global, out: &mut Vec<u8>, i: usize, bound: &Bound) -> Result<(), AllocError>
    ensures { OnOk result (out.new.items ≡ out.old.items ++ concat (bound_lines i (bound_of bound.now))) }
{
    put_cost(alloc, out, i, bound.cost)?;
    put_tree(alloc, out, &bound.tree.nodes)
}

/// Writes the line of player `i`'s cost.
fn put_cost(alloc: Global, out: &mut Vec<u8>, i: usize, cost: Frac) -> Result<(), AllocError>
    ensures { OnOk result (out.new.items ≡ out.old.items ++ cost_line i cost) }
{
    out.extend_from_slice(b"cost".as_slice())?;
    put_natural_field(alloc, out, i as u128)?;
    put_integer_field(alloc, out, cost.num())?;
    put_integer_field(alloc, out, cost.den())?;
    out.push(b'\n')?;
    Ok(())
}
