//! Certificates, line after line.

ghost use Rattle.std.specs.Prelude.{◌≡◌, ◌^◌, ◌-◌, ◌<◌, ◌≤◌, ◌==◌, ℕ, suc, length, take, true, false, codes, IfOk, IfErr};
ghost use Rattle.std.specs.List.{count_by};
ghost use Rattle.zr_cert.specs.Certs.{CertOf, verdict_of};
ghost use Rattle.zr_cert.specs.Listed.{cert_of};
ghost use Rattle.zr_form.specs.Lines.{by_fields, lines_of};
ghost use Rattle.zr_form.specs.Reading.{one_read};
ghost use Rattle.zr_form.specs.Stops.{Gives};
ghost use Rattle.zr_text.specs.Code.{GivesThis};
ghost use Rattle.zr_text.specs.Faults.{IsText, IsTextFault};
ghost use Rattle.zr_text.specs.Reader.{OfBoxes, OfCover, OfEmpty, OfProfile, body_read, cert_read, verdict_read, word_at};

use crate::bound::take_bounds;
use crate::cover::take_covers;
use crate::fault::TextError;
use crate::heading::{VerdictLine, take_kind, take_verdict_line, take_word};
use crate::strategy::take_strategies;
use std::alloc::Global;
use zr_cert::{Cert, Verdict, count_leaves};
use zr_form::ReadError;
use zr_lines::{Ends, take_box_tree, take_refutation, take_tree};
use zr_mix::Profile;

/// What follows the last line.
fn take_end(bytes: &[u8]) -> Result<&[u8], ReadError>
    ensures { GivesThis (codes "end") result (one_read (by_fields (word_at (codes "end"))) (lines_of bytes.now)) }
{
    take_word(bytes, b"end".as_slice())
}

/// The profile and its bounds, up to the last line, and what follows it.
fn take_profile(alloc: Global, bytes: &[u8], players: u32) -> Result<(Verdict, &[u8]), ReadError>
    requires { length bytes.now < 2 ^ 32 }
    ensures { Gives verdict_of result (body_read true players OfProfile (lines_of bytes.now)) (body_read false players OfProfile (lines_of bytes.now)) }
{
    let (strategies, rest) = take_strategies(alloc, bytes, players)?;
    let (bounds, rest) = take_bounds(alloc, rest, players)?;
    let rest = take_end(rest)?;
    let profile = Profile { strategies };
    Ok((Verdict::Profile { profile, bounds }, rest))
}

/// The tree that shows that the player has no feasible point, up to the last line, and what
/// follows it.
fn take_empty(alloc: Global, bytes: &[u8], player: u32) -> Result<(Verdict, &[u8]), ReadError>
    requires { length bytes.now < 2 ^ 32 }
    ensures { (players : ℕ) → Gives verdict_of result (body_read true players (OfEmpty player) (lines_of bytes.now)) (body_read false players (OfEmpty player) (lines_of bytes.now)) }
{
    let (tree, rest) = take_tree(alloc, bytes, Ends::Refuted)?;
    let rest = take_end(rest)?;
    Ok((Verdict::NoneEmpty { player, tree }, rest))
}

/// The covers with their named points and rays and the refutation over them, up to the last line,
/// and what follows it.
fn take_cover_proof(
    alloc: Global,
    bytes: &[u8],
    players: u32,
) -> Result<(Verdict, &[u8]), ReadError>
    requires { length bytes.now < 2 ^ 32 }
    ensures { Gives verdict_of result (body_read true players OfCover (lines_of bytes.now)) (body_read false players OfCover (lines_of bytes.now)) }
{
    let ((covers, named), rest) = take_covers(alloc, bytes, players)?;
    let mut leaves = vec![in alloc; 0; covers.len()]?;
    count_leaves(&covers, &mut leaves);
    let (proof, rest) = take_refutation(alloc, rest, &leaves)?;
    let rest = take_end(rest)?;
    Ok((
        Verdict::NoneCover {
            covers,
            named,
            proof,
        },
        rest,
    ))
}

/// The box tree, up to the last line, and what follows it.
fn take_boxes(alloc: Global, bytes: &[u8]) -> Result<(Verdict, &[u8]), ReadError>
    requires { length bytes.now < 2 ^ 32 }
    ensures { (players : ℕ) → Gives verdict_of result (body_read true players OfBoxes (lines_of bytes.now)) (body_read false players OfBoxes (lines_of bytes.now)) }
{
    let (tree, rest) = take_box_tree(alloc, bytes)?;
    let rest = take_end(rest)?;
    Ok((Verdict::NoneBoxes { tree }, rest))
}

/// The verdict, up to the last line, and what follows it.
fn take_verdict(alloc: Global, bytes: &[u8], players: u32) -> Result<(Verdict, &[u8]), ReadError>
    requires { length bytes.now < 2 ^ 32 }
    ensures { Gives verdict_of result (verdict_read true players (lines_of bytes.now)) (verdict_read false players (lines_of bytes.now)) }
{
    let (said, rest) = take_verdict_line(bytes)?;
    match said {
        VerdictLine::Profile => take_profile(alloc, rest, players),
        VerdictLine::Cover => take_cover_proof(alloc, rest, players),
        VerdictLine::Empty { player } => take_empty(alloc, rest, player),
        VerdictLine::Boxes => take_boxes(alloc, rest),
    }
}

/// The certificate, up to its last line, and what follows it.
fn take_cert(alloc: Global, bytes: &[u8]) -> Result<(Cert, &[u8]), ReadError>
    requires { length bytes.now < 2 ^ 32 }
    ensures { Gives cert_of result (cert_read true (lines_of bytes.now)) (cert_read false (lines_of bytes.now)) }
{
    let rest = take_word(bytes, b"zero-cert/1".as_slice())?;
    let ((kind, players), rest) = take_kind(rest)?;
    let (verdict, rest) = take_verdict(alloc, rest, players)?;
    match Cert::new(kind, players, verdict) {
        Ok(cert) => Ok((cert, rest)),
        Err(_) => unreachable!(),
    }
}

/// The number of the line that begins where so many bytes are left. Lines are counted from 1.
fn line_number(bytes: &[u8], left: usize) -> u32
    requires within { left ≤ length bytes.now }
    requires few { count_by (λ b. b == 10) (take (length bytes.now - left) bytes.now) < 2 ^ 32 - 1 }
    ensures { result ≡ suc (count_by (λ b. b == 10) (take (length bytes.now - left) bytes.now)) }
{
    let before = &bytes[..bytes.len() - left];
    let feeds = before.iter().filter(|b| **b == b'\n').count();
    feeds as u32 + 1
}

/// The certificate whose text the bytes are. There are fewer than 2^32 of them.
///
/// Bytes that are no certificate's text have one fault, by which they are refused: the first line
/// that isn't in the form, and whether the size of a number alone is at fault there. Apart from
/// these, `NoMemory` comes where memory runs out.
pub fn read_cert(alloc: Global, bytes: &[u8]) -> Result<Cert, TextError>
    requires { length bytes.now < 2 ^ 32 }
    ensures ok { IfOk result (λ cert. IsText (cert_of cert) bytes.now) }
    ensures err { IfErr result (IsTextFault bytes.now) }
    ensures only { (c : CertOf) → IsText c bytes.now → IfErr result (λ fault. fault ≡ TextError.NoMemory) }
{
    match take_cert(alloc, bytes) {
        Ok((cert, rest)) => {
            if rest.is_empty() {
                Ok(cert)
            } else {
                Err(TextError::NotCert(line_number(bytes, rest.len())))
            }
        }
        Err(ReadError::NoMemory) => Err(TextError::NoMemory),
        Err(ReadError::Form(left)) => Err(TextError::NotCert(line_number(bytes, left))),
        Err(ReadError::Number(left)) => Err(TextError::NumberTooBig(line_number(bytes, left))),
    }
}
