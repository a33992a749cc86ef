//! Reports on why there is no answer.
ghost use Rattle.std.specs.Prelude.{◌≡◌, ◌++◌, IfOk, OnOk, map};
ghost use Rattle.zr_cert.specs.Certs.{named_list};
ghost use Rattle.zr_cert.specs.Listed.{cert_of};
ghost use Rattle.zr_text.specs.Spelling.{text_of};
ghost use Rattle.zr_form.specs.Lines.{concat};
ghost use Rattle.zr_form.specs.Reading.{spell_from};
ghost use Rattle.zr_lines.specs.Spelling.{named_lines};
ghost use Rattle.zr_report.specs.Spelling.{report_text, stop_lines};
ghost use Rattle.zr_report.specs.declared.end.End.TheVariants as AnEnd;

use crate::end::End;
use crate::question::{put_number, put_question, put_stuck, put_wide};
use std::alloc::{AllocError, Global};
use zr_asked::AskedLp;
use zr_base::{NoMemory, Wide};
use zr_cert::Cert;
use zr_game::Named;
use zr_text::{put_direction, put_named, put_natural_field, write_cert};

/// The text that says why there is no answer (format `zero-report/1`). The call fails for want of
/// memory alone.
pub fn write_report(alloc: Global, end: &End) -> Result<Vec<u8>, NoMemory>
    ensures { IfOk result (λ bytes. bytes.items ≡ report_text end.now) }
{
    let mut out = Vec::new(alloc);
    put_report(alloc, &mut out, end).map_err(|_| NoMemory)?;
    Ok(out)
}

fn put_report(alloc: Global, out: &mut Vec<u8>, end: &End) -> Result<(), AllocError>
    ensures { OnOk result (out.new.items ≡ out.old.items ++ report_text end.now) }
{
    out.extend_from_slice(b"zero-report/1\n".as_slice())?;
    put_stop(alloc, out, end)?;
    out.extend_from_slice(b"end\n".as_slice())?;
    Ok(())
}

/// Writes the lines that say why.
fn put_stop(alloc: Global, out: &mut Vec<u8>, end: &End) -> Result<(), AllocError>
    ensures { OnOk result (out.new.items ≡ out.old.items ++ concat (stop_lines end.now)) }
{
    match end {
        End::Budget { limit } => put_budget(alloc, out, *limit),
        End::Stuck(asked) => put_asked(alloc, out, asked),
        End::Step(wide) => put_wide_step(alloc, out, wide),
        End::Certificate { line, cert } => put_certificate(alloc, out, *line, cert),
        End::Open {
            player,
            var,
            dir,
            named,
        } => put_open(alloc, out, (*player, *var), dir, named),
        End::Large { cells } => put_large(alloc, out, *cells),
        End::Long { bytes } => put_long(alloc, out, *bytes),
    }
}

fn put_budget(alloc: Global, out: &mut Vec<u8>, limit: u64) -> Result<(), AllocError>
    ensures { OnOk result (out.new.items ≡ out.old.items
        ++ concat (stop_lines (AnEnd.Budget limit))) }
{
    put_number(alloc, out, "stop budget", u128::from(limit))?;
    Ok(())
}

fn put_large(alloc: Global, out: &mut Vec<u8>, cells: u128) -> Result<(), AllocError>
    ensures { OnOk result (out.new.items ≡ out.old.items
        ++ concat (stop_lines (AnEnd.Large cells))) }
{
    put_number(alloc, out, "stop large", cells)?;
    Ok(())
}

fn put_long(alloc: Global, out: &mut Vec<u8>, bytes: u64) -> Result<(), AllocError>
    ensures { OnOk result (out.new.items ≡ out.old.items
        ++ concat (stop_lines (AnEnd.Long bytes))) }
{
    put_number(alloc, out, "stop long", u128::from(bytes))?;
    Ok(())
}

fn put_asked(alloc: Global, out: &mut Vec<u8>, asked: &AskedLp) -> Result<(), AllocError>
    ensures { OnOk result (out.new.items ≡ out.old.items
        ++ concat (stop_lines (AnEnd.Stuck asked.now))) }
{
    out.extend_from_slice(b"stop wide\n".as_slice())?;
    put_question(alloc, out, &asked.question, &asked.stuck.basis)?;
    put_stuck(alloc, out, &asked.stuck)?;
    Ok(())
}

fn put_wide_step(alloc: Global, out: &mut Vec<u8>, wide: &Wide) -> Result<(), AllocError>
    ensures { OnOk result (out.new.items ≡ out.old.items
        ++ concat (stop_lines (AnEnd.Step wide.now))) }
{
    out.extend_from_slice(b"stop step".as_slice())?;
    put_wide(alloc, out, wide)?;
    out.push(b'\n')?;
    Ok(())
}

fn put_certificate(
    alloc: Global,
    out: &mut Vec<u8>,
    line: u32,
    cert: &Cert,
) -> Result<(), AllocError>
    ensures { OnOk result (out.new.items ≡ out.old.items
        ++ concat (stop_lines (AnEnd.Certificate line cert.now))) }
{
    put_number(alloc, out, "stop certificate", u128::from(line))?;
    let text = cert_text(alloc, cert)?;
    out.extend_from_slice(text.as_slice())?;
    Ok(())
}

fn cert_text(alloc: Global, cert: &Cert) -> Result<Vec<u8>, AllocError>
    ensures { IfOk result (λ text. text.items ≡ text_of (cert_of cert.now)) }
{
    write_cert(alloc, cert).map_err(|_| AllocError)
}

fn put_open(
    alloc: Global,
    out: &mut Vec<u8>,
    at: (u32, u32),
    dir: &Vec<i128>,
    named: &Vec<Vec<Named>>,
) -> Result<(), AllocError>
    ensures { OnOk result (out.new.items ≡ out.old.items
        ++ concat (stop_lines (AnEnd.Open at.0 at.1 dir.now named.now))) }
{
    out.extend_from_slice(b"stop open".as_slice())?;
    put_natural_field(alloc, out, u128::from(at.0))?;
    put_natural_field(alloc, out, u128::from(at.1))?;
    put_direction(alloc, out, dir)?;
    out.push(b'\n')?;
    put_named_lists(alloc, out, named)
}

/// Writes the points and rays that are named, list after list.
fn put_named_lists(alloc: Global, out: &mut Vec<u8>, named: &[Vec<Named>]) -> Result<(), AllocError>
    ensures { OnOk result (out.new.items ≡ out.old.items
        ++ concat (spell_from (λ i items. named_lines items) 0 (map named_list named.now))) }
{
    for items in named {
        put_named(alloc, out, items)?;
    }
    Ok(())
}
