//! Best answers are written player after player.
ghost use Rattle.std.specs.Prelude.{◌≡◌, ◌++◌, IfOk, OnOk};
ghost use Rattle.zr_form.specs.Lines.{concat};
ghost use Rattle.zr_form.specs.Reading.{spell_from};
ghost use Rattle.zr_report.specs.Spelling.{answer_lines, best_text, least_line};
ghost use Rattle.zr_report.specs.declared.answer.Answer.TheVariants.{Below, Least};

use crate::answer::Answer;
use std::alloc::{AllocError, Global};
use zr_base::{Frac, NoMemory, Point};
use zr_text::{put_direction, put_integer_field, put_natural_field, put_point, put_tree};
use zr_tree::Tree;

/// The text of the players' best answers, in their order (format `zero-best/1`). The call fails for
/// want of memory alone.
pub fn write_best(alloc: Global, answers: &[Answer]) -> Result<Vec<u8>, NoMemory>
    ensures { IfOk result (λ bytes. bytes.items ≡ best_text answers.now) }
{
    let mut out = Vec::new(alloc);
    put_best(alloc, &mut out, answers).map_err(|_| NoMemory)?;
    Ok(out)
}

fn put_best(alloc: Global, out: &mut Vec<u8>, answers: &[Answer]) -> Result<(), AllocError>
    ensures { OnOk result (out.new.items ≡ out.old.items ++ best_text answers.now) }
{
    out.extend_from_slice(b"zero-best/1\n".as_slice())?;
    put_answers(alloc, out, answers)?;
    out.extend_from_slice(b"end\n".as_slice())?;
    Ok(())
}

/// Writes the lines of all players' answers.
fn put_answers(alloc: Global, out: &mut Vec<u8>, answers: &[Answer]) -> Result<(), AllocError>
    ensures { OnOk result (out.new.items ≡ out.old.items
        ++ concat (spell_from answer_lines 0 answers.now)) }
{
    for (i, answer) in answers.iter().enumerate() {
        put_answer(alloc, out, i, answer)?;
    }
    Ok(())
}

/// Writes the lines of player `i`'s answer.
fn put_answer(alloc: Global, out: &mut Vec<u8>, i: usize, answer: &Answer) -> Result<(), AllocError>
    ensures { OnOk result (out.new.items ≡ out.old.items ++ concat (answer_lines i answer.now)) }
{
    match answer {
        Answer::Least { cost, tree } => put_least(alloc, out, i, *cost, tree),
        Answer::Below { base, dir } => put_below(alloc, out, i, base, dir),
    }
}

fn put_least(
    alloc: Global,
    out: &mut Vec<u8>,
    i: usize,
    cost: Frac,
    tree: &Tree,
) -> Result<(), AllocError>
    ensures { OnOk result (out.new.items ≡ out.old.items
        ++ concat (answer_lines i (Least cost tree.now))) }
{
    put_cost(alloc, out, i, cost)?;
    put_tree(alloc, out, &tree.nodes)
}

/// Writes the line of player `i`'s least cost.
fn put_cost(alloc: Global, out: &mut Vec<u8>, i: usize, cost: Frac) -> Result<(), AllocError>
    ensures { OnOk result (out.new.items ≡ out.old.items ++ least_line i cost) }
{
    out.extend_from_slice(b"least".as_slice())?;
    put_natural_field(alloc, out, i as u128)?;
    put_integer_field(alloc, out, cost.num())?;
    put_integer_field(alloc, out, cost.den())?;
    out.push(b'\n')?;
    Ok(())
}

fn put_below(
    alloc: Global,
    out: &mut Vec<u8>,
    i: usize,
    base: &Point,
    dir: &Vec<i128>,
) -> Result<(), AllocError>
    ensures { OnOk result (out.new.items ≡ out.old.items
        ++ concat (answer_lines i (Below base.now dir.now))) }
{
    out.extend_from_slice(b"below".as_slice())?;
    put_natural_field(alloc, out, i as u128)?;
    put_point(alloc, out, base)?;
    put_direction(alloc, out, dir)?;
    out.push(b'\n')?;
    Ok(())
}
