//! The lines of a linear program that is stuck.
ghost use Rattle.std.specs.Prelude.{◌≡◌, ◌++◌, ◌∷◌, [], ℕ, List, OnOk, codes, map, pos, replicate};
ghost use Rattle.zr_form.specs.Lines.{concat, spaced};
ghost use Rattle.zr_form.specs.Numbers.{decimal, signed};
ghost use Rattle.zr_report.specs.Spelling.{aim_line, basis_line, choice_line, choices_aim, column_count, move_line, numbers_line, question_lines, step_line, stuck_lines, wide_fields};
ghost use Rattle.zr_asked.specs.declared.question.Asked.TheVariants.{Branch, Choices};

use std::alloc::{AllocError, Global};
use zr_asked::{Asked, Move, Step, Stuck};
use zr_base::Wide;
use zr_game::Choice;
use zr_text::{put_direction, put_integer_field, put_natural_field};

/// Writes the lines of a question whose program is stuck at this basis.
pub(crate) fn put_question(
    alloc: Global,
    out: &mut Vec<u8>,
    question: &Asked,
    basis: &[u32],
) -> Result<(), AllocError>
    ensures { OnOk result (out.new.items ≡ out.old.items
        ++ concat (question_lines question.now basis.now)) }
{
    match question {
        Asked::Branch { player, path, aim } => put_branch(alloc, out, *player, path, aim),
        Asked::Choices { path } => put_choices(alloc, out, path, column_count(basis)),
    }
}

fn put_branch(
    alloc: Global,
    out: &mut Vec<u8>,
    player: u32,
    path: &Vec<Move>,
    aim: &Vec<i128>,
) -> Result<(), AllocError>
    ensures { (basis : List ℕ) → OnOk result (out.new.items ≡ out.old.items
        ++ concat (question_lines (Branch player path.now aim.now) basis)) }
{
    put_number(alloc, out, "question branch", u128::from(player))?;
    put_moves(alloc, out, path)?;
    put_aim(alloc, out, aim)?;
    Ok(())
}

fn put_aim(alloc: Global, out: &mut Vec<u8>, aim: &[i128]) -> Result<(), AllocError>
    ensures { OnOk result (out.new.items ≡ out.old.items ++ aim_line aim.now) }
{
    out.extend_from_slice(b"aim".as_slice())?;
    put_direction(alloc, out, aim)?;
    out.push(b'\n')?;
    Ok(())
}

fn put_choices(
    alloc: Global,
    out: &mut Vec<u8>,
    path: &Vec<Choice>,
    columns: usize,
) -> Result<(), AllocError>
    ensures { (basis : List ℕ) → columns ≡ column_count basis
        → OnOk result (out.new.items ≡ out.old.items
        ++ concat (question_lines (Choices path.now) basis)) }
{
    out.extend_from_slice(b"question choices\n".as_slice())?;
    put_choice_lines(alloc, out, path)?;
    put_choices_aim(alloc, out, columns)?;
    Ok(())
}

/// How many columns a program has before its slacks, by a basis.
fn column_count(basis: &[u32]) -> usize
    ensures { result ≡ column_count basis.now }
{
    let Some(value) = basis.last() else {
        return 0;
    };
    (*value as usize).saturating_sub(basis.len() - 1)
}

/// Writes the aim of a question of choices, with so many columns.
fn put_choices_aim(alloc: Global, out: &mut Vec<u8>, columns: usize) -> Result<(), AllocError>
    ensures { OnOk result (out.new.items ≡ out.old.items ++ aim_line (choices_aim columns)) }
{
    out.extend_from_slice(b"aim".as_slice())?;
    put_zeros(alloc, out, columns.saturating_sub(1))?;
    put_integer_field(alloc, out, -1)?;
    out.push(b'\n')?;
    Ok(())
}

/// Writes so many zeros.
fn put_zeros(alloc: Global, out: &mut Vec<u8>, count: usize) -> Result<(), AllocError>
    ensures { OnOk result (out.new.items ≡ out.old.items
        ++ spaced (map signed (replicate count (pos 0)))) }
{
    for _ in 0..count {
        put_integer_field(alloc, out, 0)?;
    }
    Ok(())
}

fn put_moves(alloc: Global, out: &mut Vec<u8>, path: &[Move]) -> Result<(), AllocError>
    ensures { OnOk result (out.new.items ≡ out.old.items ++ concat (map move_line path.now)) }
{
    for step in path {
        put_move(alloc, out, step)?;
    }
    Ok(())
}

fn put_move(alloc: Global, out: &mut Vec<u8>, step: &Move) -> Result<(), AllocError>
    ensures { OnOk result (out.new.items ≡ out.old.items ++ move_line step.now) }
{
    match step {
        Move::Low { var, at } => put_split(alloc, out, *var, *at, " low\n"),
        Move::High { var, at } => put_split(alloc, out, *var, *at, " high\n"),
        Move::VarZero { pair } => put_choose(alloc, out, *pair, " var\n"),
        Move::RowZero { pair } => put_choose(alloc, out, *pair, " row\n"),
    }
}

/// Writes a line of a split that ends so.
fn put_split(
    alloc: Global,
    out: &mut Vec<u8>,
    var: u32,
    at: i64,
    end: &str,
) -> Result<(), AllocError>
    ensures { OnOk result (out.new.items ≡ out.old.items
        ++ (codes "path split" ++ (32 ∷ decimal var) ++ (32 ∷ signed at) ++ end.now)) }
{
    out.extend_from_slice(b"path split".as_slice())?;
    put_natural_field(alloc, out, u128::from(var))?;
    put_integer_field(alloc, out, i128::from(at))?;
    out.extend_from_slice(end.as_bytes())?;
    Ok(())
}

/// Writes a line of a pair that ends so.
fn put_choose(alloc: Global, out: &mut Vec<u8>, pair: u32, end: &str) -> Result<(), AllocError>
    ensures { OnOk result (out.new.items ≡ out.old.items
        ++ (codes "path choose" ++ (32 ∷ decimal pair) ++ end.now)) }
{
    out.extend_from_slice(b"path choose".as_slice())?;
    put_natural_field(alloc, out, u128::from(pair))?;
    out.extend_from_slice(end.as_bytes())?;
    Ok(())
}

fn put_choice_lines(alloc: Global, out: &mut Vec<u8>, path: &[Choice]) -> Result<(), AllocError>
    ensures { OnOk result (out.new.items ≡ out.old.items ++ concat (map choice_line path.now)) }
{
    for choice in path {
        put_choice(alloc, out, choice)?;
    }
    Ok(())
}

fn put_choice(alloc: Global, out: &mut Vec<u8>, choice: &Choice) -> Result<(), AllocError>
    ensures { OnOk result (out.new.items ≡ out.old.items ++ choice_line choice.now) }
{
    match choice {
        Choice::On { player, leaf } => put_leaf_choice(alloc, out, "path on", *player, *leaf),
        Choice::Off { player, leaf } => put_leaf_choice(alloc, out, "path off", *player, *leaf),
        Choice::Which { player, leaf } => put_leaf_choice(alloc, out, "path which", *player, *leaf),
        Choice::Zero { player, leaf, slot } => {
            put_slot_choice(alloc, out, "path zero", *player, *leaf, *slot)
        }
        Choice::Tight { player, leaf, slot } => {
            put_slot_choice(alloc, out, "path tight", *player, *leaf, *slot)
        }
    }
}

/// Writes a line of a leaf that begins so.
fn put_leaf_choice(
    alloc: Global,
    out: &mut Vec<u8>,
    start: &str,
    player: u32,
    leaf: u32,
) -> Result<(), AllocError>
    ensures { OnOk result (out.new.items ≡ out.old.items
        ++ ((start.now ++ spaced (decimal player ∷ decimal leaf ∷ [])) ++ 10 ∷ [])) }
{
    out.extend_from_slice(start.as_bytes())?;
    put_natural_field(alloc, out, u128::from(player))?;
    put_natural_field(alloc, out, u128::from(leaf))?;
    out.push(b'\n')?;
    Ok(())
}

/// Writes a line of a slot that begins so.
fn put_slot_choice(
    alloc: Global,
    out: &mut Vec<u8>,
    start: &str,
    player: u32,
    leaf: u32,
    slot: u32,
) -> Result<(), AllocError>
    ensures { OnOk result (out.new.items ≡ out.old.items
        ++ ((start.now ++ spaced (decimal player ∷ decimal leaf ∷ decimal slot ∷ [])) ++ 10 ∷ [])) }
{
    out.extend_from_slice(start.as_bytes())?;
    put_natural_field(alloc, out, u128::from(player))?;
    put_natural_field(alloc, out, u128::from(leaf))?;
    put_natural_field(alloc, out, u128::from(slot))?;
    out.push(b'\n')?;
    Ok(())
}

/// Writes the lines of a basis, and of the step there that is too wide.
pub(crate) fn put_stuck(alloc: Global, out: &mut Vec<u8>, stuck: &Stuck) -> Result<(), AllocError>
    ensures { OnOk result (out.new.items ≡ out.old.items ++ concat (stuck_lines stuck.now)) }
{
    put_basis(alloc, out, &stuck.basis)?;
    put_step(alloc, out, stuck.step)?;
    put_numbers(alloc, out, &stuck.wide)?;
    Ok(())
}

fn put_basis(alloc: Global, out: &mut Vec<u8>, basis: &[u32]) -> Result<(), AllocError>
    ensures { OnOk result (out.new.items ≡ out.old.items ++ basis_line basis.now) }
{
    out.extend_from_slice(b"basis".as_slice())?;
    put_columns(alloc, out, basis)?;
    out.push(b'\n')?;
    Ok(())
}

fn put_numbers(alloc: Global, out: &mut Vec<u8>, wide: &Wide) -> Result<(), AllocError>
    ensures { OnOk result (out.new.items ≡ out.old.items ++ numbers_line wide.now) }
{
    out.extend_from_slice(b"numbers".as_slice())?;
    put_wide(alloc, out, wide)?;
    out.push(b'\n')?;
    Ok(())
}

fn put_columns(alloc: Global, out: &mut Vec<u8>, basis: &[u32]) -> Result<(), AllocError>
    ensures { OnOk result (out.new.items ≡ out.old.items ++ spaced (map decimal basis.now)) }
{
    for column in basis {
        put_natural_field(alloc, out, u128::from(*column))?;
    }
    Ok(())
}

fn put_step(alloc: Global, out: &mut Vec<u8>, step: Step) -> Result<(), AllocError>
    ensures { OnOk result (out.new.items ≡ out.old.items ++ step_line step) }
{
    match step {
        Step::Pivot {
            row,
            col,
            at_row,
            at_col,
        } => put_pivot(alloc, out, (row, col), (at_row, at_col)),
        Step::Point { row } => put_number(alloc, out, "step point", u128::from(row)),
        Step::Ray { row, col } => put_ray_step(alloc, out, row, col),
    }
}

fn put_pivot(
    alloc: Global,
    out: &mut Vec<u8>,
    pivot: (u32, u32),
    at: (u32, u32),
) -> Result<(), AllocError>
    ensures { OnOk result (out.new.items ≡ out.old.items
        ++ ((codes "step pivot" ++ spaced (decimal pivot.0 ∷ decimal pivot.1 ∷ decimal at.0
        ∷ decimal at.1 ∷ [])) ++ 10 ∷ [])) }
{
    out.extend_from_slice(b"step pivot".as_slice())?;
    put_places(alloc, out, pivot.0, pivot.1)?;
    put_places(alloc, out, at.0, at.1)?;
    out.push(b'\n')?;
    Ok(())
}

fn put_ray_step(alloc: Global, out: &mut Vec<u8>, row: u32, col: u32) -> Result<(), AllocError>
    ensures { OnOk result (out.new.items ≡ out.old.items
        ++ ((codes "step ray" ++ spaced (decimal row ∷ decimal col ∷ [])) ++ 10 ∷ [])) }
{
    out.extend_from_slice(b"step ray".as_slice())?;
    put_natural_field(alloc, out, u128::from(row))?;
    put_natural_field(alloc, out, u128::from(col))?;
    out.push(b'\n')?;
    Ok(())
}

/// Writes the numbers of a step.
pub(crate) fn put_wide(alloc: Global, out: &mut Vec<u8>, wide: &Wide) -> Result<(), AllocError>
    ensures { OnOk result (out.new.items ≡ out.old.items ++ spaced (wide_fields wide.now)) }
{
    put_pair(alloc, out, wide.left.0, wide.left.1)?;
    put_pair(alloc, out, wide.right.0, wide.right.1)?;
    Ok(())
}

/// Writes two numbers.
fn put_pair(alloc: Global, out: &mut Vec<u8>, first: i128, second: i128) -> Result<(), AllocError>
    ensures { OnOk result (out.new.items ≡ out.old.items
        ++ spaced (signed first ∷ signed second ∷ [])) }
{
    put_integer_field(alloc, out, first)?;
    put_integer_field(alloc, out, second)?;
    Ok(())
}

/// Writes two numbers from 0 on.
fn put_places(alloc: Global, out: &mut Vec<u8>, first: u32, second: u32) -> Result<(), AllocError>
    ensures { OnOk result (out.new.items ≡ out.old.items
        ++ spaced (decimal first ∷ decimal second ∷ [])) }
{
    put_natural_field(alloc, out, u128::from(first))?;
    put_natural_field(alloc, out, u128::from(second))?;
    Ok(())
}

/// Writes a line of a number that begins so.
pub(crate) fn put_number(
    alloc: Global,
    out: &mut Vec<u8>,
    start: &str,
    number: u128,
) -> Result<(), AllocError>
    ensures { OnOk result (out.new.items ≡ out.old.items
        ++ ((start.now ++ spaced (decimal number ∷ [])) ++ 10 ∷ [])) }
{
    out.extend_from_slice(start.as_bytes())?;
    put_natural_field(alloc, out, number)?;
    out.push(b'\n')?;
    Ok(())
}
