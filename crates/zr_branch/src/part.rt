ghost use Rattle.std.specs.Prelude.{◌≡◌, ◌++◌, IfOk, OnOk, map};
ghost use Rattle.zr_game.specs.Players.{var_of};
ghost use Rattle.zr_asked.specs.Parts.{is_from_zero, parts_of};
ghost use Rattle.zr_branch.specs.Columns.{own_parts, part_of};

use std::alloc::{AllocError, Global};
use zr_game::Var;

/// A column of a branch's program: the positive part of a variable, or its negative part.
#[derive(Clone, Copy)]
pub(crate) struct Part {
    pub(crate) var: usize,
    pub(crate) negative: bool,
}

/// The columns of the variables, in order: one where the lower bound is at least 0, and else two.
pub(crate) fn parts_of(alloc: Global, vars: &[Var]) -> Result<Vec<Part>, AllocError>
    ensures { IfOk result (λ parts. map part_of parts.items ≡ parts_of (map var_of vars.now)) }
{
    let mut parts = Vec::new(alloc);
    for (v, var) in vars.iter().enumerate() {
        add_parts(&mut parts, v, var)?;
    }
    Ok(parts)
}

fn add_parts(parts: &mut Vec<Part>, v: usize, var: &Var) -> Result<(), AllocError>
    ensures { OnOk result (parts.new.items
        ≡ parts.old.items ++ own_parts v (is_from_zero var.now.low)) }
{
    parts.push(Part {
        var: v,
        negative: false,
    })?;
    if !is_from_zero(var) {
        parts.push(Part {
            var: v,
            negative: true,
        })?;
    }
    Ok(())
}

/// Whether the variable has a lower bound of at least 0.
pub(crate) fn is_from_zero(var: &Var) -> bool
    ensures { result ≡ is_from_zero var.now.low }
{
    match var.low {
        None => false,
        Some(low) => 0 <= low,
    }
}
