ghost use Rattle.std.specs.Prelude.{◌≡◌, [], filter, map, IfOk};
ghost use Rattle.serde_json.specs.View.{view};
ghost use Rattle.zr_value.specs.Faults.{Reads};
ghost use Rattle.zr_value.specs.Values.{part, each};
ghost use Rattle.zr_value.specs.Terms.{term_variable_in, add_term, is_term, opposite, terms_in};
ghost use Rattle.std.specs.List.{All};
ghost use Rattle.zr_game.specs.Forms.{IsNumber};

use crate::fault::{GameError, GameFault, at, missing_item, numbered};
use crate::names::{Names, read_known};
use crate::values::{read_items, read_number_part, read_tuple};
use serde_json::Value;
use smallvec::SmallVec;
use std::alloc::{AllocError, Global};
use std::collections::BTreeMap;

/// A variable that has no number yet.
fn read_new_variable(
    alloc: Global,
    value: &Value,
    names: &Names<'_>,
    so_far: &BTreeMap<u32, i64>,
) -> Result<u32, GameError>
    ensures { Reads (λ v. v) result
        (term_variable_in names.now so_far.now.entries (view value.now)) }
{
    let v = read_known(alloc, value, names)?;
    if so_far.contains_key(&v) {
        Err(at(alloc, GameFault::Twice))
    } else {
        Ok(v)
    }
}

/// The variable of a term.
fn read_term_variable(
    alloc: Global,
    value: &Value,
    names: &Names<'_>,
    so_far: &BTreeMap<u32, i64>,
) -> Result<u32, GameError>
    ensures { Reads (λ v. v) result
        (part 0 (term_variable_in names.now so_far.now.entries) (view value.now)) }
{
    match value.get(0usize) {
        None => Err(missing_item(alloc, 0)),
        Some(v) => numbered(alloc, 0, read_new_variable(alloc, v, names, so_far)),
    }
}

/// Adds a term to those so far.
fn add_term(
    alloc: Global,
    so_far: &mut BTreeMap<u32, i64>,
    names: &Names<'_>,
    value: &Value,
) -> Result<(), GameError>
    ensures { Reads (λ _. so_far.new.entries) result
        (add_term names.now so_far.old.entries (view value.now)) }
{
    read_tuple(alloc, value, 2)?;
    let v = read_term_variable(alloc, value, names, so_far)?;
    let z = read_number_part(alloc, value, 1)?;
    so_far.insert(v, z)?;
    Ok(())
}

/// All terms of the items of a list.
fn read_each_term(
    alloc: Global,
    items: &[Value],
    names: &Names<'_>,
) -> Result<BTreeMap<u32, i64>, GameError>
    ensures { Reads (λ m. m.entries) result
        (each (add_term names.now) 0 [] (map view items.now)) }
{
    let mut all = BTreeMap::new(alloc);
    for (i, item) in items.iter().enumerate() {
        let added = add_term(alloc, &mut all, names, item);
        if let Err(e) = numbered(alloc, i, added) {
            return Err(e);
        }
    }
    Ok(all)
}

/// The terms whose number isn't 0.
fn without_zeros(
    alloc: Global,
    all: BTreeMap<u32, i64>,
) -> Result<SmallVec<(u32, i64), 8>, AllocError>
    ensures { IfOk result (λ kept. kept.items ≡ filter is_term all.entries) }
{
    let mut kept = SmallVec::new(alloc);
    for (v, z) in all {
        if z != 0 {
            kept.push((v, z))?;
        }
    }
    Ok(kept)
}

/// The terms of a list.
pub fn read_terms(
    alloc: Global,
    value: &Value,
    names: &Names<'_>,
) -> Result<SmallVec<(u32, i64), 8>, GameError>
    ensures read { Reads (λ v. v.items) result (terms_in names.now (view value.now)) }
    ensures numbers { IfOk result (λ v. All (λ t. IsNumber t.1) v.items) }
{
    let items = read_items(alloc, value)?;
    let all = read_each_term(alloc, items, names)?;
    Ok(without_zeros(alloc, all)?)
}

/// The terms with the other sign.
pub fn opposite_terms(
    alloc: Global,
    terms: &[(u32, i64)],
) -> Result<SmallVec<(u32, i64), 8>, AllocError>
    requires { All (λ t. IsNumber t.1) terms.now }
    ensures { IfOk result (λ made. made.items ≡ opposite terms.now) }
{
    let mut made = SmallVec::new(alloc);
    for (v, z) in terms {
        made.push((*v, -*z))?;
    }
    Ok(made)
}
