ghost use Rattle.std.specs.Prelude.{◌≡◌, ◌<◌, IfOk, false, codes, length};
ghost use Rattle.serde_json.specs.View.{view};
ghost use Rattle.zr_value.specs.Faults.{Reads};
ghost use Rattle.zr_value.specs.Values.{needed, part};
ghost use Rattle.zr_value.specs.Names.{is_among, new_name_in, known_in};

use crate::fault::{GameError, GameFault, at, missing, missing_item, numbered, placed};
use crate::values::read_name;
use indexmap::IndexSet;
use serde_json::Value;
use std::alloc::{AllocError, Global};
use std::marker::Model;

/// Different names by number: the first has number 0.
#[derive(Drop)]
pub struct Names<'v> {
    set: IndexSet<&'v str>,
}

impl<'v> Model for Names<'v> {
    ghost use Rattle.std.specs.Prelude.{ℕ, ◌<◌, ◌^◌, List, length, map};

    ghost Value = { List (List ℕ) };

    ghost view = { λ names. map (λ k. k.now) names.set.keys };

    ghost invariant = { λ names. length names.set.keys < 2 ^ 32 };
}

impl<'v> Names<'v> {
    ghost use Rattle.std.specs.Prelude.{◌≡◌, ◌<◌, ◌==◌, ◌++◌, ◌∷◌, [], false, length, position, bytes_eq, OnOk, IfSome};
    ghost use Rattle.zr_value.specs.Names.{is_among};

    /// No names.
    pub fn new(alloc: Global) -> Names<'v>
        ensures { result ≡ [] }
    {
        Names {
            set: IndexSet::new(alloc),
        }
    }

    /// Whether a name is among these.
    pub fn contains(&self, name: &str) -> bool
        ensures { result ≡ is_among self.now name.now }
    {
        self.set.contains(name)
    }

    /// The number of a name.
    pub fn number_of(&self, name: &str) -> Option<u32>
        ensures value { result ≡ position (bytes_eq name.now) self.now }
        ensures below { IfSome result (λ v. v < length self.now) }
    {
        let v = self.set.get_index_of(name)?;
        Some(v as u32)
    }

    /// How many names these are.
    pub fn len(&self) -> u32
        ensures { result ≡ length self.now }
    {
        self.set.len() as u32
    }

    /// Whether there is no name.
    pub fn is_empty(&self) -> bool
        ensures { result ≡ (length self.now == 0) }
    {
        self.set.is_empty()
    }

    /// Adds a name after those that there are, of which it is none. For more than 2^32 - 1 names
    /// there is no memory.
    pub fn push(&mut self, name: &'v str) -> Result<(), AllocError>
        requires { is_among self.old name.now ≡ false }
        ensures { OnOk result (self.new ≡ self.old ++ name.now ∷ []) }
    {
        if self.set.len() >= 0xffff_ffff {
            return Err(AllocError);
        }
        self.set.insert(name)?;
        Ok(())
    }
}

/// The players' names, and the names of each player's variables.
#[derive(Drop)]
pub struct Known<'v> {
    pub players: Names<'v>,
    pub variables: Vec<Names<'v>>,
    ghost same: { length players ≡ length variables.items },
}

/// A name that none of `before` is.
pub fn read_new_name<'v>(
    alloc: Global,
    value: &'v Value,
    before: &Names<'v>,
) -> Result<&'v str, GameError>
    ensures read { Reads (λ s. s.now) result (new_name_in before.now (view value.now)) }
    ensures new { IfOk result (λ s. is_among before.now s.now ≡ false) }
{
    let name = read_name(alloc, value)?;
    if before.contains(name) {
        Err(at(alloc, GameFault::Twice))
    } else {
        Ok(name)
    }
}

/// The member `name`, which none of `before` is.
pub fn read_name_member<'v>(
    alloc: Global,
    object: &'v Value,
    before: &Names<'v>,
) -> Result<&'v str, GameError>
    ensures read { Reads (λ s. s.now) result
        (needed (codes "name") (new_name_in before.now) (view object.now)) }
    ensures new { IfOk result (λ s. is_among before.now s.now ≡ false) }
{
    match object.get("name") {
        None => Err(missing(alloc, "name")),
        Some(value) => placed(alloc, "name", read_new_name(alloc, value, before)),
    }
}

/// The number of a name.
pub fn read_known(alloc: Global, value: &Value, names: &Names<'_>) -> Result<u32, GameError>
    ensures read { Reads (λ v. v) result (known_in names.now (view value.now)) }
    ensures below { IfOk result (λ v. v < length names.now) }
{
    let name = read_name(alloc, value)?;
    match names.number_of(name) {
        Some(v) => Ok(v),
        None => Err(at(alloc, GameFault::UnknownName)),
    }
}

/// Part k of a list, which is a name: its number.
pub fn read_known_part(
    alloc: Global,
    list: &Value,
    k: usize,
    names: &Names<'_>,
) -> Result<u32, GameError>
    ensures read { Reads (λ v. v) result (part k (known_in names.now) (view list.now)) }
    ensures below { IfOk result (λ v. v < length names.now) }
{
    match list.get(k) {
        None => Err(missing_item(alloc, k)),
        Some(value) => numbered(alloc, k, read_known(alloc, value, names)),
    }
}
