ghost use Rattle.std.specs.Prelude.{◌≡◌, ◌∷◌, [], string_bytes, decimal};
ghost use Rattle.zr_value.specs.Faults.{Placed, IsAt, fault_name};

use std::alloc::{AllocError, AllocFailed, Global};
use std::fmt;

/// What may be wrong with the text of a game.
#[derive(Clone, Copy, Debug, PartialEq, Eq)]
pub enum GameFault {
    /// The text is no JSON.
    NotJson,
    /// The text of `format` is another.
    Format,
    /// A member that is needed isn't there.
    Missing,
    /// A value of another JSON kind, or a list of another length than its items' meanings ask.
    Kind,
    /// A number that isn't written as a whole number of at most 64 bits.
    NotWhole,
    /// A whole number outside its range.
    TooBig,
    /// A name that isn't 1 to 32 letters, digits or `_`.
    BadName,
    /// A name that is given again, a term for what has one already, or a second right side of a
    /// row.
    Twice,
    /// A name that isn't given.
    UnknownName,
    /// A pair whose variable has another lower bound than 0.
    PairLow,
    /// A cross term that names the player itself, or a follower's own variable; a term in the
    /// others' variables that names the player itself, or one of the others twice.
    OwnCross,
    /// A list with fewer or more items than the limits allow, or that makes more of them.
    Count,
}

impl GameFault {
    /// The name of the fault.
    pub fn name(self) -> &'static str
        ensures { result.now ≡ fault_name self }
    {
        match self {
            GameFault::NotJson => "NotJson",
            GameFault::Format => "Format",
            GameFault::Missing => "Missing",
            GameFault::Kind => "Kind",
            GameFault::NotWhole => "NotWhole",
            GameFault::TooBig => "TooBig",
            GameFault::BadName => "BadName",
            GameFault::Twice => "Twice",
            GameFault::UnknownName => "UnknownName",
            GameFault::PairLow => "PairLow",
            GameFault::OwnCross => "OwnCross",
            GameFault::Count => "Count",
        }
    }
}

impl fmt::Display for GameFault {
    ghost use Rattle.std.specs.Prelude.{Some};
    ghost use Rattle.zr_value.specs.Faults.{fault_name};

    ghost output = { λ fault. Some (fault_name fault) };

    fn fmt<W: fmt::Write>(&self, f: &mut fmt::Formatter<W>) -> fmt::Result {
        f.write_str(self.name())
    }
}

/// Why a game was not read.
#[derive(Debug, PartialEq, Eq, Drop)]
pub enum GameError {
    /// The first fault, and the JSON pointer of the value at fault: for a member that is missing,
    /// of where it would be. For NotJson it is empty.
    At { fault: GameFault, path: String },
    /// Memory ran out.
    NoMemory,
}

impl From<AllocError> for GameError {
    ghost use Rattle.std.specs.Prelude.{◌≡◌};
    ghost use Rattle.zr_value.specs.declared.fault.GameError.TheVariants.{NoMemory};

    ghost from_gives = { λ _ e. e ≡ NoMemory };

    fn from(_failed: AllocError) -> GameError {
        GameError::NoMemory
    }
}

impl<T: Drop> From<AllocFailed<T>> for GameError {
    ghost use Rattle.std.specs.Prelude.{◌≡◌};
    ghost use Rattle.zr_value.specs.declared.fault.GameError.TheVariants.{NoMemory};

    ghost from_gives = { λ _ e. e ≡ NoMemory };

    fn from(_failed: AllocFailed<T>) -> GameError {
        GameError::NoMemory
    }
}

/// A fault of the value itself.
pub fn at(alloc: Global, fault: GameFault) -> GameError
    ensures { (path : _) × (result ≡ GameError.At fault path) × (string_bytes path ≡ []) }
{
    GameError::At {
        fault,
        path: String::new(alloc),
    }
}

/// A member that is needed and isn't there.
pub fn missing(alloc: Global, name: &str) -> GameError
    ensures { IsAt GameFault.Missing (47 ∷ name.now) result }
{
    match format!(in alloc; "/{name}") {
        Ok(path) => GameError::At {
            fault: GameFault::Missing,
            path,
        },
        Err(_) => GameError::NoMemory,
    }
}

/// An item that is needed and isn't there.
pub fn missing_item(alloc: Global, i: usize) -> GameError
    ensures { IsAt GameFault.Missing (47 ∷ decimal i) result }
{
    match format!(in alloc; "/{i}") {
        Ok(path) => GameError::At {
            fault: GameFault::Missing,
            path,
        },
        Err(_) => GameError::NoMemory,
    }
}

/// The error of a value that stands at a name of an object.
pub fn placed<T>(alloc: Global, name: &str, read: Result<T, GameError>) -> Result<T, GameError>
    ensures { Placed name.now read result }
{
    match read {
        Ok(x) => Ok(x),
        Err(GameError::At { fault, path }) => {
            let path = format!(in alloc; "/{name}{path}")?;
            Err(GameError::At { fault, path })
        }
        Err(e) => Err(e),
    }
}

/// The error of a value that stands at a number of a list.
pub fn numbered<T>(alloc: Global, i: usize, read: Result<T, GameError>) -> Result<T, GameError>
    ensures { Placed (decimal i) read result }
{
    match read {
        Ok(x) => Ok(x),
        Err(GameError::At { fault, path }) => {
            let path = format!(in alloc; "/{i}{path}")?;
            Err(GameError::At { fault, path })
        }
        Err(e) => Err(e),
    }
}
