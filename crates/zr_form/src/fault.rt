//! Why a text isn't read, and what is wrong with a line.

ghost use Rattle.std.specs.Prelude.{◌≡◌};
ghost use Rattle.zr_form.specs.declared.fault.ReadError.TheVariants.{NoMemory};
ghost use Rattle.zr_form.specs.Stops.{fault_of, error_at};

use std::alloc::{AllocError, AllocFailed};

/// Why a text isn't read.
#[derive(Debug, Drop)]
pub enum ReadError {
    /// Memory ran out.
    NoMemory,
    /// So many bytes are left from the start of the first line that isn't in the form.
    Form(usize),
    /// So many bytes are left from the start of the first line that isn't in the form because of
    /// the size of a number alone.
    Number(usize),
}

impl From<AllocError> for ReadError {
    ghost from_gives = { λ _ e. e ≡ NoMemory };

    fn from(_failed: AllocError) -> ReadError {
        ReadError::NoMemory
    }
}

impl<T: Drop> From<AllocFailed<T>> for ReadError {
    ghost from_gives = { λ _ e. e ≡ NoMemory };

    fn from(_failed: AllocFailed<T>) -> ReadError {
        ReadError::NoMemory
    }
}

// A function that reads a line gives `Result<X, LineFault>`, and its clause is
// `ReadsLine view result strict loose`. Where it takes memory it gives
// `Result<Result<X, LineFault>, AllocError>`, and the clause is
// `IfOk result (λ line. ReadsLine view line strict loose)`. A function that takes a line from the
// front of a text gives `Result<(X, &[u8]), ReadError>`, and its clause is `Gives view result` of
// both readings by `one_read (by_fields ..)`.

/// What is wrong with a line that isn't in the form.
#[derive(Clone, Copy, Debug, PartialEq, Eq)]
pub enum LineFault {
    /// It isn't in the form without the upper bounds either.
    Form,
    /// Without the upper bounds of numbers it is in the form.
    Number,
}

impl LineFault {
    /// What is wrong with a line that isn't in the form, by whether the loose reading reads it.
    pub fn of_line(reads_loosely: bool) -> LineFault
        ensures { result ≡ fault_of reads_loosely }
    {
        if reads_loosely {
            LineFault::Number
        } else {
            LineFault::Form
        }
    }

    /// The error where so many bytes are left from the start of the line.
    pub fn at(self, left: usize) -> ReadError
        ensures { result ≡ error_at self left }
    {
        match self {
            LineFault::Form => ReadError::Form(left),
            LineFault::Number => ReadError::Number(left),
        }
    }
}
