ghost use Rattle.std.specs.Prelude.{◌≡◌, ℕ, ◌≤◌, Err, Some, None, IfOk, IfSome, length};
ghost use Rattle.zr_io.specs.Contents.{Contents, HoldsMore};
ghost use Rattle.zr_io.specs.Faults.{Rose, next_count};

use thiserror::Error;

/// Why a shelf gave nothing.
#[derive(Clone, Copy, Debug, PartialEq, Eq, Drop, Error)]
pub enum ShelfError {
    /// The content can't be read. The shelf counts this as a fault.
    #[error("the content can't be read")]
    Failed,
    /// The content is longer than the limit.
    #[error("the content is longer than the limit")]
    TooLong,
    /// There is no memory for the content.
    #[error("there is no memory for the content")]
    NoMemory,
}

/// Contents by name, to be read. A shelf counts its takes and its faults.
pub trait Shelf {
    // The contents, where the shelf tells them.
    ghost contents: { Self → Contents };

    // How many faults there were, up to the last value of a `u64`.
    ghost faults_of: { Self → ℕ };

    // How many takes there were, also those that gave nothing, up to the last value of a `u64`.
    ghost takes_of: { Self → ℕ };

    /// Gives the whole content of `name`, where it has at most `limit` bytes.
    ///
    /// # Errors
    ///
    /// `Failed` where the content can't be read, also where the shelf lacks the name. `TooLong`
    /// where it has more than `limit` bytes. `NoMemory` where memory runs out.
    fn take(&mut self, name: &str, limit: usize) -> Result<Vec<u8>, ShelfError>
        ensures within { IfOk result (λ v. length v.items ≤ limit) }
        ensures whole { IfOk result (λ v. IfSome (contents self.old) (λ get. get name.now ≡ Some v.items)) }

        ensures failed { result ≡ Err ShelfError.Failed → Rose (faults_of self.old) (faults_of self.new) }
        ensures too_long { result ≡ Err ShelfError.TooLong
            → IfSome (contents self.old) (λ get. HoldsMore get name.now limit) }
        ensures lacks { IfSome (contents self.old) (λ get. get name.now ≡ None
            → result ≡ Err ShelfError.Failed) }

        ensures stays { contents self.new ≡ contents self.old }
        ensures grows { faults_of self.old ≤ faults_of self.new }
        ensures counts { takes_of self.new ≡ next_count (takes_of self.old) };

    /// How many faults there were so far. The count stands still at the last value of a `u64`.
    fn faults(&self) -> u64
        ensures { result ≡ faults_of self.now };
}
