ghost use Rattle.std.specs.Prelude.{◌≡◌, ℕ, ◌<◌, ◌≤◌, Err, Option, IfOk, IfErr, OnOk, OnErr, length, take};
ghost use Rattle.zr_io.specs.Contents.{Bytes};
ghost use Rattle.zr_io.specs.Faults.{Rose};
ghost use Rattle.zr_io.specs.Written.{Appends, AppendsPrefix};

use thiserror::Error;

/// Why a sink didn't take the whole piece.
#[derive(Clone, Copy, Debug, PartialEq, Eq, Drop, Error)]
pub enum SinkError {
    /// The piece can't be written. The sink counts this as a fault.
    #[error("the piece can't be written")]
    Failed,
    /// There is no memory for the piece.
    #[error("there is no memory for the piece")]
    NoMemory,
}

/// What takes bytes, one piece after another.
pub trait Sink {
    // What was written so far, where the sink tells it.
    ghost written: { Self → Option Bytes };

    // How many faults there were, up to the last value of a `u64`.
    ghost faults_of: { Self → ℕ };

    /// Writes the first bytes of a piece and says how many: at least 1 of a piece that isn't empty.
    ///
    /// # Errors
    ///
    /// `Failed` where the piece can't be written, also where none of it would be taken. `NoMemory`
    /// where memory runs out. A prefix of the piece may have been written before the error.
    fn put(&mut self, bytes: &[u8]) -> Result<usize, SinkError>
        ensures within { IfOk result (λ n. n ≤ length bytes.now) }
        ensures some { IfOk result (λ n. 0 < length bytes.now → 0 < n) }
        ensures ok { IfOk result (λ n. Appends (written self.old) (take n bytes.now) (written self.new)) }

        ensures err { OnErr result (AppendsPrefix (written self.old) bytes.now (written self.new)) }
        ensures failed { result ≡ Err SinkError.Failed → Rose (faults_of self.old) (faults_of self.new) }
        ensures grows { faults_of self.old ≤ faults_of self.new };

    /// How many faults there were so far. The count stands still at the last value of a `u64`.
    fn faults(&self) -> u64
        ensures { result ≡ faults_of self.now };
}

/// Writes the whole piece.
///
/// # Errors
///
/// The first error of the sink. A prefix of the piece may have been written before it.
pub fn put_all<O: Sink>(sink: &mut O, bytes: &[u8]) -> Result<(), SinkError>
    ensures ok { OnOk result (Appends (O.written sink.old) bytes.now (O.written sink.new)) }
    ensures err { OnErr result (AppendsPrefix (O.written sink.old) bytes.now (O.written sink.new)) }
    ensures failed { result ≡ Err SinkError.Failed → Rose (O.faults_of sink.old) (O.faults_of sink.new) }
    ensures grows { O.faults_of sink.old ≤ O.faults_of sink.new }
{
    let mut at = 0usize;
    while at < bytes.len() {
        match sink.put(&bytes[at..]) {
            Ok(n) => at += n,
            Err(e) => return Err(e),
        }
    }
    Ok(())
}
