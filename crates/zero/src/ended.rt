//! What goes with work that came to an end without an answer.
ghost use Rattle.std.specs.Prelude.{◌≡◌, ◌≤◌, Err, OnOk, OnErr};
ghost use Rattle.zr_io.specs.Faults.{Rose};
ghost use Rattle.zr_io.specs.Written.{Appends, AppendsPrefix};
ghost use Rattle.zero.specs.Messages.{end_line, open_line};
ghost use Rattle.zero.specs.Refusals.{end_status};

use crate::pieces::put_numbered;
use zr_io::{Sink, SinkError, put_all};
use zr_report::End;

/// The status to end with: 7 where the budget was spent, 8 where a program or a step was too wide, 9
/// where a whole variable was open, and 10 where a system or a text was too large.
pub fn status_of_end(end: &End) -> u8
    ensures { result ≡ end_status end.now }
{
    match end {
        End::Budget { .. } => 7,
        End::Stuck(_) | End::Step(_) | End::Certificate { .. } => 8,
        End::Open { .. } => 9,
        End::Large { .. } | End::Long { .. } => 10,
    }
}

/// Writes the line that says why.
///
/// # Errors
///
/// The first error of the sink. A prefix of the line may have been written before it.
pub fn put_end<E: Sink>(err: &mut E, end: &End) -> Result<(), SinkError>
    ensures ok { OnOk result (Appends (E.written err.old) (end_line end.now) (E.written err.new)) }
    ensures err { OnErr result (AppendsPrefix (E.written err.old) (end_line end.now) (E.written err.new)) }
    ensures failed { result ≡ Err SinkError.Failed → Rose (E.faults_of err.old) (E.faults_of err.new) }
    ensures grows { E.faults_of err.old ≤ E.faults_of err.new }
{
    match end {
        End::Budget { limit } => put_numbered(err, "zero: budget of ", *limit as u128, " spent\n"),
        End::Stuck(_) | End::Step(_) | End::Certificate { .. } => put_all(err, b"zero: too wide\n"),
        End::Open { player, var, .. } => put_open(err, *player, *var),
        End::Large { cells } => put_numbered(err, "zero: too large: ", *cells, "\n"),
        End::Long { bytes } => put_numbered(err, "zero: too large: ", *bytes as u128, "\n"),
    }
}

/// The line of a whole variable that is open.
fn put_open<E: Sink>(err: &mut E, player: u32, var: u32) -> Result<(), SinkError>
    ensures ok { OnOk result (Appends (E.written err.old) (open_line player var) (E.written err.new)) }
    ensures err { OnErr result (AppendsPrefix (E.written err.old) (open_line player var) (E.written err.new)) }
    ensures failed { result ≡ Err SinkError.Failed → Rose (E.faults_of err.old) (E.faults_of err.new) }
    ensures grows { E.faults_of err.old ≤ E.faults_of err.new }
{
    put_numbered(err, "zero: open: player ", player as u128, " variable ")?;
    put_numbered(err, "", var as u128, "\n")
}
