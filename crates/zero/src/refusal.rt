ghost use Rattle.std.specs.Prelude.{◌≡◌, ◌≤◌, Err, OnOk, OnErr};
ghost use Rattle.zr_io.specs.Faults.{Rose};
ghost use Rattle.zr_io.specs.Written.{Appends, AppendsPrefix};
ghost use Rattle.zero.specs.Messages.{fault_line, flaw_line, flaw_name};
ghost use Rattle.zero.specs.Refusals.{line_of, status_of, usage_text};

use crate::ended::{put_end, status_of_end};
use crate::pieces::{put_both, put_named, put_number};
use crate::text::Text;
use zr_io::{Sink, SinkError, put_all};
use zr_report::End;
use zr_value::GameFault;

/// Why a line of a certificate's text is refused.
#[derive(Clone, Copy, Debug, PartialEq, Eq)]
pub enum CertFlaw {
    /// The line is out of form.
    Form,
    /// The size of a number alone is at fault.
    Number,
    /// The line breaks a rule of the check.
    Wrong,
    /// A step of the line's sums is too wide.
    Wide,
}

impl CertFlaw {
    /// The word for it.
    fn name(self) -> &'static str
        ensures { result.now ≡ flaw_name self }
    {
        match self {
            CertFlaw::Form => "form",
            CertFlaw::Number => "number",
            CertFlaw::Wrong => "wrong",
            CertFlaw::Wide => "wide",
        }
    }

    /// The refusal of a certificate's text at this line.
    pub fn at<'a>(self, line: u32) -> Refusal<'a>
        ensures { result ≡ Refusal.Flawed line self }
    {
        Refusal::Flawed { line, flaw: self }
    }
}

/// Why the program gives no answer.
#[derive(Debug, Drop)]
pub enum Refusal<'a> {
    /// The words are of no action. Where they are out of form, `clap` says why.
    Usage { help: Option<String> },
    /// The shelf failed at the text under this name.
    CannotRead { text: Text, name: &'a str },
    /// This name holds more bytes than the text may have.
    TooLong { text: Text, name: &'a str },
    /// The game text has this first fault, at this path.
    Faulty { fault: GameFault, path: String },
    /// The certificate's text is refused at this line, the first one that is, counted from 1.
    Flawed { line: u32, flaw: CertFlaw },
    /// The work came to this end without an answer, once this text was taken.
    Ended { last: Text, end: End },
    /// There was no memory.
    NoMemory,
    /// The answer couldn't be written.
    WriteFault,
}

impl Refusal<'_> {
    /// The status to end with.
    pub fn status(&self) -> u8
        ensures { result ≡ status_of self.now }
    {
        match self {
            Refusal::Usage { .. } => 2,
            Refusal::CannotRead { .. } => 3,
            Refusal::TooLong { .. } => 4,
            Refusal::Faulty { .. } => 5,
            Refusal::Flawed { .. } => 6,
            Refusal::Ended { end, .. } => status_of_end(end),
            Refusal::NoMemory => 11,
            Refusal::WriteFault => 12,
        }
    }

    /// Writes the line that says why. This takes no memory of its own.
    ///
    /// # Errors
    ///
    /// The first error of the sink. A prefix of the line may have been written before it.
    pub fn say<E: Sink>(&self, err: &mut E) -> Result<(), SinkError>
        ensures ok { OnOk result (Appends (E.written err.old) (line_of self.now) (E.written err.new)) }
        ensures err { OnErr result (AppendsPrefix (E.written err.old) (line_of self.now) (E.written err.new)) }
        ensures failed { result ≡ Err SinkError.Failed → Rose (E.faults_of err.old) (E.faults_of err.new) }
        ensures grows { E.faults_of err.old ≤ E.faults_of err.new }
    {
        match self {
            Refusal::Usage { help } => put_usage(err, help),
            Refusal::CannotRead { name, .. } => put_named(err, "zero: cannot read ", name, "\n"),
            Refusal::TooLong { text, name } => put_named(err, "zero: ", name, text.excess()),
            Refusal::Faulty { fault, path } => put_fault(err, *fault, path.as_str()),
            Refusal::Flawed { line, flaw } => put_flaw(err, *line, *flaw),
            Refusal::Ended { end, .. } => put_end(err, end),
            Refusal::NoMemory => put_all(err, b"zero: no memory\n"),
            Refusal::WriteFault => put_all(err, b"zero: write fault\n"),
        }
    }
}

/// What `clap` says of the words, and the line of words that are of no action.
fn put_usage<E: Sink>(err: &mut E, help: &Option<String>) -> Result<(), SinkError>
    ensures ok { OnOk result (Appends (E.written err.old) (usage_text help.now) (E.written err.new)) }
    ensures err { OnErr result (AppendsPrefix (E.written err.old) (usage_text help.now) (E.written err.new)) }
    ensures failed { result ≡ Err SinkError.Failed → Rose (E.faults_of err.old) (E.faults_of err.new) }
    ensures grows { E.faults_of err.old ≤ E.faults_of err.new }
{
    match help {
        Some(help) => put_both(err, help.as_str(), "zero: usage\n"),
        None => put_all(err, b"zero: usage\n"),
    }
}

/// The line of a fault. Bad JSON has no path.
fn put_fault<E: Sink>(err: &mut E, fault: GameFault, path: &str) -> Result<(), SinkError>
    ensures ok { OnOk result (Appends (E.written err.old) (fault_line fault path.now) (E.written err.new)) }
    ensures err { OnErr result (AppendsPrefix (E.written err.old) (fault_line fault path.now)
        (E.written err.new)) }
    ensures failed { result ≡ Err SinkError.Failed → Rose (E.faults_of err.old) (E.faults_of err.new) }
    ensures grows { E.faults_of err.old ≤ E.faults_of err.new }
{
    match fault {
        GameFault::NotJson => put_all(err, b"zero: game: NotJson\n"),
        _ => {
            put_named(err, "zero: game: ", fault.name(), " ")?;
            put_both(err, path, "\n")
        }
    }
}

/// The line of a certificate's line that is refused.
fn put_flaw<E: Sink>(err: &mut E, line: u32, flaw: CertFlaw) -> Result<(), SinkError>
    ensures ok { OnOk result (Appends (E.written err.old) (flaw_line line flaw) (E.written err.new)) }
    ensures err { OnErr result (AppendsPrefix (E.written err.old) (flaw_line line flaw)
        (E.written err.new)) }
    ensures failed { result ≡ Err SinkError.Failed → Rose (E.faults_of err.old) (E.faults_of err.new) }
    ensures grows { E.faults_of err.old ≤ E.faults_of err.new }
{
    put_all(err, b"zero: certificate: line ")?;
    put_number(err, line as u128)?;
    put_named(err, ": ", flaw.name(), "\n")
}
