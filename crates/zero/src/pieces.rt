//! The pieces of a line. Writing them takes no memory of its own.
ghost use Rattle.std.specs.Prelude.{◌≡◌, ◌<◌, ◌≤◌, ◌+◌, ◌++◌, ◌∷◌, [], Err, OnOk, OnErr};
ghost use Rattle.zr_form.specs.Numbers.{decimal};
ghost use Rattle.zr_io.specs.Faults.{Rose};
ghost use Rattle.zr_io.specs.Written.{Appends, AppendsPrefix};

use zr_io::{Sink, SinkError, put_all};

/// The digits of a number.
pub(crate) fn put_number<E: Sink>(err: &mut E, number: u128) -> Result<(), SinkError>
    ensures ok { OnOk result (Appends (E.written err.old) (decimal number) (E.written err.new)) }
    ensures err { OnErr result (AppendsPrefix (E.written err.old) (decimal number)
        (E.written err.new)) }
    ensures failed { result ≡ Err SinkError.Failed → Rose (E.faults_of err.old) (E.faults_of err.new) }
    ensures grows { E.faults_of err.old ≤ E.faults_of err.new }
{
    if number < 10 {
        return put_digit(err, number);
    }
    put_number(err, number / 10)?;
    put_digit(err, number % 10)
}

/// The digit of a number below 10.
fn put_digit<E: Sink>(err: &mut E, digit: u128) -> Result<(), SinkError>
    requires { digit < 10 }
    ensures ok { OnOk result (Appends (E.written err.old) ((48 + digit) ∷ []) (E.written err.new)) }
    ensures err { OnErr result (AppendsPrefix (E.written err.old) ((48 + digit) ∷ [])
        (E.written err.new)) }
    ensures failed { result ≡ Err SinkError.Failed → Rose (E.faults_of err.old) (E.faults_of err.new) }
    ensures grows { E.faults_of err.old ≤ E.faults_of err.new }
{
    put_all(err, &[b'0' + digit as u8])
}

/// A number between two texts.
pub(crate) fn put_numbered<E: Sink>(
    err: &mut E,
    before: &str,
    number: u128,
    after: &str,
) -> Result<(), SinkError>
    ensures ok { OnOk result (Appends (E.written err.old)
        (before.now ++ decimal number ++ after.now) (E.written err.new)) }
    ensures err { OnErr result (AppendsPrefix (E.written err.old)
        (before.now ++ decimal number ++ after.now) (E.written err.new)) }
    ensures failed { result ≡ Err SinkError.Failed → Rose (E.faults_of err.old) (E.faults_of err.new) }
    ensures grows { E.faults_of err.old ≤ E.faults_of err.new }
{
    put_all(err, before.as_bytes())?;
    put_number(err, number)?;
    put_all(err, after.as_bytes())
}

/// A name between two texts.
pub(crate) fn put_named<E: Sink>(
    err: &mut E,
    before: &str,
    name: &str,
    after: &str,
) -> Result<(), SinkError>
    ensures ok { OnOk result (Appends (E.written err.old) (before.now ++ name.now ++ after.now)
        (E.written err.new)) }
    ensures err { OnErr result (AppendsPrefix (E.written err.old) (before.now ++ name.now ++ after.now)
        (E.written err.new)) }
    ensures failed { result ≡ Err SinkError.Failed → Rose (E.faults_of err.old) (E.faults_of err.new) }
    ensures grows { E.faults_of err.old ≤ E.faults_of err.new }
{
    put_both(err, before, name)?;
    put_all(err, after.as_bytes())
}

/// One text and then another.
pub(crate) fn put_both<E: Sink>(err: &mut E, first: &str, second: &str) -> Result<(), SinkError>
    ensures ok { OnOk result (Appends (E.written err.old) (first.now ++ second.now) (E.written err.new)) }
    ensures err { OnErr result (AppendsPrefix (E.written err.old) (first.now ++ second.now)
        (E.written err.new)) }
    ensures failed { result ≡ Err SinkError.Failed → Rose (E.faults_of err.old) (E.faults_of err.new) }
    ensures grows { E.faults_of err.old ≤ E.faults_of err.new }
{
    put_all(err, first.as_bytes())?;
    put_all(err, second.as_bytes())
}
