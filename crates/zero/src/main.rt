//! Equilibria of integer programming games, and the check of certificates.
//!
//! `zero solve GAME` decides whether a game has an equilibrium, and writes a certificate.
//! `zero check GAME CERT` tells whether a certificate is right for a game, and `zero best GAME CERT`
//! what each player can get at best against a certificate's profile. `zero migrate GAME` writes a
//! game's text in today's form. GAME and CERT are files, or `-` for standard input.
#![tactic(auto)]

mod answer;
mod best;
mod check;
mod ended;
mod laws;
mod migrate;
mod pieces;
mod reading;
mod refusal;
mod run;
mod solve;
#[cfg(test)]
mod tests;
mod text;

use crate::refusal::Refusal;
use crate::run::zero_run;
use std::env;
use std::io::ErrorKind;
use std::process::ExitCode;
use std::rt::Env;
use zr_io::{FileShelf, StdSink};

/// The words of the command line without the program's name.
///
/// A word that is no text makes the whole line faulty.
fn words_of<R: Env + AllocGlobal>(rt: &R) -> Result<Vec<String>, Refusal<'static>> {
    match env::args(rt) {
        Ok(args) => match args.skip(1).collect(rt.alloc()) {
            Ok(words) => Ok(words),
            Err(_) => Err(Refusal::NoMemory),
        },
        Err(e) if e.kind() == ErrorKind::OutOfMemory => Err(Refusal::NoMemory),
        Err(_) => Err(Refusal::Usage { help: None }),
    }
}

fn main(rt: HostRuntime) -> ExitCode {
    let alloc = rt.alloc();
    let mut err = StdSink::new(rt.stderr());
    let status = match words_of(&rt) {
        Ok(words) => {
            let mut shelf = FileShelf::new(alloc, &rt);
            let mut out = StdSink::new(rt.stdout());
            zero_run(alloc, words.as_slice(), &mut shelf, &mut out, &mut err)
        }
        Err(refusal) => {
            let _ = refusal.say(&mut err);
            refusal.status()
        }
    };
    ExitCode::from(status)
}
