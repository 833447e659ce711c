//! Runs and checks C programs annotated with OmpSs-2 task pragmas.
#![tactic(auto)]

ghost use Rattle.std.specs.Prelude.{◌≡◌, drop};
ghost use Rattle.nest6.specs.Given.{IsGiven};

use oss_io::{FileShelf, NoGate, StdSink};
use oss_top::{Sinks, Status, nest6};
use std::alloc::Global;
use std::env;
use std::io::{self, ErrorKind, Stderr, Stdout};
use std::process::ExitCode;

/// Calls the top call with the words of the command line, the files, and the standard streams, and ends with
/// its status.
fn main(rt: HostRuntime) -> ExitCode {
    let alloc = rt.alloc();
    let Some(words) = given(alloc, words_of(&rt)) else {
        return ExitCode::from(Status::OutOfMemory.number());
    };
    let mut shelf = FileShelf::new(alloc, &rt);
    let mut sinks = sinks_of(rt.stdout(), rt.stderr());
    ExitCode::from(nest6(
        &rt,
        alloc,
        behind_first(words.as_slice()),
        &mut shelf,
        &mut sinks,
        &NoGate,
    ))
}

/// The standard streams as the sinks of the top call. Each has a type of its own, so they cannot change places.
fn sinks_of(out: Stdout, err: Stderr) -> Sinks<StdSink<Stdout>, StdSink<Stderr>>
    ensures out { result.out ≡ 0 }
    ensures err { result.err ≡ 0 }
{
    Sinks {
        out: StdSink::new(out),
        err: StdSink::new(err),
    }
}

/// The words behind the first, which is the name of the program.
fn behind_first(words: &[String]) -> &[String]
    ensures { result.now ≡ drop 1 words.now }
{
    match words {
        [] => words,
        [_, behind @ ..] => behind,
    }
}

/// The words of the call, where they were read. A word that is not UTF-8 makes the words as a whole faulty, so
/// there are none, and these are refused. `None` where memory was wanting.
fn given(alloc: Global, words: io::Result<Vec<String>>) -> Option<Vec<String>>
    ensures { IsGiven words result }
{
    match words {
        Ok(words) => Some(words),
        Err(error) => match error.kind() {
            ErrorKind::OutOfMemory => None,
            _ => Some(Vec::new(alloc)),
        },
    }
}

/// The words of the command line, the name of the program first.
fn words_of(rt: &HostRuntime) -> io::Result<Vec<String>> {
    let mut words = Vec::new(rt.alloc());
    for word in env::args(rt)? {
        words.push(word)?;
    }
    Ok(words)
}
