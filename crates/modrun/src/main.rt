//! The program `modrun REDUCER MODULUS COMMAND...`: ring commands run on eight registers.
#![tactic(auto)]

use num_modular::modrun::run_words;
use std::process::ExitCode;
use std::{env, io};

// Runs the program on the words after its name.
fn run(rt: &HostRuntime) -> io::Result<u8> {
    let arguments: Vec<String> = env::args(rt)?.skip(1).collect(rt.alloc())?;
    let words: Vec<&str> = arguments
        .iter()
        .map(|word| word.as_str())
        .collect(rt.alloc())?;
    let mut out = rt.stdout();
    let mut err = rt.stderr();
    Ok(run_words(rt.alloc(), words.as_slice(), &mut out, &mut err))
}

// The exit status where the words after the program's name can't be read. A word that isn't UTF-8 is a usage error,
// as too few words are; else an allocation failed.
fn refuse(rt: &HostRuntime, error: &io::Error) -> u8 {
    if error.kind() == io::ErrorKind::InvalidData {
        return run_words(rt.alloc(), &[], &mut rt.stdout(), &mut rt.stderr());
    }
    match eprintln!(rt; "out of memory") {
        Ok(()) => 3,
        Err(_) => 4,
    }
}

fn main(rt: HostRuntime) -> ExitCode {
    let status = match run(&rt) {
        Ok(status) => status,
        Err(error) => refuse(&rt, &error),
    };
    ExitCode::from(status)
}
