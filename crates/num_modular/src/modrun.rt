//! The program `modrun`: ring commands in text form, run on eight registers.

ghost use Rattle.std.specs.Prelude.{◌≡◌, ℕ, ◌<◌, ◌≤◌, List, All, OnOk, IfOk, MatchOption, MatchResult, slice_index};
ghost use Rattle.std.specs.Borrow.{Bor};
ghost use Rattle.std.specs.Io.KnownBytes.{Appends};
ghost use Rattle.modular_reduced.specs.Checked.{AreChecked};
ghost use Rattle.modular_ring.specs.Ring.{IsFit, values_of};
ghost use Rattle.num_modular.specs.Program.{Ask, AreCommands, IsHeading, IsRun, IsAnswer};
ghost use Rattle.num_modular.specs.Program.{IsFault, reducer_name, usage, line_of};
ghost use Rattle.num_modular.specs.Words.{FindsWhere};

use self::words::{REGISTERS, command, number};
use crate::commands::{RingCommand, RunEnd, run};
use modular_barrett::premul::PreMulInv2by1;
use modular_monty::montgomery::Montgomery;
use modular_reduced::reducer::Reducer;
use modular_reduced::vanilla::Vanilla;
use std::alloc::Global;
use std::io;
use std::io::Write;

mod words;

/// The reducers that the program's first word names.
#[derive(Clone, Copy, Debug, PartialEq, Eq)]
pub enum ReducerName {
    /// `vanilla`: for moduli that are at least 1.
    Vanilla,
    /// `premul`: for moduli that are at least 1.
    PreMul,
    /// `montgomery`: for moduli that are at least 1.
    Montgomery,
}

// Why the commands couldn't be read.
enum Fault {
    Unreadable,
    OutOfMemory,
}

/// Runs the program and returns its status: that of `modrun REDUCER MODULUS COMMAND...`, on the words after its name.
///
/// All words are read before the run, from left to right, and the first fault gives the status. Eight registers
/// start with the residue 0; after the run their residues are written to `out`, separated by single spaces and
/// ended by a line end.
///
/// | Status | When | Text on `err` |
/// |---|---|---|
/// | 0 | every command was carried out | none |
/// | 1 | the inverse of a command doesn't exist; the residues before it are written | `no inverse at command I` |
/// | 2 | a word is missing, unreadable or out of range | `usage: modrun REDUCER MODULUS COMMAND...` |
/// | 3 | an allocation for the commands failed | `out of memory` |
/// | 4 | a write failed | none more |
pub fn run_words<O: Write, E: Write>(alloc: Global, words: &[&str], out: &mut O, err: &mut E) -> u8
    ensures range { result ≤ 4 }
    ensures answer { result < 4 → IsAnswer (Ask words.now) (out.new ≡ out.old)
        (Appends (O.contents out.old) (O.contents out.new))
        (Appends (E.contents err.old) (E.contents err.new)) result }
{
    match run_by_name(alloc, words, out, err) {
        Ok(status) => status,
        Err(_) => 4,
    }
}

// The status, unless a write fails.
fn run_by_name<O: Write, E: Write>(
    alloc: Global,
    words: &[&str],
    out: &mut O,
    err: &mut E,
) -> io::Result<u8>
    ensures { IfOk result (IsAnswer (Ask words.now) (out.new ≡ out.old)
        (Appends (O.contents out.old) (O.contents out.new))
        (Appends (E.contents err.old) (E.contents err.new))) }
{
    let Some((reducer, modulus, commands)) = heading(words) else {
        return refuse(err);
    };
    match reducer {
        ReducerName::Vanilla => run_over(&Vanilla::new(&modulus), alloc, commands, out, err),
        ReducerName::PreMul => run_over(&PreMulInv2by1::new(modulus), alloc, commands, out, err),
        ReducerName::Montgomery => run_over(&Montgomery::new(modulus), alloc, commands, out, err),
    }
}

// The reducer, the modulus and the words of the commands; `None` where the first two words aren't a reducer and a
// modulus.
fn heading<'a>(words: &'a [&'a str]) -> Option<(ReducerName, u64, &'a [&'a str])>
    ensures { MatchOption result
        ((reducer : ReducerName) (m : ℕ) (rest : List (Bor (List ℕ))) → IsHeading words.now reducer m rest → ⊥)
        (λ h. IsHeading words.now h.0 h.1 h.2.now) }
{
    let [name, modulus, commands @ ..] = words else {
        return None;
    };
    let reducer = reducer_named(name)?;
    let modulus = number(modulus)?;
    if modulus > 0 {
        Some((reducer, modulus, commands))
    } else {
        None
    }
}

// The reducer of a given name.
fn reducer_named(name: &str) -> Option<ReducerName>
    ensures { FindsWhere (λ reducer. name.now ≡ reducer_name reducer) result }
{
    match name {
        "vanilla" => Some(ReducerName::Vanilla),
        "premul" => Some(ReducerName::PreMul),
        "montgomery" => Some(ReducerName::Montgomery),
        _ => None,
    }
}

// Writes how to call the program, and returns the status of words that can't be read.
fn refuse<E: Write>(err: &mut E) -> io::Result<u8>
    ensures { IfOk result (λ status. (status ≡ 2) × Appends (E.contents err.old) (E.contents err.new) usage) }
{
    writeln!(err, "usage: modrun REDUCER MODULUS COMMAND...")?;
    Ok(2)
}

// Reads the commands and runs them over a reducer.
#[tactic(auto, using(crate::proofs::ProgramLemmas::commands_fit))]
fn run_over<R: Reducer<u64>, O: Write, E: Write>(
    reducer: &R,
    alloc: Global,
    words: &[&str],
    out: &mut O,
    err: &mut E,
) -> io::Result<u8>
    ensures { IfOk result
        (IsAnswer (λ m commands. (m ≡ R.modulus reducer.now) × AreCommands words.now commands) (out.new ≡ out.old)
        (Appends (O.contents out.old) (O.contents out.new))
        (Appends (E.contents err.old) (E.contents err.new))) }
{
    match read_commands(alloc, words) {
        Ok(commands) => run_commands(reducer, commands.as_slice(), out, err),
        Err(Fault::Unreadable) => refuse(err),
        Err(Fault::OutOfMemory) => {
            writeln!(err, "out of memory")?;
            Ok(3)
        }
    }
}

// The commands that the words denote.
fn read_commands(alloc: Global, words: &[&str]) -> Result<Vec<RingCommand<u64>, Global>, Fault>
    ensures { MatchResult result (λ v. AreCommands words.now v.items) (λ fault. IsFault words.now fault) }
{
    let mut commands = Vec::new(alloc);
    'words: for word in words {
        let Some(read) = command(word) else {
            return Err(Fault::Unreadable);
        };
        if commands.push(read).is_err() {
            return Err(Fault::OutOfMemory);
        }
    }
    Ok(commands)
}

// Runs commands on registers that start with the residue 0, and writes their residues.
fn run_commands<R: Reducer<u64>, O: Write, E: Write>(
    reducer: &R,
    commands: &[RingCommand<u64>],
    out: &mut O,
    err: &mut E,
) -> io::Result<u8>
    requires { All (IsFit 8) commands.now }
    ensures { IfOk result (λ status. IsRun (R.modulus reducer.now) commands.now status
        (Appends (O.contents out.old) (O.contents out.new))
        (Appends (E.contents err.old) (E.contents err.new))) }
{
    let mut registers = [reducer.transform(0); REGISTERS];
    let end = run(reducer, &mut registers, commands);
    write_residues(reducer, &registers, out)?;
    match end {
        RunEnd::Done => Ok(0),
        RunEnd::NoInverse { at } => {
            writeln!(err, "no inverse at command {at}")?;
            Ok(1)
        }
    }
}

// Writes the residues of the registers.
fn write_residues<R: Reducer<u64>, O: Write>(
    reducer: &R,
    registers: &[u64; REGISTERS],
    out: &mut O,
) -> io::Result<()>
    requires { AreChecked R.Reducer (λ x. x) reducer.now registers.now }
    ensures { OnOk result (Appends (O.contents out.old) (O.contents out.new)
        (line_of (λ r. slice_index (values_of (λ f. f) R.value (R.modulus reducer.now) registers.now) r))) }
{
    write!(out, "{}", residue_at(reducer, registers, 0))?;
    'rest: for index in 0..REGISTERS - 1 {
        write!(out, " {}", residue_at(reducer, registers, index + 1))?;
    }
    writeln!(out)
}

// The residue of a register.
fn residue_at<R: Reducer<u64>>(reducer: &R, registers: &[u64; REGISTERS], index: usize) -> u64
    requires forms { AreChecked R.Reducer (λ x. x) reducer.now registers.now }
    requires within { index < 8 }
    ensures { result ≡ slice_index (values_of (λ f. f) R.value (R.modulus reducer.now) registers.now) index }
{
    reducer.residue(registers[index])
}
