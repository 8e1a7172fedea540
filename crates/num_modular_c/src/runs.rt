//! Runs of lists of commands for C over any reducer.

ghost use Rattle.std.specs.Prelude.{◌≡◌, ℕ, All, length, map};
ghost use Rattle.num_modular.specs.Ring.{IsStop};
ghost use Rattle.num_modular_c.specs.Codes.{Did, BothRefused};
ghost use Rattle.num_modular_c.specs.Commands.{ring_command_of, residues_of, IsAdmittedBy, IsRunTo};

use crate::codes::{NM_BAD_ARGUMENT, NM_NO_INVERSE, NM_OK};
use crate::commands::{NmCommand, are_admitted};
use crate::lists::{load, unload};
use num_modular::Reducer;
use num_modular::ring::{RunEnd, run};

// Carries out the commands on the residues of words, after a test that each may be carried out.
pub(crate) fn carry_out<R: Reducer<u64>>(
    r: &R,
    registers: &mut [u64],
    commands: &[NmCommand],
    done: &mut usize,
) -> u32
    ensures did { let m = R.modulus r.now in let start = residues_of m registers.old in
        let wholes = map ring_command_of commands.now in
        All (IsAdmittedBy (length registers.old)) commands.now → ((at : ℕ) → IsStop m start wholes at → ⊥)
        → Did result (IsRunTo m start wholes (length commands.now) done.new registers.new) }
    ensures no_inverse { let m = R.modulus r.now in let start = residues_of m registers.old in
        let wholes = map ring_command_of commands.now in
        (at : ℕ) → All (IsAdmittedBy (length registers.old)) commands.now → IsStop m start wholes at
        → (result ≡ NM_NO_INVERSE) × IsRunTo m start wholes at done.new registers.new }
    ensures bad_argument { (All (IsAdmittedBy (length registers.old)) commands.now → ⊥)
        → BothRefused NM_BAD_ARGUMENT result registers.old registers.new done.old done.new }
{
    if !are_admitted(commands, registers.len()) {
        return NM_BAD_ARGUMENT;
    }
    load(r, registers);
    let end = run(r, registers, commands);
    unload(r, registers);
    match end {
        RunEnd::Done => {
            *done = commands.len();
            NM_OK
        }
        RunEnd::NoInverse { at } => {
            *done = at;
            NM_NO_INVERSE
        }
    }
}
