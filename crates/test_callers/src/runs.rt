//! Callers of `run`, proved from its contract alone.

ghost use Rattle.std.specs.Prelude.{◌≡◌, ℕ, ◌%◌, ◌↔◌, All, length, map, IsSome, IfSome, IfNone};
ghost use Rattle.modular_reduced.specs.Checked.{AreChecked};
ghost use Rattle.modular_ring.specs.Ring.{whole, value_at, IsStop, carried_out, IsFit, values_of, HoldValues};

use modular_reduced::reducer::Reducer;
use modular_ring::ring::{RingCommand, RunEnd, all_checked, commands_fit, run};
use modular_word::ring_word::RingWord;

/// Runs commands whose preconditions hold; `None` exactly where a register holds no checked form or a register
/// number is too large, with the registers unchanged.
pub fn checked_run<T: RingWord, R: Reducer<T>>(
    r: &R,
    regs: &mut [T],
    commands: &[RingCommand<T>],
) -> Option<RunEnd>
    ensures runs { IsSome result ↔
        ((AreChecked R.Reducer T.number r.now regs.old)
        × All (IsFit (length regs.old)) commands.now) }
    ensures refuses { IfNone result (regs.new ≡ regs.old) }
    ensures stops { let m = R.modulus r.now in
        let start = values_of T.number R.value m regs.old in
        IfSome result (λ end. (at : ℕ) →
        (end ≡ RunEnd.NoInverse at) ↔ IsStop m start (map (whole T.number) commands.now) at) }
    ensures done { let m = R.modulus r.now in
        let start = values_of T.number R.value m regs.old in
        IfSome result (λ end. (end ≡ RunEnd.Done) ↔
        ((at : ℕ) → IsStop m start (map (whole T.number) commands.now) at → ⊥)) }
    ensures values { let m = R.modulus r.now in
        let start = values_of T.number R.value m regs.old in
        let wholes = map (whole T.number) commands.now in
        IfSome result
        (λ end. HoldValues T.number R.form m regs.new (value_at m start wholes (carried_out end wholes))) }
{
    if all_checked(r, regs) && commands_fit(commands, regs.len()) {
        Some(run(r, regs, commands))
    } else {
        None
    }
}

/// The residue of n modulo the reducer's modulus, by one command on three registers.
pub fn residue_by_run<R: Reducer<u64>>(r: &R, n: u64) -> u64
    ensures { result ≡ n % R.modulus r.now }
{
    let mut regs = [r.transform(0); 3];
    let _ = run(r, &mut regs, &[RingCommand::Load { dst: 2, n }]);
    r.residue(regs[2])
}
