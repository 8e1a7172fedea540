//! Callers of `run`, proved from its contract and a public law alone.

ghost use Rattle.std.specs.Prelude.{◌≡◌, None, All, length, map};
ghost use Rattle.modular_reduced.specs.Checked.{AreChecked};
ghost use Rattle.num_modular.specs.Ring.{whole, value_at, inverted_by, IsFit, values_of, HoldValues};

use modular_reduced::reducer::Reducer;
use modular_word::ring_word::RingWord;
use num_modular::laws::stop_laws;
use num_modular::ring::{RingCommand, run};

/// Runs commands of which none needs an inverse, so that all are carried out.
pub fn run_to_the_end<T: RingWord, R: Reducer<T>>(
    r: &R,
    regs: &mut [T],
    commands: &[RingCommand<T>],
)
    requires checked { AreChecked R.Reducer T.number r.now regs.old }
    requires fit { All (IsFit (length regs.old)) commands.now }
    requires total { All (λ command. inverted_by command ≡ None) commands.now }
    ensures { let m = R.modulus r.now in
        let start = values_of T.number R.value m regs.old in
        let wholes = map (whole T.number) commands.now in
        HoldValues T.number R.form m regs.new (value_at m start wholes (length wholes)) }
{
    stop_laws::<T>();
    let _ = run(r, regs, commands);
}
