//! A cubic as a list of commands.

ghost use Rattle.std.specs.Prelude.{◌≡◌, ◌+◌, ◌*◌, ◌%◌, ◌^◌};

use num_modular::Reducer;
use num_modular::ring::{RingCommand, RunEnd, run};

/// x^3 + a·x + b modulo m.
///
/// # Examples
///
/// ```
/// use num_modular::applications::examples::cubic::cubic;
/// use num_modular::{Reducer, Vanilla};
///
/// let ring = Vanilla::<u64>::new(&97);
/// assert_eq!(cubic(&ring, 5, 2, 7), 45); // 125 + 2 * 5 + 7 - 97
/// ```
#[tactic(auto, using(num_modular::specs::Remainders::remainders))]
pub fn cubic<R: Reducer<u64>>(r: &R, x: u64, a: u64, b: u64) -> u64
    ensures { result ≡ (x ^ 3 + a * x + b) % R.modulus r.now }
{
    let mut registers = [
        r.transform(x),
        r.transform(a),
        r.transform(b),
        r.transform(x),
    ];
    let commands = [
        RingCommand::Pow {
            dst: 3,
            a: 0,
            exp: 3,
        },
        RingCommand::Mul { dst: 1, a: 1, b: 0 },
        RingCommand::Add { dst: 3, a: 3, b: 1 },
        RingCommand::Add { dst: 3, a: 3, b: 2 },
    ];
    let end = run(r, &mut registers, &commands);
    prove!(end == RunEnd::Done);
    // rust: debug_assert!(end == RunEnd::Done);
    r.residue(registers[3])
}
