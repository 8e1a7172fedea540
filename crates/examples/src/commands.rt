//! Lists of commands: `residue_by_commands` of `first_use` with other registers, and three commands.

ghost use Rattle.std.specs.Prelude.{◌≡◌, ◌+◌, ◌*◌, ◌%◌, ◌^◌, ◌≤◌};

use num_modular::ring::{RingCommand, RunEnd, run};
use num_modular::{PreMulInv2by1, Reducer};

/// n modulo m, from registers that hold n.
///
/// # Conditions
///
/// - (debug) m is at least 1
///
/// # Examples
///
/// ```
/// use num_modular::applications::examples::commands::residue_over_copies;
///
/// assert_eq!(residue_over_copies(1000, 97), 30); // 1000 - 10 * 97
/// ```
// rust: #[cfg_attr(debug_assertions, track_caller)]
pub fn residue_over_copies(n: u64, m: u64) -> u64
    requires { 1 ≤ m }
    ensures { result ≡ n % m }
{
    let reducer = PreMulInv2by1::<u64>::new(m);
    let mut registers = [reducer.transform(n); 2];
    let end = run(&reducer, &mut registers, &[RingCommand::Load { dst: 1, n }]);
    prove!(end == RunEnd::Done);
    // rust: debug_assert!(end == RunEnd::Done, "m must be at least 1");
    reducer.residue(registers[1])
}

/// x·n modulo m by three commands.
///
/// # Conditions
///
/// - (debug) m is at least 1
///
/// # Examples
///
/// ```
/// use num_modular::applications::examples::commands::product_by_commands;
///
/// assert_eq!(product_by_commands(10, 20, 97), 6); // 200 - 2 * 97
/// ```
#[tactic(auto, using(num_modular::specs::Remainders::remainders))]
// rust: #[cfg_attr(debug_assertions, track_caller)]
pub fn product_by_commands(x: u64, n: u64, m: u64) -> u64
    requires { 1 ≤ m }
    ensures { result ≡ (x * n) % m }
{
    let reducer = PreMulInv2by1::<u64>::new(m);
    let mut registers = [reducer.transform(0); 2];
    let commands = [
        RingCommand::Load { dst: 0, n: x },
        RingCommand::Load { dst: 1, n },
        RingCommand::Mul { dst: 1, a: 0, b: 1 },
    ];
    let end = run(&reducer, &mut registers, &commands);
    prove!(end == RunEnd::Done);
    // rust: debug_assert!(end == RunEnd::Done, "m must be at least 1");
    reducer.residue(registers[1])
}
