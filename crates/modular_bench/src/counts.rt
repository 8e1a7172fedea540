//! How many steps an inverse and a symbol take.

ghost use Rattle.modular_prim.specs.Divisions.{inverse_divisions};
ghost use Rattle.modular_symbols.specs.Steps.{jacobi_steps};
ghost use Rattle.std.specs.Prelude.{◌≡◌, ◌%◌, ◌≤◌};

use num_modular::prim::counted::w64::{checked_jacobi_counted, invm_counted};

/// The number of divisions of Euclid's algorithm for the inverse of x modulo m. Condition: m is at least 1.
#[unsafe(no_mangle)]
pub extern "C" fn bench_divisions(x: u64, m: u64) -> u32
    requires { 1 ≤ m }
    ensures count { result ≡ inverse_divisions x m }
    ensures at_most { result ≤ 128 }
{
    invm_counted(x, m).1
}

/// The number of halvings and swaps for the Jacobi symbol of x over m. Condition: m is odd.
#[unsafe(no_mangle)]
pub extern "C" fn bench_halvings(x: u64, m: u64) -> u32
    requires { m % 2 ≡ 1 }
    ensures count { result ≡ jacobi_steps (x % m) m }
    ensures at_most { result ≤ 128 }
{
    match checked_jacobi_counted(x, m) {
        Some((_, steps)) => steps,
        None => 0,
    }
}
