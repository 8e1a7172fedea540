//! The symbols.

ghost use Rattle.modular_bench.specs.Steps.{symbol_number, symbol_of, symbol_step};
ghost use Rattle.modular_symbols.specs.Jacobi.{checked_jacobi_of};
ghost use Rattle.std.specs.Fn.{iterate};
ghost use Rattle.std.specs.Int.Count.{count_leading_zeros};
ghost use Rattle.std.specs.Prelude.{◌≡◌, ◌≤◌, ◌<◌, ◌+◌, ◌*◌, ◌/◌, ◌%◌, ◌^◌, pos};

use num_modular::ModularSymbols;
use num_modular::prim::by_subtraction;

// The symbol of v over m, by the operation's number.
pub(crate) fn symbol(operation: u8, v: u64, m: u64) -> Option<i8>
    ensures { result ≡ symbol_of operation m v }
{
    match operation {
        0 => v.checked_jacobi(&m),
        1 => Some(v.kronecker(&m)),
        _ => v.checked_legendre(&m),
    }
}

// A symbol as a number from 0 to 3.
pub(crate) fn number(found: Option<i8>) -> u64
    ensures { result ≡ symbol_number found }
{
    match found {
        None => 3,
        Some(symbol) => if symbol < 0 { 2 } else { symbol as u64 },
    }
}

// The number of the Jacobi symbol of v over m, by halvings and swaps.
pub(crate) fn halved(v: u64, m: u64) -> u64
    requires { m % 2 ≡ 1 }
    ensures { result ≡ symbol_number (checked_jacobi_of (pos v) (pos m)) }
{
    number(Some(v.jacobi(&m)))
}

// The same by the loop of subtractions.
pub(crate) fn subtracted(v: u64, m: u64) -> u64
    requires { m % 2 ≡ 1 }
    ensures { result ≡ symbol_number (checked_jacobi_of (pos v) (pos m)) }
{
    number(Some(by_subtraction::jacobi(false, v, m)))
}

fn steps<const OPERATION: u8>(x: u64, y: u64, m: u64, n: u64) -> u64
    requires { 1 ≤ m }
    ensures { result ≡ iterate (symbol_step OPERATION y m) n x }
{
    let mut x = x;
    let shift = m.leading_zeros();
    'steps: for _ in 0..n {
        let term = number(symbol(OPERATION, x, m));
        x = y.wrapping_mul(x).wrapping_add(term) >> shift;
    }
    x
}

/// A step: x becomes its product with y, plus the number of the symbol of x over m, modulo 2^64, of which it keeps
/// as many of the highest bits as m has. The symbol is Jacobi's for operation 0, Kronecker's for 1 and Legendre's
/// for 2. Condition: m is at least 1.
#[unsafe(no_mangle)]
pub extern "C" fn bench_symbols(operation: u8, x: u64, y: u64, m: u64, n: u64) -> u64
    requires m { 1 ≤ m }
    requires operation { operation ≤ 2 }
    ensures { result ≡ iterate (symbol_step operation y m) n x }
{
    match operation {
        0 => steps::<0>(x, y, m, n),
        1 => steps::<1>(x, y, m, n),
        _ => steps::<2>(x, y, m, n),
    }
}

// The steps of the Jacobi symbol, by one of two loops.
fn odd_steps<const BY_SUBTRACTION: bool>(x: u64, y: u64, m: u64, n: u64) -> u64
    requires { m % 2 ≡ 1 }
    ensures { result ≡ iterate (symbol_step 0 y m) n x }
{
    let mut x = x;
    let shift = m.leading_zeros();
    'steps: for _ in 0..n {
        let term = odd_symbol(BY_SUBTRACTION, x, m);
        x = y.wrapping_mul(x).wrapping_add(term) >> shift;
    }
    x
}

fn odd_symbol(by_subtraction: bool, v: u64, m: u64) -> u64
    requires { m % 2 ≡ 1 }
    ensures { result ≡ symbol_number (checked_jacobi_of (pos v) (pos m)) }
{
    if by_subtraction {
        subtracted(v, m)
    } else {
        halved(v, m)
    }
}

/// A step of the Jacobi symbol, by `jacobi`. Condition: m is odd.
#[unsafe(no_mangle)]
pub extern "C" fn bench_jacobi(x: u64, y: u64, m: u64, n: u64) -> u64
    requires { m % 2 ≡ 1 }
    ensures { result ≡ iterate (symbol_step 0 y m) n x }
{
    odd_steps::<false>(x, y, m, n)
}

/// The same by the loop of subtractions. Condition: m is odd.
#[unsafe(no_mangle)]
pub extern "C" fn bench_jacobi_by_subtraction(x: u64, y: u64, m: u64, n: u64) -> u64
    requires { m % 2 ≡ 1 }
    ensures { result ≡ iterate (symbol_step 0 y m) n x }
{
    odd_steps::<true>(x, y, m, n)
}
