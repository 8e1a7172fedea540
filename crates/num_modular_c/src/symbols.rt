//! The Legendre, Jacobi and Kronecker symbols, each of them -1, 0 or 1.

ghost use Rattle.std.specs.Prelude.{◌≡◌, pos};
ghost use Rattle.num_modular.specs.Jacobi.{checked_jacobi_of};
ghost use Rattle.num_modular.specs.Kronecker.{kronecker};
ghost use Rattle.num_modular.specs.Legendre.{checked_legendre_of};
ghost use Rattle.num_modular_c.specs.Codes.{Did, IsSymbol};

use crate::codes::{NM_BAD_ARGUMENT, NM_OK};
use num_modular::ModularSymbols;

// Writes a symbol where there is one, and returns the code.
fn answer(found: Option<i8>, symbol: &mut i32) -> u32
    ensures { IsSymbol found result symbol.old symbol.new }
{
    match found {
        Some(value) => {
            *symbol = i32::from(value);
            NM_OK
        }
        None => NM_BAD_ARGUMENT,
    }
}

/// Writes the Jacobi symbol of a over n. `NM_BAD_ARGUMENT`: n is even.
#[unsafe(no_mangle)]
pub extern "C" fn nm_jacobi(a: u64, n: u64, symbol: &mut i32) -> u32
    ensures { IsSymbol (checked_jacobi_of (pos a) (pos n)) result symbol.old symbol.new }
{
    if n % 2 == 0 {
        return NM_BAD_ARGUMENT;
    }
    answer(Some(a.jacobi(&n)), symbol)
}

/// Writes the Jacobi symbol of a over n, both signed. `NM_BAD_ARGUMENT`: n is even or below 1.
#[unsafe(no_mangle)]
pub extern "C" fn nm_jacobi_signed(a: i64, n: i64, symbol: &mut i32) -> u32
    ensures { IsSymbol (checked_jacobi_of a n) result symbol.old symbol.new }
{
    answer(a.checked_jacobi(&n), symbol)
}

/// Writes 0, 1 or -1, where a to the power (n - 1)/2, rounded down, is congruent to 0, 1 or n - 1 modulo n, tried
/// in this order. For an odd prime n it is the Legendre symbol of a over n; the call doesn't test whether n is
/// prime. `NM_BAD_ARGUMENT`: the power is none of these, or n is 0.
#[unsafe(no_mangle)]
pub extern "C" fn nm_legendre(a: u64, n: u64, symbol: &mut i32) -> u32
    ensures { IsSymbol (checked_legendre_of (pos a) (pos n)) result symbol.old symbol.new }
{
    answer(a.checked_legendre(&n), symbol)
}

/// `nm_legendre` of signed numbers. `NM_BAD_ARGUMENT`: as there, or n is below 1.
#[unsafe(no_mangle)]
pub extern "C" fn nm_legendre_signed(a: i64, n: i64, symbol: &mut i32) -> u32
    ensures { IsSymbol (checked_legendre_of a n) result symbol.old symbol.new }
{
    answer(a.checked_legendre(&n), symbol)
}

/// Writes the Kronecker symbol of a over n, which exists for all numbers. Returns `NM_OK`.
#[unsafe(no_mangle)]
pub extern "C" fn nm_kronecker(a: u64, n: u64, symbol: &mut i32) -> u32
    ensures { Did result (symbol.new ≡ kronecker (pos a) (pos n)) }
{
    answer(Some(a.kronecker(&n)), symbol)
}

/// Writes the Kronecker symbol of a over n, both signed. Returns `NM_OK`.
#[unsafe(no_mangle)]
pub extern "C" fn nm_kronecker_signed(a: i64, n: i64, symbol: &mut i32) -> u32
    ensures { Did result (symbol.new ≡ kronecker a n) }
{
    answer(Some(a.kronecker(&n)), symbol)
}
