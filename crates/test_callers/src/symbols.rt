//! Callers of the symbols.

ghost use Rattle.std.specs.Prelude.{◌≡◌, pos};
ghost use Rattle.modular_symbols.specs.Jacobi.{jacobi};

use modular_symbols::symbols::ModularSymbols;

/// The Jacobi symbol of 7 over 15: n is odd.
pub fn jacobi_of_seven() -> i8
    ensures { result ≡ jacobi (pos 7) 15 }
{
    7u8.jacobi(&15)
}

/// The Legendre symbol of 3 over 11: 3 to the power 5 is 1 modulo 11.
pub fn legendre_of_three() -> i8
    ensures { result ≡ pos 1 }
{
    3u8.legendre(&11)
}
