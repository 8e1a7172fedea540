//! The symbols of two numbers, each given by its sign and its magnitude: one body for all words.

ghost use Rattle.std.specs.Prelude.{◌≡◌, ◌%◌, ◌<◌, ◌≤◌, pos, nat_abs, Some, IsTrue};
ghost use Rattle.modular_symbols.specs.Jacobi.{jacobi, checked_jacobi_of};
ghost use Rattle.modular_symbols.specs.Kronecker.{signed, kronecker_above, kronecker};
ghost use Rattle.modular_symbols.specs.Legendre.{checked_legendre_of};
ghost use Rattle.modular_symbols.specs.Primes.{IsOddPrime};

use crate::counted::checked_jacobi_counted;
use crate::halving::jacobi_by_halving;
use crate::turns::is_minus_over_two;
use modular_prim::abs::signed_residue;
use modular_prim::plain_word::PlainWord;
use modular_prim::power::powm;
// rattle: line
use modular_word::path_word::PathWord;
// rattle: line
use modular_word::ring_word::RingWord;

/// The Jacobi symbol of a number over n.
///
/// # Preconditions
///
/// - n is odd
pub fn jacobi_symbol<T: PlainWord>(a_minus: bool, a: T, n: T) -> i8
    requires { T.number n % 2 ≡ 1 }
    ensures { result ≡ jacobi (signed a_minus (pos (T.number a))) (T.number n) }
{
    jacobi_by_halving(a_minus, a, n)
}

/// The Jacobi symbol; `None` exactly for an even n and for n below 1.
///
/// # Preconditions
///
/// - a negative n has a magnitude of at least 1
pub fn checked_jacobi<T: PlainWord>(a_minus: bool, a: T, n_minus: bool, n: T) -> Option<i8>
    requires { IsTrue n_minus → 0 < T.number n }
    ensures { result ≡ checked_jacobi_of (signed a_minus (pos (T.number a))) (signed n_minus (pos (T.number n))) }
{
    if n_minus {
        return None;
    }
    match checked_jacobi_counted(a_minus, a, n) {
        Some((symbol, _)) => Some(symbol),
        None => None,
    }
}

/// 0, 1 or -1, where a^((n - 1)/2), with the exponent rounded down, is congruent to 0, 1 or n - 1 modulo n, tried in
/// this order; `None` where it is none of these, and for n below 1.
///
/// Over an odd prime it is the Jacobi symbol.
///
/// # Preconditions
///
/// - a negative n has a magnitude of at least 1
pub fn checked_legendre<T: PlainWord>(a_minus: bool, a: T, n_minus: bool, n: T) -> Option<i8>
    requires { IsTrue n_minus → 0 < T.number n }
    ensures class { result ≡ checked_legendre_of (signed a_minus (pos (T.number a)))
        (signed n_minus (pos (T.number n))) }
    ensures prime { IsOddPrime (signed n_minus (pos (T.number n)))
        → result ≡ Some (jacobi (signed a_minus (pos (T.number a))) (nat_abs (signed n_minus (pos (T.number n))))) }
{
    class_of_power(a_minus, a, n_minus, n)
}

// `checked_legendre` without the statement on primes.
fn class_of_power<T: PlainWord>(a_minus: bool, a: T, n_minus: bool, n: T) -> Option<i8>
    requires { IsTrue n_minus → 0 < T.number n }
    ensures { result ≡ checked_legendre_of (signed a_minus (pos (T.number a))) (signed n_minus (pos (T.number n))) }
{
    if n_minus {
        None
    } else if n.is_zero_word() {
        None
    } else {
        let last = n.minus(T::one());
        let power = powm(signed_residue(a_minus, a, n), last.half(), n);
        if power.is_zero_word() {
            Some(0)
        } else if power == T::one() {
            Some(1)
        } else if power == last {
            Some(-1)
        } else {
            None
        }
    }
}

// The symbol, negated where `turned` is true.
fn turned_symbol(symbol: i8, turned: bool) -> i8
    requires { nat_abs symbol ≤ 1 }
    ensures value { result ≡ signed turned symbol }
    ensures small { nat_abs result ≤ 1 }
{
    if turned { -symbol } else { symbol }
}

// The Kronecker symbol over an n that is at least 1.
fn symbol_above<T: PlainWord>(a_minus: bool, a: T, n: T) -> i8
    requires { 0 < T.number n }
    ensures value { result ≡ kronecker_above (signed a_minus (pos (T.number a))) (T.number n) }
    ensures small { nat_abs result ≤ 1 }
{
    if n.is_odd() {
        jacobi_symbol(a_minus, a, n)
    } else if a.is_odd() {
        let twos = n.trailing_zeros();
        let symbol = jacobi_symbol(a_minus, a, n.shift_right(twos));
        turned_symbol(symbol, twos % 2 == 1 && is_minus_over_two(a))
    } else {
        0
    }
}

/// The Kronecker symbol.
///
/// # Preconditions
///
/// - a negative number has a magnitude of at least 1
pub fn kronecker_symbol<T: PlainWord>(a_minus: bool, a: T, n_minus: bool, n: T) -> i8
    requires a_sign { IsTrue a_minus → 0 < T.number a }
    requires n_sign { IsTrue n_minus → 0 < T.number n }
    ensures { result ≡ kronecker (signed a_minus (pos (T.number a))) (signed n_minus (pos (T.number n))) }
{
    if n.is_zero_word() {
        if a == T::one() { 1 } else { 0 }
    } else {
        turned_symbol(symbol_above(a_minus, a, n), a_minus && n_minus)
    }
}
