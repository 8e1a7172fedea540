//! The Jacobi symbol by halving and swapping, with the number of these steps.

ghost use Rattle.std.specs.Prelude.{◌≡◌, ℕ, ◌+◌, ◌*◌, ◌%◌, ◌^◌, ◌<◌, ◌≤◌, pos};
ghost use Rattle.modular_symbols.specs.Jacobi.{jacobi};
ghost use Rattle.modular_symbols.specs.Kronecker.{signed};
ghost use Rattle.modular_symbols.specs.Steps.{jacobi_steps};
ghost use Rattle.modular_word.specs.Residues.{residue};

use crate::turns::{is_turned_by_swap, is_turned_by_twos, last_symbol};
use modular_prim::abs::signed_residue;
use modular_prim::digits;
use modular_prim::plain_word::PlainWord;
// rattle: line
use modular_word::path_word::PathWord;
// rattle: line
use modular_word::ring_word::RingWord;

// Whether replacing `a`·2^twos over n by n over `a` negates the symbol.
fn is_turned<T: PlainWord>(a: T, twos: u32, n: T) -> bool
    requires a_odd { T.number a % 2 ≡ 1 }
    requires n_odd { T.number n % 2 ≡ 1 }
    ensures { jacobi (pos (T.number a * 2 ^ twos)) (T.number n)
        ≡ signed result (jacobi (pos (T.number n)) (T.number a)) }
{
    is_turned_by_twos(twos, n) ^ is_turned_by_swap(a, n)
}

// The odd part of a, and the exponent of 2 in a. Words of at most 16 bits are halved one bit at a time: the processor
// predicts most of these branches, while counting the zeros and shifting delays the division that follows. Condition: a
// is at least 1.
fn odd_part<T: PlainWord>(a: T) -> (T, u32)
    requires { 1 ≤ T.number a }
    ensures odd { T.number result.0 % 2 ≡ 1 }
    ensures whole { T.number result.0 * 2 ^ result.1 ≡ T.number a }
{
    if T::bits() <= 16 {
        odd_part_by_halves(a)
    } else {
        let twos = a.trailing_zeros();
        (a.shift_right(twos), twos)
    }
}

// The odd part of a, and the exponent of 2 in a. Condition: a is at least 1.
fn odd_part_by_halves<T: PlainWord>(a: T) -> (T, u32)
    requires { 1 ≤ T.number a }
    ensures odd { T.number result.0 % 2 ≡ 1 }
    ensures whole { T.number result.0 * 2 ^ result.1 ≡ T.number a }
{
    // Reading the word gives the proof that it fits its width.
    let _ = a.is_zero_word();
    let mut odd = a;
    let mut twos = 0u32;
    'halves: while !odd.is_odd() {
        odd = odd.half();
        twos += 1;
    }
    (odd, twos)
}

// The remainder of n by d. Words of at most 16 bits aren't divided by 1. Condition: d is at least 1.
fn rest<T: PlainWord>(n: T, d: T) -> T
    requires { 1 ≤ T.number d }
    ensures rest { T.number result ≡ T.number n % T.number d }
    ensures fits { T.number n < T.base }
{
    if T::bits() <= 16 && d == T::one() {
        // Reading the word gives the proof that it fits its width.
        let _ = n.is_below(d);
        T::zero()
    } else {
        digits::rest(n, d)
    }
}

// The Jacobi symbol of a over n, and the number of halvings and swaps. Condition: n is odd and above a.
fn halve_and_swap<T: PlainWord>(a: T, n: T) -> (i8, u32)
    requires odd { T.number n % 2 ≡ 1 }
    requires below { T.number a < T.number n }
    ensures symbol { result.0 ≡ jacobi (pos (T.number a)) (T.number n) }
    ensures count { result.1 ≡ jacobi_steps (T.number a) (T.number n) }
    ensures at_most { result.1 ≤ 2 * T.width }
{
    let mut above = a;
    let mut below = n;
    let mut turned = false;
    let mut count = 0;
    'swaps: while !above.is_zero_word() {
        let (odd, twos) = odd_part(above);
        turned ^= is_turned(odd, twos, below);
        above = rest(below, odd);
        below = odd;
        count += twos + 1;
    }
    (last_symbol(below, turned), count)
}

/// The Jacobi symbol over n of a number, given by its sign and its magnitude.
///
/// # Preconditions
///
/// - n is odd
pub fn jacobi_by_halving<T: PlainWord>(a_minus: bool, a: T, n: T) -> i8
    requires { T.number n % 2 ≡ 1 }
    ensures { result ≡ jacobi (signed a_minus (pos (T.number a))) (T.number n) }
{
    jacobi_counted(a_minus, a, n).0
}

/// The Jacobi symbol over n of a number, given by its sign and its magnitude, and the number of halvings and swaps,
/// counted from its residue.
///
/// Each turn of the loop removes all factors 2 of the upper number, swaps the two numbers and reduces, by the
/// division of Euclid's algorithm.
///
/// Source: Cohen, "A Course in Computational Algebraic Number Theory", algorithm 1.4.10, without its first steps.
///
/// # Preconditions
///
/// - n is odd
pub fn jacobi_counted<T: PlainWord>(a_minus: bool, a: T, n: T) -> (i8, u32)
    requires { T.number n % 2 ≡ 1 }
    ensures symbol { result.0 ≡ jacobi (signed a_minus (pos (T.number a))) (T.number n) }
    ensures count { result.1
        ≡ jacobi_steps (residue (T.number n) (signed a_minus (pos (T.number a)))) (T.number n) }
    ensures at_most { result.1 ≤ 2 * T.width }
{
    halve_and_swap(signed_residue(a_minus, a, n), n)
}

/// Steps to a Jacobi symbol: 0 takes none.
///
/// 2^z times an odd number takes z halvings, a swap, and the steps of the residue after the swap. 2 to the number of
/// steps is at most 2·a·n, for a from 1 to n - 1.
#[tactic(auto, using(crate::proofs::StepCounts::step_laws))]
pub fn step_laws()
    ensures none { (n : ℕ) → jacobi_steps 0 n ≡ 0 }
    ensures turn { (odd z n : ℕ) → odd % 2 ≡ 1 → jacobi_steps (odd * 2 ^ z) n ≡ z + 1 + jacobi_steps (n % odd) odd }
    ensures few { (a n : ℕ) → 0 < a → a < n → 2 ^ jacobi_steps a n ≤ 2 * (a * n) }
{}
