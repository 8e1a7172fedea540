//! What negates a Jacobi symbol: removing a power of 2 from the upper number, and swapping two odd numbers.

ghost use Rattle.std.specs.Prelude.{◌≡◌, ◌≢◌, ℕ, ◌*◌, ◌/◌, ◌%◌, ◌^◌, ◌==◌, ◌||◌, pos, if◌then◌else◌};
ghost use Rattle.modular_symbols.specs.Jacobi.{jacobi};
ghost use Rattle.modular_symbols.specs.Kronecker.{signed};

use crate::low_part::LowPart;
use modular_prim::plain_word::PlainWord;
// rattle: line
use modular_word::path_word::PathWord;
// rattle: line
use modular_word::ring_word::RingWord;

// Whether an odd number is 3 modulo 4.
fn leaves_3<T: PlainWord>(n: T) -> bool
    requires { T.number n % 2 ≡ 1 }
    ensures { result ≡ T.number n % 4 == 3 }
{
    n.half().is_odd()
}

/// Whether the symbol of 2 over an odd number is -1: the number is 3 or 5 modulo 8.
///
/// # Preconditions
///
/// - n is odd
#[tactic(auto, using(crate::proofs::KroneckerSteps::half_more_is_3_or_5))]
pub fn is_minus_over_two<T: PlainWord>(n: T) -> bool
    requires { T.number n % 2 ≡ 1 }
    ensures { result ≡ (T.number n % 8 == 3) || (T.number n % 8 == 5) }
{
    n.half().plus(T::one()).half().is_odd()
}

// Whether removing 2^twos from the upper number negates the symbol over an odd n.
#[tactic(auto, using(crate::proofs::TurnedSymbols::jacobi_twos_by))]
pub(crate) fn is_turned_by_twos<T: PlainWord>(twos: u32, n: T) -> bool
    requires { T.number n % 2 ≡ 1 }
    ensures { (a : ℕ) → jacobi (pos (a * 2 ^ twos)) (T.number n) ≡ signed result (jacobi (pos a) (T.number n)) }
{
    (twos % 2 == 1) & is_minus_over_two(n)
}

// Whether swapping two odd numbers negates the symbol.
#[tactic(auto, using(crate::proofs::TurnedSymbols::jacobi_swapped_by))]
pub(crate) fn is_turned_by_swap<T: PlainWord>(a: T, n: T) -> bool
    requires a_odd { T.number a % 2 ≡ 1 }
    requires n_odd { T.number n % 2 ≡ 1 }
    ensures { jacobi (pos (T.number a)) (T.number n) ≡ signed result (jacobi (pos (T.number n)) (T.number a)) }
{
    leaves_3(a) & leaves_3(n)
}

// The symbol over the last number of a loop, of 0: turned or not over 1, and 0 over a greater one.
pub(crate) fn last_symbol<T: PlainWord>(n: T, turned: bool) -> i8
    ensures one { T.number n ≡ 1 → result ≡ signed turned (pos 1) }
    ensures more { T.number n ≢ 1 → result ≡ pos 0 }
{
    if n == T::one() {
        if turned { -1 } else { 1 }
    } else {
        0
    }
}

// In the lowest bit, whether removing 2^twos from the upper number negates the symbol over an odd n. The other bits
// are unspecified.
#[tactic(auto, using(crate::proofs::TurnedSymbols::jacobi_twos_by, crate::proofs::TurnBits::third_bit_tells_residue_class))]
pub(crate) fn turn_by_twos<T: LowPart>(twos: u32, n: T) -> u32
    requires { T.number n % 2 ≡ 1 }
    ensures { (a : ℕ)
        → jacobi (pos (a * 2 ^ twos)) (T.number n) ≡ signed (result % 2 == 1) (jacobi (pos a) (T.number n)) }
{
    twos & (n.low_part().wrapping_add(2) >> 2)
}

// In the second bit, whether swapping two odd numbers, which the caller does where `swap` is true, negates the
// symbol. The other bits are unspecified.
pub(crate) fn turn_by_swap<T: LowPart>(swap: bool, a: T, n: T) -> u32
    requires a_odd { T.number a % 2 ≡ 1 }
    requires n_odd { T.number n % 2 ≡ 1 }
    ensures { jacobi (pos (T.number a)) (T.number n)
        ≡ signed (result / 2 % 2 == 1)
        (if swap then jacobi (pos (T.number n)) (T.number a) else jacobi (pos (T.number a)) (T.number n)) }
{
    if swap { a.low_part() & n.low_part() } else { 0 }
}
