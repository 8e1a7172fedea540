//! The Jacobi symbol by subtraction, without a division in its loop and without a count of steps.

ghost use Rattle.std.specs.Prelude.{◌≡◌, ◌≢◌, ◌+◌, ◌/◌, ◌%◌, ◌<◌, ◌==◌, pos};
ghost use Rattle.modular_symbols.specs.Jacobi.{jacobi};
ghost use Rattle.modular_symbols.specs.Kronecker.{signed};

use crate::low_part::LowPart;
use crate::turns::{last_symbol, turn_by_swap, turn_by_twos};
use modular_prim::abs::signed_residue;
// rattle: line
use modular_prim::plain_word::PlainWord;
// rattle: line
use modular_word::path_word::PathWord;
// rattle: line
use modular_word::ring_word::RingWord;

// The odd part of a, or of n where a is 0; the lowest bit of the second result is 1 where this negates the symbol
// over n.
fn odd_part<T: LowPart>(a: T, n: T) -> (T, u32)
    requires { T.number n % 2 ≡ 1 }
    ensures odd { T.number result.0 % 2 ≡ 1 }
    ensures symbol { jacobi (pos (T.number a)) (T.number n)
        ≡ signed (result.1 % 2 == 1) (jacobi (pos (T.number result.0)) (T.number n)) }
{
    let some = if a.is_zero_word() { n } else { a };
    let twos = some.trailing_zeros();
    (some.shift_right(twos), turn_by_twos(twos, n))
}

// The odd part of the difference of two odd numbers, and the smaller of them. The other results say which changes
// of sign are pending: the second bit of one has those by swaps, the lowest bit of the other those by factors 2.
//
// The trailing zeros of the wrapped difference are those of the difference, so that counting them doesn't wait for
// the comparison. The choices are selects: a branch would mispredict half the time.
fn one_difference<T: LowPart>(a: T, n: T, swaps: u32, twos: u32) -> (T, T, u32, u32)
    requires a_odd { T.number a % 2 ≡ 1 }
    requires n_odd { T.number n % 2 ≡ 1 }
    requires differ { T.number a ≢ T.number n }
    ensures above_odd { T.number result.0 % 2 ≡ 1 }
    ensures below_odd { T.number result.1 % 2 ≡ 1 }
    ensures symbol { signed ((swaps / 2 + twos) % 2 == 1) (jacobi (pos (T.number a)) (T.number n))
        ≡ signed ((result.2 / 2 + result.3) % 2 == 1) (jacobi (pos (T.number result.0)) (T.number result.1)) }
    ensures less { T.number result.0 + T.number result.1 < T.number a + T.number n }
{
    let less = a.is_below(n);
    let zeros = a.wrapping_sub(n).trailing_zeros();
    let (difference, smaller) = if less {
        (n.minus(a), a)
    } else {
        (a.minus(n), n)
    };
    let all_swaps = swaps ^ turn_by_swap(less, a, n);
    let all_twos = twos ^ turn_by_twos(zeros, smaller);
    (difference.shift_right(zeros), smaller, all_swaps, all_twos)
}

// The Jacobi symbol of a over n. Condition: n is odd.
//
// The changes of sign by swaps and by factors 2 are combined by exclusive or, in a word each, so that no step has
// to shift one to the other's bit; only that bit of each counts. They are read once, at the end.
fn subtract_and_halve<T: LowPart>(a: T, n: T) -> i8
    requires { T.number n % 2 ≡ 1 }
    ensures { result ≡ jacobi (pos (T.number a)) (T.number n) }
{
    let (mut above, mut twos) = odd_part(a, n);
    let mut below = n;
    let mut swaps = 0;
    'differences: while above != below {
        let (difference, smaller, all_swaps, all_twos) = one_difference(above, below, swaps, twos);
        above = difference;
        below = smaller;
        swaps = all_swaps;
        twos = all_twos;
    }
    last_symbol(below, ((swaps >> 1) ^ twos) % 2 == 1)
}

/// The Jacobi symbol of a, or of -a if `a_minus`: the number over n is given by its sign and its magnitude.
///
/// Each turn of the loop replaces the greater of two odd numbers by the odd part of their difference, until they
/// are equal. The only division is the reduction of a magnitude that isn't below n.
///
/// Source: Shallit and Sorenson, "A binary algorithm for the Jacobi symbol", ACM SIGSAM Bulletin 27, 1993.
///
/// # Conditions
///
/// - (debug) n is odd
///
/// # Examples
///
/// ```
/// use num_modular::prim::by_subtraction::jacobi;
///
/// assert_eq!(jacobi(false, 2u64, 15), 1);
/// assert_eq!(jacobi(true, 1u64, 7), -1); // of -1 over 7
/// ```
// rust: #[cfg_attr(debug_assertions, track_caller)]
pub fn jacobi_by_subtraction<T: LowPart>(a_minus: bool, a: T, n: T) -> i8
    requires { T.number n % 2 ≡ 1 }
    ensures { result ≡ jacobi (signed a_minus (pos (T.number a))) (T.number n) }
{
    // rust: debug_assert!(n.is_odd(), "n must be odd");
    subtract_and_halve(signed_residue(a_minus, a, n), n)
}
