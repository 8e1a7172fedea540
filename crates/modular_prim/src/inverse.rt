//! The inverse modulo an odd m by subtraction, without a division in its loop and without a count of steps.

ghost use Rattle.std.specs.Prelude.{◌≡◌, ◌≢◌, ℕ, ◌+◌, ◌*◌, ◌%◌, ◌^◌, ◌<◌, ◌≤◌};
ghost use Rattle.modular_word.specs.Congruence.{Congruent};
ghost use Rattle.modular_word.specs.Inverses.{IsInversion};
ghost use Rattle.modular_prim.specs.Differences.{IsDifferencePair, PairFits};

use crate::euclid::invm;
use crate::plain_word::PlainWord;
use crate::residues::reduced;
use modular_word::path_word::PathWord;
use modular_word::paths::{neginv, redc};
// rattle: line
use modular_word::ring_word::RingWord;

// Two numbers that the algorithm reduces to the greatest common divisor of x and m, each with a factor. Modulo m,
// and multiplied by 2^twos, one is its factor times x, the other is minus its factor times x; `minus` tells which.
#[derive(Clone, Copy)]
// rust instead: struct Pair<T> {
struct Pair<T: PathWord> {
    above: T,
    below: T,
    above_factor: T,
    below_factor: T,
    twos: u32,
    minus: bool,
}

// The odd part of the difference of the two numbers, and the smaller of the two.
//
// The trailing zeros of the wrapped difference are those of the difference, so that counting them doesn't wait for
// the comparison. The choice is between plain values, so that compilers turn it into a select: a branch would
// mispredict half the time.
fn one_difference<T: PathWord>(pair: Pair<T>) -> Pair<T>
    requires differ { T.number pair.above ≢ T.number pair.below }
    requires fits { PairFits T.base (T.number pair.above) (T.number pair.below) (T.number pair.above_factor)
        (T.number pair.below_factor) pair.twos }
    ensures pair { (m x : ℕ)
        → IsDifferencePair m x (T.number pair.above) (T.number pair.below) (T.number pair.above_factor)
        (T.number pair.below_factor) pair.twos pair.minus
        → IsDifferencePair m x (T.number result.above) (T.number result.below) (T.number result.above_factor)
        (T.number result.below_factor) result.twos result.minus }
    ensures fits { PairFits T.base (T.number result.above) (T.number result.below) (T.number result.above_factor)
        (T.number result.below_factor) result.twos }
    ensures less { T.number result.above + T.number result.below < T.number pair.above + T.number pair.below }
{
    let less = pair.above.is_below(pair.below);
    let zeros = pair.above.wrapping_sub(pair.below).trailing_zeros();
    let chosen = if less {
        (pair.below.minus(pair.above), pair.above, pair.above_factor)
    } else {
        (pair.above.minus(pair.below), pair.below, pair.below_factor)
    };
    let (difference, smaller, factor) = chosen;
    Pair {
        above: difference.shift_right(zeros),
        below: smaller,
        above_factor: pair.above_factor.plus(pair.below_factor),
        below_factor: factor.shift_left(zeros),
        twos: pair.twos + zeros,
        minus: pair.minus != less,
    }
}

// The pair of x and m once its numbers are equal. Conditions: x is at least 1 and below m.
fn last_pair<T: PathWord>(x: T, m: T) -> Pair<T>
    requires some { 0 < T.number x }
    requires below { T.number x < T.number m }
    requires fits { T.number m < T.base }
    ensures pair { IsDifferencePair (T.number m) (T.number x) (T.number result.above) (T.number result.below)
        (T.number result.above_factor) (T.number result.below_factor) result.twos result.minus }
    ensures equal { T.number result.above ≡ T.number result.below }
    ensures some { 0 < T.number result.above }
    ensures factor_some { 0 < T.number result.above_factor }
    ensures factor_below { T.number result.above_factor < T.number m }
{
    let twos = x.trailing_zeros();
    let mut pair = Pair {
        above: x.shift_right(twos),
        below: m,
        above_factor: T::one(),
        below_factor: T::zero(),
        twos: twos,
        minus: false,
    };
    'differences: while pair.above != pair.below {
        pair = one_difference(pair);
    }
    pair
}

// The residue of w divided by 2^twos, modulo an odd m. Condition: w is below m.
fn without_twos<T: PathWord>(w: T, twos: u32, m: T) -> T
    requires odd { T.number m % 2 ≡ 1 }
    requires below { T.number w < T.number m }
    ensures value { Congruent (T.number m) (T.number result * 2 ^ twos) (T.number w) }
    ensures below { T.number result < T.number m }
{
    let negated_inverse = neginv(m);
    let mut rest = w;
    let mut left = twos;
    'words: while T::bits() < left {
        rest = redc(m, negated_inverse, T::merge(rest, T::zero()));
        left -= T::bits();
    }
    if left == 0 {
        rest
    } else {
        redc(m, negated_inverse, rest.shift_left_wide(T::bits() - left))
    }
}

// The inverse of a number below an odd m, below m; `None` exactly where there is none.
fn inverse_below<T: PathWord>(x: T, m: T) -> Option<T>
    requires odd { T.number m % 2 ≡ 1 }
    requires below { T.number x < T.number m }
    ensures { IsInversion T.number (T.number m) (T.number x) result }
{
    let has_units = T::one().is_below(m);
    if x.is_zero_word() {
        return if has_units { None } else { Some(x) };
    }
    let pair = last_pair(x, m);
    if pair.above != T::one() {
        return None;
    }
    let factor = if pair.minus {
        m.minus(pair.above_factor)
    } else {
        pair.above_factor
    };
    Some(without_twos(factor, pair.twos, m))
}

/// The inverse of a modulo m; `None` exactly where there is none.
///
/// a may be above m.
///
/// Each turn of the loop replaces the greater of two numbers by the odd part of their difference, until they are
/// equal. It keeps their factors up to a power of two, which Montgomery's reduction removes at the end. The only
/// division is the reduction of an a that isn't below m.
///
/// Source: Kaliski, "The Montgomery inverse and its applications", IEEE Transactions on Computers 44, 1995.
///
/// # Conditions
///
/// - (debug) m is odd
///
/// # Examples
///
/// ```
/// use num_modular::prim::by_subtraction::inverse;
///
/// assert_eq!(inverse(3u64, 7), Some(5)); // 3 * 5 = 15
/// assert_eq!(inverse(6u64, 9), None); // 3 divides both
/// ```
// rust: #[cfg_attr(debug_assertions, track_caller)]
pub fn inverse_by_subtraction<T: PlainWord>(a: T, m: T) -> Option<T>
    requires { T.number m % 2 ≡ 1 }
    ensures { IsInversion T.number (T.number m) (T.number a) result }
{
    // rust: debug_assert!(m.is_odd(), "m must be odd");
    inverse_below(reduced(a, m), m)
}

/// The inverse of a modulo m, below m; `None` exactly where there is none.
///
/// For an odd m it is computed by subtraction, as in [`inverse_by_subtraction`], for an even one as in [`invm`].
///
/// # Preconditions
///
/// - m is at least 1
pub fn fast_inverse<T: PlainWord>(a: T, m: T) -> Option<T>
    requires { 1 ≤ T.number m }
    ensures { IsInversion T.number (T.number m) (T.number a) result }
{
    if m.is_odd() {
        inverse_by_subtraction(a, m)
    } else {
        invm(a, m)
    }
}
