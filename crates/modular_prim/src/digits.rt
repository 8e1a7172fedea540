//! The division step of Euclid's algorithm.
//!
//! Its quotients are nearly always small, so it computes them in digits of base 4, without a division instruction.

ghost use Rattle.std.specs.Prelude.{◌≡◌, ◌+◌, ◌*◌, ◌%◌, ◌^◌, ◌<◌, ◌≤◌, IsTrue};
ghost use Rattle.modular_word.specs.Division.{IsDivision};

use crate::plain_word::PlainWord;
use modular_word::path_word::PathWord;
use modular_word::paths::two;
// rattle: line
use modular_word::ring_word::RingWord;

// The digit k and the rest of a, if a is at least the multiple k·d; else the pair `before`, for a smaller digit.
//
// A function of its own that chooses between plain values, so that compilers turn it into a select: a branch would
// mispredict often.
fn reached<T: PathWord>(a: T, multiple: T, k: T, before: (T, T)) -> (T, T)
    ensures above { T.number multiple ≤ T.number a →
        (T.number result.0 ≡ T.number k) × (T.number result.1 + T.number multiple ≡ T.number a) }
    ensures below { T.number a < T.number multiple → result ≡ before }
{
    if a.is_below(multiple) {
        before
    } else {
        (k, a.minus(multiple))
    }
}

// The quotient of a by d, a digit of base 4, and the remainder. Conditions: a is below 4d, and 4d is at most the base.
fn digit<T: PathWord>(a: T, d: T) -> (T, T)
    requires below { T.number a < 4 * T.number d }
    requires fits { 4 * T.number d ≤ T.base }
    ensures { IsDivision (T.number a) (T.number d) (T.number result.0) (T.number result.1) }
{
    let one = T::one();
    let two = two::<T>();
    let twice = d.plus(d);
    let thrice = twice.plus(d);
    let from_one = reached(a, d, one, (T::zero(), a));
    let from_two = reached(a, twice, two, from_one);
    reached(a, thrice, two.plus(one), from_two)
}

// Quotient and remainder of a by d, in two digits. Conditions: a is below 16d, and 16d is at most the base.
fn two_digits<T: PathWord>(a: T, d: T) -> (T, T)
    requires below { T.number a < 16 * T.number d }
    requires fits { 16 * T.number d ≤ T.base }
    ensures { IsDivision (T.number a) (T.number d) (T.number result.0) (T.number result.1) }
{
    let (high, left) = digit(a, d.shift_left(2));
    let (low, rest) = digit(left, d);
    (high.shift_left(2).plus(low), rest)
}

// The remainder of a by d, in four digits. Conditions: a is below 256d, and 256d is at most the base.
fn rest_by_four_digits<T: PathWord>(a: T, d: T) -> T
    requires below { T.number a < 256 * T.number d }
    requires fits { 256 * T.number d ≤ T.base }
    ensures { T.number result ≡ T.number a % T.number d }
{
    let (_, left) = two_digits(a, d.shift_left(4));
    two_digits(left, d).1
}

// The base divided by 2^by. Condition: the exponent is from 1 to 8.
fn part_of_base<T: PathWord>(by: u32) -> T
    requires some { 1 ≤ by }
    requires few { by ≤ 8 }
    ensures { 2 ^ by * T.number result ≡ T.base }
{
    T::one().shift_left(T::bits() - by)
}

// Whether the quotient has at most two digits and 16d fits the base. Always false for words of at most 16 bits,
// where the division instruction is as fast.
fn has_two_digits<T: PathWord>(a: T, d: T) -> bool
    ensures below { IsTrue result → T.number a < 16 * T.number d }
    ensures room { IsTrue result → 16 * T.number d ≤ T.base }
{
    if T::bits() > 16 {
        if d.is_below(part_of_base::<T>(4)) {
            return a.shift_right(4).is_below(d);
        }
    }
    false
}

/// Quotient and remainder of a by d.
///
/// Where the quotient is below 16 and words have more than 16 bits, they are computed in two digits of base 4, else by
/// a division instruction.
///
/// In Euclid's algorithm 9 quotients of 10 are below 16 (Knuth, "The Art of Computer Programming", section 4.5.3).
///
/// # Preconditions
///
/// - d is at least 1
pub fn division<T: PlainWord>(a: T, d: T) -> (T, T)
    requires { 1 ≤ T.number d }
    ensures division { IsDivision (T.number a) (T.number d) (T.number result.0) (T.number result.1) }
    ensures fits { T.number a < T.base }
{
    if has_two_digits(a, d) {
        two_digits(a, d)
    } else {
        (a.quotient(d), a.remainder(d))
    }
}

// Whether the quotient is below 16. Always false for words of at most 16 bits.
fn has_short_quotient<T: PathWord>(a: T, d: T) -> bool
    ensures below { IsTrue result → T.number a < 16 * T.number d }
    ensures fits { IsTrue result → T.number a < T.base }
{
    if T::bits() > 16 {
        return a.shift_right(4).is_below(d);
    }
    false
}

// The remainder where the quotient is below 16: in two digits where 16d fits the base. Condition: a is below 16d.
#[tactic(auto, using(crate::proofs::DigitSteps::remainder_is))]
fn rest_of_short_quotient<T: PlainWord>(a: T, d: T) -> T
    requires { T.number a < 16 * T.number d }
    ensures { T.number result ≡ T.number a % T.number d }
{
    if d.is_below(part_of_base::<T>(4)) {
        two_digits(a, d).1
    } else {
        a.remainder(d)
    }
}

// Whether the quotient has at most four digits and 256d fits the base. Always false for words of at most 32 bits,
// where the division instruction is as fast.
fn has_four_digits<T: PathWord>(a: T, d: T) -> bool
    ensures below { IsTrue result → T.number a < 256 * T.number d }
    ensures room { IsTrue result → 256 * T.number d ≤ T.base }
    ensures fits { IsTrue result → T.number a < T.base }
{
    if T::bits() > 32 {
        if a.shift_right(8).is_below(d) {
            return d.is_below(part_of_base::<T>(8));
        }
    }
    false
}

/// The remainder of a by d: in two digits of base 4 where the quotient is below 16 and words have more than 16
/// bits, in four where it is below 256 and words have more than 32, else by a division instruction.
///
/// # Preconditions
///
/// - d is at least 1
pub fn rest<T: PlainWord>(a: T, d: T) -> T
    requires { 1 ≤ T.number d }
    ensures rest { T.number result ≡ T.number a % T.number d }
    ensures fits { T.number a < T.base }
{
    if has_short_quotient(a, d) {
        rest_of_short_quotient(a, d)
    } else if has_four_digits(a, d) {
        rest_by_four_digits(a, d)
    } else {
        a.remainder(d)
    }
}
