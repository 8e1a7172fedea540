//! The paths: division by a reciprocal, exact division and Montgomery's reduction, written and proved once for every
//! width.
//!
//! What was precomputed of a divisor is passed as arguments.

ghost use Rattle.std.specs.Prelude.{◌≡◌, ℕ, ◌+◌, ◌-◌, ◌*◌, ◌/◌, ◌%◌, ◌^◌, ◌<◌, ◌≤◌};
ghost use Rattle.modular_word.specs.Division.{IsDivision, IsExactQuotient};
ghost use Rattle.modular_word.specs.Reciprocals.{IsReciprocal, IsMultiplier, IsExactDivisor};
ghost use Rattle.modular_word.specs.Reduction.{IsReduction, IsNegatedInverse};

use crate::path_word::PathWord;

/// The word whose low n bits are ones: 2^n - 1.
///
/// # Preconditions
///
/// - n is at most the width
#[tactic(auto, using(crate::proofs::Shifts::ones_shifted))]
pub fn ones<T: PathWord>(n: u32) -> T
    requires { n ≤ T.width }
    ensures { T.number result + 1 ≡ 2 ^ n }
{
    if n == 0 {
        T::zero()
    } else {
        T::zero().wrapping_sub(T::one()).shift_right(T::bits() - n)
    }
}

/// The word 2.
pub fn two<T: PathWord>() -> T
    ensures { T.number result ≡ 2 }
{
    T::one().plus(T::one())
}

// rust: crate::additions::with_constants! {
/// Quotient and remainder of a double word by a divisor d whose top bit is set, by the reciprocal of d.
///
/// Source: Möller and Granlund, "Improved division by invariant integers", algorithm 4.
///
/// # Preconditions
///
/// - `reciprocal` is the reciprocal of d
/// - the high word of the dividend is below d
pub fn div_2by1<T: PathWord>(d: T, reciprocal: T, a: T::Double) -> (T, T)
    requires reciprocal { IsReciprocal T.base (T.number d) (T.number reciprocal) }
    requires high { T.double_number a < T.number d * T.base }
    ensures { IsDivision (T.double_number a) (T.number d) (T.number result.0) (T.number result.1) }
{
    let (low, high) = T::split(a);
    let (q0, q1) = T::split(T::double_plus(reciprocal.product(high), a));
    // The remainders for both candidate quotients are computed before the comparison, so that compilers select one
    // without a branch, which would mispredict often.
    let more = low.wrapping_sub(q1.wrapping_mul(d));
    let less = more.wrapping_sub(d);
    let mut q = q1.wrapping_add(T::one());
    let mut r = less;
    if q0.is_below(less) {
        q = q1;
        r = more;
    }
    if !r.is_below(d) {
        q = q.wrapping_add(T::one());
        r = r.wrapping_sub(d);
    }
    (q, r)
}

// The quotient of a word by a divisor, by the divisor's multiplier and shift.
fn quotient_1by1<T: PathWord>(d: T, multiplier: T, shift: u32, a: T) -> T
    requires { IsMultiplier T.width T.base (T.number d) (T.number multiplier) shift }
    ensures at_most { T.number result * T.number d ≤ T.number a }
    ensures above { T.number a < T.number result * T.number d + T.number d }
    ensures fits { T.number a < T.base }
{
    // rust: let _ = d;
    let (_, t) = T::split(multiplier.product(a));
    t.plus(a.minus(t).shift_right(1)).shift_right(shift)
}

/// Quotient and remainder of a word by a divisor, by the divisor's multiplier and shift.
///
/// Source: Granlund and Montgomery, "Division by invariant integers using multiplication",
/// figure 4.1.
///
/// # Preconditions
///
/// - `multiplier` and `shift` are those of d
pub fn div_1by1<T: PathWord>(d: T, multiplier: T, shift: u32, a: T) -> (T, T)
    requires { IsMultiplier T.width T.base (T.number d) (T.number multiplier) shift }
    ensures { IsDivision (T.number a) (T.number d) (T.number result.0) (T.number result.1) }
{
    let q = quotient_1by1(d, multiplier, shift, a);
    let r = a.minus(q.times(d));
    (q, r)
}
// rust: }

/// The quotient of a word by an odd divisor d, by the inverse of d; `None` exactly where d doesn't divide it.
///
/// Source: Granlund and Montgomery, "Division by invariant integers using multiplication",
/// section 9.
///
/// # Preconditions
///
/// - `inverse` is the inverse of d modulo the base, and `limit` the greatest quotient of a word by d
pub fn exact_1<T: PathWord>(d: T, inverse: T, limit: T, n: T) -> Option<T>
    requires { IsExactDivisor T.base (T.number d) (T.number inverse) (T.number limit) }
    ensures { IsExactQuotient T.number (T.number n) (T.number d) result }
{
    // rust: let _ = d;
    let q = n.wrapping_mul(inverse);
    if limit.is_below(q) { None } else { Some(q) }
}

/// The quotient of a double word by an odd divisor d, by the inverse of d; `None` exactly where d doesn't divide
/// it.
///
/// Source: that of [`exact_1`], applied to one word at a time from the lowest.
///
/// # Preconditions
///
/// - the conditions of `exact_1` hold
pub fn exact_2<T: PathWord>(d: T, inverse: T, limit: T, n: T::Double) -> Option<T::Double>
    requires { IsExactDivisor T.base (T.number d) (T.number inverse) (T.number limit) }
    ensures { IsExactQuotient T.double_number (T.double_number n) (T.number d) result }
{
    let (n0, n1) = T::split(n);
    let q0 = n0.wrapping_mul(inverse);
    let (_, h) = T::split(q0.product(d));
    if n1.is_below(h) {
        return None;
    }
    let q1 = exact_1(d, inverse, limit, n1.minus(h))?;
    Some(T::merge(q0, q1))
}

/// The x with m * x = -1 modulo the base.
///
/// m is its own inverse modulo 8, and each step doubles the number of correct bits.
///
/// Source: Dumas, "On Newton-Raphson iteration for multiplicative inverses modulo prime powers".
///
/// # Conditions
///
/// - (debug) m is odd
///
/// # Examples
///
/// ```
/// use num_modular::monty::neg_mod_inv::neginv;
///
/// assert_eq!(neginv(3u8), 85); // 3 * 85 = 255
/// ```
// rust: #[cfg_attr(debug_assertions, track_caller)]
pub fn neginv<T: PathWord>(m: T) -> T
    requires { T.number m % 2 ≡ 1 }
    ensures { IsNegatedInverse T.base (T.number m) (T.number result) }
{
    // rust: debug_assert!(m.is_odd(), "m must be odd");
    let two = two::<T>();
    let mut inverse = m;
    let mut bits = 3;
    'lift: while bits < T::bits() {
        inverse = inverse.wrapping_mul(two.wrapping_sub(m.wrapping_mul(inverse)));
        bits += bits;
    }
    T::zero().wrapping_sub(inverse)
}

/// The word x for which the low word of t + x·m is 0: the first step of Montgomery's reduction.
///
/// # Preconditions
///
/// - m times `negated_inverse` is -1 modulo the base
pub fn clearing<T: PathWord>(m: T, negated_inverse: T, t: T::Double) -> T
    requires { IsNegatedInverse T.base (T.number m) (T.number negated_inverse) }
    ensures low { (T.double_number t + T.number result * T.number m) % T.base ≡ 0 }
    ensures fits { T.number result < T.base }
{
    // rust: let _ = m;
    let (low, _) = T::split(t);
    low.wrapping_mul(negated_inverse)
}

// The high word modulo m of the sum of t and `multiple`, whose low word is 0. Single words are added: the high words,
// and the carry of the low ones, which add up to 0 or to the base. Conditions: t and `multiple` are below m times the
// base.
fn high_sum_by_words<T: PathWord>(t: T::Double, multiple: T::Double, m: T) -> T
    requires cleared { (T.double_number t + T.double_number multiple) % T.base ≡ 0 }
    requires first { T.double_number t < T.base * T.number m }
    requires second { T.double_number multiple < T.base * T.number m }
    requires fits { T.number m < T.base }
    ensures { T.number result ≡ ((T.double_number t + T.double_number multiple) / T.base) % T.number m }
{
    let (_, high) = T::split(t);
    let (low, more) = T::split(multiple);
    let carried = if low.is_zero_word() {
        more
    } else {
        more.plus(T::one())
    };
    let (rest, is_above) = high.wrapping_sub(m).overflowing_add(carried);
    if is_above { rest } else { rest.wrapping_add(m) }
}

// The same by one sum of double words, to which the base less m is added as a high word: it overflows exactly where
// the high word of the sum is at least m.
fn high_sum_by_double_words<T: PathWord>(t: T::Double, multiple: T::Double, m: T) -> T
    requires cleared { (T.double_number t + T.double_number multiple) % T.base ≡ 0 }
    requires first { T.double_number t < T.base * T.number m }
    requires second { T.double_number multiple < T.base * T.number m }
    requires fits { T.number m < T.base }
    ensures { T.number result ≡ ((T.double_number t + T.double_number multiple) / T.base) % T.number m }
{
    let complement = T::zero().wrapping_sub(m);
    let more = T::double_plus(t, T::merge(T::zero(), complement));
    let (sum, is_above) = T::double_overflowing_add(more, multiple);
    let (_, rest) = T::split(sum);
    if is_above { rest } else { rest.wrapping_add(m) }
}

/// The second step of Montgomery's reduction of t, given the word x of [`clearing`] and the product x·m: (t + x·m)
/// divided by the base, less m where that is at least m.
///
/// The caller passes x·m because a modulus of a special form may compute it faster.
///
/// The sum may overflow a double word; its carry is counted. Where a double word is longer than a machine word, adding
/// single words is faster.
///
/// # Preconditions
///
/// - t is below m times the base, and the sum of t and x·m has 0 in the low word
pub fn reduce_by<T: PathWord>(m: T, t: T::Double, x: T, multiple: T::Double) -> T
    requires below { T.double_number t < T.base * T.number m }
    requires multiple { T.double_number multiple ≡ T.number x * T.number m }
    requires low { (T.double_number t + T.number x * T.number m) % T.base ≡ 0 }
    requires x_fits { T.number x < T.base }
    ensures { IsReduction T.base (T.number m) (T.double_number t) (T.number result) }
{
    // Reading m gives the proof that it fits a word.
    let _ = m.is_below(x);
    if T::bits() > 32 {
        high_sum_by_words(t, multiple, m)
    } else {
        high_sum_by_double_words(t, multiple, m)
    }
}

/// Montgomery's reduction of a double word t modulo an odd m, below m.
///
/// Source: Handbook of Applied Cryptography, algorithm 14.32, for one word.
///
/// # Preconditions
///
/// - m times `negated_inverse` is -1 modulo the base, and t is below m times the base
pub fn redc<T: PathWord>(m: T, negated_inverse: T, t: T::Double) -> T
    requires inverse { IsNegatedInverse T.base (T.number m) (T.number negated_inverse) }
    requires below { T.double_number t < T.base * T.number m }
    ensures { IsReduction T.base (T.number m) (T.double_number t) (T.number result) }
{
    let x = clearing(m, negated_inverse, t);
    reduce_by(m, t, x, x.product(m))
}
