//! Sums and Montgomery's reduction for a modulus that is known at compile time: tests of the modulus cost nothing.

ghost use Rattle.std.specs.Prelude.{◌≡◌, ◌+◌, ◌*◌, ◌/◌, ◌%◌, ◌^◌, ◌<◌, ◌≤◌};
ghost use Rattle.modular_word.specs.Reduction.{IsReduction, IsNegatedInverse};

use modular_prim::below::add_below;
use modular_reduced::lanes::{reduced_by_sign, sum_by_sign};
use modular_word::path_word::PathWord;
use modular_word::paths::{clearing, reduce_by};
// rattle: line
use modular_word::ring_word::RingWord;

// The residue of a + b. Condition: both are below m.
#[inline(always)]
pub(crate) fn sum_known<T: PathWord>(a: T, b: T, m: T) -> T
    requires left { T.number a < T.number m }
    requires right { T.number b < T.number m }
    ensures { T.number result ≡ (T.number a + T.number b) % T.number m }
{
    if m.has_top_bit() {
        add_below(a, b, m)
    } else {
        sum_by_sign(a, b, m)
    }
}

// The high word modulo m of the sum of t and `multiple`, whose low word is 0. The sum fits a double word. LLVM vectorizes
// the choice by a sign. Conditions: t and `multiple` are below m times the base, and 2m is at most the base.
#[inline(always)]
fn high_sum_by_sign<T: PathWord>(t: T::Double, multiple: T::Double, m: T) -> T
    requires cleared { (T.double_number t + T.double_number multiple) % T.base ≡ 0 }
    requires first { T.double_number t < T.base * T.number m }
    requires second { T.double_number multiple < T.base * T.number m }
    requires room { 2 * T.number m ≤ 2 ^ T.width }
    ensures { T.number result ≡ ((T.double_number t + T.double_number multiple) / T.base) % T.number m }
{
    let (_, high) = T::split(T::double_plus(t, multiple));
    reduced_by_sign(high, m)
}

// The same where the sum may overflow: of it and the sum less m, each of which is computed from t and `multiple`, so that
// neither waits for the other. Conditions: t and `multiple` are below m times the base.
#[inline(always)]
fn high_sum_by_two_sums<T: PathWord>(t: T::Double, multiple: T::Double, m: T) -> T
    requires cleared { (T.double_number t + T.double_number multiple) % T.base ≡ 0 }
    requires first { T.double_number t < T.base * T.number m }
    requires second { T.double_number multiple < T.base * T.number m }
    requires fits { T.number m < T.base }
    ensures { T.number result ≡ ((T.double_number t + T.double_number multiple) / T.base) % T.number m }
{
    let complement = T::zero().wrapping_sub(m);
    let more = T::double_plus(t, T::merge(T::zero(), complement));
    let (sum, _) = T::double_overflowing_add(t, multiple);
    let (less, is_above) = T::double_overflowing_add(more, multiple);
    let (_, high) = T::split(sum);
    let (_, rest) = T::split(less);
    if is_above { rest } else { high }
}

// What `reduce_by` returns, for a known m. Above 32 bits that is the faster way. Conditions: t is below m times the base,
// `multiple` is x·m, and its sum with t has 0 in the low word.
#[inline(always)]
pub(crate) fn reduce_by_known<T: PathWord>(m: T, t: T::Double, x: T, multiple: T::Double) -> T
    requires below { T.double_number t < T.base * T.number m }
    requires multiple { T.double_number multiple ≡ T.number x * T.number m }
    requires low { (T.double_number t + T.number x * T.number m) % T.base ≡ 0 }
    requires x_fits { T.number x < T.base }
    ensures { IsReduction T.base (T.number m) (T.double_number t) (T.number result) }
{
    // Reading m gives the proof that it fits a word.
    let _ = m.is_below(x);
    if T::bits() > 32 {
        reduce_by(m, t, x, multiple)
    } else if m.has_top_bit() {
        high_sum_by_two_sums(t, multiple, m)
    } else {
        high_sum_by_sign(t, multiple, m)
    }
}

// `redc`. Conditions: m times `negated_inverse` is -1 modulo the base, and t is below m times the base.
#[inline(always)]
pub(crate) fn redc_known<T: PathWord>(m: T, negated_inverse: T, t: T::Double) -> T
    requires inverse { IsNegatedInverse T.base (T.number m) (T.number negated_inverse) }
    requires below { T.double_number t < T.base * T.number m }
    ensures { IsReduction T.base (T.number m) (T.double_number t) (T.number result) }
{
    let x = clearing(m, negated_inverse, t);
    reduce_by_known(m, t, x, x.product(m))
}
