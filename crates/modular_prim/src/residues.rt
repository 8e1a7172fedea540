//! Residues of sums, differences and products of words that may be above the modulus.

ghost use Rattle.std.specs.Prelude.{◌≡◌, ℕ, ◌+◌, ◌*◌, ◌%◌, ◌<◌, ◌≤◌, pos, ◌-ℤ◌, neg_ℤ, IsTrue};
ghost use Rattle.modular_word.specs.Residues.{residue};

use crate::below::{add_below, dbl_below_stored, neg_below, reduced_once};
use crate::plain_word::PlainWord;
use modular_word::path_word::PathWord;
// rattle: line
use modular_word::ring_word::RingWord;

// Whether a word is below m. Always false for words of at most 16 bits, where a mispredicted branch takes longer
// than the division that it avoids.
fn spares_division<T: PathWord>(a: T, m: T) -> bool
    ensures { IsTrue result → T.number a < T.number m }
{
    T::bits() > 16 && a.is_below(m)
}

/// The residue of a word, below m.
///
/// A word of more than 16 bits that is below m is returned without a division.
///
/// # Conditions
///
/// - m is at least 1
// rust: #[cfg_attr(debug_assertions, track_caller)]
pub fn reduced<T: PlainWord>(a: T, m: T) -> T
    requires { 1 ≤ T.number m }
    ensures value { T.number result ≡ T.number a % T.number m }
    ensures below { T.number result < T.number m }
{
    if spares_division(a, m) {
        a
    } else {
        a.remainder(m)
    }
}

// The sum of two words, as a double word.
fn whole_sum<T: PathWord>(a: T, b: T) -> T::Double
    ensures { T.double_number result ≡ T.number a + T.number b }
{
    T::double_plus(T::merge(a, T::zero()), T::merge(b, T::zero()))
}

// The difference of the greater and the smaller of a and b.
fn distance<T: PathWord>(a: T, b: T) -> T
    ensures above { T.number b ≤ T.number a → T.number result + T.number b ≡ T.number a }
    ensures below { T.number a < T.number b → T.number result + T.number a ≡ T.number b }
{
    if a.is_below(b) {
        b.minus(a)
    } else {
        a.minus(b)
    }
}

// A word congruent to a + b modulo m. Every word is below twice the multiple of m that has its top bit set. So this
// multiple is subtracted at most once from b, and once from the sum if that overflows. Condition: the modulus is at least 1.
// rust: #[cfg_attr(debug_assertions, track_caller)]
fn congruent_sum<T: PathWord>(a: T, b: T, m: T) -> T
    requires { 1 ≤ T.number m }
    ensures { T.number result % T.number m ≡ (T.number a + T.number b) % T.number m }
{
    // rust: debug_assert!(m != T::zero(), "the modulus must be at least 1");
    // Reading the word gives the proof that it fits its width.
    let _ = m.is_below(b);
    let multiple = m.shift_left(m.leading_zeros());
    let rest = reduced_once(b, multiple);
    let gap = multiple.minus(rest);
    let (sum, over) = a.overflowing_add(rest);
    if over { a.minus(gap) } else { sum }
}

/// The residue of a + b, below m.
///
/// There is no division where words have more than 16 bits and both are below m.
///
/// Other words of more than 16 bits take one division of a word, which is faster on some processors than that of the
/// double word a + b.
///
/// # Conditions
///
/// - m is at least 1
// rust: #[cfg_attr(debug_assertions, track_caller)]
pub fn addm<T: PlainWord>(a: T, b: T, m: T) -> T
    requires { 1 ≤ T.number m }
    ensures { T.number result ≡ (T.number a + T.number b) % T.number m }
{
    if spares_division(a, m) & spares_division(b, m) {
        add_below(a, b, m)
    } else if T::bits() > 16 {
        congruent_sum(a, b, m).remainder(m)
    } else {
        T::narrow_remainder(whole_sum(a, b), m)
    }
}

/// The residue of a - b, below m.
///
/// There is no division where words have more than 16 bits and differ by less than m.
///
/// One remainder serves both cases of a comparison of a and b, which often mispredicts.
///
/// # Conditions
///
/// - m is at least 1
// rust: #[cfg_attr(debug_assertions, track_caller)]
pub fn subm<T: PlainWord>(a: T, b: T, m: T) -> T
    requires { 1 ≤ T.number m }
    ensures { T.number result ≡ residue (T.number m) (pos (T.number a) -ℤ pos (T.number b)) }
{
    let apart = distance(a, b);
    if spares_division(apart, m) {
        if a.is_below(b) { m.minus(apart) } else { apart }
    } else {
        let rest = apart.remainder(m);
        if a.is_below(b) {
            neg_below(rest, m)
        } else {
            rest
        }
    }
}

/// The residue of a·b, below m.
///
/// # Conditions
///
/// - m is at least 1
// rust: #[cfg_attr(debug_assertions, track_caller)]
pub fn mulm<T: PlainWord>(a: T, b: T, m: T) -> T
    requires { 1 ≤ T.number m }
    ensures { T.number result ≡ (T.number a * T.number b) % T.number m }
{
    T::narrow_remainder(a.product(b), m)
}

/// The residue of -a, below m.
///
/// # Conditions
///
/// - m is at least 1
// rust: #[cfg_attr(debug_assertions, track_caller)]
#[tactic(auto, using(crate::proofs::ResidueSteps::neg_of_rest))]
pub fn negm<T: PlainWord>(a: T, m: T) -> T
    requires { 1 ≤ T.number m }
    ensures { T.number result ≡ residue (T.number m) (neg_ℤ (pos (T.number a))) }
{
    neg_below(reduced(a, m), m)
}

/// The residue of 2a, below m.
///
/// # Conditions
///
/// - m is at least 1
// rust: #[cfg_attr(debug_assertions, track_caller)]
#[tactic(auto, using(modular_word::proofs::Remainders::remainders))]
pub fn dblm<T: PlainWord>(a: T, m: T) -> T
    requires { 1 ≤ T.number m }
    ensures { T.number result ≡ (2 * T.number a) % T.number m }
{
    if T::bits() <= 16 {
        addm(a, a, m)
    } else {
        dbl_below_stored(reduced(a, m), m)
    }
}

/// The residue of a·a, below m.
///
/// # Conditions
///
/// - m is at least 1
// rust: #[cfg_attr(debug_assertions, track_caller)]
pub fn sqm<T: PlainWord>(a: T, m: T) -> T
    requires { 1 ≤ T.number m }
    ensures { T.number result ≡ (T.number a * T.number a) % T.number m }
{
    mulm(a, a, m)
}
