//! Words and products of words below m, modulo an m near a power of two: by folds of their parts, without
//! comparisons of the numbers.

ghost use Rattle.std.specs.Prelude.{◌≡◌, ℕ, ◌+◌, ◌-◌, ◌*◌, ◌/◌, ◌%◌, ◌^◌, ◌<◌, ◌≤◌, IsTrue};
ghost use Rattle.modular_folds.specs.Folds.{fold_of, IsFolding};

use crate::far::has_few_folds;
use crate::folds::FoldedWord;
use modular_word::path_word::PathWord;
// rattle: line
use modular_word::ring_word::RingWord;

// The parts of high·c + low below and above the bit p. The lower part, as an argument and as a result, is shifted
// to the top of its word, so that the two parts are the words of a double word. Condition: c is below 2^p.
fn fold_parts<T: PathWord>(low: T, high: T, p: u32, c: T) -> (T, T)
    requires some { 0 < p }
    requires fits { p ≤ T.width }
    requires less { T.number c < 2 ^ p }
    requires top { T.number low % 2 ^ (T.width - p) ≡ 0 }
    ensures low { T.number result.0
        ≡ (T.number high * T.number c + T.number low / 2 ^ (T.width - p)) % 2 ^ p * 2 ^ (T.width - p) }
    ensures high { T.number result.1
        ≡ (T.number high * T.number c + T.number low / 2 ^ (T.width - p)) / 2 ^ p }
{
    let scaled = high.product(c.shift_left(T::bits() - p));
    T::split(T::double_plus(scaled, T::merge(low, T::zero())))
}

// a·b modulo m, where m is 2^p - c. Condition: a and b are below m, and c has at most half the bits of p.
//
// For c = 1 one fold leaves two words whose sum is below 2m. For a greater c, the part above the bit p is at most c
// after one fold, so that the second fold needs no double words.
fn product_by_folds<T: FoldedWord>(a: T, b: T, p: u32, c: T, m: T) -> T
    requires folding { IsFolding T.width p (T.number c) (T.number m) }
    requires small { T.number c < 2 ^ (p / 2) }
    requires left { T.number a < T.number m }
    requires right { T.number b < T.number m }
    ensures { T.number result ≡ (T.number a * T.number b) % T.number m }
{
    let (low, high) = fold_parts(T::zero(), a, p, b);
    if c == T::one() {
        return T::sum_of_parts(high, low.shift_right(T::bits() - p), p, m);
    }
    let (rest, over) = fold_parts(low, high, p, c);
    T::sum_of_parts(rest.shift_right(T::bits() - p), over.times(c), p, m)
}

// Whether the two words of a product are folded separately: if c has at most half the bits of p, and a product can be
// longer than a machine word.
fn is_by_words<T: PathWord>(p: u32, c: T) -> bool
    requires { p ≤ T.width }
    ensures { IsTrue result → T.number c < 2 ^ (p / 2) }
{
    c.shift_right(p / 2).is_zero_word() && p > 32
}

/// a·b modulo m.
///
/// Where c isn't near 2^p, the product is folded without comparisons, by its words where that is faster. The choice
/// depends on c and p alone.
///
/// Source: Handbook of Applied Cryptography, algorithm 14.47.
///
/// # Preconditions
///
/// - m is 2^p - c and more than half of 2^p, and p is at most the width of the words
/// - a and b are below m
#[inline(always)]
pub fn reduce_product<T: FoldedWord>(a: T, b: T, p: u32, c: T, m: T) -> T
    requires folding { IsFolding T.width p (T.number c) (T.number m) }
    requires left { T.number a < T.number m }
    requires right { T.number b < T.number m }
    ensures { T.number result ≡ (T.number a * T.number b) % T.number m }
{
    if p <= 32 && c == T::one() {
        T::reduce_by_one_fold(a.product(b), p, m)
    } else if is_by_words(p, c) {
        product_by_folds(a, b, p, c, m)
    } else if has_few_folds(p, c) {
        T::reduce_in_line(a.product(b), p, c, m)
    } else {
        T::reduce_far(a.product(b), p, c, m)
    }
}

// Whether one fold at the bit p makes every word less than 2m, where m is 2^p - c. A word of p bits has nothing to
// fold; a longer one must have fewer bits above p, together with those of c, than p.
fn is_once<T: PathWord>(p: u32, c: T) -> bool
    requires fits { p ≤ T.width }
    requires half { 2 * T.number c < 2 ^ p }
    ensures once { IsTrue result → (v : ℕ) → v < 2 ^ T.width → fold_of p (T.number c) v + 2 * T.number c < 2 * 2 ^ p }
    ensures inside { ¬ IsTrue result → p < T.width }
{
    let above = T::bits() - p;
    if above == 0 {
        true
    } else if above < p {
        c.shift_right(p - 1 - above).is_zero_word()
    } else {
        false
    }
}

// One fold of a word at the bit p. Condition: c is below 2^p.
fn fold_word<T: PathWord>(v: T, p: u32, c: T) -> T
    requires bit { p ≤ T.width }
    requires less { T.number c < 2 ^ p }
    ensures value { T.number result ≡ fold_of p (T.number c) (T.number v) }
    ensures fits { T.number v < 2 ^ T.width }
{
    // Reading the word gives the proof that it fits its width.
    let _ = v.is_zero_word();
    if p < T::bits() {
        let high = v.shift_right(p);
        high.times(c).plus(v.low_bits(p))
    } else {
        v
    }
}

// x modulo m. The comparison with m needn't wait for a difference. Condition: x is below 2m.
#[inline(always)]
fn reduced_last<T: PathWord>(x: T, m: T) -> T
    requires { T.number x < 2 * T.number m }
    ensures { T.number result ≡ T.number x % T.number m }
{
    if x.is_below(m) { x } else { x.minus(m) }
}

// A word that is at least m, modulo m. Kept out of line and cold, so that LLVM branches on the comparison. Conditions:
// the word is below 2m, and at least m.
#[cold]
#[inline(never)]
fn reduced_above<T: PathWord>(x: T, m: T) -> T
    requires twice { T.number x < 2 * T.number m }
    requires above { T.number m ≤ T.number x }
    ensures { T.number result ≡ T.number x % T.number m }
{
    x.minus(m)
}

// x modulo m, where m is 2^p - c. Condition: x is below 2m.
//
// If p is the width of 64 bits and c is below 2^56, few words are at least m, and a branch seldom mispredicts. LLVM would
// vectorize a choice, and a comparison of 64 bits in vectors takes longer.
#[inline(always)]
fn reduced_folded<T: PathWord>(x: T, p: u32, c: T, m: T) -> T
    requires { T.number x < 2 * T.number m }
    ensures { T.number result ≡ T.number x % T.number m }
{
    if T::bits() > 32 && p == T::bits() && c.shift_right(p - 8).is_zero_word() {
        if x.is_below(m) {
            x
        } else {
            reduced_above(x, m)
        }
    } else {
        reduced_last(x, m)
    }
}

/// v modulo m.
///
/// Where one fold makes every word less than 2m, v isn't compared. The choice depends on c and p alone.
///
/// Source: Handbook of Applied Cryptography, algorithm 14.47.
///
/// # Preconditions
///
/// - m is 2^p - c and more than half of 2^p, and p is at most the width of the words
#[inline(always)]
pub fn reduce_word<T: FoldedWord>(v: T, p: u32, c: T, m: T) -> T
    requires { IsFolding T.width p (T.number c) (T.number m) }
    ensures { T.number result ≡ T.number v % T.number m }
{
    if is_once(p, c) {
        reduced_folded(fold_word(v, p, c), p, c, m)
    } else {
        T::reduce_longer(v, p, c, m)
    }
}
