//! Reduction by folds, for every modulus near a power of two and both widths of dividends.

ghost use Rattle.std.specs.Prelude.{◌≡◌, ℕ, ◌+◌, ◌-◌, ◌*◌, ◌/◌, ◌%◌, ◌^◌, ◌<◌, ◌≤◌, IsTrue};
ghost use Rattle.modular_folds.specs.Folds.{fold_of, folds, IsFewFolds, IsFolding};

use crate::far::{has_few_folds, reduced_far};
use crate::fold_word::FoldWord;
use modular_reduced::lanes::reduced_by_sign;
use modular_word::path_word::PathWord;
// rattle: line
use modular_word::ring_word::RingWord;

// One fold at the bit p: the part above it times c, plus the part below it; and 1, or 0 where the part above is 0.
// The mask has the bits below p set.
fn fold<V: FoldWord>(v: V, p: u32, mask: V, c: V) -> (V, u32)
    requires inside { p < V.width }
    requires mask { V.number mask + 1 ≡ 2 ^ p }
    requires less { V.number c < 2 ^ p }
    ensures value { V.number result.0 ≡ fold_of p (V.number c) (V.number v) }
    ensures count { result.1 + folds p (V.number c) (V.number result.0) ≡ folds p (V.number c) (V.number v) }
    ensures at_most { result.1 ≤ 1 }
{
    let high = v.shift_right(p);
    let rest = high.times(c).plus(v.masked(mask));
    if high.is_zero_word() {
        (rest, 0)
    } else {
        (rest, 1)
    }
}

/// A number below 2^p that is congruent to v modulo 2^p - 1, by two folds, and the number of those that changed
/// something.
///
/// # Preconditions
///
/// - the mask is 2^p - 1, p is at least 1 and below the width of the words, and v is below 2^(2p)
pub fn fold_two<V: FoldWord>(v: V, p: u32, mask: V) -> (V, u32)
    requires some { 1 ≤ p }
    requires inside { p < V.width }
    requires mask { V.number mask + 1 ≡ 2 ^ p }
    requires product { V.number v / 2 ^ p < 2 ^ p }
    ensures below { V.number result.0 < 2 ^ p }
    ensures same { V.number result.0 % V.number mask ≡ V.number v % V.number mask }
    ensures count { result.1 ≡ folds p 1 (V.number v) }
{
    let (first, one) = fold(v, p, mask, V::one());
    let (second, two) = fold(first, p, mask, V::one());
    (second, one + two)
}

/// A number below 2^p that is congruent to v modulo 2^p - c, by three folds, and the number of those that changed
/// something.
///
/// # Preconditions
///
/// - the mask is 2^p - 1, p is below the width of the words, c·(c + 1) is at most 2^p, and v is below 2^(2p)
pub fn fold_three<V: FoldWord>(v: V, p: u32, mask: V, c: V) -> (V, u32)
    requires inside { p < V.width }
    requires mask { V.number mask + 1 ≡ 2 ^ p }
    requires small { V.number c * V.number c + V.number c ≤ 2 ^ p }
    requires product { V.number v / 2 ^ p < 2 ^ p }
    ensures below { V.number result.0 < 2 ^ p }
    ensures same { V.number result.0 % (2 ^ p - V.number c) ≡ V.number v % (2 ^ p - V.number c) }
    ensures count { result.1 ≡ folds p (V.number c) (V.number v) }
{
    let (first, one) = fold(v, p, mask, c);
    let (second, two) = fold(first, p, mask, c);
    let (third, three) = fold(second, p, mask, c);
    (third, one + two + three)
}

// Folds until the number is below 2^p, with a comparison before each.
pub(crate) fn fold_on<V: FoldWord>(v: V, p: u32, mask: V, c: V, m: V) -> (V, u32)
    requires folding { IsFolding V.width p (V.number c) (V.number m) }
    requires fits { V.number v < 2 ^ V.width }
    requires mask { V.number mask + 1 ≡ 2 ^ p }
    ensures below { V.number result.0 < 2 ^ p }
    ensures same { V.number result.0 % V.number m ≡ V.number v % V.number m }
    ensures count { result.1 ≡ folds p (V.number c) (V.number v) }
{
    // rust: let _ = m;
    let mut rest = v;
    let mut count = 0;
    'folds: while mask.is_below(rest) {
        let (next, one) = fold(rest, p, mask, c);
        rest = next;
        count += one;
    }
    (rest, count)
}

/// A number below 2^p that is congruent to v modulo m, and the number of folds that led to it.
///
/// Where c is small and v is below 2^(2p), the folds are unrolled, without comparisons.
///
/// # Preconditions
///
/// - m is 2^p - c and more than half of 2^p, and p is at most the width of the words
pub fn fold_all<V: FoldWord>(v: V, p: u32, c: V, m: V) -> (V, u32)
    requires { IsFolding V.width p (V.number c) (V.number m) }
    ensures below { V.number result.0 < 2 ^ p }
    ensures same { V.number result.0 % V.number m ≡ V.number v % V.number m }
    ensures count { result.1 ≡ folds p (V.number c) (V.number v) }
{
    let mask = m.plus(c.minus(V::one()));
    if !mask.is_below(v) {
        return (v, 0);
    }
    if mask.is_below(v.shift_right(p)) {
        return fold_on(v, p, mask, c, m);
    }
    if c == V::one() {
        return fold_two(v, p, mask);
    }
    if c.shift_right(p / 2).is_zero_word() {
        return fold_three(v, p, mask, c);
    }
    fold_on(v, p, mask, c, m)
}

// One fold at the bit p, which isn't counted. The mask has the bits below p.
#[inline(always)]
fn fold_once<V: FoldWord>(v: V, p: u32, mask: V, c: V) -> V
    requires inside { p < V.width }
    requires mask { V.number mask + 1 ≡ 2 ^ p }
    requires less { V.number c < 2 ^ p }
    ensures { V.number result ≡ fold_of p (V.number c) (V.number v) }
{
    v.shift_right(p).multiply_add(c, v.masked(mask))
}

// A number below 2m that is congruent to v modulo m, by folds in straight-line code: c and p alone give their number.
// Condition: v is below 2^(2p).
#[inline(always)]
fn fold_in_line<V: FoldWord>(v: V, p: u32, c: V, m: V) -> V
    requires folding { IsFolding V.width p (V.number c) (V.number m) }
    requires room { 2 * p ≤ V.width }
    requires small { 4 * V.number c ≤ 2 ^ p }
    requires product { V.number v / 2 ^ p < 2 ^ p }
    ensures twice { V.number result < 2 * V.number m }
    ensures same { V.number result % V.number m ≡ V.number v % V.number m }
{
    let mask = m.plus(c.minus(V::one()));
    let twice = m.plus(m);
    let mut rest = v;
    // The greatest value that the next fold can return.
    let mut most = mask.times(c).plus(mask);
    'folds: while !most.is_below(twice) {
        rest = fold_once(rest, p, mask, c);
        most = most.shift_right(p).times(c).plus(mask);
    }
    fold_once(rest, p, mask, c)
}

// v modulo m. Condition: v is below 2m.
#[inline(always)]
pub(crate) fn reduced_last<V: FoldWord>(v: V, m: V) -> V
    requires { V.number v < 2 * V.number m }
    ensures value { V.number result ≡ V.number v % V.number m }
    ensures below { V.number result < V.number m }
{
    if v.is_below(m) { v } else { v.minus(m) }
}

// `reduced_last` of a word. It isn't inlined always: LLVM then simplifies it first, and compares x with m, a constant, in
// vectors too. Condition: x is below 2m.
fn reduced_last_word<T: PathWord>(x: T, m: T) -> T
    requires { T.number x < 2 * T.number m }
    ensures { T.number result ≡ T.number x % T.number m }
{
    if x.is_below(m) { x } else { x.minus(m) }
}

// v modulo m, with the borrow of v - m as a mask. LLVM vectorizes products in independent chains, and a comparison of
// 64 bits in vectors takes longer than this.
fn reduced_by_borrow(v: u64, m: u32) -> u32
    requires { v < 2 * m }
    ensures { result ≡ v % m }
{
    let (rest, borrowed) = <u32 as PathWord>::split(v.wrapping_sub(m as u64));
    rest.wrapping_add(borrowed & m)
}

// a + b modulo m, where the sum may take more than a word: the borrow of a difference of double words chooses. LLVM
// vectorizes products in independent chains, and a comparison of 64 bits in vectors takes longer than this. Condition:
// the sum is below 2m.
#[inline(always)]
fn reduced_sum(a: u64, b: u64, m: u64) -> u64
    requires { a + b < 2 * m }
    ensures { result ≡ (a + b) % m }
{
    let sum = a as u128 + b as u128;
    let (rest, borrowed) = <u64 as PathWord>::split(sum.wrapping_sub(m as u128));
    if borrowed == 0 { rest } else { sum as u64 }
}

// v modulo m, after folds at the bit p by c: in the faster of the two ways. Condition: v is below 2m.
#[inline(always)]
fn reduced_short(v: u64, p: u32, c: u32, m: u32) -> u32
    requires { v < 2 * m }
    ensures { result ≡ v % m }
{
    if p < 32 || c < 1 << 16 {
        reduced_last(v, m as u64) as u32
    } else {
        reduced_by_borrow(v, m)
    }
}

// Whether folds in straight-line code reduce a double word: c is at most a fourth of 2^p, and v at most a product of
// two numbers below 2^p. For c = 1 `reduce_by_one_fold` takes less time.
#[inline(always)]
fn folds_in_line<V: FoldWord>(v: V, p: u32, c: V, m: V) -> bool
    requires folding { IsFolding V.width p (V.number c) (V.number m) }
    requires inside { p < V.width }
    ensures small { IsTrue result → 4 * V.number c ≤ 2 ^ p }
    ensures product { IsTrue result → V.number v / 2 ^ p < 2 ^ p }
{
    let mask = m.plus(c.minus(V::one()));
    if c == V::one() || mask.is_below(v.shift_right(p)) {
        false
    } else {
        c.shift_right(p - 2).is_zero_word()
    }
}

// The greatest value that a fold at the bit p by c makes of a number up to `most`. The mask has the bits below p.
#[inline(always)]
fn most_after<V: FoldWord>(most: V, p: u32, mask: V, c: V) -> V
    requires inside { p < V.width }
    requires mask { V.number mask + 1 ≡ 2 ^ p }
    requires half { 2 * V.number c < 2 ^ p }
    ensures { V.number result ≡ V.number most / 2 ^ p * V.number c + V.number mask }
{
    most.shift_right(p).times(c).plus(mask)
}

// v modulo m, by one or two folds in straight-line code where they make every number up to `most` less than 2m, which c
// and p alone decide, else by folds with comparisons. Condition: v is at most `most`.
#[inline(always)]
fn reduced_by_more<V: FoldWord>(v: V, most: V, p: u32, c: V, m: V) -> V
    requires folding { IsFolding V.width p (V.number c) (V.number m) }
    requires inside { p < V.width }
    requires bound { V.number v ≤ V.number most }
    ensures { V.number result ≡ V.number v % V.number m }
{
    let mask = m.plus(c.minus(V::one()));
    let twice = m.plus(m);
    let first = fold_once(v, p, mask, c);
    let most_of_one = most_after(most, p, mask, c);
    if most_of_one.is_below(twice) {
        reduced_last(first, m)
    } else if most_after(most_of_one, p, mask, c).is_below(twice) {
        reduced_last(fold_once(first, p, mask, c), m)
    } else {
        reduced_last(fold_on(first, p, mask, c, m).0, m)
    }
}

// v modulo m. Two to four folds are in straight-line code where they make every number up to `most` less than 2m, which
// c and p alone decide. A residue returns at once. Condition: v is at most `most`.
#[inline(always)]
fn reduced_up_to<V: FoldWord>(v: V, most: V, p: u32, c: V, m: V) -> V
    requires folding { IsFolding V.width p (V.number c) (V.number m) }
    requires inside { p < V.width }
    requires bound { V.number v ≤ V.number most }
    ensures { V.number result ≡ V.number v % V.number m }
{
    if v.is_below(m) {
        return v;
    }
    let mask = m.plus(c.minus(V::one()));
    let twice = m.plus(m);
    let first = fold_once(v, p, mask, c);
    let second = fold_once(first, p, mask, c);
    let most_of_two = most_after(most_after(most, p, mask, c), p, mask, c);
    if most_of_two.is_below(twice) {
        reduced_last(second, m)
    } else {
        reduced_by_more(second, most_of_two, p, c, m)
    }
}

/// A word whose double words can be folded: u32 or u64.
// rust instead: pub trait FoldedWord: Sized + PathWord {
pub trait FoldedWord: PathWord {
    /// A word below 2^p that is congruent to a double word modulo m, and the number of folds at the bit p by c that
    /// led to it.
    ///
    /// # Preconditions
    ///
    /// - folds at the bit p by c reduce modulo m
    fn fold_double(v: Self::Double, p: u32, c: Self, m: Self) -> (Self, u32)
        requires { IsFolding Self.width p (Self.number c) (Self.number m) }
        ensures below { Self.number result.0 < 2 ^ p }
        ensures same { Self.number result.0 % Self.number m ≡ Self.double_number v % Self.number m }
        ensures count { result.1 ≡ folds p (Self.number c) (Self.double_number v) };

    /// The residue of a word, by folds at the bit p by c.
    ///
    /// # Preconditions
    ///
    /// - folds at the bit p by c reduce modulo m
    /// - p is below the width
    // rust: #[must_use]
    fn reduce_longer(v: Self, p: u32, c: Self, m: Self) -> Self
        requires folding { IsFolding Self.width p (Self.number c) (Self.number m) }
        requires inside { p < Self.width }
        ensures { Self.number result ≡ Self.number v % Self.number m };

    /// The residue of a product of two words below 2^p, by folds at the bit p by c without comparisons of the
    /// product.
    ///
    /// # Preconditions
    ///
    /// - folds at the bit p by c reduce modulo m
    /// - c is at most a fourth of 2^p
    // rust: #[must_use]
    fn reduce_in_line(v: Self::Double, p: u32, c: Self, m: Self) -> Self
        requires folding { IsFolding Self.width p (Self.number c) (Self.number m) }
        requires small { 4 * Self.number c ≤ 2 ^ p }
        requires product { Self.double_number v / 2 ^ p < 2 ^ p }
        ensures { Self.number result ≡ Self.double_number v % Self.number m };

    /// The residue of a double word, by folds at bits above p and then at p.
    ///
    /// # Preconditions
    ///
    /// - folds at the bit p by c reduce modulo m
    // rust: #[must_use]
    fn reduce_far(v: Self::Double, p: u32, c: Self, m: Self) -> Self
        requires { IsFolding Self.width p (Self.number c) (Self.number m) }
        ensures { Self.number result ≡ Self.double_number v % Self.number m };

    /// Whether [`reduce_in_line`] reduces a double word, and takes less time than folds with comparisons.
    ///
    /// # Preconditions
    ///
    /// - folds at the bit p by c reduce modulo m
    fn is_in_line(v: Self::Double, p: u32, c: Self, m: Self) -> bool
        requires { IsFolding Self.width p (Self.number c) (Self.number m) }
        ensures small { IsTrue result → 4 * Self.number c ≤ 2 ^ p }
        ensures product { IsTrue result → Self.double_number v / 2 ^ p < 2 ^ p };

    /// Whether the part of a double word above the bit p is below m.
    ///
    /// # Preconditions
    ///
    /// - p is at most the width
    fn is_short(v: Self::Double, p: u32, m: Self) -> bool
        requires { p ≤ Self.width }
        ensures { IsTrue result → Self.double_number v / 2 ^ p < Self.number m };

    /// The residue of a double word, by one fold.
    ///
    /// # Preconditions
    ///
    /// - m is 2^p - 1, p is at most the width, and the part above the bit p is below m
    // rust: #[must_use]
    fn reduce_by_one_fold(v: Self::Double, p: u32, m: Self) -> Self
        requires inside { p ≤ Self.width }
        requires mask { Self.number m + 1 ≡ 2 ^ p }
        requires short { Self.double_number v / 2 ^ p < Self.number m }
        ensures { Self.number result ≡ Self.double_number v % Self.number m };

    /// The residue of a + b, where m is at most 2^p.
    ///
    /// Where p is less than the width, the sum fits a word, which saves a carry.
    ///
    /// # Preconditions
    ///
    /// - b is at most m, and the sum below 2m
    // rust: #[must_use]
    fn sum_of_parts(a: Self, b: Self, p: u32, m: Self) -> Self
        requires bound { Self.number m ≤ 2 ^ p }
        requires most { Self.number b ≤ Self.number m }
        requires twice { Self.number a + Self.number b < 2 * Self.number m }
        ensures { Self.number result ≡ (Self.number a + Self.number b) % Self.number m };
}

impl FoldedWord for u32 {
    fn fold_double(v: u64, p: u32, c: u32, m: u32) -> (u32, u32) {
        let (rest, count) = fold_all(v, p, c as u64, m as u64);
        (rest as u32, count)
    }

    #[inline(always)]
    fn reduce_longer(v: u32, p: u32, c: u32, m: u32) -> u32 {
        reduced_up_to(v as u64, u32::MAX as u64, p, c as u64, m as u64) as u32
    }

    #[inline(always)]
    fn reduce_in_line(v: u64, p: u32, c: u32, m: u32) -> u32 {
        reduced_short(fold_in_line(v, p, c as u64, m as u64), p, c, m)
    }

    fn reduce_far(v: u64, p: u32, c: u32, m: u32) -> u32 {
        reduced_far(v, p, c as u64, m as u64) as u32
    }

    fn is_in_line(v: u64, p: u32, c: u32, m: u32) -> bool {
        folds_in_line(v, p, c as u64, m as u64)
    }

    #[inline(always)]
    fn is_short(v: u64, p: u32, m: u32) -> bool {
        v >> p < m as u64
    }

    // The parts are added as double words, which LLVM vectorizes. At p = 32 the sum may exceed a word. For m = 3 LLVM would
    // multiply 3 by the result of a comparison.
    fn reduce_by_one_fold(v: u64, p: u32, m: u32) -> u32 {
        let low = v & m as u64;
        let high = v >> p;
        if 2 < p && p < 32 {
            reduced_last_word((low + high) as u32, m)
        } else {
            Self::sum_of_parts(high as u32, low as u32, p, m)
        }
    }

    fn sum_of_parts(a: u32, b: u32, p: u32, m: u32) -> u32 {
        if p < 32 {
            reduced_by_sign(a + b, m)
        } else if a < m - b {
            a + b
        } else {
            a - (m - b)
        }
    }
}

impl FoldedWord for u64 {
    fn fold_double(v: u128, p: u32, c: u64, m: u64) -> (u64, u32) {
        let (rest, count) = fold_all(v, p, c as u128, m as u128);
        (rest as u64, count)
    }

    #[inline(always)]
    fn reduce_longer(v: u64, p: u32, c: u64, m: u64) -> u64 {
        reduced_up_to(v, u64::MAX, p, c, m)
    }

    #[inline(always)]
    fn reduce_in_line(v: u128, p: u32, c: u64, m: u64) -> u64 {
        if p <= 32 {
            reduced_last(fold_in_line(v as u64, p, c, m), m)
        } else {
            let m = m as u128;
            reduced_last(fold_in_line(v, p, c as u128, m), m) as u64
        }
    }

    fn reduce_far(v: u128, p: u32, c: u64, m: u64) -> u64 {
        reduced_far(v, p, c as u128, m as u128) as u64
    }

    fn is_in_line(v: u128, p: u32, c: u64, m: u64) -> bool {
        folds_in_line(v, p, c as u128, m as u128)
    }

    #[inline(always)]
    fn is_short(v: u128, p: u32, m: u64) -> bool {
        v >> p < m as u128
    }

    #[inline(always)]
    fn reduce_by_one_fold(v: u128, p: u32, m: u64) -> u64 {
        let low = (v & m as u128) as u64;
        if p <= 32 {
            Self::sum_of_parts(v as u64 >> p, low, p, m)
        } else {
            Self::sum_of_parts((v >> p) as u64, low, p, m)
        }
    }

    #[inline(always)]
    fn sum_of_parts(a: u64, b: u64, p: u32, m: u64) -> u64 {
        if p < 64 {
            reduced_by_sign(a + b, m)
        } else {
            reduced_sum(a, b, m)
        }
    }
}

/// v modulo m, and the number of folds: folds until v is below 2^p, and at most one subtraction.
///
/// A fold replaces v = high·2^p + low by high·c + low, which is congruent modulo m. p may be the width of a word.
///
/// Source: Handbook of Applied Cryptography, algorithm 14.47.
///
/// # Preconditions
///
/// - m is 2^p - c and more than half of 2^p, and p is at most the width of the words
pub fn reduce_by_folds<T: FoldedWord>(v: T::Double, p: u32, c: T, m: T) -> (T, u32)
    requires { IsFolding T.width p (T.number c) (T.number m) }
    ensures value { T.number result.0 ≡ T.double_number v % T.number m }
    ensures count { result.1 ≡ folds p (T.number c) (T.double_number v) }
    ensures few { IsFewFolds p (T.number c) (T.double_number v) result.1 }
{
    let (rest, count) = T::fold_double(v, p, c, m);
    (reduced_last_word(rest, m), count)
}

// v modulo m, by folds. Kept out of line and cold, so that loops over products stay small. Condition: m is 2^p - c and more
// than half of 2^p, and p is at most the width of the words.
#[cold]
#[inline(never)]
fn reduce_longer_double<T: FoldedWord>(v: T::Double, p: u32, c: T, m: T) -> T
    requires { IsFolding T.width p (T.number c) (T.number m) }
    ensures { T.number result ≡ T.double_number v % T.number m }
{
    reduce_by_folds(v, p, c, m).0
}

/// v modulo m, by folds: without further comparisons where v is at most a product of two numbers below 2^p, and
/// that is faster.
///
/// For c = 1 one fold makes a product of two residues less than 2m.
///
/// Source: Handbook of Applied Cryptography, algorithm 14.47.
///
/// # Preconditions
///
/// - m is 2^p - c and more than half of 2^p, and p is at most the width of the words
#[inline(always)]
pub fn reduce_double_word<T: FoldedWord>(v: T::Double, p: u32, c: T, m: T) -> T
    requires { IsFolding T.width p (T.number c) (T.number m) }
    ensures { T.number result ≡ T.double_number v % T.number m }
{
    if c == T::one() {
        if T::is_short(v, p, m) {
            T::reduce_by_one_fold(v, p, m)
        } else if T::bits() > 32 {
            reduce_longer_double(v, p, c, m)
        } else {
            reduce_by_folds(v, p, c, m).0
        }
    } else if !has_few_folds(p, c) {
        T::reduce_far(v, p, c, m)
    } else if T::is_in_line(v, p, c, m) {
        T::reduce_in_line(v, p, c, m)
    } else {
        reduce_by_folds(v, p, c, m).0
    }
}

/// Folds: a number below 2^p takes none.
///
/// Where c is below 2^p and v = hi·2^p + lo isn't, v takes one fold more than hi·c + lo. Where c is less than half of
/// 2^p, the number of folds is bounded by `IsFewFolds`.
pub fn fold_laws()
    ensures none { (p c v : ℕ) → v < 2 ^ p → folds p c v ≡ 0 }
    ensures next { (p c hi lo : ℕ) → c < 2 ^ p → lo < 2 ^ p → 0 < hi
        → folds p c (hi * 2 ^ p + lo) ≡ 1 + folds p c (hi * c + lo) }
    ensures few { (p c v : ℕ) → 2 * c < 2 ^ p → IsFewFolds p c v (folds p c v) }
{}
