//! Sums and differences of words below m in a form of which compilers do several at once in a loop over a list, with
//! the vector instructions that every x86-64 processor has.
//!
//! Those don't compare words of 64 bits, and other words as signed numbers alone. So the top bit of a difference
//! chooses, which requires that 2m is at most the base.

ghost use Rattle.std.specs.Prelude.{◌≡◌, ℕ, ◌+◌, ◌*◌, ◌%◌, ◌^◌, ◌<◌, ◌≤◌, pos, ◌-ℤ◌, IsTrue};
ghost use Rattle.std.specs.Prelude.{All, length, map, slice_index};
ghost use Rattle.modular_word.specs.Residues.{residue};

use modular_prim::below::{add_below, sub_below};
use modular_word::path_word::PathWord;

/// The residue of a word below 2m.
///
/// # Preconditions
///
/// - the word is below 2m, which is at most the base
pub fn reduced_by_sign<T: PathWord>(x: T, m: T) -> T
    requires below { T.number x < 2 * T.number m }
    requires room { 2 * T.number m ≤ 2 ^ T.width }
    ensures value { T.number result ≡ T.number x % T.number m }
    ensures below { T.number result < T.number m }
{
    let less = x.wrapping_sub(m);
    if less.has_top_bit() { x } else { less }
}

/// The residue of a + b, below m.
///
/// # Preconditions
///
/// - a and b are below m, and 2m is at most the base
pub fn sum_by_sign<T: PathWord>(a: T, b: T, m: T) -> T
    requires left { T.number a < T.number m }
    requires right { T.number b < T.number m }
    requires room { 2 * T.number m ≤ 2 ^ T.width }
    ensures value { T.number result ≡ (T.number a + T.number b) % T.number m }
    ensures below { T.number result < T.number m }
{
    reduced_by_sign(a.plus(b), m)
}

/// The residue of a - b, below m.
///
/// # Preconditions
///
/// - a and b are below m, and 2m is at most the base
pub fn difference_by_sign<T: PathWord>(a: T, b: T, m: T) -> T
    requires left { T.number a < T.number m }
    requires right { T.number b < T.number m }
    requires room { 2 * T.number m ≤ 2 ^ T.width }
    ensures value { T.number result ≡ residue (T.number m) (pos (T.number a) -ℤ pos (T.number b)) }
    ensures below { T.number result < T.number m }
{
    let less = a.wrapping_sub(b);
    if less.has_top_bit() {
        less.wrapping_add(m)
    } else {
        less
    }
}

/// Whether sums and differences of many words below m go by the top bit: if it's free and the words have 64 bits. Shorter
/// words are compared by vector instructions, too.
pub fn takes_signs<T: PathWord>(m: T) -> bool
    ensures { IsTrue result → 2 * T.number m < 2 ^ T.width }
{
    T::bits() == 64 && !m.has_top_bit()
}

/// Adds to each word of xs the word of ys with the same index, modulo m.
///
/// # Preconditions
///
/// - the lists have the same length, and all words are below m
pub fn add_each<T: PathWord>(xs: &mut [T], ys: &[T], m: T)
    requires equal { length ys.now ≡ length xs.old }
    requires left { All (λ x. T.number x < T.number m) xs.old }
    requires right { All (λ y. T.number y < T.number m) ys.now }
    ensures { (i : ℕ) → i < length xs.old → slice_index (map T.number xs.new) i
        ≡ (slice_index (map T.number xs.old) i + slice_index (map T.number ys.now) i) % T.number m }
{
    if takes_signs(m) {
        'signs: for i in 0..xs.len() {
            xs[i] = sum_by_sign(xs[i], ys[i], m);
        }
    } else {
        'words: for i in 0..xs.len() {
            xs[i] = add_below(xs[i], ys[i], m);
        }
    }
}

/// Subtracts from each word of xs the word of ys with the same index, modulo m.
///
/// # Preconditions
///
/// - the lists have the same length, and all words are below m
pub fn sub_each<T: PathWord>(xs: &mut [T], ys: &[T], m: T)
    requires equal { length ys.now ≡ length xs.old }
    requires left { All (λ x. T.number x < T.number m) xs.old }
    requires right { All (λ y. T.number y < T.number m) ys.now }
    ensures { (i : ℕ) → i < length xs.old → slice_index (map T.number xs.new) i
        ≡ residue (T.number m) (pos (slice_index (map T.number xs.old) i)
        -ℤ pos (slice_index (map T.number ys.now) i)) }
{
    if takes_signs(m) {
        'signs: for i in 0..xs.len() {
            xs[i] = difference_by_sign(xs[i], ys[i], m);
        }
    } else {
        'words: for i in 0..xs.len() {
            xs[i] = sub_below(xs[i], ys[i], m);
        }
    }
}
