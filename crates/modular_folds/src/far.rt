//! Folds at bits above p, each of which replaces many folds at p.
//!
//! Moduli just above a half or three quarters of 2^p would need p / 2 folds at p or more for a product.

ghost use Rattle.std.specs.Prelude.{◌≡◌, ◌+◌, ◌*◌, ◌/◌, ◌%◌, ◌^◌, ◌<◌, ◌≤◌, IsTrue};
ghost use Rattle.modular_folds.specs.Folds.{IsFolding};

use crate::fold_word::FoldWord;
use crate::folds::{fold_on, reduced_last};
use modular_word::path_word::PathWord;
// rattle: line
use modular_word::ring_word::RingWord;

// The mask of the bits below p + by, and 2^(p + by) modulo m. Compilers evaluate the loop, since p, by and m are known.
#[inline(always)]
fn power_above<V: FoldWord>(p: u32, by: u32, c: V, m: V) -> (V, V)
    requires folding { IsFolding V.width p (V.number c) (V.number m) }
    requires inside { p + by < V.width }
    ensures mask { V.number result.0 + 1 ≡ 2 ^ (p + by) }
    ensures same { V.number result.1 % V.number m ≡ 2 ^ (p + by) % V.number m }
    ensures below { V.number result.1 < V.number m }
{
    // rust: let _ = p;
    let mut mask = m.plus(c.minus(V::one()));
    let mut factor = c;
    let mut done = 0u32;
    'doubled: while done < by {
        mask = mask.plus(mask.plus(V::one()));
        factor = reduced_last(factor.plus(factor), m);
        done += 1;
    }
    (mask, factor)
}

// One fold at the bit p + by, by 2^(p + by) modulo m.
#[inline(always)]
fn fold_above<V: FoldWord>(v: V, p: u32, by: u32, c: V, m: V) -> V
    requires folding { IsFolding V.width p (V.number c) (V.number m) }
    requires inside { p + by < V.width }
    ensures { V.number result % V.number m ≡ V.number v % V.number m }
{
    let (mask, factor) = power_above(p, by, c, m);
    v.shift_right(p + by).times(factor).plus(v.masked(mask))
}

/// v modulo m, by folds at bits that come nearer to p by halves, and then at p.
///
/// Source: Hasenplaug, Gaubatz and Gopal, "Fast modular reduction" (2007).
///
/// # Preconditions
///
/// - m is 2^p - c and more than half of 2^p, and p + p / 2 is below the width of the words
#[inline(always)]
pub fn reduced_far<V: FoldWord>(v: V, p: u32, c: V, m: V) -> V
    requires folding { IsFolding V.width p (V.number c) (V.number m) }
    requires room { p + p / 2 < V.width }
    ensures { V.number result ≡ V.number v % V.number m }
{
    let half = fold_above(v, p, p / 2, c, m);
    let fourth = fold_above(half, p, p / 4, c, m);
    let eighth = fold_above(fourth, p, p / 8, c, m);
    let near = fold_above(eighth, p, p / 16, c, m);
    // Reading the word gives the proof that it fits its width.
    let _ = near.is_below(m);
    let mask = m.plus(c.minus(V::one()));
    reduced_last(fold_on(near, p, mask, c, m).0, m)
}

/// Whether a product takes few folds at the bit p by c: c has at most about seven eighths of the bits of p.
///
/// # Preconditions
///
/// - p is from 2 to the width of the words
pub fn has_few_folds<T: PathWord>(p: u32, c: T) -> bool
    requires some { 2 ≤ p }
    requires fits { p ≤ T.width }
    ensures { IsTrue result → 4 * T.number c ≤ 2 ^ p }
{
    c.shift_right(p - 2 - p / 8).is_zero_word()
}
