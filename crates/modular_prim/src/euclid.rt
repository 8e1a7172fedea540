//! The inverse modulo m by Euclid's algorithm, with the number of its divisions.

ghost use Rattle.std.specs.Prelude.{◌≡◌, ℕ, ◌+◌, ◌*◌, ◌/◌, ◌%◌, ◌^◌, ◌<◌, ◌≤◌};
ghost use Rattle.modular_prim.specs.Divisions.{divisions, inverse_divisions};
ghost use Rattle.modular_word.specs.Inverses.{IsInversion};

use crate::below::neg_below;
use crate::digits::division;
use crate::plain_word::PlainWord;
// rattle: line
use modular_word::path_word::PathWord;
// rattle: line
use modular_word::ring_word::RingWord;

// A division of Euclid's algorithm: the remainder of last_r by r, and the coefficient that belongs to it. Conditions:
// r is at least 1, and the coefficient fits a word.
#[inline(always)]
// rust: #[cfg_attr(debug_assertions, track_caller)]
fn step<T: PlainWord>(last_r: T, r: T, last_t: T, t: T) -> (T, T)
    requires some { 1 ≤ T.number r }
    requires fits { T.number last_t + T.number last_r / T.number r * T.number t < T.base }
    ensures rest { T.number result.0 ≡ T.number last_r % T.number r }
    ensures coefficient { T.number result.1 ≡ T.number last_t + T.number last_r / T.number r * T.number t }
{
    let (quotient, rest) = division(last_r, r);
    (rest, last_t.plus(quotient.times(t)))
}

/// The inverse of a modulo m, below m; `None` exactly where there is none.
///
/// Source: that of [`invm_counted`].
///
/// # Conditions
///
/// - m is at least 1
// rust: #[cfg_attr(debug_assertions, track_caller)]
pub fn invm<T: PlainWord>(a: T, m: T) -> Option<T>
    requires { 1 ≤ T.number m }
    ensures { IsInversion T.number (T.number m) (T.number a) result }
{
    invm_counted(a, m).0
}

/// The inverse of a modulo m, below m, `None` exactly where there is none; and the number of divisions.
///
/// Source: Knuth, "The Art of Computer Programming", section 4.5.2, algorithm X, for one of the two coefficients.
/// Their signs alternate, so only magnitudes are kept, which are at most m. A turn of the loop makes two divisions, so
/// that the sign is known and no number is copied. A number below m isn't reduced first; that division is neither made
/// nor counted.
///
/// # Conditions
///
/// - m is at least 1
// rust: #[cfg_attr(debug_assertions, track_caller)]
pub fn invm_counted<T: PlainWord>(a: T, m: T) -> (Option<T>, u32)
    requires { 1 ≤ T.number m }
    ensures inverse { IsInversion T.number (T.number m) (T.number a) result.0 }
    ensures count { result.1 ≡ inverse_divisions (T.number a) (T.number m) }
    ensures at_most { result.1 ≤ 2 * T.width }
{
    let mut last_r = m;
    let mut r = a;
    let mut count = 0;
    if !a.is_below(m) {
        r = a.remainder(m);
        count = 1;
    }
    let mut last_t = T::zero();
    let mut t = T::one();
    'euclid: while !r.is_zero_word() {
        let (rest, next) = step(last_r, r, last_t, t);
        last_r = rest;
        last_t = next;
        count += 1;
        if last_r.is_zero_word() {
            let inverse = if T::one().is_below(r) { None } else { Some(t) };
            return (inverse, count);
        }
        let (rest, next) = step(r, last_r, t, last_t);
        r = rest;
        t = next;
        count += 1;
    }
    if T::one().is_below(last_r) {
        (None, count)
    } else {
        (Some(neg_below(last_t, m)), count)
    }
}

/// Divisions of Euclid's algorithm: it makes none for u and 0, and for u and v one more than for v and the remainder of
/// u by v.
///
/// 2 to the number of its divisions is at most 2·u·v, for v from 1 to u - 1.
pub fn division_laws()
    ensures none { (u : ℕ) → divisions u 0 ≡ 0 }
    ensures next { (u v : ℕ) → 0 < v → divisions u v ≡ 1 + divisions v (u % v) }
    ensures few { (u v : ℕ) → 0 < v → v < u → 2 ^ divisions u v ≤ 2 * (u * v) }
{}
