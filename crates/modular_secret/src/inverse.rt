//! Inverses of secret numbers modulo an odd m, with the number of steps.

ghost use Rattle.std.specs.Prelude.{◌≡◌, ℕ, ◌+◌, ◌-◌, ◌*◌, ◌%◌, ◌^◌, ◌<◌};
ghost use Rattle.modular_word.specs.Congruence.{Congruent};
ghost use Rattle.modular_word.specs.Inverses.{IsInversion};
ghost use Rattle.modular_secret.specs.Halvings.{IsHalvedPair};

use crate::secret_word::{SecretWord, chosen, odd_mask};
// rattle: line
use modular_word::path_word::PathWord;
use modular_word::paths::{neginv, redc};
// rattle: line
use modular_word::ring_word::RingWord;

// Two numbers that the steps reduce to 0 and the greatest common divisor of x and m, each with a factor. Modulo m, and
// times a power of two, one is its factor times x, the other is minus its factor times x; whether `turns` is odd tells
// which. `odd` is the mask that has all bits set where `above` is odd.
#[derive(Clone, Copy)]
// rust instead: struct Pair<T> {
struct Pair<T: SecretWord> {
    above: T,
    below: T,
    above_factor: T,
    below_factor: T,
    odd: T,
    turns: T,
}

// The residue of 2v, where v is below m.
fn doubled<T: SecretWord>(v: T, m: T) -> T
    ensures value { T.number v < T.number m → T.number result ≡ (2 * T.number v) % T.number m }
    ensures fits { T.number m < T.base }
{
    let (difference, less) = v.borrowing_sub(m.wrapping_sub(v));
    difference.wrapping_add(m.masked(less))
}

// One step: half of the first number where it's even; else half of the difference of the two numbers, and the smaller one.
//
// The difference is even, so half of it is as odd as half of its negative. This mask doesn't wait for the choice of the
// sign.
fn halved<T: SecretWord>(pair: Pair<T>, m: T) -> Pair<T>
    ensures { (x k left : ℕ)
        → IsHalvedPair T.base (T.number m) x k (left + 1) (T.number pair.above) (T.number pair.below)
        (T.number pair.above_factor) (T.number pair.below_factor) (T.number pair.odd) (T.number pair.turns)
        → IsHalvedPair T.base (T.number m) x (k + 1) left (T.number result.above) (T.number result.below)
        (T.number result.above_factor) (T.number result.below_factor) (T.number result.odd) (T.number result.turns) }
{
    let (difference, less) = pair.above.borrowing_sub(pair.below.masked(pair.odd));
    Pair {
        above: difference.negated(less).half(),
        below: pair.below.wrapping_add(difference.masked(less)),
        above_factor: pair
            .above_factor
            .wrapping_add(pair.below_factor.masked(pair.odd)),
        below_factor: doubled(chosen(pair.below_factor, pair.above_factor, less), m),
        odd: odd_mask(difference.half()),
        turns: pair.turns.wrapping_sub(less),
    }
}

// The pair of x and an odd m after 2w - 1 steps, for words of w bits, and the number of steps.
fn last_pair<T: SecretWord>(x: T, m: T) -> (Pair<T>, u32)
    requires { T.number m % 2 ≡ 1 }
    ensures pair { IsHalvedPair T.base (T.number m) (T.number x) (2 * T.width - 1) 1 (T.number result.0.above)
        (T.number result.0.below) (T.number result.0.above_factor) (T.number result.0.below_factor)
        (T.number result.0.odd) (T.number result.0.turns) }
    ensures count { result.1 ≡ 2 * T.width - 1 }
{
    let mut pair = Pair {
        above: x,
        below: m,
        above_factor: T::one(),
        below_factor: T::zero(),
        odd: odd_mask(x),
        turns: T::zero(),
    };
    let mut count = 0;
    // Reading the words gives the proof that they fit their width.
    let _ = x.is_below(m);
    'steps: for _done in 0..2 * T::bits() - 1 {
        pair = halved(pair, m);
        count += 1;
    }
    (pair, count)
}

// The residue of -v, where v is below m.
fn negative<T: SecretWord>(v: T, m: T) -> T
    ensures congruent { T.number v < T.number m → Congruent (T.number m) (T.number result + T.number v) 0 }
    ensures below { T.number v < T.number m → T.number result < T.number m }
{
    let (difference, less) = T::zero().borrowing_sub(v);
    difference.wrapping_add(m.masked(less))
}

// The residue of v divided by 2^(2w - 1), modulo an odd m. Condition: v is below m.
fn divided_by_twos<T: SecretWord>(v: T, m: T) -> T
    requires odd { T.number m % 2 ≡ 1 }
    requires below { T.number v < T.number m }
    ensures value { Congruent (T.number m) (T.number result * 2 ^ (2 * T.width - 1)) (T.number v) }
    ensures below { T.number result < T.number m }
{
    let negated_inverse = neginv(m);
    let once = redc(m, negated_inverse, T::merge(v, T::zero()));
    redc(m, negated_inverse, once.shift_left_wide(1))
}

/// The inverse and the number of steps: 2w - 1 for words of w bits, whatever a and m are.
///
/// The inverse is that of [`invm_secret`].
///
/// # Conditions
///
/// - m is odd
///
/// # Examples
///
/// ```
/// use num_modular::secrets::invm_secret_counted;
///
/// assert_eq!(invm_secret_counted(3u64, &7), (Some(5), 127)); // 3 * 5 = 15
/// assert_eq!(invm_secret_counted(6u64, &9), (None, 127)); // 3 divides both
/// ```
// rust: #[track_caller]
pub fn invm_secret_counted<T: SecretWord>(a: T, m: &T) -> (Option<T>, u32)
    requires { T.number m.now % 2 ≡ 1 }
    ensures inverse { IsInversion T.number (T.number m.now) (T.number a) result.0 }
    ensures count { result.1 ≡ 2 * T.width - 1 }
{
    // rust: assert!(m.is_odd(), "m must be odd");
    let (pair, count) = last_pair(a, *m);
    let factor = chosen(
        negative(pair.below_factor, *m),
        pair.below_factor,
        odd_mask(pair.turns),
    );
    let inverse = divided_by_twos(factor, *m);
    if pair.below == T::one() {
        (Some(inverse), count)
    } else {
        (None, count)
    }
}

/// The inverse of a modulo m; `None` exactly where there is none.
///
/// It is below m. a may be above m, and is secret.
///
/// Every a takes the same steps. m is public, and so is whether there is an inverse, which is told at the end. That no
/// other branch and no address depends on a is only tested, on the machine code.
///
/// A step halves the first of two numbers, or half their difference, by masks; so both together lose a binary digit,
/// and after 2w - 1 steps the first is 0. The factors are kept up to a power of two, which Montgomery's reduction
/// removes.
///
/// Source: Kaliski, "The Montgomery inverse and its applications", IEEE Transactions on Computers 44, 1995; with a
/// fixed number of steps, Bos, "Constant time modular inversion", Journal of Cryptographic Engineering 4, 2014.
///
/// # Conditions
///
/// - m is odd
///
/// # Examples
///
/// ```
/// use num_modular::secrets::invm_secret;
///
/// assert_eq!(invm_secret(3u64, &7), Some(5)); // 3 * 5 = 15
/// assert_eq!(invm_secret(6u64, &9), None); // 3 divides both
/// ```
// rust: #[track_caller]
pub fn invm_secret<T: SecretWord>(a: T, m: &T) -> Option<T>
    requires { T.number m.now % 2 ≡ 1 }
    ensures { IsInversion T.number (T.number m.now) (T.number a) result }
{
    invm_secret_counted(a, m).0
}
