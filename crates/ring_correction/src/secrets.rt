//! Shamir's secrets from shares of which some are forged.

ghost use Rattle.std.specs.Prelude.{◌≡◌, ◌+◌, ◌*◌, ◌<◌, ◌≤◌, MatchResult, length};
ghost use Rattle.num_modular.specs.Entries.{entry};
ghost use Rattle.num_modular.specs.Checked.{AreChecked, IsChecked};
ghost use Rattle.ring_correction.specs.Correction.{IsRecovered, IsCorrectFault};

use super::correction::correct;
use num_modular::{Reducer, RingWord};
use ring_codes::erasure::CorrectError;

/// The secret from s shares, of which some are forged: the constant of the only polynomial with k coefficients that
/// differs from e of the shares, where 2·e is at most s - k.
///
/// Its coefficients are written to `coefficients`, and the right shares at all points to `word`.
///
/// The contents of `scratch` are ignored, and unspecified afterwards. The contents of `coefficients` and `word` are
/// ignored, and unspecified after an error.
///
/// So for a prime m, with s = 16 and k = 6, five forged shares do no harm. A secret that is returned is the right one
/// if at most (s - k)/2 shares are forged; nothing is known of it if there are more.
///
/// Source: McEliece and Sarwate, "On sharing secrets and Reed-Solomon codes".
///
/// Not for secrets.
///
/// # Errors
///
/// Those of [`correct`]: `TooManyErrors` comes only where no polynomial is that near, and `NoInverse` only where m
/// isn't a prime.
///
/// # Conditions
///
/// - there are as many shares as places
/// - k is at least 1
/// - `word` has as many places as there are points
/// - there are at least 3·(s + k) + 2 places of scratch
/// - (debug) points and shares are checked forms
///
/// # Examples
///
/// ```
/// use num_modular::applications::ring_codes::erasure::recover_correct;
/// use num_modular::{Reducer, Vanilla};
///
/// let ring = Vanilla::<u8>::new(&97);
/// let (mut scratch, mut coefficients, mut word) = ([0; 20], [0; 2], [0; 4]);
/// // the second share, 19, is forged
/// let shares = [12, 20, 26, 33];
/// let secret =
///     recover_correct(&ring, &[1, 2, 3, 4], &[0, 1, 2, 3], &shares, &mut scratch, &mut coefficients, &mut word);
/// assert_eq!(secret, Ok(5));
/// ```
// rust: #[track_caller]
pub fn recover_correct<T: RingWord, R: Reducer<T>>(
    r: &R,
    points: &[T],
    places: &[usize],
    shares: &[T],
    scratch: &mut [T],
    coefficients: &mut [T],
    word: &mut [T],
) -> Result<T, CorrectError<T>>
    requires points { AreChecked R.Reducer T.number r.now points.now }
    requires shares { AreChecked R.Reducer T.number r.now shares.now }
    requires pairs { length shares.now ≡ length places.now }
    requires some { 0 < length coefficients.old }
    requires scratch { 3 * (length places.now + length coefficients.old) + 2 ≤ length scratch.old }
    requires room { length word.old ≡ length points.now }
    ensures { let m = R.modulus r.now in let entries = entry T.number R.value m in MatchResult result
        (λ secret. IsRecovered (λ f. IsChecked R.Reducer T.number r.now f) (λ f. R.value m (T.number f)) entries m
        (length coefficients.old) points.now places.now shares.now coefficients.new word.new secret)
        (λ e. IsCorrectFault T.number m (length coefficients.old) (length points.now) (entries points.now) places.now
        (entries shares.now) e) }
{
    // rust: debug_assert!(points.iter().chain(shares.iter()).all(|x| r.check(x)),
    // rust:     "points and shares must be checked forms");
    // rust: assert!(shares.len() == places.len(), "there must be as many shares as places: {} and {}", shares.len(),
    // rust:     places.len());
    // rust: assert!(!coefficients.is_empty(), "k must be at least 1");
    // rust: assert!(word.len() == points.len(), "`word` must have as many places as there are points: {} and {}",
    // rust:     word.len(), points.len());
    // rust: assert!(scratch.len() >= 3 * (places.len() + coefficients.len()) + 2,
    // rust:     "there must be at least 3·(s + k) + 2 places of scratch: {} and {}", scratch.len(),
    // rust:     3*(places.len()+coefficients.len())+2);
    match correct(r, points, places, shares, scratch, coefficients, word) {
        Ok(_) => Ok(coefficients[0]),
        Err(fault) => Err(fault),
    }
}
