//! Shamir's secret sharing, by the erasure codes.

ghost use Rattle.std.specs.Prelude.{◌≡◌, ℕ, ◌-◌, ◌%◌, ◌<◌, ◌≤◌, ◌↔◌};
ghost use Rattle.std.specs.Prelude.{IsTrue, IsOk, IfErr, MatchResult, IfOk, length, slice_index};
ghost use Rattle.num_modular.specs.Entries.{entry};
ghost use Rattle.num_modular.specs.Checked.{AreChecked, IsChecked};
ghost use Rattle.num_modular.specs.Inverses.{HasInverse};
ghost use Rattle.num_modular.specs.Polynomials.{HaveUnitDifferences};
ghost use Rattle.ring_codes.specs.Erasure.{IsEncoding, ArePlaces, AreShares, IsFault, IsShareFault};
ghost use Rattle.ring_codes.specs.Secrets.{IsPerfectlySecret};

use super::{RestoreError, encode, points_fit, restore};
use num_modular::{Reducer, RingWord};

/// The reason why [`share`] refuses.
///
/// # Examples
///
/// ```
/// use num_modular::applications::ring_codes::erasure::{share, ShareError};
/// use num_modular::{Reducer, Vanilla};
///
/// let ring = Vanilla::<u8>::new(&97);
/// assert_eq!(share(&ring, &[0, 1], &[5, 7], &mut [0; 2]), Err(ShareError::PointWithoutInverse));
/// assert_eq!(share(&ring, &[1], &[5, 7], &mut [0]), Err(ShareError::TooFewPoints));
/// ```
// rust: #[derive(Hash)]
#[derive(Clone, Copy, Debug, PartialEq, Eq)]
pub enum ShareError {
    /// There is no coefficient, so no secret.
    NoCoefficients,
    /// There are fewer points than coefficients, so that all shares together don't recover the secret.
    TooFewPoints,
    /// A point has no inverse modulo m: the share there would say something of the secret.
    ///
    /// At 0 it would be the secret.
    PointWithoutInverse,
    /// The points don't fit: the difference of two of them has no inverse modulo m.
    PointsDontFit,
}

// Whether each point has an inverse.
#[tactic(auto, using(num_modular::specs::Callers::product_none, num_modular::specs::Callers::product_step, num_modular::specs::Callers::entry_read, num_modular::specs::Callers::form_read))]
fn have_inverses<T: RingWord, R: Reducer<T>>(r: &R, points: &[T]) -> bool
    requires { AreChecked R.Reducer T.number r.now points.now }
    ensures { let m = R.modulus r.now in IsTrue result ↔
        ((i : ℕ) → i < length points.now → HasInverse m (entry T.number R.value m points.now i)) }
{
    let mut product = r.transform(T::one());
    'points: for i in 0..points.len() {
        product = r.mul(&product, &points[i]);
    }
    r.inv(product).is_some()
}

/// Writes the shares of a secret: the values at the points of the polynomial with these k coefficients, of which the
/// constant is the secret.
///
/// The caller draws the other coefficients at random, each from 0 to m - 1. Any k of the n shares recover the secret
/// ([`recover`]).
///
/// k - 1 shares say nothing about the secret, if the other k - 1 coefficients are uniform, and independent of each
/// other and of the secret. A point without an inverse would tell something: modulo 15 the share s + 3·c at 3 is the
/// secret s modulo 3. Of timing `docs/secrets.md` in the repository says more.
///
/// Source: Shamir, "How to share a secret".
///
/// # Errors
///
/// Exactly where k is 0, k is above n, or a point or the difference of two points has no inverse modulo m; of several,
/// the first in this order. The shares are then unchanged. So it refuses the point 0, and points that occur twice, if m
/// is at least 2.
///
/// # Conditions
///
/// - `shares` has as many places as there are points
/// - (debug) points and coefficients are checked forms
///
/// # Examples
///
/// ```
/// use num_modular::applications::ring_codes::erasure::share;
/// use num_modular::{Reducer, Vanilla};
///
/// let ring = Vanilla::<u8>::new(&97);
/// let mut shares = [0; 3];
/// share(&ring, &[1, 2, 3], &[5, 7], &mut shares).unwrap(); // 5 is the secret, 7 is drawn at random
/// assert_eq!(shares, [12, 19, 26]);
/// ```
// rust: #[track_caller]
#[tactic(auto, using(crate::proofs::Sets::refusals))]
pub fn share<T: RingWord, R: Reducer<T>>(
    r: &R,
    points: &[T],
    coefficients: &[T],
    shares: &mut [T],
) -> Result<(), ShareError>
    requires points { AreChecked R.Reducer T.number r.now points.now }
    requires coefficients { AreChecked R.Reducer T.number r.now coefficients.now }
    requires room { length shares.old ≡ length points.now }
    ensures { let m = R.modulus r.now in let entries = entry T.number R.value m in MatchResult result
        (λ _. AreShares (λ f. IsChecked R.Reducer T.number r.now f) entries m points.now coefficients.now shares.new)
        (λ e. IsShareFault m (length coefficients.now) (length points.now) (entries points.now) e
        × (shares.new ≡ shares.old)) }
{
    // rust: debug_assert!(points.iter().chain(coefficients.iter()).all(|x| r.check(x)),
    // rust:     "points and coefficients must be checked forms");
    // rust: assert!(shares.len() == points.len(), "`shares` must have as many places as there are points: {} and {}",
    // rust:     shares.len(), points.len());
    if coefficients.is_empty() {
        return Err(ShareError::NoCoefficients);
    }
    if points.len() < coefficients.len() {
        return Err(ShareError::TooFewPoints);
    }
    if !have_inverses(r, points) {
        return Err(ShareError::PointWithoutInverse);
    }
    if !points_fit(r, points) {
        return Err(ShareError::PointsDontFit);
    }
    encode(r, points, coefficients, shares);
    Ok(())
}

/// The secret from any k shares: the constant of the polynomial with k coefficients, which are written to
/// `coefficients`.
///
/// `chosen` and `weights` are scratch: their contents are ignored, and unspecified afterwards. The contents of
/// `coefficients` are ignored, and unspecified after an error.
///
/// Source: Shamir, "How to share a secret".
///
/// # Errors
///
/// Those of [`restore`].
///
/// # Conditions
///
/// - there are as many shares as places
/// - k is at least 1
/// - there are k weights
/// - `chosen` has k places
/// - (debug) points and shares are checked forms
///
/// # Examples
///
/// ```
/// use num_modular::applications::ring_codes::erasure::recover;
/// use num_modular::{Reducer, Vanilla};
///
/// let ring = Vanilla::<u8>::new(&97);
/// let (mut chosen, mut weights, mut coefficients) = ([0; 2], [0; 2], [0; 2]);
/// let secret = recover(&ring, &[1, 2, 3], &[2, 0], &[26, 12], &mut chosen, &mut weights, &mut coefficients);
/// assert_eq!(secret, Ok(5));
/// ```
// rust: #[track_caller]
#[tactic(auto, using(num_modular::specs::Callers::form_read))]
pub fn recover<T: RingWord, R: Reducer<T>>(
    r: &R,
    points: &[T],
    places: &[usize],
    shares: &[T],
    chosen: &mut [T],
    weights: &mut [T],
    coefficients: &mut [T],
) -> Result<T, RestoreError>
    requires points { AreChecked R.Reducer T.number r.now points.now }
    requires shares { AreChecked R.Reducer T.number r.now shares.now }
    requires pairs { length shares.now ≡ length places.now }
    requires chosen { length chosen.old ≡ length coefficients.old }
    requires weights { length weights.old ≡ length coefficients.old }
    requires some { 0 < length coefficients.old }
    ensures accepted { let m = R.modulus r.now in IsOk result ↔
        (ArePlaces (length coefficients.old) (length points.now) places.now
        × HaveUnitDifferences m (length coefficients.old)
        (λ i. entry T.number R.value m points.now (slice_index places.now i))) }
    ensures fault { let m = R.modulus r.now in IfErr result (λ e. IsFault m (length coefficients.old)
        (length points.now) (entry T.number R.value m points.now) places.now e) }
    ensures checked { IfOk result (λ secret. IsChecked R.Reducer T.number r.now secret) }
    ensures secret { let m = R.modulus r.now in IfOk result (λ secret. (original word : ℕ → ℕ) →
        IsEncoding m (length coefficients.old) (length points.now) (entry T.number R.value m points.now)
        original word →
        ((i : ℕ) → i < length coefficients.old →
        entry T.number R.value m shares.now i ≡ word (slice_index places.now i)) →
        R.value m (T.number secret) ≡ original 0 % m) }
    ensures forms { IsOk result → AreChecked R.Reducer T.number r.now coefficients.new }
    ensures coefficients { let m = R.modulus r.now in IsOk result → (original word : ℕ → ℕ) →
        IsEncoding m (length coefficients.old) (length points.now) (entry T.number R.value m points.now)
        original word →
        ((i : ℕ) → i < length coefficients.old →
        entry T.number R.value m shares.now i ≡ word (slice_index places.now i)) →
        (i : ℕ) → i < length coefficients.old → entry T.number R.value m coefficients.new i ≡ original i % m }
{
    // rust: debug_assert!(points.iter().chain(shares.iter()).all(|x| r.check(x)),
    // rust:     "points and shares must be checked forms");
    // rust: assert!(shares.len() == places.len(), "there must be as many shares as places: {} and {}", shares.len(),
    // rust:     places.len());
    // rust: assert!(!coefficients.is_empty(), "k must be at least 1");
    // rust: assert!(weights.len() == coefficients.len(), "there must be k weights: {} and {}", weights.len(),
    // rust:     coefficients.len());
    // rust: assert!(chosen.len() == coefficients.len(), "`chosen` must have k places: {} and {}", chosen.len(),
    // rust:     coefficients.len());
    match restore(r, points, places, shares, chosen, weights, coefficients) {
        Ok(()) => Ok(coefficients[0]),
        Err(error) => Err(error),
    }
}

/// Perfect secrecy: at k - 1 points that [`share`] accepts, any k - 1 shares and any secret, all below m, fit exactly
/// one list of k coefficients below m.
///
/// So for each secret exactly one choice of the other coefficients gives these shares.
///
/// It follows that k - 1 shares reveal nothing about the secret if the other k - 1 coefficients are uniform from 0 to
/// m - 1, and independent of each other and of the secret. The contract states the count alone: such coefficients are
/// the caller's part, and nothing is said of timing.
///
/// Source: Shamir, "How to share a secret".
pub fn secrecy_laws()
    ensures { (m k : ℕ) (points : ℕ → ℕ) → 1 ≤ k → ((i : ℕ) → i < k - 1 → HasInverse m (points i)) →
        HaveUnitDifferences m (k - 1) points → IsPerfectlySecret m k points }
{}
