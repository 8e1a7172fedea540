//! Reed-Solomon codes, over any modulus: a message of k symbols is restored from any k of the n symbols of its word
//! (`restore`), and from s symbols of which at most (s - k)/2 are wrong (`correct`; where m isn't a prime, it may return
//! `NoInverse` instead).
//!
//! A message is the list of the coefficients of a polynomial, the constant first, and symbol i of its word is the
//! polynomial's value at point i, modulo m. The points must fit (`points_fit`): the difference of any two has an
//! inverse modulo m. So their number is at most the least prime that divides m.
//!
//! The codes are maximum distance separable (MDS): two words differ in n - k + 1 symbols at least, the most that
//! Singleton's bound allows. So up to half of n - k wrong symbols leave the word unique. `PreparedCode` computes once what
//! depends on the points alone; where the points are the powers of a root of unity, `encode_by_transform` encodes by one
//! transform.
//!
//! Points, messages and words are lists of checked forms of a reducer; `load_forms` and `unload_forms` of
//! `num_modular::ring` convert from words and back. No memory is allocated: the caller passes the scratch lists.
//! Which calls are for secrets, `docs/secrets.md` in the repository says.
//!
//! # Conditions
//!
//! Each call that has such arguments also requires:
//!
//! - there are as many symbols as places
//! - the word has as many places as there are points
//! - there are k weights
//! - `chosen` has k places
//! - k is at most the number of points
//! - k is at least 1
//!
//! Source: Reed and Solomon, "Polynomial codes over certain finite fields".

ghost use Rattle.std.specs.Prelude.{◌≡◌, ℕ, ◌%◌, ◌<◌, ◌≤◌, ◌↔◌, IsTrue, IsOk, IfErr};
ghost use Rattle.std.specs.Prelude.{length, slice_index, slice_index_or};
ghost use Rattle.num_modular.specs.Entries.{entry};
ghost use Rattle.num_modular.specs.Checked.{AreChecked, IsChecked};
ghost use Rattle.num_modular.specs.Polynomials.{polynomial_at, HaveUnitDifferences};
ghost use Rattle.ring_codes.specs.Erasure.{IsEncoding, IsErasureCodeword, ArePlaces, IsFault};

// rattle: line
mod bounds;
mod errors;
mod newton;
mod places;
mod powers;
mod prepared;
mod roots;
mod secrets;
mod values;
mod words;

pub use bounds::{distance_laws, singleton_law};
pub use errors::CorrectError;
pub use newton::fill_differences;
use newton::{differences_before, divide_differences, expand, fill_weights};
use num_modular::ring::invert_each;
use num_modular::{Reducer, RingWord};
pub use places::choose_points;
pub use powers::{
    encode_by_plan, encode_by_transform, fill_powers, is_codeword_by_transform, root_laws,
};
pub use prepared::{PreparedCode, fill_barycentric_weights};
// rust instead: pub(crate) use roots::{expand_roots, multiply_by_root};
pub use roots::{expand_roots, multiply_by_root};
pub use secrets::{ShareError, recover, secrecy_laws, share};
use values::evaluate_side_by_side;
// rust: pub(crate) use words::fill_word;
// rust instead: pub use words::restore_word;
pub use words::{fill_word, restore_word};
// rust: pub use super::ring_correction::{correct, recover_correct};
// rust: pub use super::ring_decoder::corrector::Corrector;
// rust: pub use super::ring_erasures::pattern::ErasurePattern;
// rust: pub use crate::layers::codes::{Code, Corrected};

/// How many points `encode` takes side by side.
const SIDE: usize = 8;

/// Why a message can't be restored: the first cause, as [`restore`] names it.
///
/// # Examples
///
/// ```
/// use num_modular::applications::ring_codes::erasure::RestoreError;
///
/// assert_eq!(RestoreError::PlaceTwice.to_string(), "a place occurs twice");
/// ```
// rust: #[derive(Hash)]
#[derive(Clone, Copy, Debug, PartialEq, Eq)]
pub enum RestoreError {
    /// Fewer symbols than the message has.
    TooFewSymbols,
    /// A place isn't the number of a point.
    PlaceOutOfRange,
    /// A place occurs twice.
    PlaceTwice,
    /// The points don't fit: the difference of two of them has no inverse modulo m.
    PointsDontFit,
}

/// Whether the points fit: the difference of any two has an inverse modulo m.
///
/// # Conditions
///
/// - (debug) the points are checked forms
///
/// # Examples
///
/// ```
/// use num_modular::applications::ring_codes::erasure::points_fit;
/// use num_modular::{Reducer, Vanilla};
///
/// let ring = Vanilla::<u8>::new(&15);
/// assert!(points_fit(&ring, &[0, 1, 2]));
/// assert!(!points_fit(&ring, &[0, 1, 3])); // 3 has no inverse modulo 15
/// ```
// rust: #[cfg_attr(debug_assertions, track_caller)]
#[tactic(auto, using(num_modular::specs::Callers::product_none, num_modular::specs::Callers::product_step))]
pub fn points_fit<T: RingWord, R: Reducer<T>>(r: &R, points: &[T]) -> bool
    requires { AreChecked R.Reducer T.number r.now points.now }
    ensures { let m = R.modulus r.now in
        IsTrue result ↔ HaveUnitDifferences m (length points.now) (entry T.number R.value m points.now) }
{
    // rust: debug_assert!(points.iter().all(|x| r.check(x)), "the points must be checked forms");
    let mut product = r.transform(T::one());
    'points: for i in 0..points.len() {
        let differences = differences_before(r, points, i);
        product = r.mul(&product, &differences);
    }
    r.inv(product).is_some()
}

/// The polynomial's value at a point: its form, given the coefficients, the constant first, by Horner's rule.
///
/// # Conditions
///
/// - (debug) coefficients and point are checked forms
///
/// # Examples
///
/// ```
/// use num_modular::applications::ring_codes::erasure::evaluate;
/// use num_modular::{Reducer, Vanilla};
///
/// let ring = Vanilla::<u8>::new(&97);
/// assert_eq!(evaluate(&ring, &[5, 7], &2), 19); // 5 + 7 * 2
/// ```
// rust: #[cfg_attr(debug_assertions, track_caller)]
#[tactic(auto, using(crate::proofs::NewtonForms::zero_is_empty_polynomial_value, num_modular::specs::Callers::form_read, crate::proofs::NewtonForms::value_all))]
pub fn evaluate<T: RingWord, R: Reducer<T>>(r: &R, coefficients: &[T], point: &T) -> T
    requires coefficients { AreChecked R.Reducer T.number r.now coefficients.now }
    requires point { IsChecked R.Reducer T.number r.now point.now }
    ensures checked { IsChecked R.Reducer T.number r.now result }
    ensures value { let m = R.modulus r.now in R.value m (T.number result)
        ≡ polynomial_at (length coefficients.now) (entry T.number R.value m coefficients.now)
        (R.value m (T.number point.now)) % m }
{
    // rust: debug_assert!(coefficients.iter().chain([point]).all(|x| r.check(x)),
    // rust:     "coefficients and point must be checked forms");
    let mut value = r.transform(T::zero());
    'coefficients: for k in 0..coefficients.len() {
        let i = coefficients.len() - 1 - k;
        let product = r.mul(&value, point);
        value = r.add(&coefficients[i], &product);
    }
    value
}

/// Writes the polynomial's value at each point: the forms of the values, given the coefficients, the constant first.
///
/// It takes n·k products, for n points and k coefficients, by Horner's rule at several points side by side.
///
/// # Conditions
///
/// - there is a place for the value at each point
/// - (debug) coefficients and points are checked forms
///
/// # Examples
///
/// ```
/// use num_modular::applications::ring_codes::erasure::evaluate_each;
/// use num_modular::{Reducer, Vanilla};
///
/// let ring = Vanilla::<u8>::new(&97);
/// let mut values = [0; 2];
/// evaluate_each(&ring, &[5, 7, 1], &[2, 3], &mut values);
/// assert_eq!(values, [23, 35]); // 5 + 7 * 2 + 4 and 5 + 7 * 3 + 9
/// ```
// rust: #[track_caller]
pub fn evaluate_each<T: RingWord, R: Reducer<T>>(
    r: &R,
    coefficients: &[T],
    points: &[T],
    values: &mut [T],
)
    requires coefficients { AreChecked R.Reducer T.number r.now coefficients.now }
    requires points { AreChecked R.Reducer T.number r.now points.now }
    requires room { length values.old ≡ length points.now }
    ensures checked { AreChecked R.Reducer T.number r.now values.new }
    ensures encoding { let m = R.modulus r.now in
        IsEncoding m (length coefficients.now) (length points.now) (entry T.number R.value m points.now)
        (entry T.number R.value m coefficients.now) (entry T.number R.value m values.new) }
{
    // rust: debug_assert!(points.iter().chain(coefficients.iter()).all(|x| r.check(x)),
    // rust:     "coefficients and points must be checked forms");
    // rust: assert!(values.len() == points.len(), "there must be a place for the value at each point: {} and {}",
    // rust:     values.len(), points.len());
    let mut from = 0;
    'groups: for _done in 0..points.len() / SIDE {
        evaluate_side_by_side(
            r,
            coefficients,
            &points[from..from + SIDE],
            &mut values[from..from + SIDE],
        );
        from += SIDE;
    }
    evaluate_side_by_side(r, coefficients, &points[from..], &mut values[from..]);
}

/// Writes the word of a message: symbol i is the value at point i.
///
/// It takes n·k products. For more coefficients than points see [`evaluate_each`].
///
/// Source: Reed and Solomon, "Polynomial codes over certain finite fields".
///
/// # Conditions
///
/// - the word has as many places as there are points
/// - k is at most the number of points
/// - (debug) points and message are checked forms
///
/// # Examples
///
/// ```
/// use num_modular::applications::ring_codes::erasure::encode;
/// use num_modular::{Reducer, Vanilla};
///
/// let ring = Vanilla::<u8>::new(&97);
/// let mut word = [0; 4];
/// encode(&ring, &[1, 2, 3, 4], &[5, 7], &mut word);
/// assert_eq!(word, [12, 19, 26, 33]); // 5 + 7X at 1, 2, 3 and 4
/// ```
// rust: #[track_caller]
pub fn encode<T: RingWord, R: Reducer<T>>(r: &R, points: &[T], message: &[T], word: &mut [T])
    requires points { AreChecked R.Reducer T.number r.now points.now }
    requires message { AreChecked R.Reducer T.number r.now message.now }
    requires room { length word.old ≡ length points.now }
    requires few { length message.now ≤ length points.now }
    ensures checked { AreChecked R.Reducer T.number r.now word.new }
    ensures encoding { let m = R.modulus r.now in
        IsEncoding m (length message.now) (length points.now) (entry T.number R.value m points.now)
        (entry T.number R.value m message.now) (entry T.number R.value m word.new) }
{
    // rust: debug_assert!(points.iter().chain(message.iter()).all(|x| r.check(x)),
    // rust:     "points and message must be checked forms");
    // rust: assert!(word.len() == points.len(), "the word must have as many places as there are points: {} and {}",
    // rust:     word.len(), points.len());
    // rust: assert!(message.len() <= points.len(), "k must be at most the number of points: {} and {}", message.len(),
    // rust:     points.len());
    evaluate_each(r, message, points, word);
}

/// Writes the coefficients of the polynomial through k points: the constant first, of the only one modulo m with k
/// coefficients that has the first k values at the first k points, k being the length of `coefficients`.
///
/// Returns false exactly where these points don't fit.
///
/// `weights` is scratch: its contents are ignored, and unspecified afterwards. The contents of `coefficients` are
/// ignored, and unspecified after false.
///
/// Source: Knuth, The Art of Computer Programming, volume 2, section 4.6.4 (Newton's divided differences).
///
/// # Conditions
///
/// - there are at least k points
/// - there are at least k values
/// - there are k weights
/// - (debug) points and values are checked forms
///
/// # Examples
///
/// ```
/// use num_modular::applications::ring_codes::erasure::interpolate;
/// use num_modular::{Reducer, Vanilla};
///
/// let ring = Vanilla::<u8>::new(&97);
/// let (mut weights, mut coefficients) = ([0; 2], [0; 2]);
/// assert!(interpolate(&ring, &[3, 4], &[26, 33], &mut weights, &mut coefficients));
/// assert_eq!(coefficients, [5, 7]); // 5 + 7 * 3 = 26, and 5 + 7 * 4 = 33
/// ```
// rust: #[must_use]
// rust: #[track_caller]
#[tactic(auto, using(crate::proofs::NewtonForms::inverse_of_product))]
pub fn interpolate<T: RingWord, R: Reducer<T>>(
    r: &R,
    points: &[T],
    values: &[T],
    weights: &mut [T],
    coefficients: &mut [T],
) -> bool
    requires points { AreChecked R.Reducer T.number r.now points.now }
    requires values { AreChecked R.Reducer T.number r.now values.now }
    requires points_within { length coefficients.old ≤ length points.now }
    requires values_within { length coefficients.old ≤ length values.now }
    requires weights { length weights.old ≡ length coefficients.old }
    ensures fit { let m = R.modulus r.now in
        IsTrue result ↔ HaveUnitDifferences m (length coefficients.old) (entry T.number R.value m points.now) }
    ensures checked { IsTrue result → AreChecked R.Reducer T.number r.now coefficients.new }
    ensures values { let m = R.modulus r.now in IsTrue result →
        IsEncoding m (length coefficients.old) (length coefficients.old) (entry T.number R.value m points.now)
        (entry T.number R.value m coefficients.new) (entry T.number R.value m values.now) }
    ensures only { let m = R.modulus r.now in IsTrue result → (other : ℕ → ℕ) →
        IsEncoding m (length coefficients.old) (length coefficients.old) (entry T.number R.value m points.now)
        other (entry T.number R.value m values.now) →
        (i : ℕ) → i < length coefficients.old → entry T.number R.value m coefficients.new i ≡ other i % m }
{
    // rust: debug_assert!(points.iter().chain(values.iter()).all(|x| r.check(x)),
    // rust:     "points and values must be checked forms");
    // rust: assert!(points.len() >= coefficients.len(), "there must be at least k points: {} and {}", points.len(),
    // rust:     coefficients.len());
    // rust: assert!(values.len() >= coefficients.len(), "there must be at least k values: {} and {}", values.len(),
    // rust:     coefficients.len());
    // rust: assert!(weights.len() == coefficients.len(), "there must be k weights: {} and {}", weights.len(),
    // rust:     coefficients.len());
    fill_weights(r, points, weights);
    if !invert_each(r, weights, coefficients) {
        return false;
    }
    coefficients.copy_from_slice(&values[..coefficients.len()]);
    divide_differences(r, points, weights, coefficients);
    expand(r, points, coefficients);
    true
}

/// Whether the word is that of a message: of k symbols, k being the length of `message`.
///
/// Where it is, the message is written to `message`.
///
/// `weights` is scratch: its contents are ignored, and unspecified afterwards. The contents of `message` are
/// ignored, and unspecified after false.
///
/// # Conditions
///
/// - the word has as many symbols as there are points
/// - k is at most the number of points
/// - there are k weights
/// - (debug) points and word are checked forms
/// - (debug) the points fit ([`points_fit`] tells)
///
/// # Examples
///
/// ```
/// use num_modular::applications::ring_codes::erasure::is_codeword;
/// use num_modular::{Reducer, Vanilla};
///
/// let ring = Vanilla::<u8>::new(&97);
/// let (mut weights, mut message) = ([0; 2], [0; 2]);
/// assert!(is_codeword(&ring, &[1, 2, 3, 4], &[12, 19, 26, 33], &mut weights, &mut message));
/// assert_eq!(message, [5, 7]);
/// assert!(!is_codeword(&ring, &[1, 2, 3, 4], &[12, 19, 26, 34], &mut weights, &mut message));
/// ```
// rust: #[must_use]
// rust: #[track_caller]
#[tactic(auto, using(num_modular::specs::Callers::form_read, crate::proofs::Sets::refusals))]
pub fn is_codeword<T: RingWord, R: Reducer<T>>(
    r: &R,
    points: &[T],
    word: &[T],
    weights: &mut [T],
    message: &mut [T],
) -> bool
    requires points { AreChecked R.Reducer T.number r.now points.now }
    requires word { AreChecked R.Reducer T.number r.now word.now }
    requires fit { let m = R.modulus r.now in
        HaveUnitDifferences m (length points.now) (entry T.number R.value m points.now) }
    requires symbols { length word.now ≡ length points.now }
    requires few { length message.old ≤ length points.now }
    requires weights { length weights.old ≡ length message.old }
    ensures codeword { let m = R.modulus r.now in
        IsTrue result ↔ IsErasureCodeword m (length message.old) (length points.now)
        (entry T.number R.value m points.now) (entry T.number R.value m word.now) }
    ensures message { let m = R.modulus r.now in IsTrue result →
        IsEncoding m (length message.old) (length points.now) (entry T.number R.value m points.now)
        (entry T.number R.value m message.new) (entry T.number R.value m word.now) }
    ensures checked { IsTrue result → AreChecked R.Reducer T.number r.now message.new }
{
    // rust: debug_assert!(points.iter().chain(word.iter()).all(|x| r.check(x)),
    // rust:     "points and word must be checked forms");
    // rust: debug_assert!(points_fit(r, points), "the points must fit");
    // rust: assert!(word.len() == points.len(), "the word must have as many symbols as there are points: {} and {}",
    // rust:     word.len(), points.len());
    // rust: assert!(message.len() <= points.len(), "k must be at most the number of points: {} and {}", message.len(),
    // rust:     points.len());
    // rust: assert!(weights.len() == message.len(), "there must be k weights: {} and {}", weights.len(), message.len());
    if !interpolate(r, points, word, weights, message) {
        return false;
    }
    'places: for i in message.len()..points.len() {
        let symbol = evaluate(r, message, &points[i]);
        if symbol != word[i] {
            return false;
        }
    }
    true
}

/// Writes the word that begins with the message: the systematic one, and the coefficients of its polynomial.
///
/// Returns false, with the word unchanged, exactly where the first k points don't fit.
///
/// `weights` is scratch: its contents are ignored, and unspecified afterwards. The contents of `coefficients` are
/// ignored, and unspecified after false.
///
/// # Conditions
///
/// - the word has as many places as there are points
/// - k, the length of the message, is at most the number of points
/// - there are k weights
/// - there are k coefficients
/// - (debug) points and message are checked forms
///
/// # Examples
///
/// ```
/// use num_modular::applications::ring_codes::erasure::encode_systematic;
/// use num_modular::{Reducer, Vanilla};
///
/// let ring = Vanilla::<u8>::new(&97);
/// let (mut weights, mut coefficients, mut word) = ([0; 2], [0; 2], [0; 4]);
/// assert!(encode_systematic(&ring, &[1, 2, 3, 4], &[12, 19], &mut weights, &mut coefficients, &mut word));
/// assert_eq!(word, [12, 19, 26, 33]); // 5 + 7X
/// ```
// rust: #[must_use]
// rust: #[track_caller]
#[tactic(auto, using(num_modular::specs::Callers::entry))]
pub fn encode_systematic<T: RingWord, R: Reducer<T>>(
    r: &R,
    points: &[T],
    message: &[T],
    weights: &mut [T],
    coefficients: &mut [T],
    word: &mut [T],
) -> bool
    requires points { AreChecked R.Reducer T.number r.now points.now }
    requires message { AreChecked R.Reducer T.number r.now message.now }
    requires few { length message.now ≤ length points.now }
    requires room { length word.old ≡ length points.now }
    requires weights { length weights.old ≡ length message.now }
    requires coefficients { length coefficients.old ≡ length message.now }
    ensures fit { let m = R.modulus r.now in
        IsTrue result ↔ HaveUnitDifferences m (length message.now) (entry T.number R.value m points.now) }
    ensures checked { IsTrue result → AreChecked R.Reducer T.number r.now word.new }
    ensures encoding { let m = R.modulus r.now in IsTrue result →
        IsEncoding m (length message.now) (length points.now) (entry T.number R.value m points.now)
        (entry T.number R.value m coefficients.new) (entry T.number R.value m word.new) }
    ensures systematic { let m = R.modulus r.now in IsTrue result → (i : ℕ) → i < length message.now →
        entry T.number R.value m word.new i ≡ entry T.number R.value m message.now i }
    ensures forms { IsTrue result → AreChecked R.Reducer T.number r.now coefficients.new }
    ensures unchanged { (IsTrue result → ⊥) → word.new ≡ word.old }
{
    // rust: debug_assert!(points.iter().chain(message.iter()).all(|x| r.check(x)),
    // rust:     "points and message must be checked forms");
    // rust: assert!(word.len() == points.len(), "the word must have as many places as there are points: {} and {}",
    // rust:     word.len(), points.len());
    // rust: assert!(message.len() <= points.len(),
    // rust:     "k, the length of the message, must be at most the number of points: {} and {}", message.len(),
    // rust:     points.len());
    // rust: assert!(weights.len() == message.len(), "there must be k weights: {} and {}", weights.len(), message.len());
    // rust: assert!(coefficients.len() == message.len(), "there must be k coefficients: {} and {}", coefficients.len(),
    // rust:     message.len());
    if !interpolate(r, points, message, weights, coefficients) {
        return false;
    }
    encode(r, points, coefficients, word);
    true
}

/// Restores the message from any k places: its k symbols, k being the length of `message`, from the first k places and
/// the symbols there.
///
/// [`restore_word`] also restores every lost symbol.
///
/// It restores what [`encode`] was given. Of a word that [`encode_systematic`] wrote, these are the coefficients; its
/// message is the first k symbols of the word that `restore_word` restores.
///
/// `chosen` and `weights` are scratch: their contents are ignored, and unspecified afterwards. The contents of
/// `message` are ignored, and unspecified after an error.
///
/// # Errors
///
/// The first cause: too few symbols; then the first place that has no point or occurs before; then points that don't
/// fit.
///
/// # Conditions
///
/// - there are as many symbols as places
/// - there are k weights
/// - `chosen` has k places
/// - (debug) points and symbols are checked forms
///
/// # Examples
///
/// ```
/// use num_modular::applications::ring_codes::erasure::restore;
/// use num_modular::{Reducer, Vanilla};
///
/// let ring = Vanilla::<u8>::new(&97);
/// let (mut chosen, mut weights, mut message) = ([0; 2], [0; 2], [0; 2]);
/// // of the word 12, 19, 26, 33 two symbols are left
/// restore(&ring, &[1, 2, 3, 4], &[3, 1], &[33, 19], &mut chosen, &mut weights, &mut message).unwrap();
/// assert_eq!(message, [5, 7]);
/// ```
// rust: #[track_caller]
#[tactic(auto, using(crate::proofs::Sets::front_parts))]
pub fn restore<T: RingWord, R: Reducer<T>>(
    r: &R,
    points: &[T],
    places: &[usize],
    symbols: &[T],
    chosen: &mut [T],
    weights: &mut [T],
    message: &mut [T],
) -> Result<(), RestoreError>
    requires points { AreChecked R.Reducer T.number r.now points.now }
    requires symbols { AreChecked R.Reducer T.number r.now symbols.now }
    requires pairs { length symbols.now ≡ length places.now }
    requires chosen { length chosen.old ≡ length message.old }
    requires weights { length weights.old ≡ length message.old }
    ensures accepted { let m = R.modulus r.now in IsOk result ↔
        (ArePlaces (length message.old) (length points.now) places.now × HaveUnitDifferences m (length message.old)
        (λ i. entry T.number R.value m points.now (slice_index places.now i))) }
    ensures fault { let m = R.modulus r.now in IfErr result (λ e. IsFault m (length message.old) (length points.now)
        (entry T.number R.value m points.now) places.now e) }
    ensures checked { IsOk result → AreChecked R.Reducer T.number r.now message.new }
    ensures symbols { let m = R.modulus r.now in IsOk result →
        IsEncoding m (length message.old) (length message.old)
        (λ i. entry T.number R.value m points.now (slice_index places.now i))
        (entry T.number R.value m message.new) (entry T.number R.value m symbols.now) }
    ensures original { let m = R.modulus r.now in IsOk result → (original word : ℕ → ℕ) →
        IsEncoding m (length message.old) (length points.now) (entry T.number R.value m points.now) original word →
        ((i : ℕ) → i < length message.old →
        entry T.number R.value m symbols.now i ≡ word (slice_index places.now i)) →
        (i : ℕ) → i < length message.old → entry T.number R.value m message.new i ≡ original i % m }
{
    // rust: debug_assert!(points.iter().chain(symbols.iter()).all(|x| r.check(x)),
    // rust:     "points and symbols must be checked forms");
    // rust: assert!(symbols.len() == places.len(), "there must be as many symbols as places: {} and {}", symbols.len(),
    // rust:     places.len());
    // rust: assert!(weights.len() == message.len(), "there must be k weights: {} and {}", weights.len(), message.len());
    // rust: assert!(chosen.len() == message.len(), "`chosen` must have k places: {} and {}", chosen.len(),
    // rust:     message.len());
    match choose_points(points, places, chosen) {
        Err(error) => Err(error),
        Ok(()) => {
            if interpolate(r, chosen, symbols, weights, message) {
                Ok(())
            } else {
                Err(RestoreError::PointsDontFit)
            }
        }
    }
}
