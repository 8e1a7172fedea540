//! Correction of wrong symbols.

ghost use Rattle.std.specs.Prelude.{◌≡◌, ℕ, ◌+◌, ◌-◌, ◌*◌, ◌%◌, ◌<◌, ◌≤◌};
ghost use Rattle.std.specs.Prelude.{IsTrue, IfOk, IfErr, MatchResult, length, slice_index, ◌==◌, if◌then◌else◌};
ghost use Rattle.num_modular.specs.Entries.{entry};
ghost use Rattle.num_modular.specs.Checked.{AreChecked, IsChecked};
ghost use Rattle.num_modular.specs.Polynomials.{polynomial_at, HaveUnitDifferences};
ghost use Rattle.ring_correction.specs.Correction.{AreLocated, IsCorrected, ArePlacesAtFault, IsCorrectFault};
ghost use Rattle.ring_codes.specs.Erasure.{IsErasureCodeword, distance};
ghost use Rattle.ring_codes.specs.Erasure.{IsWithoutInverse};

use super::search::find_message;
use num_modular::{Reducer, RingWord};
use ring_codes::erasure::{CorrectError, RestoreError, choose_points, fill_word};

// Copies the points at all places, if there are at least k, and they are right.
fn locate<T: RingWord, R: Reducer<T>>(
    _r: &R,
    k: usize,
    points: &[T],
    places: &[usize],
    located: &mut [T],
) -> Result<(), RestoreError>
    requires points { AreChecked R.Reducer T.number _r.now points.now }
    requires room { length located.old ≡ length places.now }
    ensures { let m = R.modulus _r.now in let entries = entry T.number R.value m in MatchResult result
        (λ _. AreLocated (λ f. IsChecked R.Reducer T.number _r.now f) entries k points.now places.now located.new)
        (λ e. ArePlacesAtFault m k (length points.now) (entries points.now) places.now e) }
{
    if places.len() < k {
        return Err(RestoreError::TooFewSymbols);
    }
    match choose_points(points, places, located) {
        Err(error) => Err(error),
        Ok(()) => Ok(()),
    }
}

// 1 where two words differ, otherwise 0.
fn difference<T: RingWord>(a: &T, b: &T) -> usize
    ensures counted { result ≡ (if T.number a.now == T.number b.now then 0 else 1) }
    ensures few { result ≤ 1 }
{
    if a != b { 1 } else { 0 }
}

// The number of the symbols that differ from those of a word at their places.
#[tactic(auto, using(ring_codes::proofs::Distances::none_counted))]
fn count_errors<T: RingWord, R: Reducer<T>>(
    _r: &R,
    places: &[usize],
    symbols: &[T],
    word: &[T],
) -> usize
    requires symbols { AreChecked R.Reducer T.number _r.now symbols.now }
    requires word { AreChecked R.Reducer T.number _r.now word.now }
    requires pairs { length symbols.now ≡ length places.now }
    requires within { (i : ℕ) → i < length places.now → slice_index places.now i < length word.now }
    ensures { let m = R.modulus _r.now in result ≡ distance (length places.now)
        (entry T.number R.value m symbols.now) (λ j. entry T.number R.value m word.now (slice_index places.now j)) }
{
    let mut errors = 0;
    'places: for i in 0..places.len() {
        errors += difference(&symbols[i], &word[places[i]]);
    }
    errors
}

/// Corrects symbols that may be wrong: writes the only message whose word differs in e of the s symbols, where 2·e is
/// at most s - k, and that word, and returns e.
///
/// Erasures are the places that aren't listed; so e wrong symbols and n - s lost ones are corrected if 2·e + (n - s) ≤
/// n - k.
///
/// The modulus may be composite. `NoInverse(a)` then says that a number without an inverse was met, and a has a common
/// factor with m; it never comes where m is a prime, or where no symbol is wrong. Of random words of up to 8 symbols modulo
/// composite numbers one in 50 gives it, and one in 19 by the key equation alone. `TooManyErrors` comes only where no word is
/// that near. The other errors are those of `restore`, for all s places.
///
/// The contents of `scratch` are ignored, and unspecified afterwards. The contents of `message` and `word` are
/// ignored, and unspecified after an error.
///
/// It goes by the syndromes of the symbols, as `Corrector::correct` does, and where a number without an inverse is in the
/// way by the key equation. By syndromes it takes about s² + 1.5·k² + (n - s)·k + s·(s - k) products and three inversions, besides
/// those of `Corrector::correct` for wrong symbols; by the key equation at most about 10·s² + n·k more, and 2·s inversions.
/// For syndromes there have to be 11·s - 7·k + 3 places of scratch, which is no more than is asked for where 4·s is below
/// 5·k; with fewer it goes by the key equation alone.
///
/// Source: Massey, "Shift-register synthesis and BCH decoding"; Forney, "On decoding BCH codes". The key equation: Welch
/// and Berlekamp, US patent 4,633,470; Kötter, "On algebraic decoding of algebraic-geometric and cyclic codes".
///
/// Not for secrets.
///
/// # Errors
///
/// The places or the points don't fit, no word is near enough, or a number has no inverse modulo m.
///
/// # Conditions
///
/// - there are as many symbols as places
/// - k, the length of the message, is at least 1
/// - the word has as many places as there are points
/// - there are at least 3·(s + k) + 2 places of scratch
/// - (debug) points and symbols are checked forms
///
/// # Examples
///
/// ```
/// use num_modular::applications::ring_codes::erasure::correct;
/// use num_modular::{Reducer, Vanilla};
///
/// let ring = Vanilla::<u8>::new(&97);
/// let (mut scratch, mut message, mut word) = ([0; 20], [0; 2], [0; 4]);
/// // the third symbol should be 26
/// let symbols = [12, 19, 50, 33];
/// let found = correct(&ring, &[1, 2, 3, 4], &[0, 1, 2, 3], &symbols, &mut scratch, &mut message, &mut word);
/// assert_eq!((found, message, word), (Ok(1), [5, 7], [12, 19, 26, 33]));
/// ```
// rust: #[track_caller]
pub fn correct<T: RingWord, R: Reducer<T>>(
    r: &R,
    points: &[T],
    places: &[usize],
    symbols: &[T],
    scratch: &mut [T],
    message: &mut [T],
    word: &mut [T],
) -> Result<usize, CorrectError<T>>
    requires points { AreChecked R.Reducer T.number r.now points.now }
    requires symbols { AreChecked R.Reducer T.number r.now symbols.now }
    requires pairs { length symbols.now ≡ length places.now }
    requires some { 0 < length message.old }
    requires scratch { 3 * (length places.now + length message.old) + 2 ≤ length scratch.old }
    requires room { length word.old ≡ length points.now }
    ensures { let m = R.modulus r.now in let entries = entry T.number R.value m in MatchResult result
        (λ errors. IsCorrected (λ f. IsChecked R.Reducer T.number r.now f) entries m (length message.old) points.now
        places.now symbols.now message.new word.new errors)
        (λ e. IsCorrectFault T.number m (length message.old) (length points.now) (entries points.now) places.now
        (entries symbols.now) e) }
{
    // rust: debug_assert!(points.iter().chain(symbols.iter()).all(|x| r.check(x)),
    // rust:     "points and symbols must be checked forms");
    // rust: assert!(symbols.len() == places.len(), "there must be as many symbols as places: {} and {}", symbols.len(),
    // rust:     places.len());
    // rust: assert!(!message.is_empty(), "k, the length of the message, must be at least 1");
    // rust: assert!(word.len() == points.len(), "the word must have as many places as there are points: {} and {}",
    // rust:     word.len(), points.len());
    // rust: assert!(scratch.len() >= 3 * (places.len() + message.len()) + 2,
    // rust:     "there must be at least 3·(s + k) + 2 places of scratch: {} and {}", scratch.len(),
    // rust:     3*(places.len()+message.len())+2);
    let (located, rest) = scratch.split_at_mut(places.len());
    match locate(r, message.len(), points, places, located) {
        Err(error) => return Err(CorrectError::Restore(error)),
        Ok(()) => {}
    }
    let (found, _) = word.split_at_mut(places.len());
    match find_message(r, located, symbols, rest, found, message) {
        Err(error) => return Err(error),
        Ok(()) => {}
    }
    let (corrected, _) = rest.split_at_mut(places.len());
    corrected.copy_from_slice(&word[..places.len()]);
    fill_word(r, points, message, places.len(), places, corrected, word);
    let errors = count_errors(r, places, symbols, word);
    if errors <= (places.len() - message.len()) / 2 {
        Ok(errors)
    } else {
        Err(CorrectError::TooManyErrors)
    }
}
