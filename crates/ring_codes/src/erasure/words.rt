//! Whole words from some of their symbols.

ghost use Rattle.std.specs.Prelude.{◌≡◌, ◌≢◌, ℕ, ◌%◌, ◌<◌, ◌≤◌, ◌↔◌, IsOk, IfErr};
ghost use Rattle.std.specs.Prelude.{length, slice_index, MatchOption};
ghost use Rattle.num_modular.specs.Entries.{entry};
ghost use Rattle.num_modular.specs.Checked.{AreChecked};
ghost use Rattle.num_modular.specs.Polynomials.{polynomial_at, HaveUnitDifferences};
ghost use Rattle.ring_codes.specs.Erasure.{IsEncoding, IsErasureCodeword, ArePlaces, IsFault};

use super::places::index_of;
use super::{RestoreError, evaluate, restore};
use num_modular::{Reducer, RingWord};

/// Writes the word of a message: the symbols at the first `count` places, and the message's values at the other points.
///
/// # Preconditions
///
/// - there are as many symbols as places
/// - there are at least `count` places
/// - the word has as many places as there are points
/// - the first `count` symbols are the message's values at the points of their places
/// - points, message and symbols are checked forms
#[tactic(auto, using(num_modular::specs::Callers::held_forms, num_modular::specs::Callers::held_entry, num_modular::specs::Callers::form_read, num_modular::specs::Callers::entry_read, num_modular::specs::Callers::hold_more))]
pub fn fill_word<T: RingWord, R: Reducer<T>>(
    r: &R,
    points: &[T],
    message: &[T],
    count: usize,
    places: &[usize],
    symbols: &[T],
    word: &mut [T],
)
    requires points { AreChecked R.Reducer T.number r.now points.now }
    requires message { AreChecked R.Reducer T.number r.now message.now }
    requires symbols { AreChecked R.Reducer T.number r.now symbols.now }
    requires pairs { length symbols.now ≡ length places.now }
    requires enough { count ≤ length places.now }
    requires room { length word.old ≡ length points.now }
    requires kept { let m = R.modulus r.now in IsEncoding m (length message.now) count
        (λ i. entry T.number R.value m points.now (slice_index places.now i))
        (entry T.number R.value m message.now) (entry T.number R.value m symbols.now) }
    ensures checked { AreChecked R.Reducer T.number r.now word.new }
    ensures encoding { let m = R.modulus r.now in
        IsEncoding m (length message.now) (length points.now) (entry T.number R.value m points.now)
        (entry T.number R.value m message.now) (entry T.number R.value m word.new) }
{
    'points: for i in 0..points.len() {
        word[i] = match index_of(places, count, i) {
            Some(j) => symbols[j],
            None => evaluate(r, message, &points[i]),
        };
    }
}

/// Restores the message and its whole word: the message has k symbols, k being the length of `message`, and the first k
/// places and the symbols there are used, whichever places these are.
///
/// Of a word that `encode_systematic` wrote, `message` gets the coefficients, as from [`restore`]; its message is the
/// first k symbols of `word`.
///
/// `weights` is scratch: its contents are ignored, and unspecified afterwards. The contents of `message` and `word` are
/// ignored, and unspecified after an error.
///
/// Source: Reed and Solomon, "Polynomial codes over certain finite fields".
///
/// # Errors
///
/// Those of `restore`.
///
/// # Conditions
///
/// - there are as many symbols as places
/// - the word has as many places as there are points
/// - k is at most the number of points
/// - there are k weights
/// - (debug) points and symbols are checked forms
///
/// # Examples
///
/// ```
/// use num_modular::applications::ring_codes::erasure::restore_word;
/// use num_modular::{Reducer, Vanilla};
///
/// let ring = Vanilla::<u8>::new(&97);
/// let (mut weights, mut message, mut word) = ([0; 2], [0; 2], [0; 4]);
/// restore_word(&ring, &[1, 2, 3, 4], &[3, 1], &[33, 19], &mut weights, &mut message, &mut word).unwrap();
/// assert_eq!((message, word), ([5, 7], [12, 19, 26, 33]));
/// ```
// rust: #[track_caller]
#[tactic(auto, using(crate::proofs::Sets::front_parts))]
pub fn restore_word<T: RingWord, R: Reducer<T>>(
    r: &R,
    points: &[T],
    places: &[usize],
    symbols: &[T],
    weights: &mut [T],
    message: &mut [T],
    word: &mut [T],
) -> Result<(), RestoreError>
    requires points { AreChecked R.Reducer T.number r.now points.now }
    requires symbols { AreChecked R.Reducer T.number r.now symbols.now }
    requires pairs { length symbols.now ≡ length places.now }
    requires few { length message.old ≤ length points.now }
    requires weights { length weights.old ≡ length message.old }
    requires room { length word.old ≡ length points.now }
    ensures accepted { let m = R.modulus r.now in IsOk result ↔
        (ArePlaces (length message.old) (length points.now) places.now × HaveUnitDifferences m (length message.old)
        (λ i. entry T.number R.value m points.now (slice_index places.now i))) }
    ensures fault { let m = R.modulus r.now in IfErr result (λ e. IsFault m (length message.old) (length points.now)
        (entry T.number R.value m points.now) places.now e) }
    ensures checked { IsOk result → AreChecked R.Reducer T.number r.now word.new }
    ensures forms { IsOk result → AreChecked R.Reducer T.number r.now message.new }
    ensures encoding { let m = R.modulus r.now in IsOk result →
        IsEncoding m (length message.old) (length points.now) (entry T.number R.value m points.now)
        (entry T.number R.value m message.new) (entry T.number R.value m word.new) }
    ensures symbols { let m = R.modulus r.now in IsOk result → (i : ℕ) → i < length message.old →
        entry T.number R.value m word.new (slice_index places.now i) ≡ entry T.number R.value m symbols.now i }
    ensures original { let m = R.modulus r.now in IsOk result → (original : ℕ → ℕ) →
        IsErasureCodeword m (length message.old) (length points.now) (entry T.number R.value m points.now) original →
        ((i : ℕ) → i < length message.old →
        entry T.number R.value m symbols.now i ≡ original (slice_index places.now i)) →
        (i : ℕ) → i < length points.now → entry T.number R.value m word.new i ≡ original i }
    ensures message { let m = R.modulus r.now in IsOk result → (sent word : ℕ → ℕ) →
        IsEncoding m (length message.old) (length points.now) (entry T.number R.value m points.now) sent word →
        ((i : ℕ) → i < length message.old →
        entry T.number R.value m symbols.now i ≡ word (slice_index places.now i)) →
        (i : ℕ) → i < length message.old → entry T.number R.value m message.new i ≡ sent i % m }
{
    // rust: debug_assert!(points.iter().chain(symbols.iter()).all(|x| r.check(x)),
    // rust:     "points and symbols must be checked forms");
    // rust: assert!(symbols.len() == places.len(), "there must be as many symbols as places: {} and {}", symbols.len(),
    // rust:     places.len());
    // rust: assert!(word.len() == points.len(), "the word must have as many places as there are points: {} and {}",
    // rust:     word.len(), points.len());
    // rust: assert!(message.len() <= points.len(), "k must be at most the number of points: {} and {}", message.len(),
    // rust:     points.len());
    // rust: assert!(weights.len() == message.len(), "there must be k weights: {} and {}", weights.len(), message.len());
    let chosen = &mut word[..message.len()];
    match restore(r, points, places, symbols, chosen, weights, message) {
        Err(error) => Err(error),
        Ok(()) => {
            fill_word(r, points, message, message.len(), places, symbols, word);
            Ok(())
        }
    }
}
