//! Codes whose points are the powers of a root of unity: their words are transforms.

ghost use Rattle.std.specs.Prelude.{◌≡◌, ℕ, ◌*◌, ◌%◌, ◌^◌, ◌<◌, ◌≤◌, ◌↔◌, IsTrue, All, length};
ghost use Rattle.num_modular.specs.Entries.{entry};
ghost use Rattle.num_modular.specs.Checked.{AreChecked, IsChecked};
ghost use Rattle.num_modular.specs.Plans.{numbers};
ghost use Rattle.num_modular.specs.Polynomials.{HaveUnitDifferences};
ghost use Rattle.num_modular.specs.Transforms.{Suits, transform};
ghost use Rattle.ring_codes.specs.Erasure.{IsEncoding, IsErasureCodeword};
ghost use Rattle.ring_codes.specs.Powers.{ArePowers};

use num_modular::plans::{Plan, PlanEntry};
use num_modular::ring::{intt, ntt};
use num_modular::word::PlainWord;
use num_modular::{Reducer, RingWord};

/// Writes the points g^0, g^1, ..: modulo m, as many as the list holds.
///
// rust instead: /// Where m is odd and g suits their number n (`root_fits` tells), the points fit: `restore`,
/// Where m is odd and g suits their number n (`root_fits` tells), the points fit ([`root_laws`]): [`restore`],
/// `correct` and the other calls accept them.
///
/// # Conditions
///
/// - (debug) g is a checked form
///
/// # Examples
///
/// ```
/// use num_modular::applications::ring_codes::erasure::{fill_powers, points_fit};
/// use num_modular::{Reducer, Vanilla};
///
/// let ring = Vanilla::<u64>::new(&85);
/// let mut points = [0; 4];
/// fill_powers(&ring, &13, &mut points); // 13^2 is -1 modulo 85
/// assert_eq!(points, [1, 13, 84, 72]);
/// assert!(points_fit(&ring, &points));
/// ```
// rust: #[cfg_attr(debug_assertions, track_caller)]
#[tactic(auto, using(num_modular::specs::Callers::held_forms, num_modular::specs::Callers::held_entry))]
pub fn fill_powers<T: RingWord, R: Reducer<T>>(r: &R, g: &T, points: &mut [T])
    requires { IsChecked R.Reducer T.number r.now g.now }
    ensures checked { AreChecked R.Reducer T.number r.now points.new }
    ensures powers { let m = R.modulus r.now in
        ArePowers m (R.value m (T.number g.now)) (length points.old) (entry T.number R.value m points.new) }
{
    // rust: debug_assert!(r.check(g), "g must be a checked form");
    let mut power = r.transform(T::one());
    'powers: for i in 0..points.len() {
        points[i] = power;
        power = r.mul(&power, g);
    }
}

/// Writes the word at the powers of a root: at the points g^0, .., g^(n - 1), n being the length of the word, it is
/// what `encode` writes, by one transform instead of n·k products.
///
/// Source: [`ntt`] of the message followed by zeros.
///
/// # Conditions
///
/// - n is a power of two
/// - g suits n (`root_fits` tells)
/// - the message has at most n symbols
/// - (debug) g and the message are checked forms
///
/// # Examples
///
/// ```
/// use num_modular::applications::ring_codes::erasure::{encode, encode_by_transform};
/// use num_modular::{Reducer, Vanilla};
///
/// let ring = Vanilla::<u64>::new(&85);
/// let (mut word, mut same) = ([0; 4], [0; 4]);
/// encode_by_transform(&ring, &13, &[1, 2, 3], &mut word);
/// encode(&ring, &[1, 13, 84, 72], &[1, 2, 3], &mut same);
/// assert_eq!((word, same), ([6, 24, 2, 57], [6, 24, 2, 57]));
/// ```
// rust: #[track_caller]
#[tactic(auto, using(num_modular::specs::Callers::form_read, num_modular::specs::Callers::entry_read, num_modular::specs::Callers::entry_past, num_modular::specs::Callers::hold_more, num_modular::specs::Callers::held_forms, crate::proofs::Counts::zero_mod))]
pub fn encode_by_transform<T: RingWord, R: Reducer<T>>(r: &R, g: &T, message: &[T], word: &mut [T])
    requires root { IsChecked R.Reducer T.number r.now g.now }
    requires message { AreChecked R.Reducer T.number r.now message.now }
    requires suits { let m = R.modulus r.now in Suits m (R.value m (T.number g.now)) (length word.old) }
    requires few { length message.now ≤ length word.old }
    ensures checked { AreChecked R.Reducer T.number r.now word.new }
    ensures encoding { let m = R.modulus r.now in (points : ℕ → ℕ) →
        ArePowers m (R.value m (T.number g.now)) (length word.old) points →
        IsEncoding m (length message.now) (length word.old) points
        (entry T.number R.value m message.now) (entry T.number R.value m word.new) }
{
    // rust: assert!(word.len().is_power_of_two(), "n must be a power of two");
    // rust: debug_assert!(r.check(g) && message.iter().all(|x| r.check(x)), "g and the message must be checked forms");
    // rust: assert!(r.check(g) && crate::ring::root_fits(r, g, word.len()), "g must suit n");
    // rust: assert!(message.len() <= word.len(), "the message must have at most n symbols: {} and {}", message.len(),
    // rust:     word.len());
    let zero = r.transform(T::zero());
    'symbols: for i in 0..word.len() {
        word[i] = if i < message.len() { message[i] } else { zero };
    }
    ntt(r, word, g);
}

// Whether all entries from an index on are 0.
fn are_zeros<T: RingWord, R: Reducer<T>>(r: &R, entries: &[T], from: usize) -> bool
    requires { AreChecked R.Reducer T.number r.now entries.now }
    ensures { let m = R.modulus r.now in IsTrue result ↔
        ((i : ℕ) → from ≤ i → i < length entries.now → entry T.number R.value m entries.now i ≡ 0) }
{
    'entries: for i in from..entries.len() {
        if !r.is_zero(&entries[i]) {
            return false;
        }
    }
    true
}

// Whether the word at the powers of a root is that of a message of k symbols, which are then the first ones of `found`.
fn find_coefficients<T: RingWord, R: Reducer<T>>(
    r: &R,
    g: &T,
    word: &[T],
    found: &mut [T],
    k: usize,
) -> bool
    requires root { IsChecked R.Reducer T.number r.now g.now }
    requires word { AreChecked R.Reducer T.number r.now word.now }
    requires suits { let m = R.modulus r.now in Suits m (R.value m (T.number g.now)) (length word.now) }
    requires odd { R.modulus r.now % 2 ≡ 1 }
    requires few { k ≤ length word.now }
    requires room { length found.old ≡ length word.now }
    ensures codeword { let m = R.modulus r.now in (points : ℕ → ℕ) →
        ArePowers m (R.value m (T.number g.now)) (length word.now) points →
        (IsTrue result ↔ IsErasureCodeword m k (length word.now) points (entry T.number R.value m word.now)) }
    ensures message { let m = R.modulus r.now in IsTrue result → (points : ℕ → ℕ) →
        ArePowers m (R.value m (T.number g.now)) (length word.now) points →
        IsEncoding m k (length word.now) points (entry T.number R.value m found.new)
        (entry T.number R.value m word.now) }
    ensures checked { IsTrue result → AreChecked R.Reducer T.number r.now found.new }
{
    found.copy_from_slice(word);
    if !intt(r, found, g) {
        return false;
    }
    are_zeros(r, found, k)
}

/// Whether the word at the powers of a root is that of a message: of k symbols, k being the length of `message`, at the
/// points g^0, .., g^(n - 1), n being the length of the word.
///
/// Where it is, the message is written to `message`. It takes one transform, where `is_codeword` takes about n·k products.
///
/// `scratch`: its contents are ignored, and unspecified afterwards. The contents of `message` are ignored, and
/// unspecified after false.
///
/// Source: [`intt`](num_modular::ring::intt) gives the coefficients; of a word those from number k on are 0.
///
/// # Conditions
///
/// - n is a power of two
/// - g suits n (`root_fits` tells)
/// - the modulus is odd
/// - k is at most n
/// - there are n places of scratch
/// - (debug) g and the word are checked forms
///
/// # Examples
///
/// ```
/// use num_modular::applications::ring_codes::erasure::is_codeword_by_transform;
/// use num_modular::{Reducer, Vanilla};
///
/// let ring = Vanilla::<u64>::new(&85);
/// let (mut scratch, mut message) = ([0; 4], [0; 3]);
/// assert!(is_codeword_by_transform(&ring, &13, &[6, 24, 2, 57], &mut scratch, &mut message));
/// assert_eq!(message, [1, 2, 3]);
/// assert!(!is_codeword_by_transform(&ring, &13, &[6, 24, 2, 58], &mut scratch, &mut message));
/// ```
// rust: #[must_use]
// rust: #[track_caller]
pub fn is_codeword_by_transform<T: RingWord, R: Reducer<T>>(
    r: &R,
    g: &T,
    word: &[T],
    scratch: &mut [T],
    message: &mut [T],
) -> bool
    requires root { IsChecked R.Reducer T.number r.now g.now }
    requires word { AreChecked R.Reducer T.number r.now word.now }
    requires suits { let m = R.modulus r.now in Suits m (R.value m (T.number g.now)) (length word.now) }
    requires odd { R.modulus r.now % 2 ≡ 1 }
    requires few { length message.old ≤ length word.now }
    requires scratch { length scratch.old ≡ length word.now }
    ensures codeword { let m = R.modulus r.now in (points : ℕ → ℕ) →
        ArePowers m (R.value m (T.number g.now)) (length word.now) points →
        (IsTrue result ↔ IsErasureCodeword m (length message.old) (length word.now) points
        (entry T.number R.value m word.now)) }
    ensures message { let m = R.modulus r.now in IsTrue result → (points : ℕ → ℕ) →
        ArePowers m (R.value m (T.number g.now)) (length word.now) points →
        IsEncoding m (length message.old) (length word.now) points
        (entry T.number R.value m message.new) (entry T.number R.value m word.now) }
    ensures checked { IsTrue result → AreChecked R.Reducer T.number r.now message.new }
{
    // rust: assert!(word.len().is_power_of_two(), "n must be a power of two");
    // rust: debug_assert!(r.check(g) && word.iter().all(|x| r.check(x)), "g and the word must be checked forms");
    // rust: assert!(r.check(g) && crate::ring::root_fits(r, g, word.len()), "g must suit n");
    // rust: assert!(r.inv(r.dbl(r.transform(T::one()))).is_some(), "the modulus must be odd");
    // rust: assert!(message.len() <= word.len(), "k must be at most n: {} and {}", message.len(), word.len());
    // rust: assert!(scratch.len() == word.len(), "there must be n places of scratch: {} and {}", scratch.len(), word.len());
    if !find_coefficients(r, g, word, scratch, message.len()) {
        return false;
    }
    message.copy_from_slice(&scratch[..message.len()]);
    true
}

/// Writes the word at the powers of a root: at the points g^0, .., g^(n - 1), g being the root of a plan for n entries,
/// by one transform with the plan's table.
///
/// Symbols are plain words, and those of the word are below m.
///
/// Source: [`Plan::transform`] of the message followed by zeros.
///
/// # Conditions
///
/// - the word has n places ([`Plan::fits`] tells)
/// - the message has at most n symbols
/// - (debug) the symbols are below 4m
///
/// # Examples
///
/// ```
/// use num_modular::applications::ring_codes::erasure::encode_by_plan;
/// use num_modular::plans::{Factor, Plan, PlannedModulus};
///
/// let modulus = PlannedModulus::<u64>::new(97);
/// let mut table = [Factor::<u64>::ZERO; 2];
/// let plan = Plan::new(&modulus, 22, &mut table).unwrap(); // the points are 1, 22, 96 and 75
/// let mut word = [0; 4];
/// encode_by_plan(&plan, &[1, 2, 3], &mut word);
/// assert_eq!(word, [6, 42, 2, 51]);
/// ```
// rust: #[track_caller]
pub fn encode_by_plan<T: PlainWord, F: PlanEntry<T>>(
    plan: &Plan<T, F>,
    message: &[T],
    word: &mut [T],
)
    requires whole { length word.old ≡ 2 ^ plan.now.bits }
    requires few { length message.now ≤ length word.old }
    requires symbols { All (λ x. T.number x < 4 * T.number plan.now.modulus.modulus) message.now }
    ensures below { All (λ x. T.number x < T.number plan.now.modulus.modulus) word.new }
    ensures encoding { let m = T.number plan.now.modulus.modulus in (points : ℕ → ℕ) →
        ArePowers m (T.number plan.now.root) (length word.old) points →
        IsEncoding m (length message.now) (length word.old) points
        (numbers T.number message.now) (numbers T.number word.new) }
{
    // rust: assert!(plan.fits(word.len()), "the word must have n places");
    // rust: assert!(message.len() <= word.len(), "the message must have at most n symbols: {} and {}", message.len(),
    // rust:     word.len());
    // rust: debug_assert!(message.iter().all(|x| plan.modulus().has_room(*x)), "the symbols must be below 4m");
    'symbols: for i in 0..word.len() {
        word[i] = if i < message.len() {
            message[i]
        } else {
            T::zero()
        };
    }
    plan.transform(word);
}

/// A law, powers of a root as points: where m is odd and g suits n, the points g^0, .., g^(n - 1) fit, as the
/// difference of any two has an inverse modulo m. At these points the word of a message of k symbols is its transform
/// by g, the message being followed by n - k zeros.
///
/// For g^i and g^j with i > j the difference is g^j·(g^(i - j) - 1), and the second factor divides -2, the last power
/// being -1 after some squarings of g^(i - j).
///
/// Source: Pollard, "The fast Fourier transform in a finite field".
pub fn root_laws()
    ensures fit { (m g n : ℕ) (points : ℕ → ℕ) → m % 2 ≡ 1 → Suits m g n → ArePowers m g n points →
        HaveUnitDifferences m n points }
    ensures transform { (m g k n : ℕ) (points message : ℕ → ℕ) → k ≤ n → ArePowers m g n points →
        ((i : ℕ) → k ≤ i → i < n → message i ≡ 0) →
        IsEncoding m k n points message (transform m g n message) }
{}
