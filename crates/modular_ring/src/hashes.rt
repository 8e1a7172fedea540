//! Text search by polynomial hashes modulo 2^61 - 1: the hash of a window is computed from that of the one before.

ghost use Rattle.std.specs.Prelude.{◌≡◌, ℕ, ◌+◌, ◌*◌, ◌/◌, ◌%◌, ◌^◌, ◌<◌, ◌≤◌, ◌↔◌, List, []};
ghost use Rattle.std.specs.Prelude.{◌∷◌, ◌++◌, IsTrue, length, slice_index, slice_range, pos, ◌-ℤ◌};
ghost use Rattle.modular_reduced.specs.Integers.{residue_of};
ghost use Rattle.modular_folds.specs.Mersenne.{mersenne};
ghost use Rattle.modular_word.specs.Residues.{residue};
ghost use Rattle.modular_ring.specs.Hashes.{window_hash, StandsAt, IsSearch, IsSearchBetween};
ghost use Rattle.modular_word.specs.Sums.{polynomial_highest_first};

use modular_folds::mersenne::FixedMersenne64;
use modular_reduced::modular_integer::ModularInteger;
use modular_reduced::reduced_int::ReducedInt;
use modular_word::laws::residue_laws;
use modular_word::path_word::PathWord;

/// A hash: an integer modulo 2^61 - 1.
///
/// # Examples
///
/// ```
/// use num_modular::hashes::{base, hash, Hash};
/// use num_modular::ModularInteger;
///
/// let h: Hash = hash(base(256), b"ab");
/// assert_eq!(h.residue(), 97 * 256 + 98); // the codes of a and b
/// ```
pub type Hash = ReducedInt<u64, FixedMersenne64<61, 1>>;

/// A base of hashes: n modulo 2^61 - 1.
///
/// Two different texts of k bytes have the same hash at fewer than k bases, so a random base distinguishes them with
/// high probability.
///
/// # Examples
///
/// ```
/// use num_modular::hashes::base;
/// use num_modular::ModularInteger;
///
/// assert_eq!(base(1 << 61).residue(), 1);
/// ```
pub fn base(n: u64) -> Hash
    ensures { residue_of result ≡ n % mersenne 61 1 }
{
    Hash::new(n, &FixedMersenne64::<61, 1>::fixed_modulus())
}

/// The hash of a text: the value at the base of the polynomial with its bytes as coefficients, the highest first,
/// modulo 2^61 - 1.
///
/// Texts that differ by zeros in front have the same hash at every base; `mersenne_hash::length_hash` tells them apart.
///
/// Source: Karp and Rabin, "Efficient randomized pattern-matching algorithms".
///
/// # Examples
///
/// ```
/// use num_modular::hashes::{base, hash};
/// use num_modular::ModularInteger;
///
/// assert_eq!(hash(base(1000), &[1, 2, 3]).residue(), 1_002_003);
/// ```
pub fn hash(base: Hash, text: &[u8]) -> Hash
    ensures { residue_of result
        ≡ polynomial_highest_first (length text.now) (slice_index text.now) (residue_of base) % mersenne 61 1 }
{
    let mut value = base.convert(0);
    'bytes: for byte in text {
        value = value * base + *byte as u64;
    }
    value
}

// An eighth of n, modulo 2^61 - 1. The parts of the eighth below and above the bit 61 are those of n below and above the bit
// 64, that is, its words. Conditions: 8 divides n, and n is below 2^126.
#[inline(always)]
fn reduced_eighth(like: Hash, n: u128) -> Hash
    requires multiple { n % 8 ≡ 0 }
    requires below { n < 2 ^ 126 }
    ensures { residue_of result ≡ n / 8 % mersenne 61 1 }
{
    let (low, high) = <u64 as PathWord>::split(n);
    like.convert(high + (low >> 3))
}

/// The hash of the next window: it moves by one byte, `first` is the byte that it drops at its start, and `next` the
/// byte that it gains at its end.
///
/// The result is the hash of the moved window where `window` is that of the old one, and `power` is the power of the
/// base to the window's length.
///
/// Source: Karp and Rabin, "Efficient randomized pattern-matching algorithms".
///
/// # Examples
///
/// ```
/// use num_modular::hashes::{base, hash, roll};
///
/// let base = base(1000);
/// let window = hash(base, &[1, 2, 3]);
/// assert_eq!(roll(base, base.pow(&3), window, 1, 4), hash(base, &[2, 3, 4]));
/// ```
pub fn roll(base: Hash, power: Hash, window: Hash, first: u8, next: u8) -> Hash
    ensures value { let m = mersenne 61 1 in residue_of result
        ≡ residue m (pos ((residue_of window * residue_of base + next) % m) -ℤ pos ((residue_of power * first) % m)) }
    ensures hash { (old moved : List ℕ) → old ++ (next ∷ []) ≡ first ∷ moved →
        residue_of window ≡ polynomial_highest_first (length old) (slice_index old) (residue_of base) % mersenne 61 1 →
        residue_of power ≡ residue_of base ^ length old % mersenne 61 1 →
        residue_of result ≡ polynomial_highest_first (length moved) (slice_index moved) (residue_of base) % mersenne 61 1 }
{
    residue_laws();
    let kept = window.residue() as u128 * (8 * base.residue()) as u128;
    let change = (8 * (-power).residue()) as u128 * first as u128 + 8 * next as u128;
    reduced_eighth(base, kept + change)
}

/// Whether the pattern occurs at a position: the hashes of the pattern, `wanted`, and of the window there are given,
/// both by one base ([`hash`], [`roll`]).
///
/// The bytes are compared only where the two are equal.
///
/// Source: Karp and Rabin, "Efficient randomized pattern-matching algorithms".
///
/// # Conditions
///
/// - (debug) the text has as many bytes from the position `at` on as the pattern
/// - (debug) the hashes are equal if the pattern occurs at `at`
///
/// # Examples
///
/// ```
/// use num_modular::hashes::{base, hash, is_hit};
///
/// let base = base(1000);
/// let wanted = hash(base, b"cad");
/// assert!(is_hit(wanted, hash(base, b"cad"), b"abracadabra", b"cad", 4));
/// assert!(!is_hit(wanted, hash(base, b"aca"), b"abracadabra", b"cad", 3));
/// ```
// rust: #[cfg_attr(debug_assertions, track_caller)]
pub fn is_hit(wanted: Hash, window: Hash, text: &[u8], pattern: &[u8], at: usize) -> bool
    requires within { at + length pattern.now ≤ length text.now }
    requires alike { slice_range text.now at (at + length pattern.now) ≡ pattern.now →
        residue_of window ≡ residue_of wanted }
    ensures { IsTrue result ↔ StandsAt text.now pattern.now at }
{
    // rust: debug_assert!(at <= text.len() && pattern.len() <= text.len() - at,
    // rust:     "the text must have as many bytes from the position on as the pattern");
    // rust: debug_assert!(window == wanted || &text[at..at + pattern.len()] != pattern,
    // rust:     "the hashes must be equal if the pattern occurs there");
    window == wanted && &text[at..at + pattern.len()] == pattern
}

// A search: the text and the pattern, with the pattern's hash and the power of the base to its length.
// rust instead: #[derive(Clone, Copy)]
#[derive(Drop)]
struct Search<'a> {
    base: Hash,
    power: Hash,
    wanted: Hash,
    text: &'a [u8],
    pattern: &'a [u8],
    ghost raised: { residue_of power ≡ residue_of base ^ length pattern.now % mersenne 61 1 },
    ghost hashed: { residue_of wanted ≡ window_hash pattern.now (length pattern.now) (residue_of base) 0 },
}

impl<'a> Search<'a> {
    fn new(base: Hash, text: &'a [u8], pattern: &'a [u8]) -> Self
        ensures base { residue_of result.base ≡ residue_of base }
        ensures text { result.text.now ≡ text.now }
        ensures pattern { result.pattern.now ≡ pattern.now }
    {
        Search {
            base,
            power: base.pow(&(pattern.len() as u64)),
            wanted: hash(base, pattern),
            text,
            pattern,
        }
    }

    // The hash of the window at a position.
    fn window(&self, at: usize) -> Hash
        requires { at + length self.now.pattern.now ≤ length self.now.text.now }
        ensures { residue_of result
            ≡ window_hash self.now.text.now (length self.now.pattern.now) (residue_of self.now.base) at }
    {
        hash(self.base, &self.text[at..at + self.pattern.len()])
    }

    // The hash of the next window.
    #[inline(always)]
    fn next(&self, window: Hash, at: usize) -> Hash
        requires within { at + length self.now.pattern.now < length self.now.text.now }
        requires hashed { residue_of window
            ≡ window_hash self.now.text.now (length self.now.pattern.now) (residue_of self.now.base) at }
        ensures { residue_of result
            ≡ window_hash self.now.text.now (length self.now.pattern.now) (residue_of self.now.base) (at + 1) }
    {
        roll(
            self.base,
            self.power,
            window,
            self.text[at],
            self.text[at + self.pattern.len()],
        )
    }

    // Whether the pattern occurs at a position.
    #[inline(always)]
    fn hits(&self, window: Hash, at: usize) -> bool
        requires within { at + length self.now.pattern.now ≤ length self.now.text.now }
        requires hashed { residue_of window
            ≡ window_hash self.now.text.now (length self.now.pattern.now) (residue_of self.now.base) at }
        ensures { IsTrue result ↔ StandsAt self.now.text.now self.now.pattern.now at }
    {
        is_hit(self.wanted, window, self.text, self.pattern, at)
    }

    // The first position of the pattern from `from` on and before `to`.
    fn first_between(&self, window: Hash, from: usize, to: usize) -> Option<usize>
        requires order { from ≤ to }
        requires within { to + length self.now.pattern.now ≤ length self.now.text.now }
        requires hashed { residue_of window
            ≡ window_hash self.now.text.now (length self.now.pattern.now) (residue_of self.now.base) from }
        ensures { IsSearchBetween self.now.text.now self.now.pattern.now from to result }
    {
        let mut window = window;
        'windows: for at in from..to {
            if self.hits(window, at) {
                return Some(at);
            }
            window = self.next(window, at);
        }
        None
    }

    // The first position of the pattern before `to`. Where there are more positions than a window has bytes, the windows of
    // both halves are hashed side by side, since each hash waits for the one before.
    fn first_before(&self, to: usize) -> Option<usize>
        requires { to + length self.now.pattern.now ≤ length self.now.text.now }
        ensures { IsSearchBetween self.now.text.now self.now.pattern.now 0 to result }
    {
        let half = to / 2;
        let mut low = self.window(0);
        if half < self.pattern.len() {
            return self.first_between(low, 0, to);
        }
        let mut high = self.window(half);
        'windows: for at in 0..half {
            if self.hits(low, at) {
                return Some(at);
            }
            if self.hits(high, half + at) {
                return self.first_between(low, at, half).or(Some(half + at));
            }
            low = self.next(low, at);
            high = self.next(high, half + at);
        }
        self.first_between(high, 2 * half, to)
    }
}

/// The first position of the pattern; `None` exactly where it occurs nowhere.
///
/// The result is right for every base, because the bytes of a window are compared where its hash is the pattern's.
/// For a base that is drawn at random after text and pattern are fixed, few other windows have that hash. For the base
/// 0, where the hash is the last byte, or for a text that an adversary chose for the base, all of them may; the search
/// then compares the pattern at each position.
///
/// Source: Karp and Rabin, "Efficient randomized pattern-matching algorithms".
///
/// Not for secrets.
///
/// # Examples
///
/// ```
/// use num_modular::hashes::{base, find};
///
/// let base = base(123_456_789);
/// assert_eq!(find(base, b"abracadabra", b"cad"), Some(4));
/// assert_eq!(find(base, b"abracadabra", b"cab"), None);
/// ```
pub fn find(base: Hash, text: &[u8], pattern: &[u8]) -> Option<usize>
    ensures { IsSearch text.now pattern.now result }
{
    if pattern.len() > text.len() {
        return None;
    }
    let search = Search::new(base, text, pattern);
    let last = text.len() - pattern.len();
    if let Some(at) = search.first_before(last) {
        return Some(at);
    }
    if &text[last..] == pattern {
        Some(last)
    } else {
        None
    }
}
