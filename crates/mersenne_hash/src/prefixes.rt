//! The hashes of all beginnings of a text: from these that of any part takes one product.
//!
//! # Conditions
//!
//! Each call that has such arguments also requires:
//!
//! - the bases of the text and of the patterns are the same

mod searches;

ghost use Rattle.std.specs.Prelude.{◌≡◌, ℕ, ◌+◌, ◌%◌, ◌^◌, ◌≤◌, map, length, slice_index, slice_range, MatchOption};
ghost use Rattle.num_modular.specs.Integers.{residue_of};
ghost use Rattle.num_modular.specs.Mersenne.{mersenne};
ghost use Rattle.num_modular.specs.Sums.{polynomial_highest_first};
ghost use Rattle.mersenne_hash.specs.Collisions.{hash_of};
ghost use Rattle.mersenne_hash.specs.Occurrences.{IsSearchFrom};

use num_modular::ModularInteger;
use num_modular::hashes::{Hash, hash};
use num_modular::laws::{range_laws, residue_laws};
pub use searches::{Patterns, are_pattern_lengths};
// rust: pub use crate::layers::searches::Hits;

/// The hashes of a text's beginnings: at a base, with the powers of the base, in lists of the caller.
///
/// # Examples
///
/// ```
/// use num_modular::applications::mersenne_hash::prefixes::PrefixHashes;
/// use num_modular::hashes::{base, hash};
///
/// let base = base(123_456_789);
/// let (mut hashes, mut powers) = ([base; 12], [base; 12]);
/// let text = PrefixHashes::new(base, b"abracadabra", &mut hashes, &mut powers).unwrap();
/// assert_eq!(text.substring_hash(7, 11), hash(base, b"abra"));
/// assert_eq!(text.substring_hash(0, 4), text.substring_hash(7, 11));
/// ```
// rust instead: #[derive(Debug, Clone, Copy)]
#[derive(Drop)]
// rust: #[must_use]
pub struct PrefixHashes<'a> {
    // rust instead: pub(crate) text: &'a [u8],
    text: &'a [u8],
    // rust instead: pub(crate) base: Hash,
    base: Hash,
    hashes: &'a [Hash],
    powers: &'a [Hash],
    pub ghost entries: { length hashes.now ≡ length text.now + 1 },
    pub ghost exponents: { length powers.now ≡ length text.now + 1 },
    pub ghost hashed: { (k : ℕ) → k ≤ length text.now → slice_index (map residue_of hashes.now) k
        ≡ polynomial_highest_first k (slice_index text.now) (residue_of base) % mersenne 61 1 },
    pub ghost raised: { (k : ℕ) → k ≤ length text.now →
        slice_index (map residue_of powers.now) k ≡ residue_of base ^ k % mersenne 61 1 },
}

// Fills the lists with the hashes of the beginnings and with the powers.
fn fill_prefixes(base: Hash, text: &[u8], hashes: &mut [Hash], powers: &mut [Hash])
    requires entries { length hashes.old ≡ length text.now + 1 }
    requires exponents { length powers.old ≡ length text.now + 1 }
    ensures entries { length hashes.new ≡ length hashes.old }
    ensures exponents { length powers.new ≡ length powers.old }
    ensures hashed { (k : ℕ) → k ≤ length text.now → slice_index (map residue_of hashes.new) k
        ≡ polynomial_highest_first k (slice_index text.now) (residue_of base) % mersenne 61 1 }
    ensures raised { (k : ℕ) → k ≤ length text.now →
        slice_index (map residue_of powers.new) k ≡ residue_of base ^ k % mersenne 61 1 }
{
    range_laws();
    let mut value = base.convert(0);
    let mut power = base.convert(1);
    hashes[0] = value;
    powers[0] = power;
    'places: for i in 0..text.len() {
        value = value * base + text[i] as u64;
        let raised = power * base;
        hashes[i + 1] = value;
        powers[i + 1] = raised;
        power = raised;
    }
}

impl<'a> PrefixHashes<'a> {
    /// Fills both lists and returns them with the text.
    ///
    /// `None` exactly where the lengths don't fit: one of them doesn't have one entry more than the text. It takes two
    /// products for each byte.
    ///
    /// # Examples
    ///
    /// ```
    /// use num_modular::applications::mersenne_hash::prefixes::PrefixHashes;
    /// use num_modular::hashes::base;
    ///
    /// let base = base(1000);
    /// let (mut hashes, mut powers) = ([base; 4], [base; 4]);
    /// assert!(PrefixHashes::new(base, b"abc", &mut hashes, &mut powers).is_some());
    /// assert!(PrefixHashes::new(base, b"abcd", &mut hashes, &mut powers).is_none());
    /// ```
    pub fn new(
        base: Hash,
        text: &'a [u8],
        hashes: &'a mut [Hash],
        powers: &'a mut [Hash],
    ) -> Option<Self>
        ensures { let n = length text.now + 1 in
            MatchOption result (length hashes.old ≡ n → length powers.old ≡ n → ⊥)
            (λ made. (made.text.now ≡ text.now) × (made.base ≡ base) × (length hashes.old ≡ n) × (length powers.old ≡ n)) }
    {
        if hashes.is_empty() || hashes.len() - 1 != text.len() || powers.len() != hashes.len() {
            return None;
        }
        fill_prefixes(base, text, hashes, powers);
        Some(PrefixHashes {
            text,
            base,
            hashes,
            powers,
        })
    }

    /// The hash of a part of the text: from `from` up to, and without, `to`, as [`hash`] gives it.
    ///
    /// Source: Karp and Rabin, "Efficient randomized pattern-matching algorithms".
    ///
    /// # Conditions
    ///
    /// - `from` is at most `to`, which is at most the length of the text
    ///
    /// # Examples
    ///
    /// ```
    /// use num_modular::applications::mersenne_hash::prefixes::PrefixHashes;
    /// use num_modular::hashes::base;
    /// use num_modular::ModularInteger;
    ///
    /// let base = base(1000);
    /// let (mut hashes, mut powers) = ([base; 5], [base; 5]);
    /// let text = PrefixHashes::new(base, &[1, 2, 3, 4], &mut hashes, &mut powers).unwrap();
    /// assert_eq!(text.substring_hash(1, 3).residue(), 2_003);
    /// ```
    // rust: #[track_caller]
    pub fn substring_hash(&self, from: usize, to: usize) -> Hash
        requires ordered { from ≤ to }
        requires within { to ≤ length self.now.text.now }
        ensures { residue_of result ≡ hash_of (slice_range self.now.text.now from to) (residue_of self.now.base) }
    {
        // rust: assert!(from <= to && to <= self.text.len(),
        // rust:     "`from` must be at most `to`, which is at most the length of the text");
        range_laws();
        residue_laws();
        self.hashes[to] - self.hashes[from] * self.powers[to - from]
    }

    /// The next position of the pattern: the first from `from` on; `None` exactly where it occurs nowhere there.
    ///
    /// So the next one is found from the position after it.
    ///
    /// The result is right for every base, because the bytes of a part are compared where its hash is the pattern's.
    ///
    /// Source: Karp and Rabin, "Efficient randomized pattern-matching algorithms".
    ///
    /// # Examples
    ///
    /// ```
    /// use num_modular::applications::mersenne_hash::prefixes::PrefixHashes;
    /// use num_modular::hashes::base;
    ///
    /// let base = base(123_456_789);
    /// let (mut hashes, mut powers) = ([base; 12], [base; 12]);
    /// let text = PrefixHashes::new(base, b"abracadabra", &mut hashes, &mut powers).unwrap();
    /// assert_eq!(text.find_from(b"bra", 0), Some(1));
    /// assert_eq!(text.find_from(b"bra", 2), Some(8));
    /// assert_eq!(text.find_from(b"bra", 9), None);
    /// ```
    pub fn find_from(&self, pattern: &[u8], from: usize) -> Option<usize>
        ensures { IsSearchFrom self.now.text.now pattern.now from result }
    {
        let length = pattern.len();
        if length > self.text.len() {
            return None;
        }
        let wanted = hash(self.base, pattern);
        'places: for at in from..self.text.len() - length + 1 {
            let end = at + length;
            if self.substring_hash(at, end) == wanted && &self.text[at..end] == pattern {
                return Some(at);
            }
        }
        None
    }
}
