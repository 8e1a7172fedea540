//! Searches for several patterns of one length at once.

ghost use Rattle.std.specs.Prelude.{◌≡◌, ℕ, ◌+◌, ◌*◌, ◌<◌, ◌≤◌, ◌↔◌, IsTrue, map, length, slice_index, MatchOption};
ghost use Rattle.num_modular.specs.Integers.{residue_of};
ghost use Rattle.num_modular.specs.Hashes.{StandsAt};
ghost use Rattle.mersenne_hash.specs.Collisions.{hash_of};
ghost use Rattle.mersenne_hash.specs.Patterns.{pattern_of, IsFirstPattern, IsNextPattern};

use crate::prefixes::PrefixHashes;
use num_modular::hashes::{Hash, hash, is_hit};

/// Patterns of one length, with their hashes: at a base, in a list of the caller.
///
/// # Examples
///
/// ```
/// use num_modular::applications::mersenne_hash::prefixes::{Patterns, PrefixHashes};
/// use num_modular::hashes::base;
///
/// let base = base(123_456_789);
/// let (mut hashes, mut powers) = ([base; 12], [base; 12]);
/// let text = PrefixHashes::new(base, b"abracadabra", &mut hashes, &mut powers).unwrap();
/// let mut hashes = [base; 2];
/// let patterns = Patterns::new(base, 3, b"cadbra", &mut hashes).unwrap(); // cad and bra
/// assert_eq!(text.find_any_from(&patterns, 0), Some((1, 1)));
/// assert_eq!(text.find_any_from(&patterns, 2), Some((4, 0)));
/// assert_eq!(text.find_any_from(&patterns, 9), None);
/// ```
// rust instead: #[derive(Debug, Clone, Copy)]
#[derive(Drop)]
// rust: #[must_use]
pub struct Patterns<'a> {
    // rust instead: pub(crate) base: Hash,
    base: Hash,
    // rust instead: pub(crate) size: usize,
    size: usize,
    // rust instead: pub(crate) symbols: &'a [u8],
    symbols: &'a [u8],
    // rust instead: pub(crate) hashes: &'a [Hash],
    hashes: &'a [Hash],
    pub ghost whole: { length symbols.now ≡ length hashes.now * size },
    pub ghost hashed: { (k : ℕ) → k < length hashes.now → slice_index (map residue_of hashes.now) k
        ≡ hash_of (pattern_of symbols.now size k) (residue_of base) },
}

/// Whether [`Patterns::new`] accepts these lengths: that of the list is that many times the size.
///
/// # Examples
///
/// ```
/// use num_modular::applications::mersenne_hash::prefixes::are_pattern_lengths;
///
/// assert!(are_pattern_lengths(6, 2, 3));
/// assert!(!are_pattern_lengths(7, 2, 3));
/// ```
pub fn are_pattern_lengths(symbols: usize, count: usize, size: usize) -> bool
    ensures { IsTrue result ↔ (symbols ≡ count * size) }
{
    match count.checked_mul(size) {
        Some(product) => product == symbols,
        None => false,
    }
}

// Writes the hash of each pattern.
fn fill_hashes(base: Hash, size: usize, symbols: &[u8], hashes: &mut [Hash])
    requires { length symbols.now ≡ length hashes.old * size }
    ensures entries { length hashes.new ≡ length hashes.old }
    ensures hashed { (k : ℕ) → k < length hashes.old → slice_index (map residue_of hashes.new) k
        ≡ hash_of (pattern_of symbols.now size k) (residue_of base) }
{
    'patterns: for k in 0..hashes.len() {
        let start = k * size;
        hashes[k] = hash(base, &symbols[start..start + size]);
    }
}

impl<'a> Patterns<'a> {
    /// The patterns that stand one after the other: of this size, in `symbols`, as many as there are entries for
    /// hashes, which it fills.
    ///
    /// `None` exactly where the lengths don't fit: that of `symbols` isn't that many times the size. It takes one
    /// product for each symbol.
    ///
    /// After `None` the hashes are what they were: the lengths are tested, by [`are_pattern_lengths`], before one is
    /// written.
    ///
    /// # Examples
    ///
    /// ```
    /// use num_modular::applications::mersenne_hash::prefixes::Patterns;
    /// use num_modular::hashes::base;
    ///
    /// let base = base(1000);
    /// assert!(Patterns::new(base, 2, b"abcd", &mut [base; 2]).is_some());
    /// assert!(Patterns::new(base, 3, b"abcd", &mut [base; 2]).is_none());
    /// ```
    pub fn new(base: Hash, size: usize, symbols: &'a [u8], hashes: &'a mut [Hash]) -> Option<Self>
        ensures { let n = length hashes.old in
            MatchOption result (length symbols.now ≡ n * size → ⊥)
            (λ made. (made.base ≡ base) × (made.size ≡ size) × (made.symbols.now ≡ symbols.now)
            × (length made.hashes.now ≡ n)) }
    {
        if !are_pattern_lengths(symbols.len(), hashes.len(), size) {
            return None;
        }
        fill_hashes(base, size, symbols, hashes);
        Some(Patterns {
            base,
            size,
            symbols,
            hashes,
        })
    }

    /// The base of the hashes.
    ///
    /// # Examples
    ///
    /// ```
    /// use num_modular::applications::mersenne_hash::prefixes::Patterns;
    /// use num_modular::hashes::base;
    ///
    /// let mut hashes = [base(2); 2];
    /// assert_eq!(Patterns::new(base(1000), 2, b"abcd", &mut hashes).unwrap().base(), base(1000));
    /// ```
    pub fn base(&self) -> Hash
        ensures { result ≡ self.now.base }
    {
        self.base
    }
}

impl<'a> PrefixHashes<'a> {
    /// The number of the first pattern at a position: the first that occurs there; `None` exactly where none does.
    ///
    /// The result is right for every base, because the bytes are compared where the hashes are equal.
    ///
    /// # Conditions
    ///
    /// - the bases of the text and of the patterns are the same
    ///
    /// # Examples
    ///
    /// ```
    /// use num_modular::applications::mersenne_hash::prefixes::{Patterns, PrefixHashes};
    /// use num_modular::hashes::base;
    ///
    /// let base = base(1000);
    /// let (mut hashes, mut powers) = ([base; 5], [base; 5]);
    /// let text = PrefixHashes::new(base, b"abab", &mut hashes, &mut powers).unwrap();
    /// let mut hashes = [base; 2];
    /// let patterns = Patterns::new(base, 2, b"baab", &mut hashes).unwrap();
    /// assert_eq!(text.pattern_at(&patterns, 0), Some(1));
    /// assert_eq!(text.pattern_at(&patterns, 3), None);
    /// ```
    // rust: #[track_caller]
    pub fn pattern_at(&self, patterns: &Patterns<'_>, at: usize) -> Option<usize>
        requires { patterns.now.base ≡ self.now.base }
        ensures { let n = length patterns.now.hashes.now in
            MatchOption result (IsFirstPattern self.now.text.now patterns.now.symbols.now patterns.now.size n at n)
            (λ k. (k < n) × IsFirstPattern self.now.text.now patterns.now.symbols.now patterns.now.size n at k) }
    {
        // rust: assert!(patterns.base == self.base, "the bases of the text and of the patterns must be the same");
        let size = patterns.size;
        if at > self.text.len() || self.text.len() - at < size {
            return None;
        }
        let window = self.substring_hash(at, at + size);
        'patterns: for k in 0..patterns.hashes.len() {
            let start = k * size;
            let pattern = &patterns.symbols[start..start + size];
            if is_hit(patterns.hashes[k], window, self.text, pattern, at) {
                return Some(k);
            }
        }
        None
    }

    /// The next position of a pattern, and which it is: the first from `from` on, and the number of the first pattern
    /// that occurs there; `None` exactly where none occurs there.
    ///
    /// So the next one is found from the position after it.
    ///
    /// Source: Karp and Rabin, "Efficient randomized pattern-matching algorithms", section 4.
    ///
    /// # Conditions
    ///
    /// - the bases of the text and of the patterns are the same
    ///
    /// # Examples
    ///
    /// ```
    /// use num_modular::applications::mersenne_hash::prefixes::{Patterns, PrefixHashes};
    /// use num_modular::hashes::base;
    ///
    /// let base = base(1000);
    /// let (mut hashes, mut powers) = ([base; 5], [base; 5]);
    /// let text = PrefixHashes::new(base, b"abab", &mut hashes, &mut powers).unwrap();
    /// let mut hashes = [base; 2];
    /// let patterns = Patterns::new(base, 2, b"bbba", &mut hashes).unwrap();
    /// assert_eq!(text.find_any_from(&patterns, 0), Some((1, 1)));
    /// assert_eq!(text.find_any_from(&patterns, 2), None);
    /// ```
    // rust: #[track_caller]
    pub fn find_any_from(&self, patterns: &Patterns<'_>, from: usize) -> Option<(usize, usize)>
        requires { patterns.now.base ≡ self.now.base }
        ensures { let n = length patterns.now.hashes.now in
            let symbols = patterns.now.symbols.now in
            MatchOption result ((i k : ℕ) → from ≤ i → k < n →
            StandsAt self.now.text.now (pattern_of symbols patterns.now.size k) i → ⊥)
            (λ found. IsNextPattern self.now.text.now symbols patterns.now.size n from found.0 found.1) }
    {
        // rust: assert!(patterns.base == self.base, "the bases of the text and of the patterns must be the same");
        'places: for at in from..self.text.len() + 1 {
            if let Some(k) = self.pattern_at(patterns, at) {
                return Some((at, k));
            }
        }
        None
    }

    /// Writes which pattern occurs at each position: from 0 on, the number of the first that does, or the count of the
    /// patterns where none does.
    ///
    /// # Conditions
    ///
    /// - the bases of the text and of the patterns are the same
    ///
    /// # Examples
    ///
    /// ```
    /// use num_modular::applications::mersenne_hash::prefixes::{Patterns, PrefixHashes};
    /// use num_modular::hashes::base;
    ///
    /// let base = base(1000);
    /// let (mut hashes, mut powers) = ([base; 5], [base; 5]);
    /// let text = PrefixHashes::new(base, b"abab", &mut hashes, &mut powers).unwrap();
    /// let mut hashes = [base; 2];
    /// let patterns = Patterns::new(base, 2, b"baab", &mut hashes).unwrap();
    /// let mut found = [9; 4];
    /// text.find_all(&patterns, &mut found);
    /// assert_eq!(found, [1, 0, 1, 2]);
    /// ```
    // rust: #[track_caller]
    pub fn find_all(&self, patterns: &Patterns<'_>, found: &mut [usize])
        requires { patterns.now.base ≡ self.now.base }
        ensures { (i : ℕ) → i < length found.old →
            IsFirstPattern self.now.text.now patterns.now.symbols.now patterns.now.size (length patterns.now.hashes.now) i
            (slice_index found.new i) }
    {
        // rust: assert!(patterns.base == self.base, "the bases of the text and of the patterns must be the same");
        let count = patterns.hashes.len();
        'places: for at in 0..found.len() {
            found[at] = self.pattern_at(patterns, at).unwrap_or(count);
        }
    }
}
