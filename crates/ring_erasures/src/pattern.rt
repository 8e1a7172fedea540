//! Words with lost symbols, restored by transforms: in the Cargo crate in `ring_codes::erasure`.

ghost use Rattle.std.specs.Prelude.{◌≡◌, ℕ, ◌+◌, ◌*◌, ◌%◌, ◌<◌, ◌≤◌, ◌↔◌, IsTrue, MatchResult, length};
ghost use Rattle.num_modular.specs.Entries.{entry};
ghost use Rattle.num_modular.specs.Checked.{AreChecked, IsChecked};
ghost use Rattle.num_modular.specs.Transforms.{Suits};
ghost use Rattle.ring_codes.specs.Erasure.{IsErasureCodeword};
ghost use Rattle.ring_codes.specs.Powers.{ArePowers};
ghost use Rattle.ring_erasures.specs.Erasures.{AgreeAtKept, AreErased, AreFactors, IsErasureFault, IsRestorable};

use super::derivative::encode_derivative;
use super::places::{check_places, gather, multiply_kept, scatter, write_products};
use num_modular::ring::{invert_each, root_fits};
use num_modular::{Reducer, RingWord};
use ring_codes::erasure::{
    RestoreError, encode_by_transform, expand_roots, fill_powers, is_codeword_by_transform,
};

/// The places of lost symbols, prepared to restore many words: of the code of k symbols at the powers g^0, .., g^(n - 1)
/// of a root of unity, over any odd modulus.
///
/// It keeps a factor for each symbol, in a list that the caller owns. A word is restored by two transforms, in
/// O(n·log n).
///
/// # Examples
///
/// ```
/// use num_modular::applications::ring_codes::erasure::ErasurePattern;
/// use num_modular::{Reducer, Vanilla};
///
/// // 13^2 is -1 modulo 85, so the points are 1, 13, 84 and 72; the word is that of 1 + 2X
/// let ring = Vanilla::<u8>::new(&85);
/// let (mut factors, mut scratch) = ([0; 4], [0; 12]);
/// let pattern = ErasurePattern::new(&ring, &13, 2, &[2, 0], &mut factors, &mut scratch).unwrap();
/// let mut word = [0, 27, 0, 60];
/// assert!(pattern.restore(&mut word, &mut scratch));
/// assert_eq!(word, [3, 27, 84, 60]);
/// ```
// rust instead: #[derive(Debug)]
#[derive(Drop)]
// rust: #[must_use]
// rust instead: pub struct ErasurePattern<'a, T, R> {
pub struct ErasurePattern<'a, T: RingWord, R: Reducer<T>> {
    ring: &'a R,
    root: T,
    k: usize,
    lost: &'a [usize],
    factors: &'a [T],
    pub ghost root_form: { IsChecked R.Reducer T.number ring.now root },
    pub ghost factor_forms: { AreChecked R.Reducer T.number ring.now factors.now },
    pub ghost some: { 1 ≤ k },
    pub ghost odd: { R.modulus ring.now % 2 ≡ 1 },
    pub ghost suits: { let m = R.modulus ring.now in ∥ Suits m (R.value m (T.number root)) (length factors.now) ∥₁ },
    pub ghost erased: { AreErased k (length factors.now) lost.now },
    pub ghost inverses: { let m = R.modulus ring.now in (points : ℕ → ℕ) →
        ArePowers m (R.value m (T.number root)) (length factors.now) points →
        AreFactors m (length factors.now) points lost.now (entry T.number R.value m factors.now) },
}

impl<'a, T: RingWord, R: Reducer<T>> ErasurePattern<'a, T, R> {
    /// Fills the factors, n of them, and returns the lost places prepared for words of n symbols.
    ///
    /// The contents of `factors` and `scratch` are ignored. Afterwards those of `scratch` are unspecified, and after an error
    /// those of both. With c lost places it takes about c²/2 products, two transforms and one inversion.
    ///
    /// Source: Didier, "Efficient erasure decoding of Reed-Solomon codes"; Soro and Lacan, "FNT-based Reed-Solomon erasure
    /// codes".
    ///
    /// # Errors
    ///
    /// The first cause: `TooFewSymbols`, fewer than k symbols are left; `PlaceOutOfRange`, a place isn't below n;
    /// `PlaceTwice`, a place occurs twice; `PointsDontFit`, the modulus is even, or g doesn't suit n (`root_fits` tells).
    ///
    /// # Conditions
    ///
    /// - k is at least 1
    /// - there are at least 3·n places of scratch
    /// - (debug) g is a checked form
    ///
    /// # Examples
    ///
    /// ```
    /// use num_modular::applications::ring_codes::erasure::{ErasurePattern, RestoreError};
    /// use num_modular::{Reducer, Vanilla};
    ///
    /// let ring = Vanilla::<u8>::new(&97);
    /// let (mut factors, mut scratch) = ([0; 4], [0; 12]);
    /// assert!(ErasurePattern::new(&ring, &22, 2, &[3, 1], &mut factors, &mut scratch).is_ok()); // 22^2 is -1
    /// let error = ErasurePattern::new(&ring, &21, 2, &[3, 1], &mut factors, &mut scratch).err();
    /// assert_eq!(error, Some(RestoreError::PointsDontFit));
    /// ```
    // rust: #[track_caller]
    pub fn new(
        ring: &'a R,
        root: &T,
        k: usize,
        lost: &'a [usize],
        factors: &'a mut [T],
        scratch: &mut [T],
    ) -> Result<Self, RestoreError>
        requires root { IsChecked R.Reducer T.number ring.now root.now }
        requires some { 1 ≤ k }
        requires scratch { 3 * length factors.old ≤ length scratch.old }
        ensures { let m = R.modulus ring.now in MatchResult result
            (λ made. (made.ring.now ≡ ring.now) × (made.root ≡ root.now) × (made.k ≡ k) × (made.lost.now ≡ lost.now)
            × (length made.factors.now ≡ length factors.old))
            (λ e. IsErasureFault m (R.value m (T.number root.now)) k (length factors.old) lost.now e) }
    {
        // rust: debug_assert!(ring.check(root), "g must be a checked form");
        // rust: assert!(k >= 1, "k must be at least 1");
        // rust: assert!(scratch.len() >= 3 * factors.len(), "there must be at least 3·n places of scratch: {} and {}",
        // rust:     scratch.len(), 3*factors.len());
        match check_places(k, lost, factors) {
            Err(error) => return Err(error),
            Ok(()) => {}
        }
        if !ring.modulus().is_odd() || !root_fits(ring, root, factors.len()) {
            return Err(RestoreError::PointsDontFit);
        }
        fill_factors(ring, root, lost, factors, scratch);
        Ok(ErasurePattern {
            ring,
            root: *root,
            k,
            lost,
            factors,
        })
    }

    /// Restores the lost symbols of a word in place, and returns whether the others are of a word of the code.
    ///
    /// The word then becomes that word, the only one of a message of k symbols that has the others; what stands at the lost
    /// places is ignored. After false, which a wrong symbol causes, the word is unchanged; with n - k lost symbols there is
    /// always such a word.
    ///
    /// With the last n - k places lost it is a systematic encoder: the k symbols of the message are the first of the word.
    ///
    /// The contents of `scratch` are ignored, and unspecified afterwards. It takes two transforms, at most 4·n products more
    /// and one inversion.
    ///
    /// Source: Didier, "Efficient erasure decoding of Reed-Solomon codes"; Soro and Lacan, "FNT-based Reed-Solomon erasure
    /// codes".
    ///
    /// # Conditions
    ///
    /// - the word has n symbols
    /// - there are at least 3·n places of scratch
    /// - (debug) the symbols are checked forms
    ///
    /// # Examples
    ///
    /// ```
    /// use num_modular::applications::ring_codes::erasure::{ErasurePattern, is_codeword_by_transform};
    /// use num_modular::{Reducer, Vanilla};
    ///
    /// // the points are 1, 22, 96 and 75, and the last two symbols are those of the check
    /// let ring = Vanilla::<u8>::new(&97);
    /// let (mut factors, mut scratch) = ([0; 4], [0; 12]);
    /// let encoder = ErasurePattern::new(&ring, &22, 2, &[2, 3], &mut factors, &mut scratch).unwrap();
    /// let mut word = [5, 7, 0, 0];
    /// assert!(encoder.restore(&mut word, &mut scratch));
    /// let (mut spare, mut message) = ([0; 4], [0; 2]);
    /// assert!(is_codeword_by_transform(&ring, &22, &word, &mut spare, &mut message));
    /// assert_eq!(word[..2], [5, 7]);
    /// ```
    // rust: #[must_use]
    // rust: #[track_caller]
    pub fn restore(&self, word: &mut [T], scratch: &mut [T]) -> bool
        requires word { AreChecked R.Reducer T.number self.now.ring.now word.old }
        requires room { length word.old ≡ length self.now.factors.now }
        requires scratch { 3 * length self.now.factors.now ≤ length scratch.old }
        ensures checked { AreChecked R.Reducer T.number self.now.ring.now word.new }
        ensures restorable { let m = R.modulus self.now.ring.now in let n = length self.now.factors.now in
            (points : ℕ → ℕ) → ArePowers m (R.value m (T.number self.now.root)) n points →
            (IsTrue result ↔ IsRestorable m self.now.k n points self.now.lost.now (entry T.number R.value m word.old)) }
        ensures restored { let m = R.modulus self.now.ring.now in let n = length self.now.factors.now in
            (points : ℕ → ℕ) → ArePowers m (R.value m (T.number self.now.root)) n points → IsTrue result →
            IsErasureCodeword m self.now.k n points (entry T.number R.value m word.new)
            × AgreeAtKept n self.now.lost.now (entry T.number R.value m word.old) (entry T.number R.value m word.new) }
        ensures only { let m = R.modulus self.now.ring.now in let n = length self.now.factors.now in
            (points other : ℕ → ℕ) → ArePowers m (R.value m (T.number self.now.root)) n points →
            IsErasureCodeword m self.now.k n points other →
            AgreeAtKept n self.now.lost.now (entry T.number R.value m word.old) other →
            (i : ℕ) → i < n → entry T.number R.value m word.new i ≡ other i }
        ensures unchanged { (IsTrue result → ⊥) → word.new ≡ word.old }
    {
        // rust: debug_assert!(word.iter().all(|x| self.ring.check(x)), "the symbols must be checked forms");
        // rust: assert!(word.len() == self.factors.len(), "the word must have n symbols: {} and {}", word.len(),
        // rust:     self.factors.len());
        // rust: assert!(scratch.len() >= 3 * self.factors.len(),
        // rust:     "there must be at least 3·n places of scratch: {} and {}", scratch.len(), 3*self.factors.len());
        let (products, rest) = scratch.split_at_mut(self.factors.len());
        let (spare, rest) = rest.split_at_mut(self.factors.len());
        let (coefficients, _) = rest.split_at_mut(self.k + self.lost.len());
        multiply_kept(self.ring, self.lost, word, self.factors, products);
        if !is_codeword_by_transform(self.ring, &self.root, products, spare, coefficients) {
            return false;
        }
        encode_derivative(self.ring, &self.root, coefficients, products);
        write_products(self.ring, self.lost, products, self.factors, word);
        true
    }
}

// Writes the factor of each symbol: the locator's value where none is lost, and the inverse of its derivative's where one is.
fn fill_factors<T: RingWord, R: Reducer<T>>(
    r: &R,
    g: &T,
    lost: &[usize],
    factors: &mut [T],
    scratch: &mut [T],
)
    requires root { IsChecked R.Reducer T.number r.now g.now }
    requires odd { R.modulus r.now % 2 ≡ 1 }
    requires suits { let m = R.modulus r.now in Suits m (R.value m (T.number g.now)) (length factors.old) }
    requires erased { AreErased 1 (length factors.old) lost.now }
    requires scratch { 3 * length factors.old ≤ length scratch.old }
    ensures checked { AreChecked R.Reducer T.number r.now factors.new }
    ensures factors { let m = R.modulus r.now in (points : ℕ → ℕ) →
        ArePowers m (R.value m (T.number g.now)) (length factors.old) points →
        AreFactors m (length factors.old) points lost.now (entry T.number R.value m factors.new) }
{
    let (list, rest) = scratch.split_at_mut(factors.len());
    let (coefficients, rest) = rest.split_at_mut(factors.len());
    let (chosen, _) = rest.split_at_mut(lost.len());
    fill_powers(r, g, list);
    gather(r, lost, list, chosen);
    expand_roots(r, chosen, coefficients);
    encode_by_transform(r, g, coefficients, factors);
    encode_derivative(r, g, coefficients, list);
    gather(r, lost, list, chosen);
    let (spare, _) = coefficients.split_at_mut(lost.len());
    let _all = invert_each(r, chosen, spare);
    scatter(r, lost, chosen, factors);
}
