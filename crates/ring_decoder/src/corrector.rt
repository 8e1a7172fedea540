//! Correction of a word in place, in the Cargo crate in `ring_codes::erasure`: wrong symbols and lost ones.

ghost use Rattle.std.specs.Prelude.{◌≡◌, ◌≢◌, ℕ, ◌+◌, ◌-◌, ◌*◌, ◌^◌, ◌<◌, ◌≤◌, ◌↔◌, IsTrue, MatchOption, MatchResult, length};
ghost use Rattle.std.specs.Option.{ForSome};
ghost use Rattle.num_modular.specs.Entries.{entry};
ghost use Rattle.num_modular.specs.Checked.{AreChecked, IsChecked};
ghost use Rattle.num_modular.specs.Polynomials.{HaveUnitDifferences};
ghost use Rattle.num_modular.specs.Transforms.{Suits};
ghost use Rattle.ring_codes.specs.Erasure.{IsErasureCodeword};
ghost use Rattle.ring_codes.specs.Powers.{ArePowers};
ghost use Rattle.ring_decoder.specs.Corrector.{AreCorrectorLists, AreLost, IsCorrectedWord, IsCorrectorFault};
ghost use Rattle.ring_decoder.specs.Products.{error_products, moment_products, syndrome_products};
ghost use Rattle.ring_decoder.specs.Syndromes.{AreChecks, AreWeights};

use super::checks::fill_checks;
use super::choices::{count_zeros, subtract};
use super::decoding::{find_errors, write_syndromes};
use super::places::check_lost;
use super::roots::are_powers;
use num_modular::{Reducer, RingWord};
use ring_codes::erasure::{CorrectError, fill_barycentric_weights};

/// A code prepared to correct many words: Reed and Solomon's, of k symbols at n points, over any modulus.
///
/// It keeps a weight for each point, in a list that the caller owns, and [`with_checks`](Corrector::with_checks) also a
/// table of n·(n - k) factors.
///
/// # Examples
///
/// ```
/// use num_modular::applications::ring_codes::erasure::Corrector;
/// use num_modular::{Reducer, Vanilla};
///
/// let ring = Vanilla::<u8>::new(&97);
/// let (mut weights, mut scratch) = ([0; 6], [0; 6]);
/// let code = Corrector::new(&ring, &[1, 2, 3, 4, 5, 6], 2, &mut weights, &mut scratch).unwrap();
/// // the word of the message 5, 7, in which a symbol is wrong, and two are lost
/// let (mut word, mut scratch) = ([12, 0, 50, 33, 40, 0], [0; 43]);
/// assert_eq!(code.correct(&mut word, &[1, 5], &mut scratch), Ok(1));
/// assert_eq!(word, [12, 19, 26, 33, 40, 47]);
/// ```
// rust instead: #[derive(Debug)]
#[derive(Drop)]
// rust: #[must_use]
// rust instead: pub struct Corrector<'a, T, R> {
pub struct Corrector<'a, T: RingWord, R: Reducer<T>> {
    ring: &'a R,
    points: &'a [T],
    k: usize,
    weights: &'a [T],
    // Empty, or a table.
    checks: &'a [T],
    // The root of which the points are the powers, where it is given.
    root: Option<T>,
    pub ghost point_forms: { AreChecked R.Reducer T.number ring.now points.now },
    pub ghost weight_forms: { AreChecked R.Reducer T.number ring.now weights.now },
    pub ghost count: { length weights.now ≡ length points.now },
    pub ghost few: { k ≤ length points.now },
    // The inverses of the products of each point's differences from the others.
    pub ghost inverses: { let m = R.modulus ring.now in AreWeights m (length points.now)
        (entry T.number R.value m points.now) (entry T.number R.value m weights.now) },
    pub ghost check_forms: { AreChecked R.Reducer T.number ring.now checks.now },
    pub ghost checks_count: { 0 < length checks.now → length checks.now ≡ (length points.now - k) * length points.now },
    pub ghost table: { let m = R.modulus ring.now in 0 < length checks.now → AreChecks m (length points.now - k)
        (length points.now) (entry T.number R.value m points.now) (entry T.number R.value m weights.now)
        (entry T.number R.value m checks.now) },
    pub ghost root_form: { ForSome root (λ g. IsChecked R.Reducer T.number ring.now g) },
    pub ghost suits: { let m = R.modulus ring.now in
        ForSome root (λ g. ∥ Suits m (R.value m (T.number g)) (length points.now) ∥₁) },
    pub ghost powers: { let m = R.modulus ring.now in ForSome root (λ g. ArePowers m (R.value m (T.number g))
        (length points.now) (entry T.number R.value m points.now)) },
}

impl<'a, T: RingWord, R: Reducer<T>> Corrector<'a, T, R> {
    /// Fills the weights and returns the code: of messages of k symbols at n points.
    ///
    /// `None` exactly where the points don't fit.
    ///
    /// The contents of `scratch` are ignored, and unspecified afterwards. The contents of `weights` are ignored, and
    /// unspecified after `None`. It takes n² + 3·n products and one inversion.
    ///
    /// # Conditions
    ///
    /// - k is at most n
    /// - there are n weights
    /// - there are n places of scratch
    /// - (debug) the points are checked forms
    ///
    /// # Examples
    ///
    /// ```
    /// use num_modular::applications::ring_codes::erasure::Corrector;
    /// use num_modular::{Reducer, Vanilla};
    ///
    /// let ring = Vanilla::<u8>::new(&15);
    /// let (mut weights, mut scratch) = ([0; 3], [0; 3]);
    /// assert!(Corrector::new(&ring, &[0, 1, 2], 1, &mut weights, &mut scratch).is_some());
    /// assert!(Corrector::new(&ring, &[0, 1, 3], 1, &mut weights, &mut scratch).is_none()); // 3 has no inverse
    /// ```
    // rust: #[track_caller]
    pub fn new(
        ring: &'a R,
        points: &'a [T],
        k: usize,
        weights: &'a mut [T],
        scratch: &mut [T],
    ) -> Option<Self>
        requires points { AreChecked R.Reducer T.number ring.now points.now }
        requires few { k ≤ length points.now }
        requires room { length weights.old ≡ length points.now }
        requires scratch { length scratch.old ≡ length points.now }
        ensures { let m = R.modulus ring.now in MatchOption result
            (HaveUnitDifferences m (length points.now) (entry T.number R.value m points.now) → ⊥)
            (λ made. (made.ring.now ≡ ring.now) × (made.points.now ≡ points.now) × (made.k ≡ k)) }
    {
        // rust: debug_assert!(points.iter().all(|x| ring.check(x)), "the points must be checked forms");
        // rust: assert!(k <= points.len(), "k must be at most n: {} and {}", k, points.len());
        // rust: assert!(weights.len() == points.len(), "there must be n weights: {} and {}", weights.len(),
        // rust:     points.len());
        // rust: assert!(scratch.len() == points.len(), "there must be n places of scratch: {} and {}", scratch.len(),
        // rust:     points.len());
        if !fill_barycentric_weights(ring, points, scratch, weights) {
            return None;
        }
        Some(Corrector {
            ring,
            points,
            k,
            weights,
            checks: &points[..0],
            root: None,
        })
    }

    /// Fills a table of checks, and returns the code with it: `correct` then takes less time.
    ///
    /// With t = n - k, it takes n·(t - 1) products. A word without wrong symbols then takes t dot products of n, for which
    /// a reducer may reduce once: `OddMontgomery` and `Montgomery` do, fastest on the narrowest words that hold the modulus,
    /// if it is below 1/64 of their base. The contents of `checks` are ignored.
    ///
    /// Source: the check matrix: MacWilliams and Sloane, The Theory of Error-Correcting Codes, chapter 10.
    ///
    /// # Conditions
    ///
    /// - there are n·(n - k) checks
    ///
    /// # Examples
    ///
    /// ```
    /// use num_modular::applications::ring_codes::erasure::Corrector;
    /// use num_modular::{OddMontgomery, Reducer};
    ///
    /// let ring = OddMontgomery::<u16>::new(97);
    /// let form = |x: u16| ring.transform(x);
    /// let points = [1, 2, 3, 4].map(form);
    /// let (mut weights, mut checks, mut scratch) = ([0; 4], [0; 8], [0; 25]);
    /// let code = Corrector::new(&ring, &points, 2, &mut weights, &mut scratch[..4]).unwrap();
    /// let code = code.with_checks(&mut checks);
    /// // the third symbol should be 26
    /// let mut word = [12, 19, 50, 33].map(form);
    /// assert_eq!(code.correct(&mut word, &[], &mut scratch), Ok(1));
    /// assert_eq!(word.map(|x| ring.residue(x)), [12, 19, 26, 33]);
    /// ```
    // rust: #[track_caller]
    pub fn with_checks(self, checks: &'a mut [T]) -> Self
        requires room { length checks.old ≡ (length self.points.now - self.k) * length self.points.now }
        ensures same { (result.ring.now ≡ self.entry.ring.now) × (result.points.now ≡ self.entry.points.now)
            × (result.k ≡ self.entry.k) × (result.root ≡ self.entry.root) }
        ensures count { length result.checks.now ≡ length checks.old }
    {
        // rust: assert!(checks.len() == (self.points.len() - self.k) * self.points.len(),
        // rust:     "there must be n·(n - k) checks: {} and {}", checks.len(), (self.points.len()-self.k)*self.points.len());
        fill_checks(
            self.ring,
            self.points,
            self.weights,
            self.points.len() - self.k,
            checks,
        );
        Corrector {
            ring: self.ring,
            points: self.points,
            k: self.k,
            weights: self.weights,
            checks,
            root: self.root,
        }
    }

    /// The same code with a root: its points are the powers of g from g^0 on. `correct` then finds the syndromes by one
    /// transform, in about n·log n products.
    ///
    /// `None` exactly where they aren't, or g doesn't suit n.
    ///
    /// Source: Blahut, "Transform techniques for error control codes".
    ///
    /// # Conditions
    ///
    /// - (debug) g is a checked form
    ///
    /// # Examples
    ///
    /// ```
    /// use num_modular::applications::ring_codes::erasure::Corrector;
    /// use num_modular::{Reducer, Vanilla};
    ///
    /// let ring = Vanilla::<u8>::new(&85);
    /// let (mut weights, mut scratch) = ([0; 4], [0; 25]);
    /// let code = Corrector::new(&ring, &[1, 13, 84, 72], 2, &mut weights, &mut scratch[..4]).unwrap();
    /// let code = code.with_root(13).unwrap(); // 13^2 is -1 modulo 85
    /// let mut word = [3, 27, 0, 60]; // of 1 + 2X, but for the third symbol
    /// assert_eq!(code.correct(&mut word, &[], &mut scratch), Ok(1));
    /// assert_eq!(word, [3, 27, 84, 60]);
    /// ```
    // rust: #[cfg_attr(debug_assertions, track_caller)]
    pub fn with_root(self, g: T) -> Option<Self>
        requires root { IsChecked R.Reducer T.number self.ring.now g }
        ensures { let m = R.modulus self.entry.ring.now in let n = length self.entry.points.now in
            let v = R.value m (T.number g) in let x = entry T.number R.value m self.entry.points.now in MatchOption result
            (Suits m v n → ArePowers m v n x → ⊥)
            (λ made. (made.ring.now ≡ self.entry.ring.now) × (made.points.now ≡ self.entry.points.now)
            × (made.k ≡ self.entry.k) × (made.checks.now ≡ self.entry.checks.now) × (made.root ≡ Some g)
            × Suits m v n × ArePowers m v n x) }
    {
        // rust: debug_assert!(self.ring.check(&g), "g must be a checked form");
        if !are_powers(self.ring, &g, self.points) {
            return None;
        }
        Some(Corrector {
            ring: self.ring,
            points: self.points,
            k: self.k,
            weights: self.weights,
            checks: self.checks,
            root: Some(g),
        })
    }

    /// Fills the lists for `over`: the weights, and a table of checks where there are places for it.
    ///
    /// Returns false exactly where the points don't fit.
    ///
    /// The contents of the lists are ignored. Afterwards those of `scratch` are unspecified, and after false those of all.
    ///
    /// # Preconditions
    ///
    /// - k is at most n
    /// - there are n weights, n places of scratch, and n·(n - k) checks or none
    /// - the points are checked forms
    // rust instead: pub(crate) fn fill_lists(
    pub fn fill_lists(
        ring: &R,
        points: &[T],
        k: usize,
        weights: &mut [T],
        checks: &mut [T],
        scratch: &mut [T],
    ) -> bool
        requires points { AreChecked R.Reducer T.number ring.now points.now }
        requires few { k ≤ length points.now }
        requires room { length weights.old ≡ length points.now }
        requires checks { 0 < length checks.old → length checks.old ≡ (length points.now - k) * length points.now }
        requires scratch { length scratch.old ≡ length points.now }
        ensures fit { let m = R.modulus ring.now in
            IsTrue result ↔ HaveUnitDifferences m (length points.now) (entry T.number R.value m points.now) }
        ensures lists { IsTrue result → AreCorrectorLists T.number R.form R.value (R.modulus ring.now) k points.now
            weights.new checks.new }
    {
        if !fill_barycentric_weights(ring, points, scratch, weights) {
            return false;
        }
        if !checks.is_empty() {
            fill_checks(ring, points, weights, points.len() - k, checks);
        }
        true
    }

    /// The code over filled lists, which aren't tested.
    ///
    /// The functions for C make their code so at each call.
    ///
    /// # Preconditions
    ///
    /// - the lists are as `fill_lists` left them: it returned true, for these points and k
    // rust instead: pub(crate) fn over(ring: &'a R, points: &'a [T], k: usize, weights: &'a [T], checks: &'a [T]) -> Self
    pub fn over(ring: &'a R, points: &'a [T], k: usize, weights: &'a [T], checks: &'a [T]) -> Self
        requires { AreCorrectorLists T.number R.form R.value (R.modulus ring.now) k points.now weights.now checks.now }
        ensures { (result.ring.now ≡ ring.now) × (result.points.now ≡ points.now) × (result.k ≡ k)
            × (result.checks.now ≡ checks.now) }
    {
        Corrector {
            ring,
            points,
            k,
            weights,
            checks,
            root: None,
        }
    }

    /// Whether a word is of the code: whether its syndromes are all 0.
    ///
    /// The contents of `scratch` are ignored, and unspecified afterwards. With t = n - k it takes n·(t + 1) products, n·t with
    /// a table of checks, or one transform with a root.
    ///
    /// Source: the check matrix: MacWilliams and Sloane, The Theory of Error-Correcting Codes, chapter 10.
    ///
    /// # Conditions
    ///
    /// - the word has n symbols
    /// - there are at least n + (n - k) places of scratch
    /// - (debug) the symbols are checked forms
    ///
    /// # Examples
    ///
    /// ```
    /// use num_modular::applications::ring_codes::erasure::Corrector;
    /// use num_modular::{Reducer, Vanilla};
    ///
    /// let ring = Vanilla::<u8>::new(&97);
    /// let (mut weights, mut scratch) = ([0; 4], [0; 6]);
    /// let code = Corrector::new(&ring, &[1, 2, 3, 4], 2, &mut weights, &mut scratch[..4]).unwrap();
    /// assert!(code.is_codeword(&[12, 19, 26, 33], &mut scratch));
    /// assert!(!code.is_codeword(&[12, 19, 26, 34], &mut scratch));
    /// ```
    // rust: #[must_use]
    // rust: #[track_caller]
    pub fn is_codeword(&self, word: &[T], scratch: &mut [T]) -> bool
        requires word { AreChecked R.Reducer T.number self.now.ring.now word.now }
        requires room { length word.now ≡ length self.now.points.now }
        requires scratch { length self.now.points.now + (length self.now.points.now - self.now.k) ≤ length scratch.old }
        ensures { let m = R.modulus self.now.ring.now in let entries = entry T.number R.value m in
            IsTrue result ↔ IsErasureCodeword m self.now.k (length self.now.points.now) (entries self.now.points.now)
            (entries word.now) }
    {
        // rust: debug_assert!(word.iter().all(|x| self.ring.check(x)), "the symbols must be checked forms");
        // rust: assert!(word.len() == self.points.len(), "the word must have n symbols: {} and {}", word.len(),
        // rust:     self.points.len());
        // rust: assert!(scratch.len() >= self.points.len() + (self.points.len() - self.k),
        // rust:     "there must be at least n + (n - k) places of scratch: {} and {}", scratch.len(),
        // rust:     self.points.len()+(self.points.len()-self.k));
        let (terms, rest) = scratch.split_at_mut(self.points.len());
        let (syndromes, _) = rest.split_at_mut(self.points.len() - self.k);
        write_syndromes(
            self.ring,
            self.points,
            self.weights,
            self.checks,
            self.root,
            word,
            terms,
            syndromes,
        );
        count_zeros(self.ring, syndromes) == syndromes.len()
    }

    /// Corrects a word in place: wrong symbols and lost ones. Returns the number of wrong symbols that weren't lost.
    ///
    /// With c lost symbols and e wrong ones besides, it corrects all if 2·e + c ≤ n - k: the word becomes the only one of the
    /// code that differs from it in so few symbols. `lost` has the places of the lost symbols; what stands there is ignored.
    /// After an error the word is unchanged.
    ///
    /// The modulus may be composite. `NoInverse(a)` then says that a number without an inverse was met, and a has a common
    /// factor with m; it never comes where m is a prime, or where at most one symbol is wrong that isn't lost. Of random
    /// words of up to 8 symbols modulo composite numbers one in 46 gives it, and one in 50 by `correct`, which has a second
    /// method. `TooManyErrors` comes only where no word is that near. `Restore(..)` says what is wrong with the lost places:
    /// `TooFewSymbols`, fewer than k others are left; `PlaceOutOfRange`, a place isn't below n; `PlaceTwice`, a place
    /// occurs twice; the first cause.
    ///
    /// The contents of `scratch` are ignored, and unspecified afterwards. [`correct_counted`](Corrector::correct_counted) says
    /// how many products it takes.
    ///
    /// Source: Massey, "Shift-register synthesis and BCH decoding"; Forney, "On decoding BCH codes"; over rings Reeds and
    /// Sloane, "Shift-register synthesis (modulo m)".
    ///
    /// Not for secrets.
    ///
    /// # Errors
    ///
    /// The lost places are wrong, no word is near enough, or a number has no inverse modulo m.
    ///
    /// # Conditions
    ///
    /// - the word has n symbols
    /// - there are at least 2·n + 7·(n - k) + 3 places of scratch
    /// - (debug) the symbols are checked forms
    ///
    /// # Examples
    ///
    /// ```
    /// use num_modular::applications::ring_codes::erasure::CorrectError;
    /// use num_modular::applications::ring_codes::erasure::Corrector;
    /// use num_modular::{Reducer, Vanilla};
    ///
    /// let ring = Vanilla::<u8>::new(&97);
    /// let (mut weights, mut scratch) = ([0; 4], [0; 25]);
    /// let code = Corrector::new(&ring, &[1, 2, 3, 4], 2, &mut weights, &mut scratch[..4]).unwrap();
    /// // the third symbol should be 26
    /// let mut word = [12, 19, 50, 33];
    /// assert_eq!(code.correct(&mut word, &[], &mut scratch), Ok(1));
    /// assert_eq!(word, [12, 19, 26, 33]);
    /// // with one lost symbol it can't be told which of the others is wrong
    /// let mut word = [12, 19, 50, 33];
    /// assert_eq!(code.correct(&mut word, &[0], &mut scratch), Err(CorrectError::TooManyErrors));
    /// ```
    // rust: #[track_caller]
    pub fn correct(
        &self,
        word: &mut [T],
        lost: &[usize],
        scratch: &mut [T],
    ) -> Result<usize, CorrectError<T>>
        requires word { AreChecked R.Reducer T.number self.now.ring.now word.old }
        requires room { length word.old ≡ length self.now.points.now }
        requires scratch { 2 * length self.now.points.now + 7 * (length self.now.points.now - self.now.k) + 3
            ≤ length scratch.old }
        ensures { let m = R.modulus self.now.ring.now in let entries = entry T.number R.value m in MatchResult result
            (λ errors. IsCorrectedWord (λ f. IsChecked R.Reducer T.number self.now.ring.now f) entries m self.now.k
            self.now.points.now lost.now word.old word.new errors)
            (λ e. (word.new ≡ word.old) × IsCorrectorFault T.number m self.now.k (length self.now.points.now)
            (entries self.now.points.now) lost.now (entries word.old) e) }
    {
        self.correct_counted(word, lost, scratch).0
    }

    /// Corrects a word as `correct` does, and returns the number of products besides.
    ///
    /// A call of the reducer for a product or a square counts, and so does each term of a dot product; what an inversion, a
    /// conversion or a test of a condition takes doesn't. With t = n - k, a word of the code takes n·(t + 1) products, n·t with
    /// a table of checks, and n·z/2 + 2·n - 1 + z with a root, where n = 2^z. Any other word, of which c symbols are lost,
    /// takes at least M = c·(c + 3)/2 + N·(c + 1) more, where N = t - c, and at most
    /// M + (3·N + n)·(N/2 + 1) + t·(9·t + 13)/2 + n, and two inversions. Modulo a prime, e wrong symbols besides take at most
    /// 2·N·(N + c) + n·(e + 1) + q·(t + 4·q + 9) + 6·N more and one inversion, where q = c + e. Where the lost places are wrong
    /// the number is 0; none is above 2^128 - 1. These bounds are proved, but for the one modulo a prime; that the number is
    /// exactly that of the reducer's calls is tested.
    ///
    /// # Errors
    ///
    /// Those of [`correct`](Corrector::correct).
    ///
    /// # Conditions
    ///
    /// - the word has n symbols
    /// - there are at least 2·n + 7·(n - k) + 3 places of scratch
    /// - (debug) the symbols are checked forms
    ///
    /// # Examples
    ///
    /// ```
    /// use num_modular::applications::ring_codes::erasure::Corrector;
    /// use num_modular::{Reducer, Vanilla};
    ///
    /// let ring = Vanilla::<u8>::new(&97);
    /// let (mut weights, mut scratch) = ([0; 4], [0; 25]);
    /// let code = Corrector::new(&ring, &[1, 2, 3, 4], 2, &mut weights, &mut scratch[..4]).unwrap();
    /// let mut word = [12, 19, 26, 33];
    /// assert_eq!(code.correct_counted(&mut word, &[], &mut scratch), (Ok(0), 4 * (2 + 1)));
    /// word[2] = 50;
    /// assert_eq!(code.correct_counted(&mut word, &[], &mut scratch), (Ok(1), 45));
    /// ```
    // rust: #[track_caller]
    pub fn correct_counted(
        &self,
        word: &mut [T],
        lost: &[usize],
        scratch: &mut [T],
    ) -> (Result<usize, CorrectError<T>>, u128)
        requires word { AreChecked R.Reducer T.number self.now.ring.now word.old }
        requires room { length word.old ≡ length self.now.points.now }
        requires scratch { 2 * length self.now.points.now + 7 * (length self.now.points.now - self.now.k) + 3
            ≤ length scratch.old }
        ensures corrected { let m = R.modulus self.now.ring.now in let entries = entry T.number R.value m in
            MatchResult result.0
            (λ errors. IsCorrectedWord (λ f. IsChecked R.Reducer T.number self.now.ring.now f) entries m self.now.k
            self.now.points.now lost.now word.old word.new errors)
            (λ e. (word.new ≡ word.old) × IsCorrectorFault T.number m self.now.k (length self.now.points.now)
            (entries self.now.points.now) lost.now (entries word.old) e) }
        ensures counted { let n = length self.now.points.now in let t = n - self.now.k in
            result.1 ≤ syndrome_products self.now.root (length self.now.checks.now) n t + error_products n t (length lost.now) }
        ensures least { let m = R.modulus self.now.ring.now in let entries = entry T.number R.value m in
            let n = length self.now.points.now in let t = n - self.now.k in let c = length lost.now in
            AreLost self.now.k n lost.now →
            (IsErasureCodeword m self.now.k n (entries self.now.points.now) (entries word.old) → ⊥) →
            result.1 < 2 ^ 128 - 1 →
            syndrome_products self.now.root (length self.now.checks.now) n t + moment_products (t - c) c ≤ result.1 }
        ensures codeword { let m = R.modulus self.now.ring.now in let entries = entry T.number R.value m in
            let n = length self.now.points.now in let t = n - self.now.k in
            IsErasureCodeword m self.now.k n (entries self.now.points.now) (entries word.old) → MatchResult result.0
            (λ errors. result.1 ≡ syndrome_products self.now.root (length self.now.checks.now) n t) (λ e. result.1 ≡ 0) }
    {
        // rust: debug_assert!(word.iter().all(|x| self.ring.check(x)), "the symbols must be checked forms");
        // rust: assert!(word.len() == self.points.len(), "the word must have n symbols: {} and {}", word.len(),
        // rust:     self.points.len());
        // rust: assert!(scratch.len() >= 2 * self.points.len() + 7 * (self.points.len() - self.k) + 3,
        // rust:     "there must be at least 2·n + 7·(n - k) + 3 places of scratch: {} and {}", scratch.len(),
        // rust:     2*self.points.len()+7*(self.points.len()-self.k)+3);
        match check_lost(self.k, self.points.len(), lost) {
            Err(error) => return (Err(CorrectError::Restore(error)), 0),
            Ok(()) => {}
        }
        let (values, rest) = scratch.split_at_mut(self.points.len());
        let (errors, rest) = rest.split_at_mut(self.points.len());
        let (syndromes, rest) = rest.split_at_mut(self.points.len() - self.k);
        let mut products = write_syndromes(
            self.ring,
            self.points,
            self.weights,
            self.checks,
            self.root,
            word,
            values,
            syndromes,
        );
        if count_zeros(self.ring, syndromes) == syndromes.len() {
            return (Ok(0), products);
        }
        match find_errors(
            self.ring,
            self.points,
            self.weights,
            lost,
            syndromes,
            rest,
            values,
            errors,
            &mut products,
        ) {
            Err(error) => (Err(error), products),
            Ok(wrong) => {
                subtract(self.ring, errors, word);
                (Ok(wrong), products)
            }
        }
    }
}
