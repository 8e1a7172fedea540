//! Codes prepared for many words: what depends on the points alone is computed once.

ghost use Rattle.std.specs.Prelude.{◌≡◌, ℕ, ◌+◌, ◌*◌, ◌%◌, ◌<◌, ◌≤◌, ◌↔◌, IsTrue, length, MatchOption};
ghost use Rattle.num_modular.specs.Entries.{entry};
ghost use Rattle.num_modular.specs.Checked.{AreChecked, IsChecked};
ghost use Rattle.num_modular.specs.Inverses.{IsInverse};
ghost use Rattle.num_modular.specs.Polynomials.{HaveUnitDifferences};
ghost use Rattle.num_modular.specs.Sums.{sum_below};
ghost use Rattle.ring_codes.specs.Erasure.{IsEncoding};
ghost use Rattle.ring_codes.specs.Prepared.{product_but, AreRows};

use super::newton::fill_differences;
use num_modular::ring::{dot_product, invert_each};
use num_modular::{Reducer, RingWord};

/// A code prepared for many words.
///
/// The k symbols at its known points give those at its t wanted points by k·t products.
///
/// A systematic code knows the first k points and wants the others: `extend` writes the check symbols of a message. To
/// restore, it knows the points of k kept symbols and wants those of the lost ones, or all. A table of t·k factors,
/// which the caller owns, is filled once.
///
/// # Examples
///
/// ```
/// use num_modular::applications::ring_codes::erasure::PreparedCode;
/// use num_modular::{Reducer, Vanilla};
///
/// let ring = Vanilla::<u64>::new(&929);
/// let points = [0, 1, 2, 3, 4, 5, 6];
/// let (mut rows, mut scratch) = ([0; 12], [0; 6]);
/// let code = PreparedCode::new(&ring, &points[..3], &points[3..], &mut rows, &mut scratch).unwrap();
/// let mut word = [3, 2, 1, 0, 0, 0, 0];
/// let (message, checks) = word.split_at_mut(3);
/// code.extend(message, checks);
/// assert_eq!(word, [3, 2, 1, 0, 928, 927, 926]);
/// ```
// rust instead: #[derive(Debug)]
#[derive(Drop)]
// rust: #[must_use]
// rust instead: pub struct PreparedCode<'a, T, R> {
pub struct PreparedCode<'a, T: RingWord, R: Reducer<T>> {
    ring: &'a R,
    known: &'a [T],
    wanted: &'a [T],
    rows: &'a [T],
    pub ghost known_forms: { AreChecked R.Reducer T.number ring.now known.now },
    pub ghost wanted_forms: { AreChecked R.Reducer T.number ring.now wanted.now },
    pub ghost row_forms: { AreChecked R.Reducer T.number ring.now rows.now },
    // The known points fit.
    pub ghost fit: { let m = R.modulus ring.now in
        ∥ HaveUnitDifferences m (length known.now) (entry T.number R.value m known.now) ∥₁ },
    // A row of k factors for each wanted point.
    pub ghost count: { length rows.now ≡ length wanted.now * length known.now },
    pub ghost factors: { let m = R.modulus ring.now in
        AreRows m (length known.now) (length wanted.now) (entry T.number R.value m known.now)
        (entry T.number R.value m wanted.now) (entry T.number R.value m rows.now) },
}

impl<'a, T: RingWord, R: Reducer<T>> PreparedCode<'a, T, R> {
    /// Fills the rows and returns the code: t·k for k known and t wanted points.
    ///
    /// `None` exactly where the known points don't fit.
    ///
    /// The contents of `scratch` are ignored, and unspecified afterwards. The contents of `rows` are ignored, and
    /// unspecified after `None`. It takes about k² + 4·t·k products and one inversion.
    ///
    /// Source: Lagrange's form: Knuth, The Art of Computer Programming, volume 2, section 4.6.4.
    ///
    /// # Conditions
    ///
    /// - there are t·k rows
    /// - there are 2·k places of scratch
    /// - (debug) the points are checked forms
    ///
    /// # Examples
    ///
    /// ```
    /// use num_modular::applications::ring_codes::erasure::PreparedCode;
    /// use num_modular::{Reducer, Vanilla};
    ///
    /// let ring = Vanilla::<u64>::new(&15);
    /// let (mut rows, mut scratch) = ([0; 2], [0; 4]);
    /// assert!(PreparedCode::new(&ring, &[0, 1], &[2], &mut rows, &mut scratch).is_some());
    /// assert!(PreparedCode::new(&ring, &[0, 3], &[2], &mut rows, &mut scratch).is_none()); // 3 has no inverse
    /// ```
    // rust: #[track_caller]
    pub fn new(
        ring: &'a R,
        known: &'a [T],
        wanted: &'a [T],
        rows: &'a mut [T],
        scratch: &mut [T],
    ) -> Option<Self>
        requires known { AreChecked R.Reducer T.number ring.now known.now }
        requires wanted { AreChecked R.Reducer T.number ring.now wanted.now }
        requires count { length rows.old ≡ length wanted.now * length known.now }
        requires scratch { length scratch.old ≡ 2 * length known.now }
        ensures { let m = R.modulus ring.now in MatchOption result
            (HaveUnitDifferences m (length known.now) (entry T.number R.value m known.now) → ⊥)
            (λ made. (made.ring.now ≡ ring.now) × (made.known.now ≡ known.now) × (made.wanted.now ≡ wanted.now)) }
    {
        // rust: debug_assert!(known.iter().chain(wanted).all(|x| ring.check(x)), "the points must be checked forms");
        // rust: assert!(rows.len() == wanted.len() * known.len(), "there must be t·k rows: {} and {}", rows.len(),
        // rust:     wanted.len()*known.len());
        // rust: assert!(scratch.len() == 2 * known.len(), "there must be 2·k places of scratch: {} and {}",
        // rust:     scratch.len(), 2*known.len());
        let (weights, row) = scratch.split_at_mut(known.len());
        if !fill_barycentric_weights(ring, known, row, weights) {
            return None;
        }
        fill_rows(ring, known, wanted, weights, row, rows);
        Some(PreparedCode {
            ring,
            known,
            wanted,
            rows,
        })
    }

    /// Writes the symbols at the wanted points: to `others`, given the `symbols` at the k known points, so that both
    /// are of the word of one message of k symbols, the only one with the given symbols.
    ///
    /// It takes t·k products.
    ///
    /// # Conditions
    ///
    /// - there is a symbol for each known point
    /// - `others` has a place for each wanted point
    /// - (debug) the symbols are checked forms
    ///
    /// # Examples
    ///
    /// ```
    /// use num_modular::applications::ring_codes::erasure::PreparedCode;
    /// use num_modular::{Reducer, Vanilla};
    ///
    /// // of the word 1, 6, 17, 34, 57, 86, 121 at the points 0 to 6, the message being 1, 2, 3
    /// let ring = Vanilla::<u64>::new(&929);
    /// let (mut rows, mut scratch, mut lost) = ([0; 6], [0; 6], [0; 2]);
    /// let code = PreparedCode::new(&ring, &[6, 1, 4], &[0, 2], &mut rows, &mut scratch).unwrap();
    /// code.extend(&[121, 6, 57], &mut lost);
    /// assert_eq!(lost, [1, 17]);
    /// ```
    // rust: #[track_caller]
    #[tactic(auto, using(num_modular::specs::Callers::hold_more, num_modular::specs::Callers::held_forms))]
    pub fn extend(&self, symbols: &[T], others: &mut [T])
        requires symbols { AreChecked R.Reducer T.number self.now.ring.now symbols.now }
        requires given { length symbols.now ≡ length self.now.known.now }
        requires room { length others.old ≡ length self.now.wanted.now }
        ensures checked { AreChecked R.Reducer T.number self.now.ring.now others.new }
        ensures word { let m = R.modulus self.now.ring.now in let k = length self.now.known.now in
            (message : ℕ → ℕ) ×
            IsEncoding m k k (entry T.number R.value m self.now.known.now) message
            (entry T.number R.value m symbols.now) ×
            IsEncoding m k (length self.now.wanted.now) (entry T.number R.value m self.now.wanted.now) message
            (entry T.number R.value m others.new) }
        ensures original { let m = R.modulus self.now.ring.now in let k = length self.now.known.now in
            (message : ℕ → ℕ) →
            IsEncoding m k k (entry T.number R.value m self.now.known.now) message
            (entry T.number R.value m symbols.now) →
            IsEncoding m k (length self.now.wanted.now) (entry T.number R.value m self.now.wanted.now) message
            (entry T.number R.value m others.new) }
    {
        // rust: debug_assert!(symbols.iter().all(|x| self.ring.check(x)), "the symbols must be checked forms");
        // rust: assert!(symbols.len() == self.known.len(), "there must be a symbol for each known point: {} and {}",
        // rust:     symbols.len(), self.known.len());
        // rust: assert!(others.len() == self.wanted.len(),
        // rust:     "`others` must have a place for each wanted point: {} and {}", others.len(), self.wanted.len());
        'wanted: for j in 0..self.wanted.len() {
            others[j] = row_value(self.ring, self.rows, j * symbols.len(), symbols);
        }
    }

    /// Whether all symbols are of one word: `symbols`, at the k known points, and `others`, at the t wanted points, of
    /// one message of k symbols.
    ///
    /// It takes at most t·k products.
    ///
    /// # Conditions
    ///
    /// - `symbols` has a symbol for each known point
    /// - `others` has a symbol for each wanted point
    /// - (debug) the symbols are checked forms
    ///
    /// # Examples
    ///
    /// ```
    /// use num_modular::applications::ring_codes::erasure::PreparedCode;
    /// use num_modular::{Reducer, Vanilla};
    ///
    /// let ring = Vanilla::<u64>::new(&929);
    /// let (mut rows, mut scratch) = ([0; 6], [0; 6]);
    /// let code = PreparedCode::new(&ring, &[0, 1, 2], &[3, 4], &mut rows, &mut scratch).unwrap();
    /// assert!(code.is_codeword(&[3, 2, 1], &[0, 928]));
    /// assert!(!code.is_codeword(&[3, 2, 1], &[0, 927]));
    /// ```
    // rust: #[track_caller]
    pub fn is_codeword(&self, symbols: &[T], others: &[T]) -> bool
        requires symbols { AreChecked R.Reducer T.number self.now.ring.now symbols.now }
        requires others { AreChecked R.Reducer T.number self.now.ring.now others.now }
        requires given { length symbols.now ≡ length self.now.known.now }
        requires pairs { length others.now ≡ length self.now.wanted.now }
        ensures { let m = R.modulus self.now.ring.now in let k = length self.now.known.now in
            IsTrue result ↔ ((message : ℕ → ℕ) ×
            IsEncoding m k k (entry T.number R.value m self.now.known.now) message
            (entry T.number R.value m symbols.now) ×
            IsEncoding m k (length self.now.wanted.now) (entry T.number R.value m self.now.wanted.now) message
            (entry T.number R.value m others.now)) }
    {
        // rust: debug_assert!(symbols.iter().chain(others).all(|x| self.ring.check(x)),
        // rust:     "the symbols must be checked forms");
        // rust: assert!(symbols.len() == self.known.len(),
        // rust:     "`symbols` must have a symbol for each known point: {} and {}", symbols.len(), self.known.len());
        // rust: assert!(others.len() == self.wanted.len(),
        // rust:     "`others` must have a symbol for each wanted point: {} and {}", others.len(), self.wanted.len());
        'wanted: for j in 0..others.len() {
            let symbol = row_value(self.ring, self.rows, j * symbols.len(), symbols);
            if symbol != others[j] {
                return false;
            }
        }
        true
    }
}

// Writes for each point the product of the differences of a point from the other ones.
#[tactic(auto, using(num_modular::specs::Callers::form_read, crate::proofs::Symbols::back_within, num_modular::specs::Callers::product_none, num_modular::specs::Callers::entry_read, num_modular::specs::Callers::hold_more, num_modular::specs::Callers::product_step, num_modular::specs::Callers::held_forms, num_modular::specs::Callers::held_entry))]
fn fill_products<T: RingWord, R: Reducer<T>>(r: &R, points: &[T], point: &T, products: &mut [T])
    requires points { AreChecked R.Reducer T.number r.now points.now }
    requires point { IsChecked R.Reducer T.number r.now point.now }
    requires room { length products.old ≡ length points.now }
    ensures checked { AreChecked R.Reducer T.number r.now products.new }
    ensures values { let m = R.modulus r.now in (i : ℕ) → i < length points.now →
        entry T.number R.value m products.new i ≡ product_but m (length points.now)
        (entry T.number R.value m points.now) i (R.value m (T.number point.now)) % m }
{
    let one = r.transform(T::one());
    let mut before = one;
    'forward: for i in 0..points.len() {
        products[i] = before;
        let difference = r.sub(point, &points[i]);
        before = r.mul(&before, &difference);
    }
    let mut after = one;
    'backward: for k in 0..points.len() {
        let i = points.len() - 1 - k;
        products[i] = r.mul(&products[i], &after);
        let difference = r.sub(point, &points[i]);
        after = r.mul(&after, &difference);
    }
}

/// Writes the barycentric weights of n points: for each point the inverse of the product of its differences from the
/// other ones.
///
/// Returns false exactly where the points don't fit.
///
/// `products` is scratch: its contents are ignored, and unspecified afterwards. The contents of `weights` are ignored, and
/// unspecified after false. It takes n² + 3·n products and one inversion.
///
/// Source: Berrut and Trefethen, "Barycentric Lagrange interpolation", SIAM Review 46, 2004.
///
/// # Conditions
///
/// - there are n products
/// - there are n weights
/// - (debug) the points are checked forms
///
/// # Examples
///
/// ```
/// use num_modular::applications::ring_codes::erasure::fill_barycentric_weights;
/// use num_modular::{Reducer, Vanilla};
///
/// let ring = Vanilla::<u8>::new(&97);
/// let (mut products, mut weights) = ([0; 3], [0; 3]);
/// assert!(fill_barycentric_weights(&ring, &[0, 1, 2], &mut products, &mut weights));
/// // the inverses of (0 - 1)(0 - 2), (1 - 0)(1 - 2) and (2 - 0)(2 - 1)
/// assert_eq!(weights, [49, 96, 49]);
/// ```
// rust: #[must_use]
// rust: #[track_caller]
#[tactic(auto, using(num_modular::specs::Callers::form_read, num_modular::specs::NumberLaws::inverse_from_mod))]
pub fn fill_barycentric_weights<T: RingWord, R: Reducer<T>>(
    r: &R,
    points: &[T],
    products: &mut [T],
    weights: &mut [T],
) -> bool
    requires points { AreChecked R.Reducer T.number r.now points.now }
    requires products { length products.old ≡ length points.now }
    requires weights { length weights.old ≡ length points.now }
    ensures fit { let m = R.modulus r.now in
        IsTrue result ↔ HaveUnitDifferences m (length points.now) (entry T.number R.value m points.now) }
    ensures checked { IsTrue result → AreChecked R.Reducer T.number r.now weights.new }
    ensures inverses { let m = R.modulus r.now in let x = entry T.number R.value m points.now in
        IsTrue result → (i : ℕ) → i < length points.now →
        IsInverse m (product_but m (length points.now) x i (x i)) (entry T.number R.value m weights.new i) }
{
    // rust: debug_assert!(points.iter().all(|x| r.check(x)), "the points must be checked forms");
    // rust: assert!(products.len() == points.len(), "there must be n products: {} and {}", products.len(), points.len());
    // rust: assert!(weights.len() == points.len(), "there must be n weights: {} and {}", weights.len(), points.len());
    fill_differences(r, points, weights);
    invert_each(r, weights, products)
}

// Writes a row for each wanted point: for each known point the product of the differences of the wanted point from the
// other known ones, times the weight of the known point.
#[tactic(auto, using(crate::proofs::Lagrange::row_index_below_size, num_modular::specs::Callers::form_read))]
fn fill_rows<T: RingWord, R: Reducer<T>>(
    r: &R,
    known: &[T],
    wanted: &[T],
    weights: &[T],
    products: &mut [T],
    rows: &mut [T],
)
    requires known { AreChecked R.Reducer T.number r.now known.now }
    requires wanted { AreChecked R.Reducer T.number r.now wanted.now }
    requires weights { AreChecked R.Reducer T.number r.now weights.now }
    requires each { length weights.now ≡ length known.now }
    requires products { length products.old ≡ length known.now }
    requires count { length rows.old ≡ length wanted.now * length known.now }
    ensures checked { AreChecked R.Reducer T.number r.now rows.new }
    ensures values { let m = R.modulus r.now in let k = length known.now in
        (j i : ℕ) → j < length wanted.now → i < k → entry T.number R.value m rows.new (j * k + i)
        ≡ (product_but m k (entry T.number R.value m known.now) i (entry T.number R.value m wanted.now j) % m
        * entry T.number R.value m weights.now i) % m }
{
    let mut next = 0;
    'wanted: for j in 0..wanted.len() {
        fill_products(r, known, &wanted[j], products);
        'known: for i in 0..known.len() {
            rows[next] = r.mul(&products[i], &weights[i]);
            next += 1;
        }
    }
}

// The sum of the symbols, each times its factor, from an index of the rows on.
#[tactic(auto, using(crate::proofs::Sets::row_parts))]
fn row_value<T: RingWord, R: Reducer<T>>(r: &R, rows: &[T], start: usize, symbols: &[T]) -> T
    requires rows { AreChecked R.Reducer T.number r.now rows.now }
    requires symbols { AreChecked R.Reducer T.number r.now symbols.now }
    requires within { start + length symbols.now ≤ length rows.now }
    ensures checked { IsChecked R.Reducer T.number r.now result }
    ensures value { let m = R.modulus r.now in R.value m (T.number result)
        ≡ sum_below (length symbols.now) (λ i. entry T.number R.value m rows.now (start + i)
        * entry T.number R.value m symbols.now i) % m }
{
    dot_product(r, &rows[start..start + symbols.len()], symbols)
}
