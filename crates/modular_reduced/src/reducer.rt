//! The trait of reducers, with its laws.

ghost use Rattle.std.specs.Prelude.{◌≡◌, ℕ, ◌+◌, ◌*◌, ◌%◌, ◌^◌, ◌<◌, ◌≤◌, ◌↔◌, IsTrue, IfSome, pos, ◌-ℤ◌, neg_ℤ};
ghost use Rattle.std.specs.Prelude.{All, length, slice_index};
ghost use Rattle.modular_word.specs.Inverses.{IsInversion};
ghost use Rattle.modular_word.specs.Residues.{residue};
ghost use Rattle.modular_reduced.specs.Forms.{Represents, IsForm, IsCanonical, IsInverseForm};
ghost use Rattle.modular_reduced.specs.Values.{values_of, HoldValues, sum_of_products};

// rattle: line
use crate::power::pow_counted;
// rattle: line
use modular_word::ring_word::RingWord;

/// Arithmetic modulo m on forms: words that represent the values from 0 to m - 1.
///
/// A word is a *checked form* where `check` returns true: it is the form of exactly one value. Each value has exactly
/// one.
///
/// # Examples
///
/// ```
/// use num_modular::{Montgomery, Reducer};
///
/// let ring = Montgomery::<u64>::new(97);
/// let (x, y) = (ring.transform(1000), ring.transform(3));
/// assert_eq!(ring.residue(ring.mul(&x, &y)), 3000 % 97);
/// assert_eq!(ring.inv(y).map(|f| ring.residue(f)), Some(65));
/// ```
// rust instead: pub trait Reducer<T>: Sized {
pub trait Reducer<T: RingWord> {
    // The moduli that `new` accepts.
    ghost admits: { ℕ → Type 0 };

    // `form m v`: modulo m, the form of the value v.
    ghost form: { ℕ → ℕ → ℕ };

    // `value m f`: modulo m, the value of the form f.
    ghost value: { ℕ → ℕ → ℕ };

    // The modulus of a reducer.
    ghost modulus: { Self → ℕ };

    /// The reducer of m.
    ///
    /// # Conditions
    ///
    /// - the reducer admits the modulus
    ///
    /// # Examples
    ///
    /// ```
    /// use num_modular::{Reducer, Vanilla};
    ///
    /// fn product<R: Reducer<u64>>(x: u64, y: u64, m: u64) -> u64 {
    ///     let ring = R::new(&m);
    ///     ring.residue(ring.mul(&ring.transform(x), &ring.transform(y)))
    /// }
    /// assert_eq!(product::<Vanilla<u64>>(1000, 3, 97), 90); // 3000 modulo 97
    /// ```
    // rust: #[must_use]
    // rust: #[track_caller]
    fn new(m: &T) -> Self
        requires { admits (T.number m.now) }
        ensures { modulus result ≡ T.number m.now };

    /// The form of n mod m: for every word n.
    ///
    /// # Examples
    ///
    /// ```
    /// use num_modular::{FixedMontgomery32, Reducer};
    ///
    /// let ring = FixedMontgomery32::<97>::RING;
    /// assert_eq!(ring.transform(1) as u64, (1 << 32) % 97);
    /// assert_eq!(ring.transform(98), ring.transform(1));
    /// ```
    fn transform(&self, n: T) -> T
        ensures form { Represents form (modulus self.now) (T.number result) (T.number n % modulus self.now) }
        ensures checked { IsForm form value (modulus self.now) (T.number result) }
        ensures value { value (modulus self.now) (T.number result) ≡ T.number n % modulus self.now };

    /// Whether a word is a checked form.
    ///
    /// # Examples
    ///
    /// ```
    /// use num_modular::{Reducer, Vanilla};
    ///
    /// let ring = Vanilla::<u64>::new(&97);
    /// assert!(ring.check(&96));
    /// assert!(!ring.check(&97));
    /// ```
    fn check(&self, f: &T) -> bool
        ensures { IsTrue result ↔ IsForm form value (modulus self.now) (T.number f.now) };

    /// The modulus.
    ///
    /// # Examples
    ///
    /// ```
    /// use num_modular::{FixedMersenne64, Reducer};
    ///
    /// assert_eq!(FixedMersenne64::<61, 1>::RING.modulus(), (1 << 61) - 1);
    /// ```
    fn modulus(&self) -> T
        ensures { T.number result ≡ modulus self.now };

    /// The value of a form: a number below the modulus.
    ///
    /// # Preconditions
    ///
    /// - `f` is a checked form
    ///
    /// # Examples
    ///
    /// ```
    /// use num_modular::{Montgomery, Reducer};
    ///
    /// let ring = Montgomery::<u64>::new(97);
    /// assert_eq!(ring.residue(ring.transform(100)), 3);
    /// ```
    fn residue(&self, f: T) -> T
        requires { IsForm form value (modulus self.now) (T.number f) }
        ensures form { Represents form (modulus self.now) (T.number f) (T.number result) }
        ensures value { T.number result ≡ value (modulus self.now) (T.number f) };

    /// Whether the value is 0.
    ///
    /// # Preconditions
    ///
    /// - `f` is a checked form
    ///
    /// # Examples
    ///
    /// ```
    /// use num_modular::{Montgomery, Reducer};
    ///
    /// let ring = Montgomery::<u64>::new(97);
    /// assert!(ring.is_zero(&ring.transform(194))); // 2 * 97
    /// assert!(!ring.is_zero(&ring.transform(195)));
    /// ```
    fn is_zero(&self, f: &T) -> bool
        requires { IsForm form value (modulus self.now) (T.number f.now) }
        ensures { IsTrue result ↔ (value (modulus self.now) (T.number f.now) ≡ 0) };

    /// The form of the sum modulo m.
    ///
    /// # Preconditions
    ///
    /// - `a` and `b` are checked forms
    ///
    /// # Examples
    ///
    /// ```
    /// use num_modular::{Montgomery, Reducer};
    ///
    /// let ring = Montgomery::<u64>::new(97);
    /// let (x, y) = (ring.transform(60), ring.transform(50));
    /// assert_eq!(ring.residue(ring.add(&x, &y)), 13); // 110 - 97
    /// ```
    fn add(&self, a: &T, b: &T) -> T
        requires left { IsForm form value (modulus self.now) (T.number a.now) }
        requires right { IsForm form value (modulus self.now) (T.number b.now) }
        ensures form { let m = modulus self.now in
            Represents form m (T.number result) ((value m (T.number a.now) + value m (T.number b.now)) % m) }
        ensures checked { IsForm form value (modulus self.now) (T.number result) }
        ensures value { let m = modulus self.now in
            value m (T.number result) ≡ (value m (T.number a.now) + value m (T.number b.now)) % m };

    /// Replaces a by the result: that of `add`.
    ///
    /// # Preconditions
    ///
    /// - `a` and `b` are checked forms
    ///
    /// # Examples
    ///
    /// ```
    /// use num_modular::{Reducer, Vanilla};
    ///
    /// let ring = Vanilla::<u64>::new(&97);
    /// let mut sum = 60;
    /// ring.add_in_place(&mut sum, &50);
    /// assert_eq!(sum, 13);
    /// ```
    fn add_in_place(&self, a: &mut T, b: &T)
        requires left { IsForm form value (modulus self.now) (T.number a.old) }
        requires right { IsForm form value (modulus self.now) (T.number b.now) }
        ensures form { let m = modulus self.now in
            Represents form m (T.number a.new) ((value m (T.number a.old) + value m (T.number b.now)) % m) }
        ensures checked { IsForm form value (modulus self.now) (T.number a.new) }
        ensures value { let m = modulus self.now in
            value m (T.number a.new) ≡ (value m (T.number a.old) + value m (T.number b.now)) % m }
    {
        *a = self.add(a, b);
    }

    /// The form of the double modulo m.
    ///
    /// # Preconditions
    ///
    /// - `f` is a checked form
    ///
    /// # Examples
    ///
    /// ```
    /// use num_modular::{Montgomery, Reducer};
    ///
    /// let ring = Montgomery::<u64>::new(97);
    /// assert_eq!(ring.residue(ring.dbl(ring.transform(60))), 23); // 120 - 97
    /// ```
    fn dbl(&self, f: T) -> T
        requires { IsForm form value (modulus self.now) (T.number f) }
        ensures form { let m = modulus self.now in Represents form m (T.number result) ((2 * value m (T.number f)) % m) }
        ensures checked { IsForm form value (modulus self.now) (T.number result) }
        ensures value { let m = modulus self.now in value m (T.number result) ≡ (2 * value m (T.number f)) % m };

    /// The form of the difference modulo m.
    ///
    /// # Preconditions
    ///
    /// - `a` and `b` are checked forms
    ///
    /// # Examples
    ///
    /// ```
    /// use num_modular::{Montgomery, Reducer};
    ///
    /// let ring = Montgomery::<u64>::new(97);
    /// let (x, y) = (ring.transform(50), ring.transform(60));
    /// assert_eq!(ring.residue(ring.sub(&x, &y)), 87); // -10 + 97
    /// ```
    fn sub(&self, a: &T, b: &T) -> T
        requires left { IsForm form value (modulus self.now) (T.number a.now) }
        requires right { IsForm form value (modulus self.now) (T.number b.now) }
        ensures form { let m = modulus self.now in Represents form m (T.number result)
            (residue m (pos (value m (T.number a.now)) -ℤ pos (value m (T.number b.now)))) }
        ensures checked { IsForm form value (modulus self.now) (T.number result) }
        ensures value { let m = modulus self.now in
            value m (T.number result) ≡ residue m (pos (value m (T.number a.now)) -ℤ pos (value m (T.number b.now))) };

    /// Replaces a by the result: that of `sub`.
    ///
    /// # Preconditions
    ///
    /// - `a` and `b` are checked forms
    ///
    /// # Examples
    ///
    /// ```
    /// use num_modular::{Reducer, Vanilla};
    ///
    /// let ring = Vanilla::<u64>::new(&97);
    /// let mut difference = 50;
    /// ring.sub_in_place(&mut difference, &60);
    /// assert_eq!(difference, 87);
    /// ```
    fn sub_in_place(&self, a: &mut T, b: &T)
        requires left { IsForm form value (modulus self.now) (T.number a.old) }
        requires right { IsForm form value (modulus self.now) (T.number b.now) }
        ensures form { let m = modulus self.now in Represents form m (T.number a.new)
            (residue m (pos (value m (T.number a.old)) -ℤ pos (value m (T.number b.now)))) }
        ensures checked { IsForm form value (modulus self.now) (T.number a.new) }
        ensures value { let m = modulus self.now in
            value m (T.number a.new) ≡ residue m (pos (value m (T.number a.old)) -ℤ pos (value m (T.number b.now))) }
    {
        *a = self.sub(a, b);
    }

    /// The form of the negative modulo m.
    ///
    /// # Preconditions
    ///
    /// - `f` is a checked form
    ///
    /// # Examples
    ///
    /// ```
    /// use num_modular::{Montgomery, Reducer};
    ///
    /// let ring = Montgomery::<u64>::new(97);
    /// assert_eq!(ring.residue(ring.neg(ring.transform(10))), 87);
    /// ```
    fn neg(&self, f: T) -> T
        requires { IsForm form value (modulus self.now) (T.number f) }
        ensures form { let m = modulus self.now in
            Represents form m (T.number result) (residue m (neg_ℤ (pos (value m (T.number f))))) }
        ensures checked { IsForm form value (modulus self.now) (T.number result) }
        ensures value { let m = modulus self.now in
            value m (T.number result) ≡ residue m (neg_ℤ (pos (value m (T.number f)))) };

    /// The form of the product modulo m.
    ///
    /// # Preconditions
    ///
    /// - `a` and `b` are checked forms
    ///
    /// # Examples
    ///
    /// ```
    /// use num_modular::{Montgomery, Reducer};
    ///
    /// let ring = Montgomery::<u64>::new(97);
    /// let (x, y) = (ring.transform(20), ring.transform(10));
    /// assert_eq!(ring.residue(ring.mul(&x, &y)), 6); // 200 - 2 * 97
    /// ```
    fn mul(&self, a: &T, b: &T) -> T
        requires left { IsForm form value (modulus self.now) (T.number a.now) }
        requires right { IsForm form value (modulus self.now) (T.number b.now) }
        ensures form { let m = modulus self.now in
            Represents form m (T.number result) ((value m (T.number a.now) * value m (T.number b.now)) % m) }
        ensures checked { IsForm form value (modulus self.now) (T.number result) }
        ensures value { let m = modulus self.now in
            value m (T.number result) ≡ (value m (T.number a.now) * value m (T.number b.now)) % m };

    /// Replaces a by the result: that of `mul`.
    ///
    /// # Preconditions
    ///
    /// - `a` and `b` are checked forms
    ///
    /// # Examples
    ///
    /// ```
    /// use num_modular::{Reducer, Vanilla};
    ///
    /// let ring = Vanilla::<u64>::new(&97);
    /// let mut product = 20;
    /// ring.mul_in_place(&mut product, &10);
    /// assert_eq!(product, 6);
    /// ```
    fn mul_in_place(&self, a: &mut T, b: &T)
        requires left { IsForm form value (modulus self.now) (T.number a.old) }
        requires right { IsForm form value (modulus self.now) (T.number b.now) }
        ensures form { let m = modulus self.now in
            Represents form m (T.number a.new) ((value m (T.number a.old) * value m (T.number b.now)) % m) }
        ensures checked { IsForm form value (modulus self.now) (T.number a.new) }
        ensures value { let m = modulus self.now in
            value m (T.number a.new) ≡ (value m (T.number a.old) * value m (T.number b.now)) % m }
    {
        *a = self.mul(a, b);
    }

    /// The form of (a - b)·factor: modulo m, what `mul` returns for the result of `sub`.
    ///
    /// A reducer may override it with a faster body for callers in which the comparison of a and b mispredicts, as
    /// in the butterflies of a transform.
    ///
    /// # Preconditions
    ///
    /// - `a`, `b` and `factor` are checked forms
    ///
    /// # Examples
    ///
    /// ```
    /// use num_modular::{Montgomery, Reducer};
    ///
    /// let ring = Montgomery::<u64>::new(97);
    /// let [x, y, factor] = [50, 60, 3].map(|n| ring.transform(n));
    /// assert_eq!(ring.residue(ring.mul_difference(&x, &y, &factor)), 67); // -30 + 97
    /// ```
    fn mul_difference(&self, a: &T, b: &T, factor: &T) -> T
        requires left { IsForm form value (modulus self.now) (T.number a.now) }
        requires right { IsForm form value (modulus self.now) (T.number b.now) }
        requires factor { IsForm form value (modulus self.now) (T.number factor.now) }
        ensures form { let m = modulus self.now in Represents form m (T.number result)
            ((residue m (pos (value m (T.number a.now)) -ℤ pos (value m (T.number b.now)))
            * value m (T.number factor.now)) % m) }
        ensures checked { IsForm form value (modulus self.now) (T.number result) }
        ensures value { let m = modulus self.now in value m (T.number result)
            ≡ (residue m (pos (value m (T.number a.now)) -ℤ pos (value m (T.number b.now)))
            * value m (T.number factor.now)) % m }
    {
        let difference = self.sub(a, b);
        self.mul(&difference, factor)
    }

    /// Changes xs by ys, entry by entry: as `add` does.
    ///
    /// A reducer may override it with a body of which compilers do several entries at once.
    ///
    /// # Conditions
    ///
    /// - the lists have the same length
    /// - (debug) the entries of both lists are checked forms
    ///
    /// # Examples
    ///
    /// ```
    /// use num_modular::{Reducer, Vanilla};
    ///
    /// let ring = Vanilla::<u64>::new(&97);
    /// let mut xs = [60, 2];
    /// ring.add_entries(&mut xs, &[50, 3]);
    /// assert_eq!(xs, [13, 5]); // 110 - 97
    /// ```
    // rust: #[track_caller]
    fn add_entries(&self, xs: &mut [T], ys: &[T])
        requires equal { length ys.now ≡ length xs.old }
        requires checked_xs { All (λ f. IsForm form value (modulus self.now) (T.number f)) xs.old }
        requires checked_ys { All (λ f. IsForm form value (modulus self.now) (T.number f)) ys.now }
        ensures entries { let m = modulus self.now in HoldValues T.number form m xs.new
            (λ i. (slice_index (values_of T.number value m xs.old) i
            + slice_index (values_of T.number value m ys.now) i) % m) }
        ensures values { let m = modulus self.now in
            (i : ℕ) → i < length xs.old → slice_index (values_of T.number value m xs.new) i
            ≡ (slice_index (values_of T.number value m xs.old) i
            + slice_index (values_of T.number value m ys.now) i) % m }
        ensures checked { All (λ f. IsForm form value (modulus self.now) (T.number f)) xs.new }
    {
        // rust: crate::additions::expect_entries(self, xs, ys);
        'entries: for i in 0..xs.len() {
            xs[i] = self.add(&xs[i], &ys[i]);
        }
    }

    /// Changes xs by ys, entry by entry: as `sub` does.
    ///
    /// A reducer may override it as `add_entries`.
    ///
    /// # Conditions
    ///
    /// - the lists have the same length
    /// - (debug) the entries of both lists are checked forms
    ///
    /// # Examples
    ///
    /// ```
    /// use num_modular::{Reducer, Vanilla};
    ///
    /// let ring = Vanilla::<u64>::new(&97);
    /// let mut xs = [50, 5];
    /// ring.sub_entries(&mut xs, &[60, 3]);
    /// assert_eq!(xs, [87, 2]); // -10 + 97
    /// ```
    // rust: #[track_caller]
    fn sub_entries(&self, xs: &mut [T], ys: &[T])
        requires equal { length ys.now ≡ length xs.old }
        requires checked_xs { All (λ f. IsForm form value (modulus self.now) (T.number f)) xs.old }
        requires checked_ys { All (λ f. IsForm form value (modulus self.now) (T.number f)) ys.now }
        ensures entries { let m = modulus self.now in HoldValues T.number form m xs.new
            (λ i. residue m (pos (slice_index (values_of T.number value m xs.old) i)
            -ℤ pos (slice_index (values_of T.number value m ys.now) i))) }
        ensures values { let m = modulus self.now in
            (i : ℕ) → i < length xs.old → slice_index (values_of T.number value m xs.new) i
            ≡ residue m (pos (slice_index (values_of T.number value m xs.old) i)
            -ℤ pos (slice_index (values_of T.number value m ys.now) i)) }
        ensures checked { All (λ f. IsForm form value (modulus self.now) (T.number f)) xs.new }
    {
        // rust: crate::additions::expect_entries(self, xs, ys);
        'entries: for i in 0..xs.len() {
            xs[i] = self.sub(&xs[i], &ys[i]);
        }
    }

    /// The form of `sum` + Σ x_i·y_i: entry by entry, modulo m.
    ///
    /// A reducer may override it with a body that reduces once for many products.
    ///
    /// # Conditions
    ///
    /// - the lists have the same length
    /// - (debug) `sum` and all entries are checked forms
    ///
    /// # Examples
    ///
    /// ```
    /// use num_modular::{Montgomery, Reducer};
    ///
    /// let ring = Montgomery::<u64>::new(97);
    /// let [x, y, z] = [90, 2, 10].map(|n| ring.transform(n));
    /// assert_eq!(ring.residue(ring.add_products(z, &[x, y], &[y, z])), 16); // 10 + 180 + 20 - 2 * 97
    /// ```
    // rust: #[track_caller]
    fn add_products(&self, sum: T, xs: &[T], ys: &[T]) -> T
        requires equal { length ys.now ≡ length xs.now }
        requires sum { IsForm form value (modulus self.now) (T.number sum) }
        requires checked_xs { All (λ f. IsForm form value (modulus self.now) (T.number f)) xs.now }
        requires checked_ys { All (λ f. IsForm form value (modulus self.now) (T.number f)) ys.now }
        ensures form { let m = modulus self.now in Represents form m (T.number result)
            ((value m (T.number sum) + sum_of_products T.number value m xs.now ys.now) % m) }
        ensures checked { IsForm form value (modulus self.now) (T.number result) }
        ensures value { let m = modulus self.now in value m (T.number result)
            ≡ (value m (T.number sum) + sum_of_products T.number value m xs.now ys.now) % m }
    {
        // rust: assert!(ys.len() == xs.len(), "the lists must have the same length: {} and {}", xs.len(), ys.len());
        // rust: debug_assert!(self.check(&sum) && xs.iter().chain(ys).all(|x| self.check(x)),
        // rust:     "`sum` and all entries must be checked forms");
        let mut total = sum;
        'products: for i in 0..xs.len() {
            total = self.add(&total, &self.mul(&xs[i], &ys[i]));
        }
        total
    }

    /// Multiplies each entry by one factor: as `mul` does.
    ///
    /// A reducer may override it with a body that precomputes a quotient of the factor once for the list.
    ///
    /// # Preconditions
    ///
    /// - the entries of `xs` and `factor` are checked forms
    ///
    /// # Examples
    ///
    /// ```
    /// use num_modular::{PreMulInv2by1, Reducer};
    ///
    /// let ring = PreMulInv2by1::<u64>::new(97);
    /// let mut forms = [90, 2].map(|n| ring.transform(n));
    /// ring.scale_entries(&mut forms, &ring.transform(10));
    /// assert_eq!(forms.map(|f| ring.residue(f)), [27, 20]); // 900 - 9 * 97
    /// ```
    fn scale_entries(&self, xs: &mut [T], factor: &T)
        requires checked { All (λ f. IsForm form value (modulus self.now) (T.number f)) xs.old }
        requires factor { IsForm form value (modulus self.now) (T.number factor.now) }
        ensures entries { let m = modulus self.now in HoldValues T.number form m xs.new
            (λ i. (slice_index (values_of T.number value m xs.old) i * value m (T.number factor.now)) % m) }
        ensures values { let m = modulus self.now in
            (i : ℕ) → i < length xs.old → slice_index (values_of T.number value m xs.new) i
            ≡ (slice_index (values_of T.number value m xs.old) i * value m (T.number factor.now)) % m }
        ensures checked { All (λ f. IsForm form value (modulus self.now) (T.number f)) xs.new }
    {
        // rust instead: for x in xs.iter_mut() {
        'entries: for i in 0..xs.len() {
            // rust instead: *x = self.mul(x, factor);
            xs[i] = self.mul(&xs[i], factor);
        }
    }

    /// The form of the inverse; `None` exactly where there is none.
    ///
    /// Not for secrets.
    ///
    /// # Preconditions
    ///
    /// - `f` is a checked form
    ///
    /// # Examples
    ///
    /// ```
    /// use num_modular::{Montgomery, Reducer};
    ///
    /// let ring = Montgomery::<u64>::new(10);
    /// assert_eq!(ring.inv(ring.transform(3)).map(|f| ring.residue(f)), Some(7)); // 3 * 7 = 21
    /// assert_eq!(ring.inv(ring.transform(4)), None);
    /// ```
    fn inv(&self, f: T) -> Option<T>
        requires { IsForm form value (modulus self.now) (T.number f) }
        ensures form { let m = modulus self.now in IsInverseForm T.number form m (value m (T.number f)) result }
        ensures checked { IfSome result (λ x. IsForm form value (modulus self.now) (T.number x)) }
        ensures value { let m = modulus self.now in
            IsInversion (λ x. value m (T.number x)) m (value m (T.number f)) result };

    /// The form of the square modulo m.
    ///
    /// # Preconditions
    ///
    /// - `f` is a checked form
    ///
    /// # Examples
    ///
    /// ```
    /// use num_modular::{Montgomery, Reducer};
    ///
    /// let ring = Montgomery::<u64>::new(97);
    /// assert_eq!(ring.residue(ring.sqr(ring.transform(10))), 3);
    /// ```
    fn sqr(&self, f: T) -> T
        requires { IsForm form value (modulus self.now) (T.number f) }
        ensures form { let m = modulus self.now in
            Represents form m (T.number result) ((value m (T.number f) * value m (T.number f)) % m) }
        ensures checked { IsForm form value (modulus self.now) (T.number result) }
        ensures value { let m = modulus self.now in
            value m (T.number result) ≡ (value m (T.number f) * value m (T.number f)) % m };

    /// The form of the power: to the exponent `exp` modulo m; that of 1 for the exponent 0.
    ///
    /// # Preconditions
    ///
    /// - `f` is a checked form
    ///
    /// # Examples
    ///
    /// ```
    /// use num_modular::{Montgomery, Reducer};
    ///
    /// let ring = Montgomery::<u64>::new(1000);
    /// assert_eq!(ring.residue(ring.pow(ring.transform(2), &10)), 24); // 1024 modulo 1000
    /// ```
    final fn pow(&self, f: T, exp: &T) -> T
        requires { IsForm form value (modulus self.now) (T.number f) }
        ensures form { let m = modulus self.now in
            Represents form m (T.number result) (value m (T.number f) ^ T.number exp.now % m) }
        ensures checked { IsForm form value (modulus self.now) (T.number result) }
        ensures value { let m = modulus self.now in
            value m (T.number result) ≡ value m (T.number f) ^ T.number exp.now % m }
    // rust: ;
    // rattle: item
    {
        pow_counted(self, f, exp).0
    }

    // rust: // For messages: a word needn't be a number.
    // rust: #[doc(hidden)]
    // rust: fn shown_modulus(&self) -> Option<u128> {
    // rust:     None
    // rust: }

    // The modulus of a reducer is one that `new` accepts.
    ghost admitted: { (r : Self) → admits (modulus r) };

    // Each value has exactly one form, which is a word, and each form exactly one value.
    ghost canonical: { (r : Self) → IsCanonical form value T.width (modulus r) };
}
