//! The reducer whose forms are the values shifted to the top of the word.

ghost use Rattle.std.specs.Prelude.{◌≡◌, ℕ, ◌+◌, ◌-◌, ◌*◌, ◌/◌, ◌%◌, ◌^◌, ◌<◌, ◌≤◌, ⊤, IsTrue, pos, ◌-ℤ◌};
ghost use Rattle.std.specs.Int.Count.{count_leading_zeros};
ghost use Rattle.modular_word.specs.Residues.{residue};
ghost use Rattle.modular_reduced.specs.Forms.{IsForm, Represents};
ghost use Rattle.modular_barrett.specs.Scaling.{scale, scaled_form, scaled_value, IsScaling};
ghost use Rattle.modular_barrett.specs.ScaledForms.{scaled_canonical};

// rust: use crate::additions::Divide2by1;
use crate::list_products::reduced_products;
use crate::normalized::{Normalized2by1Divisor, StoredDivisor};
use modular_prim::below::{add_below, dbl_below_stored, neg_below, sub_below};
use modular_prim::inverse::fast_inverse;
use modular_prim::plain_word::PlainWord;
use modular_reduced::lanes::{add_each, difference_by_sign, sub_each, sum_by_sign, takes_signs};
use modular_reduced::list_products::{block, multiply_by_factor};
use modular_reduced::reducer::Reducer;
use modular_word::path_word::PathWord;
// rattle: line
use modular_word::ring_word::RingWord;
// rattle: line
use std::alloc::AllocError;

/// The reducer of any m, by reciprocals: m is at least 1, and products are reduced by a division of a double word.
///
/// With s the leading zeros of m, the form of a value v is v·2^s, and the divisor is m·2^s, whose top bit is set.
///
/// Sums, differences, doubles and negatives are taken modulo m·2^s without a division. A product takes one product
/// of words and one division by the reciprocal of m·2^s.
///
/// Source: Möller and Granlund, "Improved division by invariant integers".
///
/// # Examples
///
/// ```
/// use num_modular::{PreMulInv2by1, Reducer};
///
/// let ring = PreMulInv2by1::<u32>::new(1000);
/// let x = ring.transform(123456);
/// assert_eq!(ring.residue(ring.sqr(x)), 456 * 456 % 1000);
/// ```
// rust instead: #[derive(PartialEq, Eq, Hash)]
#[derive(Debug, PartialEq, Eq)]
// rust: #[must_use]
// rust instead: pub struct PreMulInv2by1<T> {
pub struct PreMulInv2by1<T: PlainWord> {
    // rust instead: pub(crate) divider: Normalized2by1Divisor<T>,
    divider: Normalized2by1Divisor<T>,
    // rust instead: pub(crate) shift: u32,
    shift: u32,
    pub ghost scaling: { IsScaling T.width (T.number divider.divisor / 2 ^ shift) (T.number divider.divisor) shift },
}

impl<T: PlainWord> Clone for PreMulInv2by1<T> {
    ghost is_clone = { λ x y. y ≡ x };

    ghost is_infallible = { λ _. ⊤ };

    // rust instead: fn clone(&self) -> Self {
    fn clone(&self) -> Result<Self, AllocError> {
        // rust instead: *self
        Ok(*self)
    }
}

impl<T: PlainWord> Copy for PreMulInv2by1<T> {}

impl<T: PlainWord> PreMulInv2by1<T> {
    /// The reducer of m.
    ///
    /// In the Cargo crate this is `of`, for any word type; `new` is the same for a known one.
    ///
    /// # Conditions
    ///
    /// - the modulus is at least 1
    ///
    /// # Examples
    ///
    /// ```
    /// use num_modular::{PlainWord, PreMulInv2by1, Reducer};
    ///
    /// fn square<T: PlainWord>(x: T, m: T) -> T {
    ///     let ring = PreMulInv2by1::of(m);
    ///     ring.residue(ring.sqr(ring.transform(x)))
    /// }
    /// assert_eq!(square(16u8, 251), 5); // 256 - 251
    /// ```
    // rust: #[track_caller]
    // rust instead: pub fn of(m: T) -> Self
    pub fn new(m: T) -> Self
        requires { 1 ≤ T.number m }
        ensures { ⟦<PreMulInv2by1<T> as Reducer<T>>⟧.modulus result ≡ T.number m }
    {
        prove!(!m.is_zero_word());
        // rust: assert!(!m.is_zero_word(), "the modulus must be at least 1");
        let shift = m.leading_zeros();
        PreMulInv2by1 {
            // rust instead: divider: Normalized2by1Divisor::of(m.shift_left(shift)),
            divider: Normalized2by1Divisor::new(m.shift_left(shift)),
            shift,
        }
    }

    /// The divider by the shifted modulus.
    ///
    /// # Examples
    ///
    /// ```
    /// use num_modular::PreMulInv2by1;
    ///
    /// let ring = PreMulInv2by1::<u8>::new(10);
    /// assert_eq!(ring.divider().divisor(), 160); // 10 * 2^4
    /// ```
    pub const fn divider(&self) -> &Normalized2by1Divisor<T>
        ensures { let m = ⟦<PreMulInv2by1<T> as Reducer<T>>⟧.modulus self.now in
            ⟦<Normalized2by1Divisor<T> as StoredDivisor>⟧.divisor result.now ≡ m * scale T.width m }
    {
        &self.divider
    }

    /// How many leading zeros m has.
    ///
    /// # Examples
    ///
    /// ```
    /// use num_modular::PreMulInv2by1;
    ///
    /// assert_eq!(PreMulInv2by1::<u8>::new(10).shift(), 4); // 00001010
    /// ```
    pub const fn shift(&self) -> u32
        ensures { result ≡ count_leading_zeros T.width (⟦<PreMulInv2by1<T> as Reducer<T>>⟧.modulus self.now) }
    {
        self.shift
    }

    /// The shifted modulus: its top bit is set.
    ///
    /// # Examples
    ///
    /// ```
    /// use num_modular::PreMulInv2by1;
    ///
    /// assert_eq!(PreMulInv2by1::<u8>::new(10).divisor(), 160); // 10 * 2^4
    /// ```
    pub const fn divisor(&self) -> T
        ensures scaled { let m = ⟦<PreMulInv2by1<T> as Reducer<T>>⟧.modulus self.now in
            T.number result ≡ m * scale T.width m }
        ensures top { T.base ≤ 2 * T.number result }
    {
        self.divider.divisor()
    }

    // The form of a sum where the modulus leaves a bit free: the divisor and all forms are even then, and their halves
    // are added.
    fn sum_by_halves(&self, a: T, b: T) -> T
        requires left { let m = ⟦<PreMulInv2by1<T> as Reducer<T>>⟧.modulus self.now in
            IsForm (scaled_form T.width) (scaled_value T.width) m (T.number a) }
        requires right { let m = ⟦<PreMulInv2by1<T> as Reducer<T>>⟧.modulus self.now in
            IsForm (scaled_form T.width) (scaled_value T.width) m (T.number b) }
        requires room { 2 * ⟦<PreMulInv2by1<T> as Reducer<T>>⟧.modulus self.now < 2 ^ T.width }
        ensures { let m = ⟦<PreMulInv2by1<T> as Reducer<T>>⟧.modulus self.now in
            Represents (scaled_form T.width) m (T.number result)
            ((scaled_value T.width m (T.number a) + scaled_value T.width m (T.number b)) % m) }
    {
        let half = sum_by_sign(a.half(), b.half(), self.divisor().half());
        half.plus(half)
    }

    // That of a difference.
    fn difference_by_halves(&self, a: T, b: T) -> T
        requires left { let m = ⟦<PreMulInv2by1<T> as Reducer<T>>⟧.modulus self.now in
            IsForm (scaled_form T.width) (scaled_value T.width) m (T.number a) }
        requires right { let m = ⟦<PreMulInv2by1<T> as Reducer<T>>⟧.modulus self.now in
            IsForm (scaled_form T.width) (scaled_value T.width) m (T.number b) }
        requires room { 2 * ⟦<PreMulInv2by1<T> as Reducer<T>>⟧.modulus self.now < 2 ^ T.width }
        ensures { let m = ⟦<PreMulInv2by1<T> as Reducer<T>>⟧.modulus self.now in
            Represents (scaled_form T.width) m (T.number result)
            (residue m (pos (scaled_value T.width m (T.number a)) -ℤ pos (scaled_value T.width m (T.number b)))) }
    {
        let half = difference_by_sign(a.half(), b.half(), self.divisor().half());
        half.plus(half)
    }
}

// Whether one of the lowest bits of a word is set, where `check` tests them first. At these widths compilers then branch
// on the two tests of `check`, which takes less time than computing both. Condition: `count` is below the width.
fn is_refused_first<T: PathWord>(f: T, count: u32) -> bool
    requires { count < T.width }
    ensures { IsTrue result → T.number f % 2 ^ count ≡ 0 → ⊥ }
{
    (T::bits() == 16 || T::bits() == 64) && !f.low_bits(count).is_zero_word()
}

impl<T: PlainWord> Reducer<T> for PreMulInv2by1<T> {
    ghost admits = { λ m. 1 ≤ m };

    ghost form = { scaled_form T.width };

    ghost value = { scaled_value T.width };

    ghost modulus = { λ r. T.number r.divider.divisor / 2 ^ r.shift };

    ghost admitted = { λ r. r.scaling.positive };

    ghost canonical = { λ r. scaled_canonical r.scaling };

    // rust: #[track_caller]
    fn new(m: &T) -> Self {
        // rust instead: Self::of(*m)
        Self::new(*m)
    }

    fn transform(&self, n: T) -> T {
        if self.shift == 0 {
            self.divider.div_rem_1by1(n).1
        } else {
            self.divider.div_rem_2by1(n.shift_left_wide(self.shift)).1
        }
    }

    fn check(&self, f: &T) -> bool {
        if is_refused_first(*f, self.shift) {
            return false;
        }
        if f.is_below(self.divisor()) {
            f.low_bits(self.shift).is_zero_word()
        } else {
            false
        }
    }

    fn modulus(&self) -> T {
        self.divisor().shift_right(self.shift)
    }

    #[tactic(auto, using(modular_reduced::proofs::FormLemmas::form_as))]
    fn residue(&self, f: T) -> T {
        f.shift_right(self.shift)
    }

    fn is_zero(&self, f: &T) -> bool {
        f.is_zero_word()
    }

    fn add(&self, a: &T, b: &T) -> T {
        add_below(*a, *b, self.divisor())
    }

    fn dbl(&self, f: T) -> T {
        dbl_below_stored(f, self.divisor())
    }

    #[tactic(auto, using(crate::proofs::ScaledLemmas::form_below))]
    fn sub(&self, a: &T, b: &T) -> T {
        sub_below(*a, *b, self.divisor())
    }

    fn neg(&self, f: T) -> T {
        neg_below(f, self.divisor())
    }

    // The divisor uses all bits. Where the modulus leaves one free, all forms are even, and their halves are added.
    // rust: #[track_caller]
    fn add_entries(&self, xs: &mut [T], ys: &[T]) {
        // rust: crate::additions::expect_entries(self, xs, ys);
        if takes_signs(self.modulus()) {
            'halves: for i in 0..xs.len() {
                xs[i] = self.sum_by_halves(xs[i], ys[i]);
            }
        } else {
            add_each(xs, ys, self.divisor());
        }
    }

    // rust: #[track_caller]
    fn sub_entries(&self, xs: &mut [T], ys: &[T]) {
        // rust: crate::additions::expect_entries(self, xs, ys);
        if takes_signs(self.modulus()) {
            'halves: for i in 0..xs.len() {
                xs[i] = self.difference_by_halves(xs[i], ys[i]);
            }
        } else {
            sub_each(xs, ys, self.divisor());
        }
    }

    fn mul(&self, a: &T, b: &T) -> T {
        let value = self.residue(*a);
        self.divider.div_rem_2by1(value.product(*b)).1
    }

    // Each product takes the factor's quotient by the divisor, which is computed once. Out of line, because it is slower
    // inside a caller's loop over short lists.
    #[inline(never)]
    #[tactic(auto, using(crate::proofs::ScaledLemmas::value_below))]
    fn scale_entries(&self, xs: &mut [T], factor: &T) {
        let divisor = self.divider.divisor();
        let value = self.residue(*factor);
        let (quotient, _) = self.divider.div_rem_2by1(T::merge(T::zero(), value));
        multiply_by_factor(xs, value, quotient, divisor);
    }

    // Products are added as whole numbers and reduced once a block.
    // rust: #[track_caller]
    #[tactic(auto, using(modular_reduced::proofs::ListProducts::products_none))]
    fn add_products(&self, sum: T, xs: &[T], ys: &[T]) -> T {
        // rust: assert!(ys.len() == xs.len(), "the lists must have the same length: {} and {}", xs.len(), ys.len());
        // rust: debug_assert!(self.check(&sum) && xs.iter().chain(ys).all(|x| self.check(x)),
        // rust:     "`sum` and all entries must be checked forms");
        let mut total = sum;
        let mut from = 0;
        'each_block: while from < xs.len() {
            let to = from + block::<T>().min(xs.len() - from);
            let reduced = reduced_products(&self.divider, self.shift, xs, ys, from, to);
            total = add_below(total, reduced, self.divisor());
            from = to;
        }
        total
    }

    fn inv(&self, f: T) -> Option<T> {
        let inverse = fast_inverse(self.residue(f), self.modulus())?;
        Some(inverse.shift_left(self.shift))
    }

    fn sqr(&self, f: T) -> T {
        self.mul(&f, &f)
    }
    // rust: crate::additions::reducer_members!(T);
}
