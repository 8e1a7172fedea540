//! The moduli of plans, with their reciprocals, and products by factors with a precomputed quotient: `PlannedModulus` is at
//! most a quarter of the base, `RoomyModulus` at most a sixteenth.

ghost use Rattle.std.specs.Prelude.{◌≡◌, ℕ, ◌+◌, ◌-◌, ◌*◌, ◌/◌, ◌%◌, ◌^◌, ◌<◌, ◌≤◌, ◌↔◌, IsTrue, ⊤, MatchOption};
ghost use Rattle.modular_word.specs.Congruence.{Congruent};
ghost use Rattle.modular_word.specs.Reciprocals.{IsReciprocal};
ghost use Rattle.modular_plan_passes.specs.Factors.{IsFactorOf};

use crate::factor::Factor;
use modular_prim::below::reduced_once;
use modular_prim::plain_word::PlainWord;
use modular_prim::reciprocal::invert_word;
use modular_reduced::lanes::reduced_by_sign;
use modular_word::path_word::PathWord;
use modular_word::paths::div_2by1;
// rattle: line
use modular_word::ring_word::RingWord;
// rattle: line
use std::alloc::AllocError;

/// The residue of a word below 2m.
///
/// # Preconditions
///
/// - the word is below 2m, which is at most the base
pub fn reduced<T: PlainWord>(x: T, m: T) -> T
    requires below { T.number x < 2 * T.number m }
    requires room { 2 * T.number m ≤ T.base }
    ensures value { T.number result ≡ T.number x % T.number m }
    ensures below { T.number result < T.number m }
{
    // The vector instructions that every x86-64 processor has find the smaller of two words of 32 bits in more steps.
    if T::bits() == 32 {
        reduced_by_sign(x, m)
    } else {
        reduced_once(x, m)
    }
}

// The base divided by 2^k.
fn part_of_base<T: PlainWord>(k: u32) -> T
    requires some { 1 ≤ k }
    requires few { k ≤ 8 }
    ensures { T.number result ≡ 2 ^ (T.width - k) }
{
    T::one().shift_left(T::bits() - k)
}

/// A modulus m with its reciprocal.
///
/// It is at least 1 and at most a quarter of the base, so that words below 4m hold sums that aren't reduced.
///
/// # Examples
///
/// ```
/// use num_modular::plans::{fill_table, ntt_planned, Factor, PlannedModulus};
///
/// let modulus = PlannedModulus::<u64>::new(97);
/// let mut table = [Factor::<u64>::ZERO; 2];
/// fill_table(&modulus, 22, &mut table); // 22 has the order 4
/// let mut entries = [1, 2, 3, 4];
/// ntt_planned(&modulus, &mut entries, &table);
/// assert_eq!(entries[0], 1 + 2 + 3 + 4);
/// ```
// rust instead: #[derive(PartialEq, Eq, Hash)]
#[derive(Debug, PartialEq, Eq)]
// rust: #[must_use]
// rust instead: pub struct PlannedModulus<T> {
pub struct PlannedModulus<T: PathWord> {
    /// The modulus.
    // rust instead: pub(crate) modulus: T,
    pub modulus: T,
    shift: u32,
    reciprocal: T,
    pub ghost some: { 1 ≤ T.number modulus },
    pub ghost room: { 4 * T.number modulus ≤ T.base },
    pub ghost shift_fits: { shift < T.width },
    pub ghost reciprocal_is: { IsReciprocal T.base (T.number modulus * 2 ^ shift) (T.number reciprocal) },
}

impl<T: PathWord> Clone for PlannedModulus<T> {
    ghost is_clone = { λ x y. y ≡ x };

    ghost is_infallible = { λ _. ⊤ };

    // rust instead: fn clone(&self) -> Self {
    fn clone(&self) -> Result<Self, AllocError> {
        // rust instead: *self
        Ok(*self)
    }
}

impl<T: PathWord> Copy for PlannedModulus<T> {}

impl<T: PlainWord> PlannedModulus<T> {
    /// Whether `new` accepts m: it is at least 1, and 4m is at most the base.
    ///
    /// A `Plan` also needs an odd m.
    ///
    /// # Examples
    ///
    /// ```
    /// use num_modular::plans::PlannedModulus;
    ///
    /// assert!(PlannedModulus::<u8>::admits(64)); // 256 / 4
    /// assert!(!PlannedModulus::<u8>::admits(65));
    /// ```
    pub fn admits(m: T) -> bool
        ensures { IsTrue result ↔ ((1 ≤ T.number m) × (4 * T.number m ≤ T.base)) }
    {
        let greatest = part_of_base::<T>(2);
        if m.is_zero_word() {
            false
        } else {
            !greatest.is_below(m)
        }
    }

    /// The modulus with its reciprocal.
    ///
    /// # Conditions
    ///
    /// - the modulus is at least 1 and at most 2^w/4, for words of w bits (`admits` tells)
    ///
    /// # Examples
    ///
    /// ```
    /// use num_modular::plans::PlannedModulus;
    ///
    /// let modulus = PlannedModulus::<u64>::new(97);
    /// assert_eq!(modulus.multiply(10, 20), 6); // 200 - 2 * 97
    /// ```
    // rust: #[track_caller]
    pub fn new(m: T) -> Self
        requires some { 1 ≤ T.number m }
        requires room { 4 * T.number m ≤ T.base }
        ensures { T.number result.modulus ≡ T.number m }
    {
        prove!(Self::admits(m));
        // rust: assert!(Self::admits(m), "the modulus must be at least 1 and at most 2^w/4, for words of w bits");
        let shift = m.leading_zeros();
        let reciprocal = invert_word(m.shift_left(shift));
        PlannedModulus {
            modulus: m,
            shift,
            reciprocal,
        }
    }

    /// The factor w: its quotient is computed by the reciprocal.
    ///
    /// # Conditions
    ///
    /// - (debug) w is below m
    ///
    /// # Examples
    ///
    /// ```
    /// use num_modular::plans::PlannedModulus;
    ///
    /// let modulus = PlannedModulus::<u64>::new(97);
    /// let ten = modulus.factor(10);
    /// assert_eq!(modulus.product(1000, &ten), 9); // 10000 = 103 * 97 + 9
    /// ```
    // rust: #[cfg_attr(debug_assertions, track_caller)]
    #[tactic(auto, using(crate::proofs::FactorProducts::divisor_fits, std::proofs::lemmas::Nat::pow_pos))]
    pub fn factor(&self, w: T) -> Factor<T>
        requires { T.number w < T.number self.now.modulus }
        ensures value { T.number result.value ≡ T.number w }
        ensures factor { IsFactorOf T.base T.number (T.number self.now.modulus) result }
    {
        prove!(w.is_below(self.modulus));
        // rust: debug_assert!(w.is_below(self.modulus), "w must be below m");
        let divisor = self.modulus.shift_left(self.shift);
        let scaled = w.shift_left(self.shift);
        let (quotient, _) = div_2by1(divisor, self.reciprocal, T::merge(T::zero(), scaled));
        Factor { value: w, quotient }
    }

    /// The residue of w·B: a factor times the base, computed from its quotient, below m.
    ///
    /// # Conditions
    ///
    /// - (debug) the factor was made by this modulus: its value is below m, and its quotient is value·B/m, rounded
    ///   down
    ///
    /// # Examples
    ///
    /// ```
    /// use num_modular::plans::PlannedModulus;
    ///
    /// let modulus = PlannedModulus::<u8>::new(13);
    /// assert_eq!(modulus.times_base(&modulus.factor(5)), 6); // 5 * 256 = 98 * 13 + 6
    /// ```
    // rust: #[cfg_attr(debug_assertions, track_caller)]
    #[tactic(auto, using(crate::proofs::FactorProducts::left_by_quotient))]
    pub fn times_base(&self, w: &Factor<T>) -> T
        requires { IsFactorOf T.base T.number (T.number self.now.modulus) w.now }
        ensures { T.number result ≡ (T.number w.now.value * T.base) % T.number self.now.modulus }
    {
        // rust: debug_assert!(crate::modular_plan_transforms::filled::are_factors(self.modulus,
        // rust:     core::slice::from_ref(w)),
        // rust:     "the factor was made by this modulus: its value must be below m, and its quotient must be value·B/m, rounded down");
        T::zero().wrapping_sub(w.quotient.wrapping_mul(self.modulus))
    }

    // `times`, by the low words of products.
    fn times_by_words(&self, x: T, w: &Factor<T>) -> T
        requires { IsFactorOf T.base T.number (T.number self.now.modulus) w.now }
        ensures below { T.number result < 2 * T.number self.now.modulus }
        ensures congruent { Congruent (T.number self.now.modulus) (T.number result)
            (T.number x * T.number w.now.value) }
    {
        let (_, whole) = T::split(x.product(w.quotient));
        let product = x.wrapping_mul(w.value);
        product.wrapping_sub(whole.wrapping_mul(self.modulus))
    }

    // `times`, by a sum of double words whose low word it is, with B - m in place of -m, B being the base. The vector
    // instructions that every x86-64 processor has multiply words of 32 bits into double words alone.
    fn times_by_double_words(&self, x: T, w: &Factor<T>) -> T
        requires { IsFactorOf T.base T.number (T.number self.now.modulus) w.now }
        ensures below { T.number result < 2 * T.number self.now.modulus }
        ensures congruent { Congruent (T.number self.now.modulus) (T.number result)
            (T.number x * T.number w.now.value) }
    {
        let (_, whole) = T::split(x.product(w.quotient));
        let minus = T::zero().wrapping_sub(self.modulus);
        let (low, _) = T::split(T::double_plus(x.product(w.value), whole.product(minus)));
        low
    }

    /// A number below 2m, congruent to x·w: the product of any word x with a factor.
    ///
    /// It takes the high word of one product and the low words of two.
    ///
    /// Source: Harvey, "Faster arithmetic for number-theoretic transforms", section 3.
    ///
    /// # Conditions
    ///
    /// - (debug) the factor was made by this modulus: its value is below m, and its quotient is value·B/m, rounded
    ///   down
    ///
    /// # Examples
    ///
    /// ```
    /// use num_modular::plans::PlannedModulus;
    ///
    /// let modulus = PlannedModulus::<u8>::new(13);
    /// let product = modulus.times(200, &modulus.factor(5));
    /// assert!(product == 12 || product == 12 + 13); // 1000 = 76 * 13 + 12
    /// ```
    // rust: #[cfg_attr(debug_assertions, track_caller)]
    pub fn times(&self, x: T, w: &Factor<T>) -> T
        requires { IsFactorOf T.base T.number (T.number self.now.modulus) w.now }
        ensures below { T.number result < 2 * T.number self.now.modulus }
        ensures congruent { Congruent (T.number self.now.modulus) (T.number result)
            (T.number x * T.number w.now.value) }
    {
        // rust: debug_assert!(crate::modular_plan_transforms::filled::are_factors(self.modulus,
        // rust:     core::slice::from_ref(w)),
        // rust:     "the factor was made by this modulus: its value must be below m, and its quotient must be value·B/m, rounded down");
        if T::bits() == 32 {
            self.times_by_double_words(x, w)
        } else {
            self.times_by_words(x, w)
        }
    }

    /// The residue of x·w: the product of any word x with a factor, below m.
    ///
    /// # Conditions
    ///
    /// - (debug) the factor was made by this modulus: its value is below m, and its quotient is value·B/m, rounded
    ///   down
    ///
    /// # Examples
    ///
    /// ```
    /// use num_modular::plans::PlannedModulus;
    ///
    /// let modulus = PlannedModulus::<u8>::new(13);
    /// assert_eq!(modulus.product(200, &modulus.factor(5)), 12);
    /// ```
    // rust: #[cfg_attr(debug_assertions, track_caller)]
    pub fn product(&self, x: T, w: &Factor<T>) -> T
        requires { IsFactorOf T.base T.number (T.number self.now.modulus) w.now }
        ensures { T.number result ≡ (T.number x * T.number w.now.value) % T.number self.now.modulus }
    {
        // rust: debug_assert!(crate::modular_plan_transforms::filled::are_factors(self.modulus,
        // rust:     core::slice::from_ref(w)),
        // rust:     "the factor was made by this modulus: its value must be below m, and its quotient must be value·B/m, rounded down");
        reduced(self.times(x, w), self.modulus)
    }

    /// The residue of x·y: the product of a word x with any word y, below m, computed by the reciprocal.
    ///
    /// # Conditions
    ///
    /// - (debug) x is below m
    ///
    /// # Examples
    ///
    /// ```
    /// use num_modular::plans::PlannedModulus;
    ///
    /// let modulus = PlannedModulus::<u8>::new(13);
    /// assert_eq!(modulus.multiply(5, 200), 12); // 1000 = 76 * 13 + 12
    /// ```
    // rust: #[cfg_attr(debug_assertions, track_caller)]
    pub fn multiply(&self, x: T, y: T) -> T
        requires { T.number x < T.number self.now.modulus }
        ensures { T.number result ≡ (T.number x * T.number y) % T.number self.now.modulus }
    {
        // rust: debug_assert!(x.is_below(self.modulus), "x must be below m");
        let divisor = self.modulus.shift_left(self.shift);
        let scaled = x.shift_left(self.shift);
        let (_, rest) = div_2by1(divisor, self.reciprocal, scaled.product(y));
        rest.shift_right(self.shift)
    }

    /// The residue of x·v + u·y: a number below m.
    ///
    /// It divides once, by the reciprocal, modulo 2m: the high word of the sum may be at least m, but it is below
    /// 2m.
    ///
    /// # Conditions
    ///
    /// - (debug) x + u is below 2m
    ///
    /// # Examples
    ///
    /// ```
    /// use num_modular::plans::PlannedModulus;
    ///
    /// let modulus = PlannedModulus::<u8>::new(13);
    /// assert_eq!(modulus.product_sum(5, 200, 7, 100), 10); // 5 * 200 + 7 * 100 = 130 * 13 + 10
    /// ```
    // rust: #[cfg_attr(debug_assertions, track_caller)]
    #[tactic(auto, using(crate::proofs::FactorProducts::divisor_fits))]
    pub fn product_sum(&self, x: T, v: T, u: T, y: T) -> T
        requires { T.number x + T.number u < 2 * T.number self.now.modulus }
        ensures value { T.number result ≡ (T.number x * T.number v + T.number u * T.number y)
            % T.number self.now.modulus }
        ensures below { T.number result < T.number self.now.modulus }
    {
        // rust: debug_assert!(x.is_below(self.twice()) && u.is_below(self.twice().minus(x)), "x + u must be below 2m");
        let divisor = self.modulus.shift_left(self.shift);
        let by = self.shift - 1;
        let sum = T::double_plus(x.shift_left(by).product(v), u.shift_left(by).product(y));
        let (_, rest) = div_2by1(divisor, self.reciprocal, sum);
        reduced_once(rest.shift_right(by), self.modulus)
    }

    /// The word 2m.
    ///
    /// # Examples
    ///
    /// ```
    /// use num_modular::plans::PlannedModulus;
    ///
    /// assert_eq!(PlannedModulus::<u8>::new(13).twice(), 26);
    /// ```
    pub fn twice(&self) -> T
        ensures { T.number result ≡ 2 * T.number self.now.modulus }
    {
        self.modulus.plus(self.modulus)
    }

    /// Whether a word is below 4m.
    ///
    /// # Examples
    ///
    /// ```
    /// use num_modular::plans::PlannedModulus;
    ///
    /// let modulus = PlannedModulus::<u8>::new(13);
    /// assert!(modulus.has_room(51));
    /// assert!(!modulus.has_room(52)); // 4 * 13
    /// ```
    pub fn has_room(&self, x: T) -> bool
        ensures { IsTrue result ↔ (T.number x < 4 * T.number self.now.modulus) }
    {
        x.half().is_below(self.twice())
    }

    /// The residue of a word: a number below m.
    ///
    /// # Conditions
    ///
    /// - (debug) the word is below 4m (`has_room` tells)
    ///
    /// # Examples
    ///
    /// ```
    /// use num_modular::plans::PlannedModulus;
    ///
    /// assert_eq!(PlannedModulus::<u8>::new(13).residue(51), 12);
    /// ```
    // rust: #[cfg_attr(debug_assertions, track_caller)]
    #[tactic(auto, using(modular_word::proofs::Congruence::mod_of_multiple_left))]
    pub fn residue(&self, x: T) -> T
        requires { T.number x < 4 * T.number self.now.modulus }
        ensures { T.number result ≡ T.number x % T.number self.now.modulus }
    {
        // rust: debug_assert!(self.has_room(x), "the word must be below 4m");
        reduced(reduced(x, self.twice()), self.modulus)
    }
}

/// The modulus m of a plan that is at most a sixteenth of the base, so that words below 16m hold sums that aren't
/// reduced.
#[derive(Debug)]
// rust: #[must_use]
// rust instead: pub struct RoomyModulus<T> {
pub struct RoomyModulus<T: PathWord> {
    /// The modulus.
    // rust instead: pub(crate) planned: PlannedModulus<T>,
    pub planned: PlannedModulus<T>,
    /// The factor 1: the product with it reduces any word.
    // rust instead: pub(crate) unit: Factor<T>,
    pub unit: Factor<T>,
    pub ghost room: { 16 * T.number planned.modulus ≤ T.base },
    pub ghost is_factor: { IsFactorOf T.base T.number (T.number planned.modulus) unit },
    pub ghost is_one: { T.number unit.value ≡ 1 % T.number planned.modulus },
}

impl<T: PathWord> Clone for RoomyModulus<T> {
    ghost is_clone = { λ x y. y ≡ x };

    ghost is_infallible = { λ _. ⊤ };

    // rust instead: fn clone(&self) -> Self {
    fn clone(&self) -> Result<Self, AllocError> {
        // rust instead: *self
        Ok(*self)
    }
}

impl<T: PathWord> Copy for RoomyModulus<T> {}

impl<T: PlainWord> RoomyModulus<T> {
    /// The modulus of a plan; `None` exactly where it is above a sixteenth of the base.
    pub fn new(planned: &PlannedModulus<T>) -> Option<Self>
        ensures { MatchOption result (T.base < 16 * T.number planned.now.modulus) (λ roomy. roomy.planned ≡ planned.now) }
    {
        let greatest = part_of_base::<T>(4);
        if greatest.is_below(planned.modulus) {
            None
        } else {
            let unit = planned.factor(planned.residue(T::one()));
            Some(RoomyModulus {
                planned: *planned,
                unit,
            })
        }
    }

    /// The residue of any word, below m, by its product with 1.
    pub fn residue(&self, x: T) -> T
        ensures { T.number result ≡ T.number x % T.number self.now.planned.modulus }
    {
        self.planned.product(x, &self.unit)
    }

    /// The word 4m.
    pub fn fourfold(&self) -> T
        ensures { T.number result ≡ 4 * T.number self.now.planned.modulus }
    {
        let twice = self.planned.twice();
        twice.plus(twice)
    }

    /// The word 8m.
    pub fn eightfold(&self) -> T
        ensures { T.number result ≡ 8 * T.number self.now.planned.modulus }
    {
        let fourfold = self.fourfold();
        fourfold.plus(fourfold)
    }
}
