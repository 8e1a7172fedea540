//! The transforms and products of a plan.

ghost use Rattle.std.specs.Prelude.{◌≡◌, ℕ, ◌-◌, ◌*◌, ◌/◌, ◌%◌, ◌^◌, ◌<◌, All, length};
ghost use Rattle.std.specs.Int.{IsPowerOfTwo};
ghost use Rattle.modular_word.specs.Inverses.{IsInverse};
ghost use Rattle.modular_transform.specs.Transforms.{transform, cyclic_product};
ghost use Rattle.modular_plan_passes.specs.Factors.{IsFactorOf};
ghost use Rattle.modular_plan_passes.specs.Plans.{numbers, constant, AreRemainders};
ghost use Rattle.modular_plan_transforms.specs.PlanConditions.{AreBlocks};
ghost use Rattle.modular_plan_transforms.specs.ProductConditions.{AreSmallBlocks};
ghost use Rattle.modular_plan_transforms.specs.Products.{product_modulo};

use super::Plan;
use crate::convolution::convolve_scaled;
use crate::join::join_scaled;
use crate::products::multiply_each;
use crate::split::{ntt_planned, split};
use crate::tables::inverse_of_power;
use modular_plan_passes::factor::{Factor, PlanEntry};
use modular_prim::plain_word::PlainWord;
use modular_transform::order::reverse_places;
// rattle: line
use modular_word::path_word::PathWord;
// rattle: line
use modular_word::ring_word::RingWord;

impl<'a, T: PlainWord, F: PlanEntry<T>> Plan<'a, T, F> {
    // The factor of the inverse of a number of blocks, a power of two.
    fn part(&self, count: usize) -> Factor<T>
        requires { IsPowerOfTwo count }
        ensures factor { IsFactorOf T.base T.number (T.number self.now.modulus.modulus) result }
        ensures inverse { IsInverse (T.number self.now.modulus.modulus) count (T.number result.value) }
    {
        let part = inverse_of_power(&self.modulus, count.trailing_zeros());
        self.modulus.factor(part)
    }

    /// Replaces xs by its transform, in natural order: as by `ntt`, entry j becomes the sum of x_i·g^(i·j) modulo m,
    /// below m.
    ///
    /// Source: `split`, and a reversal of the bits of the indexes.
    ///
    /// # Conditions
    ///
    /// - the list has n entries (`fits` tells)
    /// - (debug) the entries are below 4m
    ///
    /// # Examples
    ///
    /// ```
    /// use num_modular::plans::{Factor, Plan, PlannedModulus};
    ///
    /// let mut table = [Factor::<u64>::ZERO; 2];
    /// let plan = Plan::new(&PlannedModulus::<u64>::new(17), 4, &mut table).unwrap();
    /// let mut entries = [1, 2, 3, 4];
    /// plan.transform(&mut entries);
    /// assert_eq!(entries, [10, 7, 15, 6]); // 1 + 2X + 3X^2 + 4X^3 at 1, 4, -1 and -4
    /// ```
    // rust: #[track_caller]
    pub fn transform(&self, xs: &mut [T])
        requires whole { length xs.old ≡ 2 ^ self.now.bits }
        requires entries { All (λ x. T.number x < 4 * T.number self.now.modulus.modulus) xs.old }
        ensures below { All (λ x. T.number x < T.number self.now.modulus.modulus) xs.new }
        ensures values { (j : ℕ) → j < length xs.old → numbers T.number xs.new j
            ≡ transform (T.number self.now.modulus.modulus) (T.number self.now.root) (length xs.old)
            (numbers T.number xs.old) j }
    {
        // rust: assert!(self.fits(xs.len()), "the list must have n entries: {}, n = {}", xs.len(), self.length());
        // rust: debug_assert!(xs.iter().all(|x| self.modulus.has_room(*x)), "the entries must be below 4m");
        ntt_planned(&self.modulus, xs, self.table);
    }

    /// Undoes `transform`: the n entries become the residues whose transform they are, below m.
    ///
    /// Source: a reversal of the bits of the indexes, and `join`, times the inverse of n.
    ///
    /// # Conditions
    ///
    /// - the list has n entries (`fits` tells)
    /// - (debug) the entries are below 4m
    ///
    /// # Examples
    ///
    /// ```
    /// use num_modular::plans::{Factor, Plan, PlannedModulus};
    ///
    /// let mut table = [Factor::<u64>::ZERO; 2];
    /// let plan = Plan::new(&PlannedModulus::<u64>::new(17), 4, &mut table).unwrap();
    /// let mut entries = [10, 7, 15, 6];
    /// plan.inverse(&mut entries);
    /// assert_eq!(entries, [1, 2, 3, 4]);
    /// ```
    // rust: #[track_caller]
    #[tactic(auto, using(modular_transform::proofs::PowersOfTwo::exponent_below))]
    pub fn inverse(&self, xs: &mut [T])
        requires whole { length xs.old ≡ 2 ^ self.now.bits }
        requires entries { All (λ x. T.number x < 4 * T.number self.now.modulus.modulus) xs.old }
        ensures below { All (λ x. T.number x < T.number self.now.modulus.modulus) xs.new }
        ensures values { let m = T.number self.now.modulus.modulus in (j : ℕ) → j < length xs.old →
            transform m (T.number self.now.root) (length xs.old) (numbers T.number xs.new) j
            ≡ numbers T.number xs.old j % m }
        ensures undone { let m = T.number self.now.modulus.modulus in (x : ℕ → ℕ) →
            ((j : ℕ) → j < length xs.old →
            transform m (T.number self.now.root) (length xs.old) x j ≡ numbers T.number xs.old j % m) →
            (i : ℕ) → i < length xs.old → numbers T.number xs.new i ≡ x i % m }
    {
        // rust: assert!(self.fits(xs.len()), "the list must have n entries: {}, n = {}", xs.len(), self.length());
        // rust: debug_assert!(xs.iter().all(|x| self.modulus.has_room(*x)), "the entries must be below 4m");
        let part = self.part(xs.len());
        reverse_places(xs, self.bits);
        join_scaled(&self.modulus, xs, self.table, 0, 1, &part);
    }

    /// Splits block b into its remainders modulo X^last - c: entry i of block j becomes the sum over k of
    /// x_(k·last + i)·c^k modulo m, the coefficient of the remainder modulo X^last - c, where c is the power of g by
    /// the reversed bits of b·count + j, count being the number of blocks.
    ///
    // rust instead: /// So b = 0 and last = 1 give the transform in bit-reversed order, and b = 1 starts from a
    /// So b = 0 and last = 1 give the transform in bit-reversed order ([`split_laws`]), and b = 1 starts from a
    /// polynomial modulo X^h + 1, h being the length of the list.
    ///
    /// # Conditions
    ///
    /// - `splits` accepts the sizes: the length is `last` times a power of two, and (b + 1)·count is at most n, or
    ///   count is 1
    /// - (debug) the entries are below 4m
    ///
    /// # Examples
    ///
    /// ```
    /// use num_modular::plans::{Factor, Plan, PlannedModulus};
    ///
    /// let mut table = [Factor::<u64>::ZERO; 2];
    /// let plan = Plan::new(&PlannedModulus::<u64>::new(17), 4, &mut table).unwrap();
    /// let mut entries = [1, 2, 3, 4];
    /// plan.split(&mut entries, 0, 2);
    /// assert_eq!(entries, [4, 6, 15, 15]); // 4 + 6X modulo X^2 - 1, and -2 - 2X modulo X^2 + 1
    /// ```
    // rust: #[track_caller]
    #[tactic(auto, using(crate::proofs::PlanFields::twiddles_of))]
    pub fn split(&self, xs: &mut [T], b: usize, last: usize)
        requires blocks { AreBlocks (length xs.old) (length self.now.table.now) b last }
        requires entries { All (λ x. T.number x < 4 * T.number self.now.modulus.modulus) xs.old }
        ensures below { All (λ x. T.number x < T.number self.now.modulus.modulus) xs.new }
        ensures remainders { AreRemainders (T.number self.now.modulus.modulus) (T.number self.now.root) self.now.bits
            b (length xs.old / last) last (numbers T.number xs.old) (numbers T.number xs.new) }
    {
        // rust: assert!(self.splits(xs.len(), b, last),
        // rust:     "the length must be `last` times a power of two, and (b + 1)·count must be at most n, or count must be 1");
        // rust: debug_assert!(xs.iter().all(|x| self.modulus.has_room(*x)), "the entries must be below 4m");
        split(&self.modulus, xs, self.table, b, last);
    }

    /// Undoes `split`: where the entries are the remainders of a polynomial, they become its coefficients, residues
    /// below m.
    ///
    /// # Conditions
    ///
    /// - `splits` accepts the sizes: the length is `last` times a power of two, and (b + 1)·count is at most n, or
    ///   count is 1
    /// - (debug) the entries are below 4m
    ///
    /// # Examples
    ///
    /// ```
    /// use num_modular::plans::{Factor, Plan, PlannedModulus};
    ///
    /// let mut table = [Factor::<u64>::ZERO; 2];
    /// let plan = Plan::new(&PlannedModulus::<u64>::new(17), 4, &mut table).unwrap();
    /// let mut entries = [4, 6, 15, 15];
    /// plan.join(&mut entries, 0, 2);
    /// assert_eq!(entries, [1, 2, 3, 4]);
    /// ```
    // rust: #[track_caller]
    pub fn join(&self, xs: &mut [T], b: usize, last: usize)
        requires blocks { AreBlocks (length xs.old) (length self.now.table.now) b last }
        requires entries { All (λ x. T.number x < 4 * T.number self.now.modulus.modulus) xs.old }
        ensures below { All (λ x. T.number x < T.number self.now.modulus.modulus) xs.new }
        ensures joined { let m = T.number self.now.modulus.modulus in (x : ℕ → ℕ) →
            AreRemainders m (T.number self.now.root) self.now.bits b (length xs.old / last) last x
            (λ i. numbers T.number xs.old i % m) →
            (i : ℕ) → i < length xs.old → numbers T.number xs.new i ≡ x i % m }
    {
        // rust: assert!(self.splits(xs.len(), b, last),
        // rust:     "the length must be `last` times a power of two, and (b + 1)·count must be at most n, or count must be 1");
        // rust: debug_assert!(xs.iter().all(|x| self.modulus.has_room(*x)), "the entries must be below 4m");
        let part = self.part(xs.len() / last);
        join_scaled(&self.modulus, xs, self.table, b, last, &part);
    }

    /// Multiplies xs by ys, entry by entry: modulo m, for lists that `split` made with `last` = 1.
    ///
    /// For blocks of two entries there is the function `multiply`.
    ///
    /// # Conditions
    ///
    /// - the lists have the same length
    /// - (debug) the entries of xs are below m
    ///
    /// # Examples
    ///
    /// ```
    /// use num_modular::plans::{Factor, Plan, PlannedModulus};
    ///
    /// let mut table = [Factor::<u64>::ZERO; 2];
    /// let plan = Plan::new(&PlannedModulus::<u64>::new(17), 4, &mut table).unwrap();
    /// let mut entries = [2, 3];
    /// plan.multiply(&mut entries, &[5, 7]);
    /// assert_eq!(entries, [10, 4]); // 21 - 17
    /// ```
    // rust: #[track_caller]
    pub fn multiply(&self, xs: &mut [T], ys: &[T])
        requires equal { length ys.now ≡ length xs.old }
        requires entries { All (λ x. T.number x < T.number self.now.modulus.modulus) xs.old }
        ensures below { All (λ x. T.number x < T.number self.now.modulus.modulus) xs.new }
        ensures products { (i : ℕ) → i < length xs.old → numbers T.number xs.new i
            ≡ (numbers T.number xs.old i * numbers T.number ys.now i) % T.number self.now.modulus.modulus }
    {
        // rust: assert!(ys.len() == xs.len(), "the lists must have the same length: {} and {}", xs.len(), ys.len());
        // rust: debug_assert!(xs.iter().all(|x| x.is_below(self.modulus.modulus)), "the entries of xs must be below m");
        multiply_each(&self.modulus, xs, ys);
    }

    /// Replaces xs by xs·ys modulo X^h - c: ys becomes its remainders, as `split` computes them, h is the length of the
    /// lists, and c is the power of g by the reversed bits of b.
    ///
    /// Source: Bernstein, "Multidigit multiplication for mathematicians", section 2: split both lists, multiply the
    /// remainders, join the products.
    ///
    /// # Conditions
    ///
    /// - the lists have the same length h
    /// - `last` is 1 or 2, h is `last` times a power of two, and (b + 1)·h/last is at most n (`convolves` tells)
    /// - (debug) the entries are below 4m
    ///
    /// # Examples
    ///
    /// ```
    /// use num_modular::plans::{Factor, Plan, PlannedModulus};
    ///
    /// let mut table = [Factor::<u64>::ZERO; 2];
    /// let plan = Plan::new(&PlannedModulus::<u64>::new(17), 4, &mut table).unwrap();
    /// let (mut xs, mut ys) = ([0, 3], [0, 2]);
    /// plan.convolve_block(&mut xs, &mut ys, 1, 1);
    /// assert_eq!(xs, [11, 0]); // 3X * 2X is -6 modulo X^2 + 1
    /// ```
    // rust: #[track_caller]
    #[tactic(auto, using(crate::proofs::PlanFields::twiddles_of))]
    pub fn convolve_block(&self, xs: &mut [T], ys: &mut [T], b: usize, last: usize)
        requires equal { length ys.old ≡ length xs.old }
        requires blocks { AreSmallBlocks (length xs.old) (length self.now.table.now) b last }
        requires entries_xs { All (λ x. T.number x < 4 * T.number self.now.modulus.modulus) xs.old }
        requires entries_ys { All (λ x. T.number x < 4 * T.number self.now.modulus.modulus) ys.old }
        ensures below { All (λ x. T.number x < T.number self.now.modulus.modulus) xs.new
            × All (λ x. T.number x < T.number self.now.modulus.modulus) ys.new }
        ensures product { (e : ℕ) → e < length xs.old → numbers T.number xs.new e
            ≡ product_modulo (T.number self.now.modulus.modulus) (length xs.old)
            (constant (T.number self.now.root) self.now.bits b)
            (numbers T.number xs.old) (numbers T.number ys.old) e }
        ensures remainders { AreRemainders (T.number self.now.modulus.modulus) (T.number self.now.root) self.now.bits
            b (length xs.old / last) last (numbers T.number ys.old) (numbers T.number ys.new) }
    {
        // rust: assert!(ys.len() == xs.len(), "the lists must have the same length h: {} and {}", ys.len(), xs.len());
        // rust: assert!(self.convolves(xs.len(), b, last),
        // rust:     "`last` must be 1 or 2, h must be `last` times a power of two, and (b + 1)·h/last must be at most n");
        // rust: debug_assert!(xs.iter().chain(ys.iter()).all(|x| self.modulus.has_room(*x)),
        // rust:     "the entries must be below 4m");
        let part = self.part(xs.len() / last);
        convolve_scaled(&self.modulus, xs, ys, self.table, b, last, &part);
    }

    /// Replaces xs by the cyclic product xs·ys: for lists of n entries, entry e becomes the sum of x_i·y_j modulo m
    /// over i + j = e or e + n.
    ///
    /// ys becomes its transform in bit-reversed order.
    ///
    /// # Conditions
    ///
    /// - the lists have n entries (`fits` tells)
    /// - (debug) the entries are below 4m
    ///
    /// # Examples
    ///
    /// ```
    /// use num_modular::plans::{Factor, Plan, PlannedModulus};
    ///
    /// let mut table = [Factor::<u64>::ZERO; 2];
    /// let plan = Plan::new(&PlannedModulus::<u64>::new(17), 4, &mut table).unwrap();
    /// let (mut xs, mut ys) = ([1, 2, 0, 0], [3, 4, 0, 0]);
    /// plan.convolve(&mut xs, &mut ys);
    /// assert_eq!(xs, [3, 10, 8, 0]); // (1 + 2X)(3 + 4X)
    /// ```
    // rust: #[track_caller]
    #[tactic(auto, using(crate::proofs::Convolutions::product_is_cyclic))]
    pub fn convolve(&self, xs: &mut [T], ys: &mut [T])
        requires whole { length xs.old ≡ 2 ^ self.now.bits }
        requires equal { length ys.old ≡ length xs.old }
        requires entries_xs { All (λ x. T.number x < 4 * T.number self.now.modulus.modulus) xs.old }
        requires entries_ys { All (λ x. T.number x < 4 * T.number self.now.modulus.modulus) ys.old }
        ensures below { All (λ x. T.number x < T.number self.now.modulus.modulus) xs.new
            × All (λ x. T.number x < T.number self.now.modulus.modulus) ys.new }
        ensures product { (e : ℕ) → e < length xs.old → numbers T.number xs.new e
            ≡ cyclic_product (T.number self.now.modulus.modulus) (length xs.old)
            (numbers T.number xs.old) (numbers T.number ys.old) e }
        ensures remainders { AreRemainders (T.number self.now.modulus.modulus) (T.number self.now.root) self.now.bits
            0 (length xs.old) 1 (numbers T.number ys.old) (numbers T.number ys.new) }
    {
        // rust: assert!(self.fits(xs.len()) && ys.len() == xs.len(), "the lists must have n entries: {} and {}, n = {}",
        // rust:     xs.len(), ys.len(), self.length());
        // rust: debug_assert!(xs.iter().chain(ys.iter()).all(|x| self.modulus.has_room(*x)),
        // rust:     "the entries must be below 4m");
        self.convolve_block(xs, ys, 0, 1);
    }

    /// Replaces xs by xs·ys modulo X^n + 1: entry e becomes the sum of x_i·y_j modulo m over i + j = e, less that over
    /// i + j = e + n.
    ///
    /// ys becomes its remainders modulo X^2 - c, as `split` computes them.
    ///
    /// # Conditions
    ///
    /// - the lists have n entries (`fits` tells)
    /// - (debug) the entries are below 4m
    ///
    /// # Examples
    ///
    /// ```
    /// use num_modular::plans::{Factor, Plan, PlannedModulus};
    ///
    /// let mut table = [Factor::<u64>::ZERO; 2];
    /// let plan = Plan::new(&PlannedModulus::<u64>::new(17), 4, &mut table).unwrap();
    /// let (mut xs, mut ys) = ([1, 2, 3, 4], [0, 1, 0, 0]);
    /// plan.convolve_negacyclic(&mut xs, &mut ys);
    /// assert_eq!(xs, [13, 1, 2, 3]); // times X; -4 + 17
    /// ```
    // rust: #[track_caller]
    #[tactic(auto, using(modular_plan_passes::proofs::Tables::half_is_power_of_two))]
    pub fn convolve_negacyclic(&self, xs: &mut [T], ys: &mut [T])
        requires whole { length xs.old ≡ 2 ^ self.now.bits }
        requires equal { length ys.old ≡ length xs.old }
        requires entries_xs { All (λ x. T.number x < 4 * T.number self.now.modulus.modulus) xs.old }
        requires entries_ys { All (λ x. T.number x < 4 * T.number self.now.modulus.modulus) ys.old }
        ensures below { All (λ x. T.number x < T.number self.now.modulus.modulus) xs.new
            × All (λ x. T.number x < T.number self.now.modulus.modulus) ys.new }
        ensures product { let m = T.number self.now.modulus.modulus in (e : ℕ) → e < length xs.old →
            numbers T.number xs.new e ≡ product_modulo m (length xs.old) (m - 1)
            (numbers T.number xs.old) (numbers T.number ys.old) e }
        ensures remainders { AreRemainders (T.number self.now.modulus.modulus) (T.number self.now.root) self.now.bits
            1 (length xs.old / 2) 2 (numbers T.number ys.old) (numbers T.number ys.new) }
    {
        // rust: assert!(self.fits(xs.len()) && ys.len() == xs.len(), "the lists must have n entries: {} and {}, n = {}",
        // rust:     xs.len(), ys.len(), self.length());
        // rust: debug_assert!(xs.iter().chain(ys.iter()).all(|x| self.modulus.has_room(*x)),
        // rust:     "the entries must be below 4m");
        self.convolve_block(xs, ys, 1, 2);
    }
}
