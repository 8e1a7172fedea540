//! A plan for transforms as one value: a modulus, a root and the table of its powers.

ghost use Rattle.std.specs.Prelude.{◌≡◌, ℕ, ◌+◌, ◌-◌, ◌*◌, ◌/◌, ◌%◌, ◌^◌, ◌<◌, ◌≤◌, ◌↔◌, ⊤};
ghost use Rattle.std.specs.Prelude.{IsTrue, length, take, MatchOption};
ghost use Rattle.std.specs.Int.{IsPowerOfTwo};
ghost use Rattle.modular_transform.specs.Orders.{bits_reversed};
ghost use Rattle.modular_transform.specs.Transforms.{Suits};
ghost use Rattle.modular_plan_passes.specs.Factors.{AllFactors};
ghost use Rattle.modular_plan_passes.specs.Plans.{numbers};
ghost use Rattle.modular_plan_transforms.specs.PlanConditions.{AreBlocks};
ghost use Rattle.modular_plan_transforms.specs.ProductConditions.{AreSmallBlocks};
ghost use Rattle.modular_plan_transforms.specs.Tables.{IsTable};

mod calls;

use crate::convolution::convolves;
use crate::filled::is_table;
use crate::split::splits;
use crate::tables::{power, suits};
use modular_plan_passes::factor::PlanEntry;
use modular_plan_passes::modulus::PlannedModulus;
use modular_plan_passes::table::fill_table;
use modular_prim::plain_word::PlainWord;
use modular_word::path_word::PathWord;
// rattle: line
use modular_word::ring_word::RingWord;
// rattle: line
use std::alloc::AllocError;

/// A modulus, a root and its table, for transforms of n entries: n is 2^bits, m is odd, g suits n, and the table of the
/// n/2 factors of its powers is the caller's.
///
/// # Examples
///
/// ```
/// use num_modular::plans::{Factor, Plan, PlannedModulus};
///
/// let modulus = PlannedModulus::<u64>::new(97);
/// let mut table = [Factor::<u64>::ZERO; 2];
/// let plan = Plan::new(&modulus, 22, &mut table).unwrap(); // 22 has the order 4
/// let mut entries = [1, 2, 3, 4];
/// plan.transform(&mut entries);
/// assert_eq!(entries[0], 1 + 2 + 3 + 4);
/// plan.inverse(&mut entries);
/// assert_eq!(entries, [1, 2, 3, 4]);
/// ```
// rust instead: #[must_use]
#[derive(Debug)]
// rust instead: pub struct Plan<'a, T, F> {
pub struct Plan<'a, T: PathWord, F: PlanEntry<T>> {
    modulus: PlannedModulus<T>,
    root: T,
    bits: u32,
    table: &'a [F],
    // m is odd, so that 2 has an inverse.
    pub ghost odd: { T.number modulus.modulus % 2 ≡ 1 },
    pub ghost root_below: { T.number root < T.number modulus.modulus },
    // The table has n/2 entries, and the root to that power is -1.
    pub ghost half: { 2 * length table.now ≡ 2 ^ bits },
    pub ghost half_turn: { (T.number root ^ length table.now + 1) % T.number modulus.modulus ≡ 0 },
    // Its entries are the factors of the first n/2 powers of the root, in bit-reversed order.
    pub ghost factors: { AllFactors T.base (T.number modulus.modulus) F.value F.quotient table.now },
    pub ghost powers: { (k : ℕ) → k < length table.now
        → numbers F.value table.now k ≡ T.number root ^ bits_reversed (bits - 1) k % T.number modulus.modulus },
}

impl<'a, T: PathWord, F: PlanEntry<T>> Clone for Plan<'a, T, F> {
    ghost is_clone = { λ x y. (y.modulus ≡ x.modulus) × (y.root ≡ x.root) × (y.bits ≡ x.bits) × (y.table ≡ x.table) };

    ghost is_infallible = { λ _. ⊤ };

    // rust instead: fn clone(&self) -> Self {
    fn clone(&self) -> Result<Self, AllocError> {
        // rust: *self
        // rattle: item
        Ok(Plan {
            modulus: self.modulus,
            root: self.root,
            bits: self.bits,
            table: self.table,
        })
    }
}

impl<'a, T: PathWord, F: PlanEntry<T>> Copy for Plan<'a, T, F> {}

impl<'a, T: PlainWord, F: PlanEntry<T>> Plan<'a, T, F> {
    /// Fills the table of g and returns the plan: for n entries, n being twice the length of the table.
    ///
    /// `None` exactly where m is even, g isn't below m, or g doesn't suit n.
    ///
    /// Modulo an even m the number n would have no inverse, and so the transform would have none. Where it returns
    /// `None`, it has written nothing to the table.
    ///
    /// g is a residue. `find_root` returns the form of a root, which over `Vanilla` is the residue itself; over another
    /// reducer r, pass `r.residue(form)`.
    ///
    /// # Examples
    ///
    /// ```
    /// use num_modular::plans::{Factor, Plan, PlannedModulus};
    /// use num_modular::ring::find_root;
    /// use num_modular::{Reducer, Vanilla};
    ///
    /// let modulus = PlannedModulus::<u64>::new(17);
    /// let mut table = [Factor::<u64>::ZERO; 2];
    /// assert!(Plan::new(&modulus, 4, &mut table).is_some()); // 4^2 = 17 - 1
    /// assert!(Plan::new(&modulus, 2, &mut table).is_none());
    /// let root = find_root(&Vanilla::<u64>::new(&17), 4).unwrap();
    /// assert!(Plan::new(&modulus, root, &mut table).is_some());
    /// ```
    #[tactic(auto, using(crate::proofs::PlanTables::made_table))]
    pub fn new(m: &PlannedModulus<T>, g: T, table: &'a mut [F]) -> Option<Self>
        ensures { let modulus = T.number m.now.modulus in let n = 2 * length table.old in
            MatchOption result (modulus % 2 ≡ 1 → T.number g < modulus → Suits modulus (T.number g) n → ⊥)
            (λ made. (made.modulus ≡ m.now) × (made.root ≡ g) × (2 ^ made.bits ≡ n)
            × IsTable T.base modulus (T.number g) F.value F.quotient made.table.now) }
    {
        if !m.modulus.is_odd() {
            return None;
        }
        if !suits(m, g, table.len()) {
            return None;
        }
        fill_table(m, g, table);
        Some(Plan::over(m, g, table))
    }

    /// The plan of g over a filled table: for n entries, n being twice its length.
    ///
    /// `None` exactly as [`Plan::new`], or where the table isn't that of g: m is even, g isn't below m, g doesn't suit
    /// n, or an entry isn't the factor of its power, or has another quotient.
    ///
    /// It takes a product for each entry's power and one for its quotient.
    ///
    /// # Examples
    ///
    /// ```
    /// use num_modular::plans::{Plan, PlannedModulus};
    ///
    /// let modulus = PlannedModulus::<u64>::new(17);
    /// let table = [1, 4].map(|power| modulus.factor(power));
    /// assert!(Plan::with_table(&modulus, 4, &table).is_some()); // 4^2 = 17 - 1
    /// assert!(Plan::with_table(&modulus, 13, &table).is_none()); // its table has 1 and 13
    /// ```
    pub fn with_table(m: &PlannedModulus<T>, g: T, table: &'a [F]) -> Option<Self>
        ensures { let modulus = T.number m.now.modulus in let n = 2 * length table.now in
            MatchOption result (modulus % 2 ≡ 1 → T.number g < modulus → Suits modulus (T.number g) n
            → IsTable T.base modulus (T.number g) F.value F.quotient table.now → ⊥)
            (λ made. (made.modulus ≡ m.now) × (made.root ≡ g) × (2 ^ made.bits ≡ n) × (made.table.now ≡ table.now)) }
    {
        if !m.modulus.is_odd() {
            return None;
        }
        if !suits(m, g, table.len()) {
            return None;
        }
        if !is_table(m, g, table) {
            return None;
        }
        Some(Plan::over(m, g, table))
    }

    /// The plan of g over a filled table, which isn't tested: for n entries, n being twice its length.
    ///
    /// A struct that owns its table makes its plan so at each call.
    ///
    /// # Preconditions
    ///
    /// - m is odd
    /// - g is below m and suits n
    /// - the table is that of g ([`fill_table`])
    // rust instead: pub(crate) fn over(m: &PlannedModulus<T>, g: T, table: &'a [F]) -> Self
    pub fn over(m: &PlannedModulus<T>, g: T, table: &'a [F]) -> Self
        requires odd { T.number m.now.modulus % 2 ≡ 1 }
        requires below { T.number g < T.number m.now.modulus }
        requires suits { Suits (T.number m.now.modulus) (T.number g) (2 * length table.now) }
        requires holds { IsTable T.base (T.number m.now.modulus) (T.number g) F.value F.quotient table.now }
        ensures modulus { result.modulus ≡ m.now }
        ensures root { result.root ≡ g }
        ensures entries { 2 ^ result.bits ≡ 2 * length table.now }
        ensures table { result.table.now ≡ table.now }
    {
        Plan {
            modulus: *m,
            root: g,
            bits: table.len().trailing_zeros() + 1,
            table,
        }
    }

    /// The plan for n entries: it has the power of the root that suits them, and the first n/2 entries of the table.
    ///
    /// # Conditions
    ///
    /// - n is a power of two, from 2 to the number of entries of this plan (`has_shorter` tells)
    ///
    /// # Examples
    ///
    /// ```
    /// use num_modular::plans::{Factor, Plan, PlannedModulus};
    ///
    /// let mut table = [Factor::<u64>::ZERO; 4];
    /// let plan = Plan::new(&PlannedModulus::<u64>::new(17), 2, &mut table).unwrap();
    /// let shorter = plan.shorter(4);
    /// assert_eq!((shorter.bits(), shorter.root()), (2, 4));
    /// ```
    // rust: #[track_caller]
    #[tactic(auto, using(modular_transform::proofs::PowersOfTwo::power_by_zeros))]
    pub fn shorter(&self, n: usize) -> Plan<'a, T, F>
        requires power { IsPowerOfTwo n }
        requires some { 2 ≤ n }
        requires within { n ≤ 2 ^ self.now.bits }
        ensures modulus { result.modulus ≡ self.now.modulus }
        ensures root { T.number result.root
            ≡ T.number self.now.root ^ (2 ^ self.now.bits / n) % T.number self.now.modulus.modulus }
        ensures entries { 2 ^ result.bits ≡ n }
        ensures table { result.table.now ≡ take (n / 2) self.now.table.now }
    {
        // rust: assert!(self.has_shorter(n), "n must be a power of two, from 2 to the number of entries of this plan");
        let half = n / 2;
        Plan {
            modulus: self.modulus,
            root: power(&self.modulus, self.root, self.table.len() / half),
            bits: n.trailing_zeros(),
            table: &self.table[..half],
        }
    }

    /// Whether `shorter` accepts n: n is a power of two, from 2 to the number of entries of this plan.
    ///
    /// # Examples
    ///
    /// ```
    /// use num_modular::plans::{Factor, Plan, PlannedModulus};
    ///
    /// let mut table = [Factor::<u64>::ZERO; 4];
    /// let plan = Plan::new(&PlannedModulus::<u64>::new(17), 2, &mut table).unwrap();
    /// assert!(plan.has_shorter(4) && plan.has_shorter(8));
    /// assert!(!plan.has_shorter(1) && !plan.has_shorter(16));
    /// ```
    #[tactic(auto, using(modular_transform::proofs::PowersOfTwo::power_of_two_tested))]
    pub fn has_shorter(&self, n: usize) -> bool
        ensures { IsTrue result ↔ (IsPowerOfTwo n × (2 ≤ n) × (n ≤ 2 ^ self.now.bits)) }
    {
        if !n.is_power_of_two() {
            return false;
        }
        if n == 1 {
            return false;
        }
        n / 2 - 1 < self.table.len()
    }

    /// The modulus with its reciprocal.
    ///
    /// # Examples
    ///
    /// ```
    /// use num_modular::plans::{Factor, Plan, PlannedModulus};
    ///
    /// let mut table = [Factor::<u64>::ZERO; 2];
    /// let plan = Plan::new(&PlannedModulus::<u64>::new(17), 4, &mut table).unwrap();
    /// assert_eq!(plan.modulus().modulus(), 17);
    /// ```
    pub fn modulus(&self) -> PlannedModulus<T>
        ensures { result ≡ self.now.modulus }
    {
        self.modulus
    }

    /// The root g.
    ///
    /// # Examples
    ///
    /// ```
    /// use num_modular::plans::{Factor, Plan, PlannedModulus};
    ///
    /// let mut table = [Factor::<u64>::ZERO; 2];
    /// let plan = Plan::new(&PlannedModulus::<u64>::new(17), 4, &mut table).unwrap();
    /// assert_eq!(plan.root(), 4);
    /// ```
    pub fn root(&self) -> T
        ensures { result ≡ self.now.root }
    {
        self.root
    }

    /// The number n of entries: twice the length of the table.
    ///
    /// Where no `usize` holds it, which takes a table of entries without a size, it is the greatest `usize`.
    ///
    /// # Examples
    ///
    /// ```
    /// use num_modular::plans::{Factor, Plan, PlannedModulus};
    ///
    /// let mut table = [Factor::<u64>::ZERO; 2];
    /// let plan = Plan::new(&PlannedModulus::<u64>::new(17), 4, &mut table).unwrap();
    /// assert_eq!(plan.length(), 4);
    /// ```
    pub fn length(&self) -> usize
        ensures entries { 2 ^ self.now.bits < 2 ^ 64 → result ≡ 2 ^ self.now.bits }
        ensures greatest { 2 ^ 64 ≤ 2 ^ self.now.bits → result ≡ 2 ^ 64 - 1 }
    {
        self.table.len().saturating_mul(2)
    }

    /// log2 of n: the binary logarithm of the number of entries.
    ///
    /// # Examples
    ///
    /// ```
    /// use num_modular::plans::{Factor, Plan, PlannedModulus};
    ///
    /// let mut table = [Factor::<u64>::ZERO; 2];
    /// let plan = Plan::new(&PlannedModulus::<u64>::new(17), 4, &mut table).unwrap();
    /// assert_eq!(plan.bits(), 2); // four entries
    /// ```
    pub fn bits(&self) -> u32
        ensures { result ≡ self.now.bits }
    {
        self.bits
    }

    /// Whether a list has n entries: the number of those that the plan transforms.
    ///
    /// # Examples
    ///
    /// ```
    /// use num_modular::plans::{Factor, Plan, PlannedModulus};
    ///
    /// let mut table = [Factor::<u64>::ZERO; 2];
    /// let plan = Plan::new(&PlannedModulus::<u64>::new(17), 4, &mut table).unwrap();
    /// assert!(plan.fits(4));
    /// assert!(!plan.fits(8));
    /// ```
    pub fn fits(&self, entries: usize) -> bool
        ensures { IsTrue result ↔ (entries ≡ 2 ^ self.now.bits) }
    {
        entries / 2 == self.table.len() && entries % 2 == 0
    }

    /// Whether `split` and `join` accept these sizes: a list with this number of entries as block b, with blocks of
    /// `last` entries.
    ///
    /// # Examples
    ///
    /// ```
    /// use num_modular::plans::{Factor, Plan, PlannedModulus};
    ///
    /// let mut table = [Factor::<u64>::ZERO; 2];
    /// let plan = Plan::new(&PlannedModulus::<u64>::new(17), 4, &mut table).unwrap();
    /// assert!(plan.splits(4, 0, 1));
    /// assert!(!plan.splits(8, 0, 1));
    /// ```
    pub fn splits(&self, entries: usize, b: usize, last: usize) -> bool
        ensures { IsTrue result ↔ AreBlocks entries (length self.now.table.now) b last }
    {
        splits(entries, self.table.len(), b, last)
    }

    /// Whether `convolve_block` accepts these sizes: lists with this number of entries as block b, with blocks of
    /// `last` entries.
    ///
    /// # Examples
    ///
    /// ```
    /// use num_modular::plans::{Factor, Plan, PlannedModulus};
    ///
    /// let mut table = [Factor::<u64>::ZERO; 2];
    /// let plan = Plan::new(&PlannedModulus::<u64>::new(17), 4, &mut table).unwrap();
    /// assert!(plan.convolves(4, 1, 2));
    /// assert!(!plan.convolves(4, 1, 1));
    /// ```
    pub fn convolves(&self, entries: usize, b: usize, last: usize) -> bool
        ensures { IsTrue result ↔ AreSmallBlocks entries (length self.now.table.now) b last }
    {
        convolves(entries, self.table.len(), b, last)
    }
}
