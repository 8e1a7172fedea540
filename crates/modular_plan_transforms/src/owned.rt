//! A plan for transforms that keeps its table.

ghost use Rattle.std.specs.Prelude.{◌≡◌, ℕ, ◌+◌, ◌*◌, ◌%◌, ◌^◌, ◌<◌, length, MatchOption, ⊤};
ghost use Rattle.std.specs.Int.{trailing_zeros, w64};
ghost use Rattle.modular_plan_passes.specs.Factors.{AllFactors};
ghost use Rattle.modular_plan_passes.specs.Plans.{numbers};
ghost use Rattle.modular_plan_transforms.specs.Tables.{IsTable};
ghost use Rattle.modular_transform.specs.Orders.{bits_reversed};
ghost use Rattle.modular_transform.specs.Transforms.{Suits};

use crate::plan::Plan;
use crate::tables::suits;
use modular_plan_passes::factor::PlanEntry;
use modular_plan_passes::modulus::PlannedModulus;
use modular_plan_passes::table::fill_table;
use modular_prim::plain_word::PlainWord;
use modular_word::path_word::PathWord;
// rattle: line
use modular_word::ring_word::RingWord;
// rattle: line
use std::alloc::AllocError;
// rattle: line
use std::convert::AsSlice;
use std::marker::PhantomData;

/// A plan that keeps its table: for transforms of n entries, it has an odd modulus m, a root g that suits n, and a
/// container of the n/2 factors of its powers.
///
/// A struct can own one; `plan` lends it as a [`Plan`].
///
/// The container is an array, which `new` fills, or any other that lends the same entries each time, which `with_table`
/// takes filled. An array is part of the value: a large table may overflow the stack, and belongs in a `Vec`.
///
/// # Examples
///
/// ```
/// use num_modular::plans::{Factor, OwnedPlan, PlannedModulus};
///
/// struct Ring {
///     plan: OwnedPlan<u64, Factor<u64>, [Factor<u64>; 2]>,
/// }
///
/// impl Ring {
///     fn multiply(&self, xs: &mut [u64; 4], ys: &mut [u64; 4]) {
///         self.plan.plan().convolve_negacyclic(xs, ys);
///     }
/// }
///
/// let modulus = PlannedModulus::<u64>::new(17);
/// let ring = Ring { plan: OwnedPlan::new(&modulus, 4).unwrap() }; // 4^2 = 17 - 1
/// let mut product = [1, 2, 3, 4];
/// ring.multiply(&mut product, &mut [0, 1, 0, 0]);
/// assert_eq!(product, [13, 1, 2, 3]); // X^4 is -1
/// ```
// rust instead: #[must_use]
#[derive(Drop)]
// rust instead: pub struct OwnedPlan<T, F, S> {
pub struct OwnedPlan<T: PathWord, F: PlanEntry<T>, S: AsSlice<F>> {
    // rust instead: pub(crate) modulus: PlannedModulus<T>,
    modulus: PlannedModulus<T>,
    // rust instead: pub(crate) root: T,
    root: T,
    // rust instead: pub(crate) table: S,
    table: S,
    // rust instead: pub(crate) entry: PhantomData<F>,
    entry: PhantomData<F>,
    // m is odd, so that 2 has an inverse.
    pub ghost odd: { T.number modulus.modulus % 2 ≡ 1 },
    pub ghost root_below: { T.number root < T.number modulus.modulus },
    // The number of entries is a power of two, and the root to that power is -1.
    pub ghost power_of_two: { let count = length (S.items table) in count ≡ 2 ^ trailing_zeros w64 count },
    pub ghost half_turn: { (T.number root ^ length (S.items table) + 1) % T.number modulus.modulus ≡ 0 },
    // The entries are the factors of the first powers of the root, in bit-reversed order.
    pub ghost factors: { AllFactors T.base (T.number modulus.modulus) F.value F.quotient (S.items table) },
    pub ghost powers: { let count = length (S.items table) in (k : ℕ) → k < count → numbers F.value (S.items table) k
        ≡ T.number root ^ bits_reversed (trailing_zeros w64 count) k % T.number modulus.modulus },
}

// rust instead: impl<T: PathWord, F: PlanEntry<T>, S: AsRef<[F]> + Clone> Clone for OwnedPlan<T, F, S> {
impl<T: PathWord, F: PlanEntry<T>, S: AsSlice<F> + Copy> Clone for OwnedPlan<T, F, S> {
    ghost is_clone = { λ x y. (y.modulus ≡ x.modulus) × (y.root ≡ x.root) × (y.table ≡ x.table) };

    ghost is_infallible = { λ _. ⊤ };

    // rust instead: fn clone(&self) -> Self {
    fn clone(&self) -> Result<Self, AllocError> {
        // rust instead: OwnedPlan {
        Ok(OwnedPlan {
            modulus: self.modulus,
            root: self.root,
            // rust instead: table: self.table.clone(),
            table: self.table,
            entry: PhantomData,
            // rust instead: }
        })
    }
}

impl<T: PlainWord, F: PlanEntry<T>, const N: usize> OwnedPlan<T, F, [F; N]> {
    /// The plan of g: for n = 2·N entries, its table is an array of N factors.
    ///
    /// `None` exactly as [`Plan::new`]: where m is even, g isn't below m, or g doesn't suit n.
    ///
    /// g is a residue, such as `find_root` over `Vanilla` returns: other reducers return a form of it (see
    /// `Plan::new`).
    ///
    /// # Examples
    ///
    /// ```
    /// use num_modular::plans::{Factor, OwnedPlan, PlannedModulus};
    /// use num_modular::ring::find_root;
    /// use num_modular::{Reducer, Vanilla};
    ///
    /// let modulus = PlannedModulus::<u64>::new(17);
    /// assert!(OwnedPlan::<u64, Factor<u64>, [_; 2]>::new(&modulus, 4).is_some()); // 4^2 = 17 - 1
    /// assert!(OwnedPlan::<u64, Factor<u64>, [_; 4]>::new(&modulus, 4).is_none());
    /// let root = find_root(&Vanilla::<u64>::new(&17), 8).unwrap();
    /// assert!(OwnedPlan::<u64, Factor<u64>, [_; 4]>::new(&modulus, root).is_some());
    /// ```
    pub fn new(m: &PlannedModulus<T>, g: T) -> Option<Self>
        ensures { let modulus = T.number m.now.modulus in
            MatchOption result (modulus % 2 ≡ 1 → T.number g < modulus → Suits modulus (T.number g) (2 * N) → ⊥)
            (λ made. (made.modulus ≡ m.now) × (made.root ≡ g)) }
    {
        if !m.modulus.is_odd() {
            return None;
        }
        if !suits(m, g, N) {
            return None;
        }
        let one = F::entry(m.factor(m.residue(T::one())));
        let mut table = [one; N];
        fill_table(m, g, &mut table);
        Some(OwnedPlan {
            modulus: *m,
            root: g,
            table,
            entry: PhantomData,
        })
    }
}

// rust instead: impl<T: PlainWord, F: PlanEntry<T>, S: AsRef<[F]>> OwnedPlan<T, F, S> {
impl<T: PlainWord, F: PlanEntry<T>, S: AsSlice<F> + Drop> OwnedPlan<T, F, S> {
    /// The plan of g over a filled container: for n entries, n being twice its length.
    ///
    /// `None` exactly as [`Plan::with_table`]: where m is even, g isn't below m, g doesn't suit n, or an entry isn't
    /// the one that [`fill_table`] makes.
    ///
    /// It tests the whole table, as `Plan::with_table` does.
    ///
    /// # Examples
    ///
    /// ```
    /// use num_modular::plans::{Factor, OwnedPlan, Plan, PlannedModulus};
    ///
    /// let modulus = PlannedModulus::<u64>::new(17);
    /// let mut table = vec![Factor::<u64>::ZERO; 2];
    /// assert!(Plan::new(&modulus, 4, &mut table).is_some());
    /// let owned = OwnedPlan::with_table(&modulus, 4, table).unwrap();
    /// assert_eq!(owned.plan().length(), 4);
    /// assert!(OwnedPlan::with_table(&modulus, 4, [Factor::<u64>::ZERO; 2]).is_none());
    /// ```
    pub fn with_table(m: &PlannedModulus<T>, g: T, table: S) -> Option<Self>
        ensures { let modulus = T.number m.now.modulus in let entries = S.items table in
            MatchOption result (modulus % 2 ≡ 1 → T.number g < modulus → Suits modulus (T.number g) (2 * length entries)
            → IsTable T.base modulus (T.number g) F.value F.quotient entries → ⊥)
            (λ made. (made.modulus ≡ m.now) × (made.root ≡ g) × (made.table ≡ table)) }
    {
        // rust instead: let plan = Plan::with_table(m, g, table.as_ref())?;
        let plan = Plan::with_table(m, g, table.as_slice())?;
        let (modulus, root) = (plan.modulus(), plan.root());
        Some(OwnedPlan {
            modulus,
            root,
            table,
            entry: PhantomData,
        })
    }

    /// The plan over its table: that is neither tested nor copied.
    ///
    /// # Examples
    ///
    /// ```
    /// use num_modular::plans::{Factor, OwnedPlan, PlannedModulus};
    ///
    /// let owned = OwnedPlan::<u64, Factor<u64>, [_; 2]>::new(&PlannedModulus::new(97), 22).unwrap();
    /// let mut entries = [1, 2, 3, 4];
    /// owned.plan().transform(&mut entries);
    /// assert_eq!(entries[0], 1 + 2 + 3 + 4);
    /// ```
    pub fn plan(&self) -> Plan<'_, T, F>
        ensures modulus { result.modulus ≡ self.now.modulus }
        ensures root { result.root ≡ self.now.root }
        ensures entries { 2 ^ result.bits ≡ 2 * length (S.items self.now.table) }
        ensures table { result.table.now ≡ S.items self.now.table }
    {
        // rust instead: Plan::over(&self.modulus, self.root, self.table.as_ref())
        Plan::over(&self.modulus, self.root, self.table.as_slice())
    }
}
