//! The steps of a pass of `join`, by how much greater than the modulus words may be.

ghost use Rattle.std.specs.Prelude.{◌≡◌, ℕ, ◌+◌, ◌*◌, ◌%◌, ◌<◌, ◌≤◌};
ghost use Rattle.modular_word.specs.Congruence.{Congruent};
ghost use Rattle.modular_plan_passes.specs.Factors.{IsFactorOf};
ghost use Rattle.modular_plan_passes.specs.Joins.{IsPairJoin, IsFourJoin, IsMinusInverse, AreMinusInverses, IsJoinByFactors, IsLastJoin};
ghost use Rattle.modular_plan_passes.specs.Splits.{AreFourBelow, AreFactorsOf, FourDoneWithin};
ghost use Rattle.std.proofs.Common.{le_refl, mul-le-mul_right, lit≤};

use crate::factor::Factor;
use crate::modulus::{PlannedModulus, RoomyModulus, reduced};
use crate::passes::{Bounded, FourStep, PairStep};
use modular_prim::plain_word::PlainWord;
// rattle: line
use modular_word::path_word::PathWord;
// rattle: line
use modular_word::ring_word::RingWord;

/// A modulus m by which pairs and fours of entries are joined.
///
/// Between two passes the entries stay below a bound, a multiple of m.
pub trait JoinSteps<T: PlainWord>: Bounded<T> + Copy {
    ghost modulus: { Self → ℕ };

    // The bound of the entries of a list, between passes.
    ghost bound: { Self → ℕ };

    /// The factor -1.
    fn minus_one(&self) -> Factor<T>
        ensures factor { IsFactorOf T.base T.number (modulus self.now) result }
        ensures value { T.number result.value + 1 ≡ modulus self.now };

    /// A number below the bound that is congruent to a word.
    ///
    /// # Preconditions
    ///
    /// - x is below 4m
    fn lowered(&self, x: T) -> T
        requires { T.number x < 4 * modulus self.now }
        ensures below { T.number result < bound self.now }
        ensures congruent { Congruent (modulus self.now) (T.number result) (T.number x) };

    /// Numbers below the bound, congruent to x + y and (y - x)·v.
    ///
    /// # Preconditions
    ///
    /// - x and y are below the bound, and factors are factors modulo m
    fn pair(&self, x: T, y: T, v: &Factor<T>) -> (T, T)
        requires below { T.number x < bound self.now }
        requires other_below { T.number y < bound self.now }
        requires factor { IsFactorOf T.base T.number (modulus self.now) v.now }
        ensures below { T.number result.0 < bound self.now }
        ensures product_below { T.number result.1 < bound self.now }
        ensures pair { (w : ℕ) → IsMinusInverse (modulus self.now) w (T.number v.now.value) →
            IsPairJoin (modulus self.now) w (T.number x) (T.number y) (T.number result.0) (T.number result.1) };

    /// Two stages of four numbers a quarter of a block apart.
    ///
    /// The factors are minus the inverses of those of the block's halves, and of the block's own.
    ///
    /// # Preconditions
    ///
    /// - x, y, z and t are below the bound, and factors are factors modulo m
    fn four(
        &self,
        x: T,
        y: T,
        z: T,
        t: T,
        w: &Factor<T>,
        u: &Factor<T>,
        v: &Factor<T>,
    ) -> (T, T, T, T)
        requires below { AreFourBelow (bound self.now) (T.number x) (T.number y) (T.number z) (T.number t) }
        requires factors { AreFactorsOf T.base T.number (modulus self.now) w.now u.now v.now }
        ensures below { AreFourBelow (bound self.now)
            (T.number result.0) (T.number result.1) (T.number result.2) (T.number result.3) }
        ensures four { (a b c : ℕ) → AreMinusInverses (modulus self.now) a b c
            (T.number w.now.value) (T.number u.now.value) (T.number v.now.value) → IsFourJoin (modulus self.now) a b c
            (T.number x) (T.number y) (T.number z) (T.number t)
            (T.number result.0) (T.number result.1) (T.number result.2) (T.number result.3) };

    /// The same where the first two factors are -1, each result times the factor s, below m.
    ///
    /// # Preconditions
    ///
    /// - x, y, z and t are below the bound, and factors are factors modulo m
    fn four_by_one(&self, x: T, y: T, z: T, t: T, v: &Factor<T>, s: &Factor<T>) -> (T, T, T, T)
        requires below { AreFourBelow (bound self.now) (T.number x) (T.number y) (T.number z) (T.number t) }
        requires factor { IsFactorOf T.base T.number (modulus self.now) v.now }
        requires scale { IsFactorOf T.base T.number (modulus self.now) s.now }
        ensures below { AreFourBelow (modulus self.now)
            (T.number result.0) (T.number result.1) (T.number result.2) (T.number result.3) }
        ensures four { (c : ℕ) → IsMinusInverse (modulus self.now) c (T.number v.now.value)
            → IsFourJoin (modulus self.now) 1 1 c (T.number x * T.number s.now.value) (T.number y * T.number s.now.value)
            (T.number z * T.number s.now.value) (T.number t * T.number s.now.value)
            (T.number result.0) (T.number result.1) (T.number result.2) (T.number result.3) };

    /// The residue of any word's product with a factor, below m.
    ///
    /// # Preconditions
    ///
    /// - the factor was made by this modulus: its value is below m, and its quotient is value·B/m, rounded down, B
    ///   being the base
    fn product(&self, x: T, w: &Factor<T>) -> T
        requires { IsFactorOf T.base T.number (modulus self.now) w.now }
        ensures { T.number result ≡ (T.number x * T.number w.now.value) % modulus self.now };

    /// The residue of a word below the bound, below m.
    ///
    /// # Preconditions
    ///
    /// - x is below the bound
    fn residue(&self, x: T) -> T
        requires { T.number x < bound self.now }
        ensures { T.number result ≡ T.number x % modulus self.now };

    ghost some: { (m : Self) → 1 ≤ modulus m };

    ghost bound_fits: { (m : Self) → bound m ≤ 4 * modulus m };

    ghost room: { (m : Self) → 4 * modulus m ≤ Self.limit m };
}

// x + y, and a number below 2m that is congruent to (y - x)·v. Condition: x and y are below `bound`, a multiple of
// m that is at most half of the base.
fn gather<T: PlainWord>(m: &PlannedModulus<T>, x: T, y: T, bound: T, v: &Factor<T>) -> (T, T)
    requires multiple { Congruent (T.number m.now.modulus) (T.number bound) 0 }
    requires room { 2 * T.number bound ≤ T.base }
    requires below { T.number x < T.number bound }
    requires other_below { T.number y < T.number bound }
    requires factor { IsFactorOf T.base T.number (T.number m.now.modulus) v.now }
    ensures sum { T.number result.0 ≡ T.number x + T.number y }
    ensures product_below { T.number result.1 < 2 * T.number m.now.modulus }
    ensures pair { (w : ℕ) → IsMinusInverse (T.number m.now.modulus) w (T.number v.now.value) →
        IsPairJoin (T.number m.now.modulus) w (T.number x) (T.number y) (T.number result.0) (T.number result.1) }
{
    (x.plus(y), m.times(y.plus(bound.minus(x)), v))
}

// The residues of (x + y)·s and (x - y)·s. Condition: y is below `bound`, a multiple of m for which x + bound fits
// a word.
fn scaled_pair<T: PlainWord>(m: &PlannedModulus<T>, x: T, y: T, bound: T, s: &Factor<T>) -> (T, T)
    requires multiple { Congruent (T.number m.now.modulus) (T.number bound) 0 }
    requires room { T.number x + T.number bound < T.base }
    requires below { T.number y < T.number bound }
    requires factor { IsFactorOf T.base T.number (T.number m.now.modulus) s.now }
    ensures below { T.number result.0 < T.number m.now.modulus }
    ensures difference_below { T.number result.1 < T.number m.now.modulus }
    ensures pair { IsPairJoin (T.number m.now.modulus) 1 (T.number x * T.number s.now.value)
        (T.number y * T.number s.now.value) (T.number result.0) (T.number result.1) }
{
    let sum = m.product(x.plus(y), s);
    let difference = m.product(x.plus(bound.minus(y)), s);
    (sum, difference)
}

// Entries stay below 2m.
impl<T: PlainWord> JoinSteps<T> for PlannedModulus<T> {
    ghost modulus = { λ m. T.number m.modulus };

    ghost bound = { λ m. 2 * T.number m.modulus };

    fn minus_one(&self) -> Factor<T> {
        self.factor(self.modulus.minus(T::one()))
    }

    fn lowered(&self, x: T) -> T {
        reduced(x, self.twice())
    }

    fn pair(&self, x: T, y: T, v: &Factor<T>) -> (T, T) {
        let twice = self.twice();
        let (sum, product) = gather(self, x, y, twice, v);
        (reduced(sum, twice), product)
    }

    fn four(
        &self,
        x: T,
        y: T,
        z: T,
        t: T,
        w: &Factor<T>,
        u: &Factor<T>,
        v: &Factor<T>,
    ) -> (T, T, T, T) {
        let (e, f) = self.pair(x, y, u);
        let (g, h) = self.pair(z, t, v);
        let (a, c) = self.pair(e, g, w);
        let (b, d) = self.pair(f, h, w);
        (a, b, c, d)
    }

    #[tactic(auto, using(crate::proofs::Bounds::multiple_is_none))]
    fn four_by_one(&self, x: T, y: T, z: T, t: T, v: &Factor<T>, s: &Factor<T>) -> (T, T, T, T) {
        let twice = self.twice();
        let e = reduced(x.plus(y), twice);
        let f = reduced(x.plus(twice.minus(y)), twice);
        let (g, h) = self.pair(z, t, v);
        let (a, c) = scaled_pair(self, e, g, twice, s);
        let (b, d) = scaled_pair(self, f, h, twice, s);
        (a, b, c, d)
    }

    fn product(&self, x: T, w: &Factor<T>) -> T {
        PlannedModulus::product(self, x, w)
    }

    fn residue(&self, x: T) -> T {
        reduced(x, self.modulus)
    }

    ghost some = { λ m. m.some };

    ghost bound_fits = { λ m. mul-le-mul_right (T.number m.modulus) (lit≤ tt) };

    ghost room = { λ m. le_refl (4 * T.number m.modulus) };
}

// Entries stay below 4m. Within a four only the number that is a sum twice is reduced.
impl<T: PlainWord> JoinSteps<T> for RoomyModulus<T> {
    ghost modulus = { λ m. T.number m.planned.modulus };

    ghost bound = { λ m. 4 * T.number m.planned.modulus };

    fn minus_one(&self) -> Factor<T> {
        self.planned.minus_one()
    }

    fn lowered(&self, x: T) -> T {
        x
    }

    fn pair(&self, x: T, y: T, v: &Factor<T>) -> (T, T) {
        let fourfold = self.fourfold();
        let (sum, product) = gather(&self.planned, x, y, fourfold, v);
        (reduced(sum, fourfold), product)
    }

    #[tactic(auto, using(crate::proofs::Bounds::multiple_is_none))]
    fn four(
        &self,
        x: T,
        y: T,
        z: T,
        t: T,
        w: &Factor<T>,
        u: &Factor<T>,
        v: &Factor<T>,
    ) -> (T, T, T, T) {
        let m = &self.planned;
        let fourfold = self.fourfold();
        let eightfold = self.eightfold();
        let (e, f) = gather(m, x, y, fourfold, u);
        let (g, h) = gather(m, z, t, fourfold, v);
        let (a, c) = gather(m, e, g, eightfold, w);
        let (b, d) = gather(m, f, h, m.twice(), w);
        (reduced(reduced(a, eightfold), fourfold), b, c, d)
    }

    fn four_by_one(&self, x: T, y: T, z: T, t: T, v: &Factor<T>, s: &Factor<T>) -> (T, T, T, T) {
        let m = &self.planned;
        let fourfold = self.fourfold();
        let e = x.plus(y);
        let f = x.plus(fourfold.minus(y));
        let (g, h) = gather(m, z, t, fourfold, v);
        let (a, c) = scaled_pair(m, e, g, self.eightfold(), s);
        let (b, d) = scaled_pair(m, f, h, m.twice(), s);
        (a, b, c, d)
    }

    fn product(&self, x: T, w: &Factor<T>) -> T {
        self.planned.product(x, w)
    }

    fn residue(&self, x: T) -> T {
        self.planned.residue(x)
    }

    ghost some = { λ m. m.planned.some };

    ghost bound_fits = { λ m. le_refl (4 * T.number m.planned.modulus) };

    ghost room = { λ m. mul-le-mul_right (T.number m.planned.modulus) (lit≤ tt) };
}

/// Joins two entries by v, minus the inverse of the factor of a block.
// rust instead: #[derive(Debug)]
#[derive(Drop)]
// rust: #[must_use]
// rust instead: pub struct JoinPair<T, M> {
pub struct JoinPair<T: PlainWord, M: JoinSteps<T>> {
    // rust instead: pub(crate) m: M,
    pub m: M,
    // rust instead: pub(crate) v: Factor<T>,
    pub v: Factor<T>,
    pub ghost factor: { IsFactorOf T.base T.number (M.modulus m) v },
}

impl<T: PlainWord, M: JoinSteps<T>> PairStep<T> for JoinPair<T, M> {
    ghost bound = { λ s. M.bound s.m };

    ghost done = { λ s a b c d. (w : ℕ) → IsMinusInverse (M.modulus s.m) w (T.number s.v.value)
        → IsPairJoin (M.modulus s.m) w a b c d };

    #[inline(always)]
    fn pair(&self, x: T, y: T) -> (T, T) {
        self.m.pair(x, y, &self.v)
    }
}

/// Joins four entries by minus the inverses of the factors of a block, w, and of its halves, u and v.
// rust instead: #[derive(Debug)]
#[derive(Drop)]
// rust: #[must_use]
// rust instead: pub struct JoinFour<T, M> {
pub struct JoinFour<T: PlainWord, M: JoinSteps<T>> {
    // rust instead: pub(crate) m: M,
    pub m: M,
    // rust instead: pub(crate) w: Factor<T>,
    pub w: Factor<T>,
    // rust instead: pub(crate) u: Factor<T>,
    pub u: Factor<T>,
    // rust instead: pub(crate) v: Factor<T>,
    pub v: Factor<T>,
    pub ghost factors: { AreFactorsOf T.base T.number (M.modulus m) w u v },
}

impl<T: PlainWord, M: JoinSteps<T>> FourStep<T> for JoinFour<T, M> {
    ghost bound = { λ s. M.bound s.m };

    ghost done = { λ s. FourDoneWithin (M.bound s.m)
        (IsJoinByFactors (M.modulus s.m) (T.number s.w.value) (T.number s.u.value) (T.number s.v.value)) };

    #[inline(always)]
    fn four(&self, x: T, y: T, z: T, t: T) -> (T, T, T, T) {
        self.m.four(x, y, z, t, &self.w, &self.u, &self.v)
    }
}

/// Joins four entries below 4m.
// rust instead: #[derive(Debug)]
#[derive(Drop)]
// rust: #[must_use]
// rust instead: pub struct JoinLowered<T, M> {
pub struct JoinLowered<T: PlainWord, M: JoinSteps<T>> {
    // rust instead: pub(crate) step: JoinFour<T, M>,
    pub step: JoinFour<T, M>,
}

impl<T: PlainWord, M: JoinSteps<T>> FourStep<T> for JoinLowered<T, M> {
    ghost bound = { λ s. 4 * M.modulus s.step.m };

    ghost done = { λ s. FourDoneWithin (M.bound s.step.m) (IsJoinByFactors (M.modulus s.step.m)
        (T.number s.step.w.value) (T.number s.step.u.value) (T.number s.step.v.value)) };

    #[inline(always)]
    fn four(&self, x: T, y: T, z: T, t: T) -> (T, T, T, T) {
        let m = &self.step.m;
        let a = m.lowered(x);
        let b = m.lowered(y);
        let c = m.lowered(z);
        let d = m.lowered(t);
        self.step.four(a, b, c, d)
    }
}

/// Joins four entries where the first two factors are -1, and multiplies the results by s.
// rust instead: #[derive(Debug)]
#[derive(Drop)]
// rust: #[must_use]
// rust instead: pub struct JoinByOne<T, M> {
pub struct JoinByOne<T: PlainWord, M: JoinSteps<T>> {
    // rust instead: pub(crate) m: M,
    pub m: M,
    // rust instead: pub(crate) v: Factor<T>,
    pub v: Factor<T>,
    // rust instead: pub(crate) s: Factor<T>,
    pub s: Factor<T>,
    pub ghost factor: { IsFactorOf T.base T.number (M.modulus m) v },
    pub ghost scale: { IsFactorOf T.base T.number (M.modulus m) s },
}

impl<T: PlainWord, M: JoinSteps<T>> FourStep<T> for JoinByOne<T, M> {
    ghost bound = { λ s. M.bound s.m };

    ghost done = { λ s. FourDoneWithin (M.modulus s.m)
        (IsLastJoin (M.modulus s.m) (T.number s.v.value) (T.number s.s.value)) };

    #[inline(always)]
    fn four(&self, x: T, y: T, z: T, t: T) -> (T, T, T, T) {
        self.m.four_by_one(x, y, z, t, &self.v, &self.s)
    }
}
