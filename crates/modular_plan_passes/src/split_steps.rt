//! The steps of a pass of `split`, by how much greater than the modulus words may be.

ghost use Rattle.std.specs.Prelude.{◌≡◌, ℕ, ◌+◌, ◌*◌, ◌%◌, ◌<◌, ◌≤◌};
ghost use Rattle.std.proofs.Common.{le_refl, mul-le-mul_right, lit≤};
ghost use Rattle.modular_plan_passes.specs.Factors.{IsFactorOf};
ghost use Rattle.modular_plan_passes.specs.Splits.{AreFourBelow, AreFactorsOf, FourDoneWithin};
ghost use Rattle.modular_plan_passes.specs.Steps.{IsPairSplit, IsFourSplit};

use crate::factor::Factor;
use crate::modulus::{PlannedModulus, RoomyModulus, reduced};
use crate::passes::{Bounded, FourStep, PairStep};
use modular_prim::plain_word::PlainWord;
// rattle: line
use modular_word::path_word::PathWord;
// rattle: line
use modular_word::ring_word::RingWord;

/// A modulus m by which pairs and fours of entries are split.
///
/// Between two passes the entries stay below the limit, a multiple of m.
pub trait SplitSteps<T: PlainWord>: Bounded<T> + Copy {
    ghost modulus: { Self → ℕ };

    /// Numbers below the limit, congruent to x + y·w and x - y·w.
    ///
    /// # Preconditions
    ///
    /// - x and y are below the limit, and factors are factors modulo m
    fn pair(&self, x: T, y: T, w: &Factor<T>) -> (T, T)
        requires below { T.number x < Self.limit self.now }
        requires factor { IsFactorOf T.base T.number (modulus self.now) w.now }
        ensures below { T.number result.0 < Self.limit self.now }
        ensures difference_below { T.number result.1 < Self.limit self.now }
        ensures pair { IsPairSplit (modulus self.now) (T.number w.now.value) (T.number x) (T.number y)
            (T.number result.0) (T.number result.1) };

    /// Two stages of four numbers a quarter of a block apart, with the factor w of the block, and u and v of its
    /// halves.
    ///
    /// # Preconditions
    ///
    /// - x, y, z and t are below the limit, and factors are factors modulo m
    fn four(
        &self,
        x: T,
        y: T,
        z: T,
        t: T,
        w: &Factor<T>,
        u: &Factor<T>,
        v: &Factor<T>,
    ) -> (T, T, T, T)
        requires below { (T.number x < Self.limit self.now) × (T.number y < Self.limit self.now) }
        requires factors { AreFactorsOf T.base T.number (modulus self.now) w.now u.now v.now }
        ensures below { AreFourBelow (Self.limit self.now) (T.number result.0) (T.number result.1)
            (T.number result.2) (T.number result.3) }
        ensures four { IsFourSplit (modulus self.now) (T.number w.now.value) (T.number u.now.value)
            (T.number v.now.value) (T.number x) (T.number y) (T.number z) (T.number t)
            (T.number result.0) (T.number result.1) (T.number result.2) (T.number result.3) };

    /// The same for numbers below 4m, where w and u are 1.
    ///
    /// # Preconditions
    ///
    /// - x, y, z and t are below the limit, and factors are factors modulo m
    fn four_by_one(&self, x: T, y: T, z: T, t: T, v: &Factor<T>) -> (T, T, T, T)
        requires below { AreFourBelow (4 * modulus self.now) (T.number x) (T.number y) (T.number z) (T.number t) }
        requires factor { IsFactorOf T.base T.number (modulus self.now) v.now }
        ensures below { AreFourBelow (Self.limit self.now) (T.number result.0) (T.number result.1)
            (T.number result.2) (T.number result.3) }
        ensures four { IsFourSplit (modulus self.now) 1 1 (T.number v.now.value)
            (T.number x) (T.number y) (T.number z) (T.number t)
            (T.number result.0) (T.number result.1) (T.number result.2) (T.number result.3) };

    /// The residue of an entry, below m.
    ///
    /// # Preconditions
    ///
    /// - x is below the limit
    fn residue(&self, x: T) -> T
        requires { T.number x < Self.limit self.now }
        ensures { T.number result ≡ T.number x % modulus self.now };

    ghost some: { (m : Self) → 1 ≤ modulus m };

    ghost room: { (m : Self) → 4 * modulus m ≤ Self.limit m };
}

// Numbers congruent to x + y·w and x - y·w, where x + 2m fits a word.
fn spread<T: PlainWord>(m: &PlannedModulus<T>, x: T, y: T, w: &Factor<T>) -> (T, T)
    requires room { T.number x + 2 * T.number m.now.modulus < T.base }
    requires factor { IsFactorOf T.base T.number (T.number m.now.modulus) w.now }
    ensures below { T.number result.0 < T.number x + 2 * T.number m.now.modulus }
    ensures most { T.number result.1 ≤ T.number x + 2 * T.number m.now.modulus }
    ensures pair { IsPairSplit (T.number m.now.modulus) (T.number w.now.value) (T.number x) (T.number y)
        (T.number result.0) (T.number result.1) }
{
    let product = m.times(y, w);
    (x.plus(product), x.plus(m.twice().minus(product)))
}

// x + y and x + (b - y), for a bound b that is at least y.
fn sum_and_difference<T: PlainWord>(x: T, y: T, bound: T) -> (T, T)
    requires most { T.number y ≤ T.number bound }
    requires room { T.number x + T.number bound < T.base }
    ensures sum { T.number result.0 ≡ T.number x + T.number y }
    ensures difference { T.number result.1 + T.number y ≡ T.number x + T.number bound }
{
    (x.plus(y), x.plus(bound.minus(y)))
}

// Numbers congruent to x + y and x - y, all below 4m.
fn pair_by_one<T: PlainWord>(m: &PlannedModulus<T>, x: T, y: T) -> (T, T)
    requires below { T.number x < 4 * T.number m.now.modulus }
    requires other_below { T.number y < 4 * T.number m.now.modulus }
    ensures below { T.number result.0 < 4 * T.number m.now.modulus }
    ensures difference_below { T.number result.1 < 4 * T.number m.now.modulus }
    ensures pair { IsPairSplit (T.number m.now.modulus) 1 (T.number x) (T.number y)
        (T.number result.0) (T.number result.1) }
{
    let twice = m.twice();
    sum_and_difference(reduced(x, twice), reduced(y, twice), twice)
}

// Entries stay below 4m.
impl<T: PlainWord> SplitSteps<T> for PlannedModulus<T> {
    ghost modulus = { λ m. T.number m.modulus };

    fn pair(&self, x: T, y: T, w: &Factor<T>) -> (T, T) {
        spread(self, reduced(x, self.twice()), y, w)
    }

    #[tactic(auto, using(crate::proofs::Fours::four_of_pairs))]
    fn four(
        &self,
        x: T,
        y: T,
        z: T,
        t: T,
        w: &Factor<T>,
        u: &Factor<T>,
        v: &Factor<T>,
    ) -> (T, T, T, T) {
        let (e, g) = self.pair(x, z, w);
        let (f, h) = self.pair(y, t, w);
        let (a, b) = self.pair(e, f, u);
        let (c, d) = self.pair(g, h, v);
        (a, b, c, d)
    }

    fn four_by_one(&self, x: T, y: T, z: T, t: T, v: &Factor<T>) -> (T, T, T, T) {
        let (e, g) = pair_by_one(self, x, z);
        let (f, h) = pair_by_one(self, y, t);
        let (a, b) = pair_by_one(self, e, f);
        let (c, d) = self.pair(g, h, v);
        (a, b, c, d)
    }

    fn residue(&self, x: T) -> T {
        PlannedModulus::residue(self, x)
    }

    ghost some = { λ m. m.some };

    ghost room = { λ m. le_refl (4 * T.number m.modulus) };
}

// Entries stay below 12m. Of four numbers only one is reduced, from below 12m to below 8m, and no operand of a product.
impl<T: PlainWord> SplitSteps<T> for RoomyModulus<T> {
    ghost modulus = { λ m. T.number m.planned.modulus };

    fn pair(&self, x: T, y: T, w: &Factor<T>) -> (T, T) {
        spread(&self.planned, reduced(x, self.eightfold()), y, w)
    }

    fn four(
        &self,
        x: T,
        y: T,
        z: T,
        t: T,
        w: &Factor<T>,
        u: &Factor<T>,
        v: &Factor<T>,
    ) -> (T, T, T, T) {
        let m = &self.planned;
        let (e, g) = spread(m, reduced(x, self.eightfold()), z, w);
        let (f, h) = spread(m, y, t, w);
        let (a, b) = spread(m, e, f, u);
        let (c, d) = spread(m, g, h, v);
        (a, b, c, d)
    }

    fn four_by_one(&self, x: T, y: T, z: T, t: T, v: &Factor<T>) -> (T, T, T, T) {
        let fourfold = self.fourfold();
        let eightfold = self.eightfold();
        let (e, g) = sum_and_difference(x, z, fourfold);
        let (f, h) = sum_and_difference(y, t, fourfold);
        let (a, b) = sum_and_difference(e, f, eightfold);
        let (c, d) = spread(&self.planned, g, h, v);
        (reduced(a, eightfold), reduced(b, eightfold), c, d)
    }

    fn residue(&self, x: T) -> T {
        RoomyModulus::residue(self, x)
    }

    ghost some = { λ m. m.planned.some };

    ghost room = { λ m. mul-le-mul_right (T.number m.planned.modulus) (lit≤ tt) };
}

/// Splits two entries by the factor w of a block.
// rust instead: #[derive(Debug)]
#[derive(Drop)]
// rust: #[must_use]
// rust instead: pub struct SplitPair<T, M> {
pub struct SplitPair<T: PlainWord, M: SplitSteps<T>> {
    // rust instead: pub(crate) m: M,
    pub m: M,
    // rust instead: pub(crate) w: Factor<T>,
    pub w: Factor<T>,
    pub ghost factor: { IsFactorOf T.base T.number (M.modulus m) w },
}

impl<T: PlainWord, M: SplitSteps<T>> PairStep<T> for SplitPair<T, M> {
    ghost bound = { λ s. M.limit s.m };

    ghost done = { λ s. IsPairSplit (M.modulus s.m) (T.number s.w.value) };

    #[inline(always)]
    fn pair(&self, x: T, y: T) -> (T, T) {
        self.m.pair(x, y, &self.w)
    }
}

/// Splits four entries by the factor w of a block, and the results by those of its halves.
// rust instead: #[derive(Debug)]
#[derive(Drop)]
// rust: #[must_use]
// rust instead: pub struct SplitFour<T, M> {
pub struct SplitFour<T: PlainWord, M: SplitSteps<T>> {
    // rust instead: pub(crate) m: M,
    pub m: M,
    // rust instead: pub(crate) w: Factor<T>,
    pub w: Factor<T>,
    // rust instead: pub(crate) u: Factor<T>,
    pub u: Factor<T>,
    // rust instead: pub(crate) v: Factor<T>,
    pub v: Factor<T>,
    pub ghost factors: { AreFactorsOf T.base T.number (M.modulus m) w u v },
}

impl<T: PlainWord, M: SplitSteps<T>> FourStep<T> for SplitFour<T, M> {
    ghost bound = { λ s. M.limit s.m };

    ghost done = { λ s. FourDoneWithin (M.limit s.m)
        (IsFourSplit (M.modulus s.m) (T.number s.w.value) (T.number s.u.value) (T.number s.v.value)) };

    #[inline(always)]
    fn four(&self, x: T, y: T, z: T, t: T) -> (T, T, T, T) {
        self.m.four(x, y, z, t, &self.w, &self.u, &self.v)
    }
}

/// Splits four entries below 4m by 1, and the results by 1 and by v.
// rust instead: #[derive(Debug)]
#[derive(Drop)]
// rust: #[must_use]
// rust instead: pub struct SplitByOne<T, M> {
pub struct SplitByOne<T: PlainWord, M: SplitSteps<T>> {
    // rust instead: pub(crate) m: M,
    pub m: M,
    // rust instead: pub(crate) v: Factor<T>,
    pub v: Factor<T>,
    pub ghost factor: { IsFactorOf T.base T.number (M.modulus m) v },
}

impl<T: PlainWord, M: SplitSteps<T>> FourStep<T> for SplitByOne<T, M> {
    ghost bound = { λ s. 4 * M.modulus s.m };

    ghost done = { λ s. FourDoneWithin (M.limit s.m) (IsFourSplit (M.modulus s.m) 1 1 (T.number s.v.value)) };

    #[inline(always)]
    fn four(&self, x: T, y: T, z: T, t: T) -> (T, T, T, T) {
        self.m.four_by_one(x, y, z, t, &self.v)
    }
}

/// Splits four entries, and reduces the results to residues.
// rust instead: #[derive(Debug)]
#[derive(Drop)]
// rust: #[must_use]
// rust instead: pub struct SplitToResidues<T, M> {
pub struct SplitToResidues<T: PlainWord, M: SplitSteps<T>> {
    // rust instead: pub(crate) step: SplitFour<T, M>,
    pub step: SplitFour<T, M>,
}

impl<T: PlainWord, M: SplitSteps<T>> FourStep<T> for SplitToResidues<T, M> {
    ghost bound = { λ s. M.limit s.step.m };

    ghost done = { λ s. FourDoneWithin (M.modulus s.step.m) (IsFourSplit (M.modulus s.step.m)
        (T.number s.step.w.value) (T.number s.step.u.value) (T.number s.step.v.value)) };

    #[inline(always)]
    fn four(&self, x: T, y: T, z: T, t: T) -> (T, T, T, T) {
        let m = &self.step.m;
        let (a, b, c, d) = self.step.four(x, y, z, t);
        let fourth = m.residue(d);
        let third = m.residue(c);
        let second = m.residue(b);
        (m.residue(a), second, third, fourth)
    }
}
