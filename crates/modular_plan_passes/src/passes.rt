//! A stage of a block, on each two of its entries half a block apart; and two stages in one pass, on each four of its
//! entries a quarter of the block apart. Entries stay below a limit of their modulus.

ghost use Rattle.std.specs.Prelude.{◌≡◌, ℕ, ◌+◌, ◌*◌, ◌<◌, ◌≤◌, IsTrue, All, length};
ghost use Rattle.modular_plan_passes.specs.Plans.{numbers};
ghost use Rattle.modular_plan_passes.specs.Splits.{AreAt, AreFourBelow, AreHalves, AreInOrder, AreNeighbours, AreQuarters, IsBlockReady};
ghost use Rattle.modular_plan_passes.specs.Splits.{ColumnsDone, HalvesDone};
ghost use Rattle.modular_plan_passes.specs.Steps.{PairDone, BlockDone, FourDone, BlockOfFours};

use crate::modulus::{PlannedModulus, RoomyModulus};
use modular_prim::plain_word::PlainWord;
// rattle: line
use modular_word::path_word::PathWord;
// rattle: line
use modular_word::ring_word::RingWord;

/// A modulus with a limit that the entries of a list stay below.
// rust instead: pub trait Bounded<T: PlainWord>: Sized {
pub trait Bounded<T: PlainWord> {
    ghost limit: { Self → ℕ };

    /// The greatest word below the limit.
    fn greatest(&self) -> T
        ensures { T.number result + 1 ≡ limit self.now };

    /// Whether a word of more than 32 bits is at least the limit; false for shorter words.
    ///
    /// A loop over entries returns where this is true, which it never is: so compilers can't compute the loop's trip
    /// count, and don't vectorize it. Vectors of words of more than 32 bits would be slower.
    final fn is_beyond(&self, x: T) -> bool
        ensures { IsTrue result → limit self.now ≤ T.number x }
    {
        T::bits() > 32 && self.greatest().is_below(x)
    }
}

impl<T: PlainWord> Bounded<T> for PlannedModulus<T> {
    ghost limit = { λ m. 4 * T.number m.modulus };

    fn greatest(&self) -> T {
        let twice = self.twice();
        twice.plus(twice.minus(T::one()))
    }
}

impl<T: PlainWord> Bounded<T> for RoomyModulus<T> {
    ghost limit = { λ m. 12 * T.number m.planned.modulus };

    fn greatest(&self) -> T {
        self.eightfold().plus(self.fourfold().minus(T::one()))
    }
}

/// What a stage makes of two entries half a block apart.
// rust instead: pub trait PairStep<T: PlainWord>: Sized {
pub trait PairStep<T: PlainWord> {
    // The bound of the entries before and after.
    ghost bound: { Self → ℕ };

    // What holds of the entries before and after.
    ghost done: { Self → ℕ → ℕ → ℕ → ℕ → Type 0 };

    /// What the two entries become, below the bound.
    ///
    /// # Preconditions
    ///
    /// - x and y are below the bound
    fn pair(&self, x: T, y: T) -> (T, T)
        requires below { T.number x < bound self.now }
        requires other_below { T.number y < bound self.now }
        ensures below { T.number result.0 < bound self.now }
        ensures other_below { T.number result.1 < bound self.now }
        ensures done { done self.now (T.number x) (T.number y) (T.number result.0) (T.number result.1) };
}

// The pair of entries at two indexes.
#[inline(always)]
#[tactic(auto, using(crate::proofs::Entries::below_read))]
fn pair_at<T: PlainWord, S: PairStep<T>>(step: &S, xs: &mut [T], low: usize, high: usize)
    requires entries { All (λ x. T.number x < S.bound step.now) xs.old }
    requires order { low < high }
    requires within { high < length xs.old }
    ensures entries { All (λ x. T.number x < S.bound step.now) xs.new }
    ensures done { PairDone (S.done step.now) low high (numbers T.number xs.old) (numbers T.number xs.new) }
{
    let (first, second) = step.pair(xs[low], xs[high]);
    xs[high] = second;
    xs[low] = first;
}

/// A stage of the block of half + half entries whose first index is `first`.
///
/// # Preconditions
///
/// - the entries are below the bound of the step, which is at most the limit
#[inline(always)]
#[tactic(auto, using(crate::proofs::Entries::never_beyond, crate::proofs::PairSteps::block_all, crate::proofs::PairSteps::block_more, crate::proofs::PairSteps::block_none))]
pub fn pairs<T: PlainWord, M: Bounded<T>, S: PairStep<T>>(
    m: &M,
    step: &S,
    xs: &mut [T],
    first: usize,
    half: usize,
)
    requires entries { All (λ x. T.number x < S.bound step.now) xs.old }
    requires within { first + (half + half) ≤ length xs.old }
    requires fits { S.bound step.now ≤ M.limit m.now }
    ensures entries { All (λ x. T.number x < S.bound step.now) xs.new }
    ensures done { BlockDone (S.done step.now) first half half (numbers T.number xs.old) (numbers T.number xs.new) }
{
    'pairs: for i in 0..half {
        // Unreachable (see `is_beyond`).
        if m.is_beyond(xs[first + i]) {
            // rust instead: panic!("the entries must be below 4m");
            return;
        }
        pair_at(step, xs, first + i, first + (half + i));
    }
}

/// What two stages make of four entries a quarter of a block apart.
// rust instead: pub trait FourStep<T: PlainWord>: Sized {
pub trait FourStep<T: PlainWord> {
    // The bound of the entries before.
    ghost bound: { Self → ℕ };

    // What holds of the entries before and after.
    ghost done: { Self → ℕ → ℕ → ℕ → ℕ → ℕ → ℕ → ℕ → ℕ → Type 0 };

    /// What the four entries become.
    ///
    /// # Preconditions
    ///
    /// - x, y, z and t are below the bound
    fn four(&self, x: T, y: T, z: T, t: T) -> (T, T, T, T)
        requires { AreFourBelow (bound self.now) (T.number x) (T.number y) (T.number z) (T.number t) }
        ensures { done self.now (T.number x) (T.number y) (T.number z) (T.number t)
            (T.number result.0) (T.number result.1) (T.number result.2) (T.number result.3) };
}

// The four quarters of a block.
#[inline(always)]
fn columns<T: PlainWord, M: Bounded<T>, S: FourStep<T>>(
    m: &M,
    step: &S,
    first: &mut [T],
    second: &mut [T],
    third: &mut [T],
    fourth: &mut [T],
)
    requires { AreQuarters T.number (S.bound step.now) (M.limit m.now) first.old second.old third.old fourth.old }
    ensures { ColumnsDone (S.done step.now) (length first.old)
        (numbers T.number first.old) (numbers T.number second.old)
        (numbers T.number third.old) (numbers T.number fourth.old)
        (numbers T.number first.new) (numbers T.number second.new)
        (numbers T.number third.new) (numbers T.number fourth.new) }
{
    'columns: for i in 0..first.len() {
        let x = first[i];
        // Unreachable (see `is_beyond`).
        if m.is_beyond(x) {
            // rust instead: panic!("the entries must be below 4m");
            return;
        }
        let (a, b, c, d) = step.four(x, second[i], third[i], fourth[i]);
        first[i] = a;
        second[i] = b;
        third[i] = c;
        fourth[i] = d;
    }
}

// The two halves of a block, of q + q entries each.
#[inline(always)]
#[tactic(auto, using(crate::proofs::FourColumns::columns_all, crate::proofs::FourColumns::halves_done, crate::proofs::ListParts::all_behind, crate::proofs::ListParts::all_in_front))]
fn halves<T: PlainWord, M: Bounded<T>, S: FourStep<T>>(
    m: &M,
    step: &S,
    low: &mut [T],
    high: &mut [T],
    q: usize,
)
    requires { AreHalves T.number (S.bound step.now) (M.limit m.now) q low.old high.old }
    ensures { HalvesDone (S.done step.now) q (numbers T.number low.old) (numbers T.number high.old)
        (numbers T.number low.new) (numbers T.number high.new) }
{
    let (a, b) = low.split_at_mut(q);
    let (c, d) = high.split_at_mut(q);
    columns(m, step, a, b, c, d);
}

// The entries at four indexes.
#[inline(always)]
#[tactic(auto, using(crate::proofs::Entries::number_read))]
fn four_at<T: PlainWord>(xs: &[T], i: usize, j: usize, k: usize, l: usize) -> (T, T, T, T)
    requires { AreInOrder i j k l (length xs.now) }
    ensures { AreAt i j k l (numbers T.number xs.now)
        (T.number result.0) (T.number result.1) (T.number result.2) (T.number result.3) }
{
    (xs[i], xs[j], xs[k], xs[l])
}

// Writes the entries at four indexes.
#[inline(always)]
fn set_four<T: PlainWord>(xs: &mut [T], i: usize, j: usize, k: usize, l: usize, four: (T, T, T, T))
    requires { AreInOrder i j k l (length xs.old) }
    ensures { FourDone (λ x y z t a b c d. (a ≡ T.number four.0) × (b ≡ T.number four.1)
        × (c ≡ T.number four.2) × (d ≡ T.number four.3)) i j k l
        (numbers T.number xs.old) (numbers T.number xs.new) }
{
    xs[l] = four.3;
    xs[k] = four.2;
    xs[j] = four.1;
    xs[i] = four.0;
}

/// Two stages of the four entries whose first index is `first`.
///
/// # Preconditions
///
/// - the entries are below the bound of the step
#[inline(always)]
pub fn neighbours<T: PlainWord, S: FourStep<T>>(step: &S, xs: &mut [T], first: usize)
    requires { AreNeighbours T.number (S.bound step.now) first xs.old }
    ensures { FourDone (S.done step.now) first (first + 1) (first + 2) (first + 3)
        (numbers T.number xs.old) (numbers T.number xs.new) }
{
    let second = first + 1;
    let third = first + 2;
    let fourth = first + 3;
    let (x, y, z, t) = four_at(xs, first, second, third, fourth);
    let four = step.four(x, y, z, t);
    set_four(xs, first, second, third, fourth, four);
}

// A block of four entries. The quarters of such blocks are too short for a loop over one to be vectorized, but compilers
// vectorize a loop over the blocks.
#[inline(always)]
#[tactic(auto, using(crate::proofs::Entries::bounded_at))]
fn one_column<T: PlainWord, M: Bounded<T>, S: FourStep<T>>(
    m: &M,
    step: &S,
    xs: &mut [T],
    first: usize,
)
    requires { IsBlockReady T.number (S.bound step.now) (M.limit m.now) first 1 xs.old }
    ensures { BlockOfFours (S.done step.now) first 1 1 (numbers T.number xs.old) (numbers T.number xs.new) }
{
    // Unreachable (see `is_beyond`).
    if m.is_beyond(xs[first]) {
        // rust instead: panic!("the entries must be below 4m");
        return;
    }
    neighbours(step, xs, first);
}

/// Two stages of the block of 4·q entries whose first index is `first`.
///
/// # Preconditions
///
/// - the entries are below the bound of the step, which is at most the limit
#[inline(always)]
#[tactic(auto, using(crate::proofs::FourColumns::block_of_halves, crate::proofs::ListParts::all_behind, crate::proofs::ListParts::all_in_front))]
pub fn quarters<T: PlainWord, M: Bounded<T>, S: FourStep<T>>(
    m: &M,
    step: &S,
    xs: &mut [T],
    first: usize,
    q: usize,
)
    requires { IsBlockReady T.number (S.bound step.now) (M.limit m.now) first q xs.old }
    ensures { BlockOfFours (S.done step.now) first q q (numbers T.number xs.old) (numbers T.number xs.new) }
{
    if q == 1 {
        one_column(m, step, xs, first);
    } else {
        let (_before, block) = xs.split_at_mut(first);
        let (low, rest) = block.split_at_mut(q + q);
        let (high, _after) = rest.split_at_mut(q + q);
        halves(m, step, low, high, q);
    }
}
