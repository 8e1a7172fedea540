//! What a plan requires: a root that suits, and its powers; and the inverses of powers of two.

ghost use Rattle.std.specs.Prelude.{◌≡◌, ◌+◌, ◌*◌, ◌%◌, ◌^◌, ◌<◌, ◌↔◌, IsTrue, MatchOption};
ghost use Rattle.std.specs.Int.{IsPowerOfTwo};
ghost use Rattle.modular_word.specs.Inverses.{HasInverse, IsInverse};
ghost use Rattle.modular_plan_passes.specs.Factors.{IsFactorOf};
ghost use Rattle.modular_transform.specs.Transforms.{Suits};

use modular_plan_passes::factor::Factor;
use modular_plan_passes::modulus::PlannedModulus;
use modular_prim::plain_word::PlainWord;
// rattle: line
use modular_word::path_word::PathWord;
// rattle: line
use modular_word::ring_word::RingWord;

// The power of g to the exponent `count`, below m, by squarings.
#[tactic(auto, using(crate::proofs::PlanFields::field_residue_below_modulus, crate::proofs::PlanFields::square_of_power))]
pub(crate) fn power<T: PlainWord>(m: &PlannedModulus<T>, g: T, count: usize) -> T
    requires below { T.number g < T.number m.now.modulus }
    requires power_of_two { IsPowerOfTwo count }
    ensures { T.number result ≡ T.number g ^ count % T.number m.now.modulus }
{
    let mut power = g;
    'squares: for _done in 0..count.trailing_zeros() {
        power = m.multiply(power, power);
    }
    power
}

// Whether a number below m is congruent to -1.
fn is_minus_one<T: PlainWord>(m: &PlannedModulus<T>, x: T) -> bool
    requires { T.number x < T.number m.now.modulus }
    ensures { IsTrue result ↔ (T.number x + 1 ≡ T.number m.now.modulus) }
{
    x.plus(T::one()) == m.modulus
}

// Whether g is below m and suits transforms of 2·count entries.
#[tactic(auto, using(modular_plan_passes::proofs::Tables::half_is_power_of_two, modular_transform::proofs::PowersOfTwo::power_of_two_tested))]
pub(crate) fn suits<T: PlainWord>(m: &PlannedModulus<T>, g: T, count: usize) -> bool
    ensures { IsTrue result ↔ ((T.number g < T.number m.now.modulus)
        × Suits (T.number m.now.modulus) (T.number g) (2 * count)) }
{
    if !g.is_below(m.modulus) {
        return false;
    }
    if !count.is_power_of_two() {
        return false;
    }
    is_minus_one(m, power(m, g, count))
}

// Half of a number below m, modulo an odd m.
fn halved<T: PlainWord>(m: &PlannedModulus<T>, x: T) -> T
    requires odd { T.number m.now.modulus % 2 ≡ 1 }
    requires below { T.number x < T.number m.now.modulus }
    ensures below { T.number result < T.number m.now.modulus }
    ensures twice { 2 * T.number result % T.number m.now.modulus ≡ T.number x }
{
    if x.is_odd() {
        x.plus(m.modulus).half()
    } else {
        x.half()
    }
}

// The inverse of 2^bits modulo an odd m, by halvings of 1.
#[tactic(auto, using(crate::proofs::PlanFields::field_residue_below_modulus, crate::proofs::PlanFields::half_inverse))]
pub(crate) fn inverse_of_power<T: PlainWord>(m: &PlannedModulus<T>, bits: u32) -> T
    requires { T.number m.now.modulus % 2 ≡ 1 }
    ensures { IsInverse (T.number m.now.modulus) (2 ^ bits) (T.number result) }
{
    let mut part = m.residue(T::one());
    'halvings: for _done in 0..bits {
        part = halved(m, part);
    }
    part
}

/// The factor of the inverse of a number of blocks modulo m, with which [`join_scaled`] divides by that number.
///
/// `None` exactly where there is no inverse: m is even, and there are two blocks or more.
///
/// Source: halvings of 1.
///
/// # Preconditions
///
/// - the number is a power of two
#[tactic(auto, using(crate::proofs::PlanFields::no_inverse_modulo_even, modular_transform::proofs::PowersOfTwo::power_by_zeros, std::proofs::lemmas::Nat::pow_pos))]
pub fn inverse_of_count<T: PlainWord>(m: &PlannedModulus<T>, count: usize) -> Option<Factor<T>>
    requires { IsPowerOfTwo count }
    ensures { MatchOption result (HasInverse (T.number m.now.modulus) count → ⊥)
        (λ part. IsFactorOf T.base T.number (T.number m.now.modulus) part
        × IsInverse (T.number m.now.modulus) count (T.number part.value)) }
{
    if m.modulus.is_odd() {
        Some(m.factor(inverse_of_power(m, count.trailing_zeros())))
    } else if count == 1 {
        Some(m.factor(m.residue(T::one())))
    } else {
        None
    }
}
