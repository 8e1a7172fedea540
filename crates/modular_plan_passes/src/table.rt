//! The table of a root: its powers, as factors, in memory that the caller owns.

ghost use Rattle.std.specs.Prelude.{◌≡◌, ℕ, ◌+◌, ◌*◌, ◌/◌, ◌%◌, ◌^◌, ◌<◌, All, length};
ghost use Rattle.modular_transform.specs.Transforms.{Suits};
ghost use Rattle.modular_plan_passes.specs.Factors.{AllFactors};
ghost use Rattle.modular_plan_passes.specs.Plans.{numbers, AreTwiddles};

use crate::factor::PlanEntry;
use crate::modulus::PlannedModulus;
use modular_prim::plain_word::PlainWord;
// rattle: line
use modular_word::path_word::PathWord;
// rattle: line
use modular_word::ring_word::RingWord;

/// Fills the table of g for n = 2·length entries: entry k becomes the factor of g to the power of the reversed bits of
/// k (the twiddle factors, in bit-reversed order).
///
/// So its first entries are the table for fewer entries, of the power of g that suits them.
///
/// The table isn't empty, since 0 isn't a power of two; the Cargo crate leaves an empty one as it is, whatever g
/// is.
///
/// # Conditions
///
/// - g is below m
/// - g suits n entries, n being a power of two
///
/// # Examples
///
/// ```
/// use num_modular::plans::{fill_table, Factor, PlannedModulus};
///
/// let modulus = PlannedModulus::<u64>::new(17);
/// let mut table = [Factor::<u64>::ZERO; 4];
/// fill_table(&modulus, 2, &mut table); // 2^4 = 17 - 1
/// assert_eq!(table.map(|factor| factor.value()), [1, 2 * 2, 2, 2 * 2 * 2]);
/// ```
// rust: #[track_caller]
#[tactic(auto, using(crate::proofs::Doublings::holds_below_next, crate::proofs::Doublings::same_factor))]
pub fn fill_table<T: PlainWord, F: PlanEntry<T>>(m: &PlannedModulus<T>, g: T, table: &mut [F])
    requires below { T.number g < T.number m.now.modulus }
    requires suits { Suits (T.number m.now.modulus) (T.number g) (2 * length table.old) }
    ensures factors { AllFactors T.base (T.number m.now.modulus) F.value F.quotient table.new }
    ensures twiddles { (z : ℕ) → 2 ^ z ≡ 2 * length table.old →
        AreTwiddles (T.number m.now.modulus) (T.number g) z (length table.old) (numbers F.value table.new) }
    ensures first { let modulus = T.number m.now.modulus in (y d : ℕ) → 2 ^ (y + d) ≡ 2 * length table.old →
        AreTwiddles modulus (T.number g ^ (2 ^ d) % modulus) y (2 ^ y / 2) (numbers F.value table.new) }
{
    // rust: if table.is_empty() {
    // rust:     return;
    // rust: }
    // rust: assert!(g.is_below(m.modulus), "g must be below m: {} and {}", crate::additions::number(g),
    // rust:     crate::additions::number(m.modulus));
    table[0] = F::entry(m.factor(m.residue(T::one())));
    let bits = table.len().trailing_zeros();
    // The indexes with a single bit set: the highest gets g, and each lower one the square of the last.
    let mut power = g;
    let mut place = table.len();
    'squares: for _bit in 0..bits {
        let factor = m.factor(power);
        place /= 2;
        table[place] = F::entry(factor);
        power = m.product(power, &factor);
    }
    // rust: assert!(table.len().is_power_of_two() && power.wrapping_add(T::one()) == m.modulus,
    // rust:     "g must suit n entries, n being a power of two: n = {}, m = {}, g = {}", 2 * table.len(),
    // rust:     crate::additions::number(m.modulus), crate::additions::number(g));
    // The reversed bits of count + other are the sum of those of both, so that the power is a product. No product
    // waits for the one just before it.
    let mut count = 1;
    'doublings: for _bit in 0..bits {
        let factor = table[count].factor();
        'others: for other in 1..count {
            let power = m.product(table[other].factor().value, &factor);
            table[count + other] = F::entry(m.factor(power));
        }
        count *= 2;
    }
}
