//! Roots for transforms, found among the powers of small numbers.

ghost use Rattle.std.specs.Prelude.{◌≡◌, ℕ, ◌-◌, ◌/◌, ◌<◌, ◌≤◌, MatchOption};
ghost use Rattle.std.specs.Int.{IsPowerOfTwo};
ghost use Rattle.modular_reduced.specs.Forms.{IsForm};
ghost use Rattle.modular_transform.specs.Transforms.{Suits};
ghost use Rattle.modular_transform.specs.Roots.{root_by, IsFirstBase};

use crate::transform::root_fits;
use modular_reduced::reducer::Reducer;
use modular_word::ring_word::RingWord;

// (m - 1) / n, rounded down. Condition: n is a power of two.
#[tactic(auto, using(crate::proofs::SmallBases::residue_of_minus_one, crate::proofs::SmallBases::halved_once_more))]
fn exponent<T: RingWord, R: Reducer<T>>(r: &R, n: usize) -> T
    requires { IsPowerOfTwo n }
    ensures { T.number result ≡ (R.modulus r.now - 1) / n }
{
    let mut rest = r.residue(r.neg(r.transform(T::one())));
    'halvings: for _done in 0..n.trailing_zeros() {
        rest = rest.half();
    }
    rest
}

/// The form of a root that suits n entries: x to the power (m - 1) / n, rounded down, for the least x from 2 to 255 for
/// which it does.
///
/// `None` exactly where there is none: it does for none of these x, as where n is no power of two.
///
/// For a prime m and an n above 1 that divides m - 1 these are the x that aren't squares modulo m.
///
/// Source: Pollard, "The fast Fourier transform in a finite field", section 3.
///
/// # Examples
///
/// ```
/// use num_modular::ring::find_root;
/// use num_modular::{Reducer, Vanilla};
///
/// let ring = Vanilla::<u64>::new(&17);
/// assert_eq!(find_root(&ring, 8), Some(9)); // 3^2, and 9^4 = 386 * 17 - 1
/// assert_eq!(find_root(&ring, 32), None);
/// ```
#[tactic(auto, using(crate::proofs::PowersOfTwo::power_of_two_tested))]
pub fn find_root<T: RingWord, R: Reducer<T>>(r: &R, n: usize) -> Option<T>
    ensures { let m = R.modulus r.now in MatchOption result
        ((x : ℕ) → 2 ≤ x → x < 256 → Suits m (root_by m n x) n → ⊥)
        (λ g. IsForm R.form R.value m (T.number g)
        × ((x : ℕ) × (x < 256) × IsFirstBase m n x × (R.value m (T.number g) ≡ root_by m n x))) }
{
    if !n.is_power_of_two() {
        return None;
    }
    let exponent = exponent::<T, R>(r, n);
    let one = r.transform(T::one());
    let mut base = one;
    'bases: for _x in 2u32..256 {
        base = r.add(&base, &one);
        let g = r.pow(base, &exponent);
        if root_fits(r, &g, n) {
            return Some(g);
        }
    }
    None
}
