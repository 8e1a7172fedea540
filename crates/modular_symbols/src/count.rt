//! The definition of the Jacobi symbol as a program, simple and slow.
//!
//! The tests compare the fast calls with it; the library doesn't use it.

ghost use Rattle.std.specs.Prelude.{◌≡◌, ◌%◌, pos};
ghost use Rattle.modular_symbols.specs.Jacobi.{jacobi};
ghost use Rattle.modular_symbols.specs.Kronecker.{signed};

use modular_prim::abs::signed_residue;
use modular_prim::euclid::invm;
use modular_prim::plain_word::PlainWord;
use modular_prim::residues::mulm;
// rattle: line
use modular_word::path_word::PathWord;
// rattle: line
use modular_word::ring_word::RingWord;

/// The Jacobi symbol over n of a number, given by its sign and its magnitude: -1, 0 or 1, by a count of residues of
/// the half system 1, .., (n - 1)/2.
///
/// Source: Schering, "Zur Theorie der quadratischen Reste" (Gauss's lemma over any odd number).
///
/// # Preconditions
///
/// - n is odd
#[tactic(auto, using(crate::proofs::CountSteps::counted_none))]
pub fn jacobi_by_count<T: PlainWord>(a_minus: bool, a: T, n: T) -> i8
    requires { T.number n % 2 ≡ 1 }
    ensures { result ≡ jacobi (signed a_minus (pos (T.number a))) (T.number n) }
{
    if invm(a, n).is_none() {
        return 0;
    }
    let residue = signed_residue(a_minus, a, n);
    let half = n.half();
    let mut x = T::zero();
    let mut odd = false;
    'half_system: while x.is_below(half) {
        x = x.plus(T::one());
        odd ^= half.is_below(mulm(residue, x, n));
    }
    if odd { -1 } else { 1 }
}
