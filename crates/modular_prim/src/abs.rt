//! Residues of signed numbers.

ghost use Rattle.std.specs.Prelude.{◌≡◌, ◌≤◌, Bool, if◌then◌else◌, pos, neg_ℤ};
ghost use Rattle.modular_word.specs.Residues.{residue};

use crate::below::neg_below;
use crate::operations::ModularAbs;
use crate::plain_word::PlainWord;
use crate::residues::reduced;

/// The residue of a signed number, given by its sign and its magnitude.
///
/// # Conditions
///
/// - m is at least 1
// rust: #[cfg_attr(debug_assertions, track_caller)]
#[tactic(auto, using(crate::proofs::ResidueSteps::neg_of_rest))]
pub fn signed_residue<T: PlainWord>(negative: bool, magnitude: T, m: T) -> T
    requires { 1 ≤ T.number m }
    ensures { T.number result
        ≡ residue (T.number m) (if negative then neg_ℤ (pos (T.number magnitude)) else pos (T.number magnitude)) }
{
    let rest = reduced(magnitude, m);
    if negative { neg_below(rest, m) } else { rest }
}

impl ModularAbs<u8> for i8 {
    // rust: #[cfg_attr(debug_assertions, track_caller)]
    fn absm(self, m: &u8) -> u8 {
        signed_residue(self < 0, self.unsigned_abs(), *m)
    }
}

impl ModularAbs<u16> for i16 {
    // rust: #[cfg_attr(debug_assertions, track_caller)]
    fn absm(self, m: &u16) -> u16 {
        signed_residue(self < 0, self.unsigned_abs(), *m)
    }
}

impl ModularAbs<u32> for i32 {
    // rust: #[cfg_attr(debug_assertions, track_caller)]
    fn absm(self, m: &u32) -> u32 {
        signed_residue(self < 0, self.unsigned_abs(), *m)
    }
}

impl ModularAbs<u64> for i64 {
    // rust: #[cfg_attr(debug_assertions, track_caller)]
    fn absm(self, m: &u64) -> u64 {
        signed_residue(self < 0, self.unsigned_abs(), *m)
    }
}

// rust: #[cfg(target_pointer_width = "64")]
impl ModularAbs<usize> for isize {
    // rust: #[cfg_attr(debug_assertions, track_caller)]
    fn absm(self, m: &usize) -> usize {
        signed_residue(self < 0, self.unsigned_abs(), *m)
    }
}

impl ModularAbs<u128> for i128 {
    // rust: #[cfg_attr(debug_assertions, track_caller)]
    fn absm(self, m: &u128) -> u128 {
        signed_residue_128(self < 0, self.unsigned_abs(), *m)
    }
}

// The residue of a signed number of 128 bits, whose words have no double words. Condition: the modulus is at least 1.
// rust: #[cfg_attr(debug_assertions, track_caller)]
fn signed_residue_128(negative: bool, magnitude: u128, m: u128) -> u128
    requires { 1 ≤ m }
    ensures { result ≡ residue m (if negative then neg_ℤ (pos magnitude) else pos magnitude) }
{
    // rust: assert!(m != 0, "the modulus must be at least 1");
    let rest = magnitude % m;
    if !negative {
        rest
    } else if rest == 0 {
        0
    } else {
        m - rest
    }
}
