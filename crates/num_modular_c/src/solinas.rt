//! Transforms and cyclic products of lists of words modulo 2^64 - 2^32 + 1.

ghost use Rattle.std.specs.Prelude.{◌≡◌, ◌≢◌, ℕ, ◌%◌, ◌<◌, ◌≤◌, length, slice_index};
ghost use Rattle.modular_transform.specs.Roots.{root_by, IsFirstBase};
ghost use Rattle.num_modular.specs.Inverses.{HasInverse};
ghost use Rattle.num_modular.specs.Transforms.{Suits, transform};
ghost use Rattle.num_modular_c.specs.Codes.{Did, Refused, BothRefused};
ghost use Rattle.num_modular_c.specs.Transforms.{residues, IsInverseTransform, IsConvolution};

// rattle: line
use crate::codes::{NM_BAD_ARGUMENT, NM_NO_INVERSE, NM_NO_ROOT, NM_OK};
use crate::transforms::{found_root, multiplied, root_code, transformed, transformed_back};
use num_modular::{FixedTrinomialSolinas64, Reducer};

/// The prime 2^64 - 2^32 + 1.
pub const NM_SOLINAS: u64 = 18446744069414584321;

// The reducer of that prime.
fn solinas() -> FixedTrinomialSolinas64<64, 32, 1>
    ensures { ⟦<FixedTrinomialSolinas64<64, 32, 1> as Reducer<u64>>⟧.modulus result ≡ NM_SOLINAS }
{
    <FixedTrinomialSolinas64<64, 32, 1> as Reducer<u64>>::new(&NM_SOLINAS)
}

/// Whether the root suits lists of n = `length` words: n is a power of two, and for n above 1 the root to the
/// power n/2 is -1 modulo 2^64 - 2^32 + 1. `NM_NO_ROOT`: it doesn't.
#[unsafe(no_mangle)]
pub extern "C" fn nm_solinas_root_fits(root: u64, length: usize) -> u32
    ensures fits { Suits NM_SOLINAS (root % NM_SOLINAS) length → result ≡ NM_OK }
    ensures no_root { (Suits NM_SOLINAS (root % NM_SOLINAS) length → ⊥) → result ≡ NM_NO_ROOT }
{
    root_code(&solinas(), root, length)
}

/// Writes a root that suits lists of n = `length` words: x to the power (m - 1)/n, rounded down, for the least x from 2
/// to 255 for which it does, m being 2^64 - 2^32 + 1. `NM_NO_ROOT`: it does for no x, as where n is no power of two.
#[unsafe(no_mangle)]
pub extern "C" fn nm_solinas_find_root(length: usize, root: &mut u64) -> u32
    ensures did { ((x : ℕ) × (2 ≤ x) × (x < 256) × Suits NM_SOLINAS (root_by NM_SOLINAS length x) length) → Did result
        ((x : ℕ) × (x < 256) × IsFirstBase NM_SOLINAS length x × (root.new ≡ root_by NM_SOLINAS length x)) }
    ensures no_root { ((x : ℕ) → 2 ≤ x → x < 256 → Suits NM_SOLINAS (root_by NM_SOLINAS length x) length → ⊥)
        → Refused NM_NO_ROOT result root.old root.new }
{
    found_root(&solinas(), length, root)
}

/// Replaces the words by their transform by the root: entry j is the sum of x_i·root^(i·j) modulo 2^64 - 2^32 + 1.
/// `NM_NO_ROOT`: the root doesn't suit the length.
#[unsafe(no_mangle)]
pub extern "C" fn nm_solinas_ntt(xs: &mut [u64], root: u64) -> u32
    ensures did { let g = root % NM_SOLINAS in let n = length xs.old in Suits NM_SOLINAS g n → Did result
        ((j : ℕ) → j < n → slice_index xs.new j ≡ transform NM_SOLINAS g n (residues NM_SOLINAS xs.old) j) }
    ensures no_root { (Suits NM_SOLINAS (root % NM_SOLINAS) (length xs.old) → ⊥)
        → Refused NM_NO_ROOT result xs.old xs.new }
{
    transformed(&solinas(), xs, root)
}

/// Undoes `nm_solinas_ntt`: replaces the words by the residues modulo 2^64 - 2^32 + 1 whose transform by the root they are.
/// `NM_NO_ROOT`: the root doesn't suit the length. `NM_NO_INVERSE`: the length has no inverse.
#[unsafe(no_mangle)]
pub extern "C" fn nm_solinas_intt(xs: &mut [u64], root: u64) -> u32
    ensures did { let g = root % NM_SOLINAS in let n = length xs.old in
        Suits NM_SOLINAS g n → HasInverse NM_SOLINAS n → Did result
        (IsInverseTransform NM_SOLINAS g n (residues NM_SOLINAS xs.old) (slice_index xs.new)) }
    ensures no_inverse { let n = length xs.old in
        Suits NM_SOLINAS (root % NM_SOLINAS) n → (HasInverse NM_SOLINAS n → ⊥)
        → Refused NM_NO_INVERSE result xs.old xs.new }
    ensures no_root { (Suits NM_SOLINAS (root % NM_SOLINAS) (length xs.old) → ⊥)
        → Refused NM_NO_ROOT result xs.old xs.new }
{
    transformed_back(&solinas(), xs, root)
}

/// Replaces the first list by the cyclic product of both lists modulo 2^64 - 2^32 + 1, and the second by its
/// transform by the root. `NM_BAD_ARGUMENT`: the lengths differ. `NM_NO_ROOT`: the root doesn't suit them.
/// `NM_NO_INVERSE`: the length has no inverse.
#[unsafe(no_mangle)]
pub extern "C" fn nm_solinas_convolve(xs: &mut [u64], ys: &mut [u64], root: u64) -> u32
    ensures did { let g = root % NM_SOLINAS in let n = length xs.old in
        length ys.old ≡ n → Suits NM_SOLINAS g n → HasInverse NM_SOLINAS n → Did result
        (IsConvolution NM_SOLINAS g n (residues NM_SOLINAS xs.old) (residues NM_SOLINAS ys.old)
        (slice_index xs.new) (slice_index ys.new)) }
    ensures no_inverse { let n = length xs.old in
        length ys.old ≡ n → Suits NM_SOLINAS (root % NM_SOLINAS) n → (HasInverse NM_SOLINAS n → ⊥)
        → BothRefused NM_NO_INVERSE result xs.old xs.new ys.old ys.new }
    ensures no_root { let n = length xs.old in
        length ys.old ≡ n → (Suits NM_SOLINAS (root % NM_SOLINAS) n → ⊥)
        → BothRefused NM_NO_ROOT result xs.old xs.new ys.old ys.new }
    ensures bad_argument { length ys.old ≢ length xs.old
        → BothRefused NM_BAD_ARGUMENT result xs.old xs.new ys.old ys.new }
{
    multiplied(&solinas(), xs, ys, root)
}
