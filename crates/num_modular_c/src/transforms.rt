//! Transforms and cyclic products of lists of words over any reducer, with the codes that the calls for C return.

ghost use Rattle.std.specs.Prelude.{◌≡◌, ◌≢◌, ℕ, ◌%◌, ◌<◌, ◌≤◌, ◌↔◌, IsTrue, length, slice_index};
ghost use Rattle.modular_transform.specs.Roots.{root_by, IsFirstBase};
ghost use Rattle.num_modular.specs.Inverses.{HasInverse};
ghost use Rattle.num_modular.specs.Transforms.{Suits, transform};
ghost use Rattle.num_modular_c.specs.Codes.{Did, Refused, BothRefused};
ghost use Rattle.num_modular_c.specs.Transforms.{residues, IsInverseTransform, IsConvolution};

use crate::codes::{NM_BAD_ARGUMENT, NM_NO_INVERSE, NM_NO_ROOT, NM_OK};
use crate::lists::{load, unload};
use modular_transform::roots::find_root;
use num_modular::Reducer;
use num_modular::ring::{convolve, intt, ntt, root_fits};

// The code that says whether the root suits lists of n words.
pub(crate) fn root_code<R: Reducer<u64>>(r: &R, root: u64, n: usize) -> u32
    ensures fits { let m = R.modulus r.now in Suits m (root % m) n → result ≡ NM_OK }
    ensures no_root { let m = R.modulus r.now in (Suits m (root % m) n → ⊥) → result ≡ NM_NO_ROOT }
    ensures suits { let m = R.modulus r.now in result ≡ NM_OK → Suits m (root % m) n }
{
    if root_fits(r, &r.transform(root), n) {
        NM_OK
    } else {
        NM_NO_ROOT
    }
}

// Writes a root that suits n words.
pub(crate) fn found_root<R: Reducer<u64>>(r: &R, n: usize, root: &mut u64) -> u32
    ensures did { let m = R.modulus r.now in
        ((x : ℕ) × (2 ≤ x) × (x < 256) × Suits m (root_by m n x) n) →
        Did result ((x : ℕ) × (x < 256) × IsFirstBase m n x × (root.new ≡ root_by m n x)) }
    ensures no_root { let m = R.modulus r.now in
        ((x : ℕ) → 2 ≤ x → x < 256 → Suits m (root_by m n x) n → ⊥) → Refused NM_NO_ROOT result root.old root.new }
{
    match find_root(r, n) {
        Some(form) => {
            *root = r.residue(form);
            NM_OK
        }
        None => NM_NO_ROOT,
    }
}

// Replaces the words by their transform by the root.
pub(crate) fn transformed<R: Reducer<u64>>(r: &R, xs: &mut [u64], root: u64) -> u32
    ensures did { let m = R.modulus r.now in let n = length xs.old in Suits m (root % m) n → Did result
        ((j : ℕ) → j < n → slice_index xs.new j ≡ transform m (root % m) n (residues m xs.old) j) }
    ensures no_root { let m = R.modulus r.now in
        (Suits m (root % m) (length xs.old) → ⊥) → Refused NM_NO_ROOT result xs.old xs.new }
{
    let g = r.transform(root);
    if !root_fits(r, &g, xs.len()) {
        return NM_NO_ROOT;
    }
    load(r, xs);
    ntt(r, xs, &g);
    unload(r, xs);
    NM_OK
}

// Whether a number has an inverse.
fn has_inverse<R: Reducer<u64>>(r: &R, n: usize) -> bool
    ensures { IsTrue result ↔ HasInverse (R.modulus r.now) n }
{
    match r.inv(r.transform(n as u64)) {
        Some(_) => true,
        None => false,
    }
}

// Undoes `transformed`.
pub(crate) fn transformed_back<R: Reducer<u64>>(r: &R, xs: &mut [u64], root: u64) -> u32
    ensures did { let m = R.modulus r.now in let n = length xs.old in Suits m (root % m) n → HasInverse m n → Did result
        (IsInverseTransform m (root % m) n (residues m xs.old) (slice_index xs.new)) }
    ensures no_inverse { let m = R.modulus r.now in let n = length xs.old in
        Suits m (root % m) n → (HasInverse m n → ⊥) → Refused NM_NO_INVERSE result xs.old xs.new }
    ensures no_root { let m = R.modulus r.now in
        (Suits m (root % m) (length xs.old) → ⊥) → Refused NM_NO_ROOT result xs.old xs.new }
{
    let g = r.transform(root);
    if !root_fits(r, &g, xs.len()) {
        return NM_NO_ROOT;
    }
    // `intt` tests this too, when the words are forms already.
    if !has_inverse(r, xs.len()) {
        return NM_NO_INVERSE;
    }
    load(r, xs);
    let _always = intt(r, xs, &g);
    unload(r, xs);
    NM_OK
}

// Replaces the first list by the cyclic product of both lists, and the second by its transform.
fn convolved<R: Reducer<u64>>(r: &R, xs: &mut [u64], ys: &mut [u64], root: u64)
    requires equal { length ys.old ≡ length xs.old }
    requires suits { let m = R.modulus r.now in Suits m (root % m) (length xs.old) }
    requires inverse { HasInverse (R.modulus r.now) (length xs.old) }
    ensures { let m = R.modulus r.now in IsConvolution m (root % m) (length xs.old)
        (residues m xs.old) (residues m ys.old) (slice_index xs.new) (slice_index ys.new) }
{
    let g = r.transform(root);
    load(r, xs);
    load(r, ys);
    let _always = convolve(r, xs, ys, &g);
    unload(r, xs);
    unload(r, ys);
}

// `convolved`, after a test of its conditions.
pub(crate) fn multiplied<R: Reducer<u64>>(r: &R, xs: &mut [u64], ys: &mut [u64], root: u64) -> u32
    ensures did { let m = R.modulus r.now in let n = length xs.old in
        length ys.old ≡ n → Suits m (root % m) n → HasInverse m n → Did result
        (IsConvolution m (root % m) n (residues m xs.old) (residues m ys.old)
        (slice_index xs.new) (slice_index ys.new)) }
    ensures no_inverse { let m = R.modulus r.now in let n = length xs.old in
        length ys.old ≡ n → Suits m (root % m) n → (HasInverse m n → ⊥)
        → BothRefused NM_NO_INVERSE result xs.old xs.new ys.old ys.new }
    ensures no_root { let m = R.modulus r.now in let n = length xs.old in
        length ys.old ≡ n → (Suits m (root % m) n → ⊥)
        → BothRefused NM_NO_ROOT result xs.old xs.new ys.old ys.new }
    ensures bad_argument { length ys.old ≢ length xs.old
        → BothRefused NM_BAD_ARGUMENT result xs.old xs.new ys.old ys.new }
{
    if xs.len() != ys.len() {
        return NM_BAD_ARGUMENT;
    }
    if !root_fits(r, &r.transform(root), xs.len()) {
        return NM_NO_ROOT;
    }
    if !has_inverse(r, xs.len()) {
        return NM_NO_INVERSE;
    }
    convolved(r, xs, ys, root);
    NM_OK
}
