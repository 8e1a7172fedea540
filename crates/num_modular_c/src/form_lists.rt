//! Operations on lists of Montgomery forms, entry by entry, given a context.

ghost use Rattle.std.specs.Prelude.{◌≡◌, ℕ, ◌+◌, ◌*◌, ◌%◌, ◌<◌, ◌↔◌, IsTrue, All, pos, ◌-ℤ◌, length, slice_index, MatchResult};
ghost use Rattle.num_modular.specs.Residues.{residue};
ghost use Rattle.num_modular.specs.Sums.{sum_below};
ghost use Rattle.num_modular_c.specs.Codes.{Did, Refused};
ghost use Rattle.num_modular_c.specs.Contexts.{IsContextFault, IsMontgomery, IsMontgomeryForm, IsMontgomeryFormOf, value_of};
ghost use Rattle.num_modular_c.specs.Lists.{AreForms, AreFormLists};

use crate::codes::{NM_BAD_ARGUMENT, NM_BAD_CONTEXT, NM_OK};
use crate::montgomery::{NmMontgomery, reducer, reducer_with_form};
use num_modular::ring::{
    add_lists, all_checked, dot_product, multiply_lists, scale_list, sub_lists,
};
// rust instead: use crate::Montgomery;
use num_modular::{Montgomery, Reducer};

// Whether the words are forms: they are below the modulus.
fn are_forms(ring: &Montgomery<u64>, words: &[u64]) -> bool
    ensures below { IsTrue result ↔ AreForms (⟦<Montgomery<u64> as Reducer<u64>>⟧.modulus ring.now) words.now }
    ensures forms { IsTrue result
        → All (IsMontgomeryForm (⟦<Montgomery<u64> as Reducer<u64>>⟧.modulus ring.now)) words.now }
{
    all_checked(ring, words)
}

// Whether both lists are forms, and equally long.
fn are_form_lists(ring: &Montgomery<u64>, xs: &[u64], ys: &[u64]) -> bool
    ensures fit { IsTrue result
        ↔ AreFormLists (⟦<Montgomery<u64> as Reducer<u64>>⟧.modulus ring.now) xs.now ys.now }
    ensures equal { IsTrue result → length ys.now ≡ length xs.now }
    ensures forms { let m = ⟦<Montgomery<u64> as Reducer<u64>>⟧.modulus ring.now in
        IsTrue result → All (IsMontgomeryForm m) xs.now × All (IsMontgomeryForm m) ys.now }
{
    if ys.len() != xs.len() || !are_forms(ring, xs) {
        return false;
    }
    are_forms(ring, ys)
}

// The reducer of a context over which two lists are equally long lists of forms, or the code that says what is wrong.
fn reducer_with_lists(
    context: &NmMontgomery,
    xs: &[u64],
    ys: &[u64],
) -> Result<Montgomery<u64>, u32>
    ensures { let m = context.now.modulus in MatchResult result
        (λ r. (m ≡ ⟦<Montgomery<u64> as Reducer<u64>>⟧.modulus r) × IsMontgomery context.now
        × AreFormLists m xs.now ys.now × All (IsMontgomeryForm m) xs.now × All (IsMontgomeryForm m) ys.now)
        (IsContextFault context.now (AreFormLists m xs.now ys.now)) }
{
    let Some(ring) = reducer(context) else {
        return Err(NM_BAD_CONTEXT);
    };
    if !are_form_lists(&ring, xs, ys) {
        return Err(NM_BAD_ARGUMENT);
    }
    Ok(ring)
}

/// Replaces each form of the first list by that of its sum with the form of the second list at the same index.
/// `NM_BAD_CONTEXT`: the context isn't one that `nm_montgomery` makes. `NM_BAD_ARGUMENT`: the lengths differ, or a word
/// isn't below m, and so is no form.
#[unsafe(no_mangle)]
pub extern "C" fn nm_montgomery_add_lists(context: &NmMontgomery, xs: &mut [u64], ys: &[u64]) -> u32
    ensures did { let m = context.now.modulus in IsMontgomery context.now → AreFormLists m xs.old ys.now
        → Did result ((i : ℕ) → i < length xs.old → IsMontgomeryFormOf m (slice_index xs.new i)
        ((value_of m (slice_index xs.old i) + value_of m (slice_index ys.now i)) % m)) }
    ensures bad_argument { IsMontgomery context.now → (AreFormLists context.now.modulus xs.old ys.now → ⊥)
        → Refused NM_BAD_ARGUMENT result xs.old xs.new }
    ensures bad_context { (IsMontgomery context.now → ⊥) → Refused NM_BAD_CONTEXT result xs.old xs.new }
{
    let ring = match reducer_with_lists(context, xs, ys) {
        Ok(ring) => ring,
        Err(code) => return code,
    };
    add_lists(&ring, xs, ys);
    NM_OK
}

/// Replaces each form of the first list by that of its difference from the form of the second list at the same index. The
/// codes are those of `nm_montgomery_add_lists`.
#[unsafe(no_mangle)]
pub extern "C" fn nm_montgomery_sub_lists(context: &NmMontgomery, xs: &mut [u64], ys: &[u64]) -> u32
    ensures did { let m = context.now.modulus in IsMontgomery context.now → AreFormLists m xs.old ys.now
        → Did result ((i : ℕ) → i < length xs.old → IsMontgomeryFormOf m (slice_index xs.new i)
        (residue m (pos (value_of m (slice_index xs.old i)) -ℤ pos (value_of m (slice_index ys.now i))))) }
    ensures bad_argument { IsMontgomery context.now → (AreFormLists context.now.modulus xs.old ys.now → ⊥)
        → Refused NM_BAD_ARGUMENT result xs.old xs.new }
    ensures bad_context { (IsMontgomery context.now → ⊥) → Refused NM_BAD_CONTEXT result xs.old xs.new }
{
    let ring = match reducer_with_lists(context, xs, ys) {
        Ok(ring) => ring,
        Err(code) => return code,
    };
    sub_lists(&ring, xs, ys);
    NM_OK
}

/// Replaces each form of the first list by that of its product with the form of the second list at the same index. The
/// codes are those of `nm_montgomery_add_lists`.
#[unsafe(no_mangle)]
pub extern "C" fn nm_montgomery_multiply_lists(
    context: &NmMontgomery,
    xs: &mut [u64],
    ys: &[u64],
) -> u32
    ensures did { let m = context.now.modulus in IsMontgomery context.now → AreFormLists m xs.old ys.now
        → Did result ((i : ℕ) → i < length xs.old → IsMontgomeryFormOf m (slice_index xs.new i)
        ((value_of m (slice_index xs.old i) * value_of m (slice_index ys.now i)) % m)) }
    ensures bad_argument { IsMontgomery context.now → (AreFormLists context.now.modulus xs.old ys.now → ⊥)
        → Refused NM_BAD_ARGUMENT result xs.old xs.new }
    ensures bad_context { (IsMontgomery context.now → ⊥) → Refused NM_BAD_CONTEXT result xs.old xs.new }
{
    let ring = match reducer_with_lists(context, xs, ys) {
        Ok(ring) => ring,
        Err(code) => return code,
    };
    multiply_lists(&ring, xs, ys);
    NM_OK
}

/// Replaces each form by that of its product with the factor, a form. The codes are those of `nm_montgomery_add_lists`.
#[unsafe(no_mangle)]
pub extern "C" fn nm_montgomery_scale_list(
    context: &NmMontgomery,
    xs: &mut [u64],
    factor: u64,
) -> u32
    ensures did { let m = context.now.modulus in IsMontgomery context.now → AreForms m xs.old → factor < m
        → Did result ((i : ℕ) → i < length xs.old → IsMontgomeryFormOf m (slice_index xs.new i)
        ((value_of m (slice_index xs.old i) * value_of m factor) % m)) }
    ensures bad_argument { let m = context.now.modulus in
        IsMontgomery context.now → (AreForms m xs.old × (factor < m) → ⊥)
        → Refused NM_BAD_ARGUMENT result xs.old xs.new }
    ensures bad_context { (IsMontgomery context.now → ⊥) → Refused NM_BAD_CONTEXT result xs.old xs.new }
{
    let ring = match reducer_with_form(context, factor) {
        Ok(ring) => ring,
        Err(code) => return code,
    };
    if !are_forms(&ring, xs) {
        return NM_BAD_ARGUMENT;
    }
    scale_list(&ring, xs, &factor);
    NM_OK
}

/// Writes the form of the sum of the products of the forms at the same index, that of 0 for empty lists. The codes are those
/// of `nm_montgomery_add_lists`.
#[unsafe(no_mangle)]
pub extern "C" fn nm_montgomery_dot_product(
    context: &NmMontgomery,
    xs: &[u64],
    ys: &[u64],
    product: &mut u64,
) -> u32
    ensures did { let m = context.now.modulus in IsMontgomery context.now → AreFormLists m xs.now ys.now
        → Did result (IsMontgomeryFormOf m product.new (sum_below (length xs.now)
        (λ i. value_of m (slice_index xs.now i) * value_of m (slice_index ys.now i)) % m)) }
    ensures bad_argument { IsMontgomery context.now → (AreFormLists context.now.modulus xs.now ys.now → ⊥)
        → Refused NM_BAD_ARGUMENT result product.old product.new }
    ensures bad_context { (IsMontgomery context.now → ⊥) → Refused NM_BAD_CONTEXT result product.old product.new }
{
    let ring = match reducer_with_lists(context, xs, ys) {
        Ok(ring) => ring,
        Err(code) => return code,
    };
    *product = dot_product(&ring, xs, ys);
    NM_OK
}
