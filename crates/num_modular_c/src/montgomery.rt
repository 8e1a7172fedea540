//! Montgomery's representation modulo m, by a context that is precomputed of m.

ghost use Rattle.std.specs.Prelude.{◌≡◌, ◌+◌, ◌*◌, ◌%◌, ◌^◌, ◌<◌, ◌≤◌, ◌↔◌, IsTrue, pos, ◌-ℤ◌, MatchOption, MatchResult};
ghost use Rattle.num_modular.specs.Inverses.{HasInverse, IsInverse};
ghost use Rattle.num_modular.specs.Residues.{residue};
ghost use Rattle.num_modular_c.specs.Codes.{Did, Refused};
ghost use Rattle.num_modular_c.specs.Contexts.{IsContextFault, IsMontgomery, IsMontgomeryForm, IsMontgomeryFormOf, value_of};

use crate::codes::{NM_BAD_ARGUMENT, NM_BAD_CONTEXT, NM_NO_INVERSE, NM_OK};
use num_modular::{Montgomery, Reducer};

/// A modulus m and what `nm_montgomery` precomputes of it.
#[repr(C)]
#[derive(Clone, Copy)]
// rust: #[must_use]
pub struct NmMontgomery {
    /// The modulus.
    pub modulus: u64,
    /// The number whose product with the odd part of m is -1 modulo 2^64.
    pub negated_inverse: u64,
    /// 2^128 modulo the odd part of m.
    pub square: u64,
}

// The reducer of a context; `None` where its numbers aren't those of its modulus.
pub(crate) fn reducer(context: &NmMontgomery) -> Option<Montgomery<u64>>
    ensures { MatchOption result (IsMontgomery context.now → ⊥)
        (λ r. (⟦<Montgomery<u64> as Reducer<u64>>⟧.modulus r ≡ context.now.modulus) × IsMontgomery context.now) }
{
    Montgomery::restored(context.modulus, context.negated_inverse, context.square)
}

// The reducer of a context over which a word is a form, or the code that says what is wrong.
pub(crate) fn reducer_with_form(context: &NmMontgomery, form: u64) -> Result<Montgomery<u64>, u32>
    ensures { let m = context.now.modulus in MatchResult result
        (λ r. (m ≡ ⟦<Montgomery<u64> as Reducer<u64>>⟧.modulus r) × IsMontgomery context.now × (form < m)
        × IsMontgomeryForm m form)
        (IsContextFault context.now (form < m)) }
{
    let Some(ring) = reducer(context) else {
        return Err(NM_BAD_CONTEXT);
    };
    if !is_form(&ring, form) {
        return Err(NM_BAD_ARGUMENT);
    }
    Ok(ring)
}

// The same for two words.
fn reducer_with_forms(context: &NmMontgomery, a: u64, b: u64) -> Result<Montgomery<u64>, u32>
    ensures { let m = context.now.modulus in MatchResult result
        (λ r. (m ≡ ⟦<Montgomery<u64> as Reducer<u64>>⟧.modulus r) × IsMontgomery context.now × (a < m) × (b < m)
        × IsMontgomeryForm m a × IsMontgomeryForm m b)
        (IsContextFault context.now ((a < m) × (b < m))) }
{
    match reducer_with_form(context, a) {
        Err(code) => Err(code),
        Ok(ring) => {
            if !is_form(&ring, b) {
                return Err(NM_BAD_ARGUMENT);
            }
            Ok(ring)
        }
    }
}

// Whether a word is a form: it is below the modulus.
pub(crate) fn is_form(ring: &Montgomery<u64>, word: u64) -> bool
    ensures below { IsTrue result ↔ (word < ⟦<Montgomery<u64> as Reducer<u64>>⟧.modulus ring.now) }
    ensures form { IsTrue result → IsMontgomeryForm (⟦<Montgomery<u64> as Reducer<u64>>⟧.modulus ring.now) word }
{
    ring.check(&word)
}

/// Writes the context of m. `NM_BAD_ARGUMENT`: m is 0.
#[unsafe(no_mangle)]
pub extern "C" fn nm_montgomery(m: u64, context: &mut NmMontgomery) -> u32
    ensures did { 1 ≤ m → Did result ((context.new.modulus ≡ m) × IsMontgomery context.new) }
    ensures bad_argument { m ≡ 0 → Refused NM_BAD_ARGUMENT result context.old context.new }
{
    if m == 0 {
        return NM_BAD_ARGUMENT;
    }
    let (negated_inverse, square) = Montgomery::<u64>::new(m).computed_once();
    *context = NmMontgomery {
        modulus: m,
        negated_inverse,
        square,
    };
    NM_OK
}

/// Writes the form of the word modulo m. `NM_BAD_CONTEXT`: the context isn't one that `nm_montgomery` makes.
#[unsafe(no_mangle)]
pub extern "C" fn nm_montgomery_transform(context: &NmMontgomery, word: u64, form: &mut u64) -> u32
    ensures did { let m = context.now.modulus in
        IsMontgomery context.now → Did result (IsMontgomeryFormOf m form.new (word % m)) }
    ensures bad_context { (IsMontgomery context.now → ⊥) → Refused NM_BAD_CONTEXT result form.old form.new }
{
    let Some(ring) = reducer(context) else {
        return NM_BAD_CONTEXT;
    };
    *form = ring.transform(word);
    NM_OK
}

/// Writes the value of a form. `NM_BAD_CONTEXT`: as for `nm_montgomery_transform`. `NM_BAD_ARGUMENT`: the word
/// isn't below m, and so is no form.
#[unsafe(no_mangle)]
pub extern "C" fn nm_montgomery_residue(context: &NmMontgomery, form: u64, value: &mut u64) -> u32
    ensures did { let m = context.now.modulus in
        IsMontgomery context.now → form < m → Did result (value.new ≡ value_of m form) }
    ensures bad_argument { let m = context.now.modulus in
        IsMontgomery context.now → m ≤ form → Refused NM_BAD_ARGUMENT result value.old value.new }
    ensures bad_context { (IsMontgomery context.now → ⊥) → Refused NM_BAD_CONTEXT result value.old value.new }
{
    let ring = match reducer_with_form(context, form) {
        Ok(ring) => ring,
        Err(code) => return code,
    };
    *value = ring.residue(form);
    NM_OK
}

/// Writes the form of the sum of two forms. The codes are those of `nm_montgomery_residue`.
#[unsafe(no_mangle)]
// rust: #[inline]
pub extern "C" fn nm_montgomery_add(context: &NmMontgomery, a: u64, b: u64, sum: &mut u64) -> u32
    ensures did { let m = context.now.modulus in IsMontgomery context.now → a < m → b < m
        → Did result (IsMontgomeryFormOf m sum.new ((value_of m a + value_of m b) % m)) }
    ensures bad_argument { let m = context.now.modulus in
        IsMontgomery context.now → ((a < m) × (b < m) → ⊥)
        → Refused NM_BAD_ARGUMENT result sum.old sum.new }
    ensures bad_context { (IsMontgomery context.now → ⊥) → Refused NM_BAD_CONTEXT result sum.old sum.new }
{
    let ring = match reducer_with_forms(context, a, b) {
        Ok(ring) => ring,
        Err(code) => return code,
    };
    *sum = ring.add(&a, &b);
    NM_OK
}

/// Writes the form of the difference of two forms. The codes are those of `nm_montgomery_residue`.
#[unsafe(no_mangle)]
// rust: #[inline]
pub extern "C" fn nm_montgomery_sub(
    context: &NmMontgomery,
    a: u64,
    b: u64,
    difference: &mut u64,
) -> u32
    ensures did { let m = context.now.modulus in IsMontgomery context.now → a < m → b < m
        → Did result (IsMontgomeryFormOf m difference.new (residue m (pos (value_of m a) -ℤ pos (value_of m b)))) }
    ensures bad_argument { let m = context.now.modulus in
        IsMontgomery context.now → ((a < m) × (b < m) → ⊥)
        → Refused NM_BAD_ARGUMENT result difference.old difference.new }
    ensures bad_context { (IsMontgomery context.now → ⊥) → Refused NM_BAD_CONTEXT result difference.old difference.new }
{
    let ring = match reducer_with_forms(context, a, b) {
        Ok(ring) => ring,
        Err(code) => return code,
    };
    *difference = ring.sub(&a, &b);
    NM_OK
}

/// Writes the form of the product of two forms. The codes are those of `nm_montgomery_residue`.
#[unsafe(no_mangle)]
// rust: #[inline]
pub extern "C" fn nm_montgomery_mul(
    context: &NmMontgomery,
    a: u64,
    b: u64,
    product: &mut u64,
) -> u32
    ensures did { let m = context.now.modulus in IsMontgomery context.now → a < m → b < m
        → Did result (IsMontgomeryFormOf m product.new ((value_of m a * value_of m b) % m)) }
    ensures bad_argument { let m = context.now.modulus in
        IsMontgomery context.now → ((a < m) × (b < m) → ⊥)
        → Refused NM_BAD_ARGUMENT result product.old product.new }
    ensures bad_context { (IsMontgomery context.now → ⊥) → Refused NM_BAD_CONTEXT result product.old product.new }
{
    let ring = match reducer_with_forms(context, a, b) {
        Ok(ring) => ring,
        Err(code) => return code,
    };
    *product = ring.mul(&a, &b);
    NM_OK
}

/// Writes the form of the power of a form; that of 1 for the exponent 0. The codes are those of
/// `nm_montgomery_residue`.
#[unsafe(no_mangle)]
pub extern "C" fn nm_montgomery_pow(
    context: &NmMontgomery,
    form: u64,
    exponent: u64,
    power: &mut u64,
) -> u32
    ensures did { let m = context.now.modulus in IsMontgomery context.now → form < m
        → Did result (IsMontgomeryFormOf m power.new (value_of m form ^ exponent % m)) }
    ensures bad_argument { let m = context.now.modulus in
        IsMontgomery context.now → m ≤ form → Refused NM_BAD_ARGUMENT result power.old power.new }
    ensures bad_context { (IsMontgomery context.now → ⊥) → Refused NM_BAD_CONTEXT result power.old power.new }
{
    let ring = match reducer_with_form(context, form) {
        Ok(ring) => ring,
        Err(code) => return code,
    };
    *power = ring.pow(form, &exponent);
    NM_OK
}

/// Writes the form of the inverse of a form. `NM_NO_INVERSE`: its value has none. The other codes are those of
/// `nm_montgomery_residue`.
#[unsafe(no_mangle)]
// rust: #[inline]
pub extern "C" fn nm_montgomery_inv(context: &NmMontgomery, form: u64, inverse: &mut u64) -> u32
    ensures did { let m = context.now.modulus in
        IsMontgomery context.now → form < m → HasInverse m (value_of m form)
        → Did result (IsMontgomeryForm m inverse.new × IsInverse m (value_of m form) (value_of m inverse.new)) }
    ensures no_inverse { let m = context.now.modulus in
        IsMontgomery context.now → form < m → (HasInverse m (value_of m form) → ⊥)
        → Refused NM_NO_INVERSE result inverse.old inverse.new }
    ensures bad_argument { let m = context.now.modulus in
        IsMontgomery context.now → m ≤ form → Refused NM_BAD_ARGUMENT result inverse.old inverse.new }
    ensures bad_context { (IsMontgomery context.now → ⊥) → Refused NM_BAD_CONTEXT result inverse.old inverse.new }
{
    let ring = match reducer_with_form(context, form) {
        Ok(ring) => ring,
        Err(code) => return code,
    };
    let Some(found) = ring.inv(form) else {
        return NM_NO_INVERSE;
    };
    *inverse = found;
    NM_OK
}
