//! Transforms and cyclic products of lists of words modulo any m, and runs of commands, given a context.

ghost use Rattle.std.specs.Prelude.{◌≡◌, ◌≢◌, ℕ, ◌%◌, ◌<◌, ◌≤◌, All, length, map, slice_index};
ghost use Rattle.modular_transform.specs.Roots.{root_by, IsFirstBase};
ghost use Rattle.num_modular.specs.Inverses.{HasInverse};
ghost use Rattle.num_modular.specs.Ring.{IsStop};
ghost use Rattle.num_modular.specs.Transforms.{Suits, transform};
ghost use Rattle.num_modular_c.specs.Codes.{Did, Refused, BothRefused};
ghost use Rattle.num_modular_c.specs.Commands.{ring_command_of, residues_of, IsAdmittedBy, IsRunTo};
ghost use Rattle.num_modular_c.specs.Contexts.{IsMontgomery};
ghost use Rattle.num_modular_c.specs.Transforms.{residues, IsInverseTransform, IsConvolution};

// rust instead: use crate::num_modular_c::codes::NM_BAD_CONTEXT;
use crate::codes::{NM_BAD_ARGUMENT, NM_BAD_CONTEXT, NM_NO_INVERSE, NM_NO_ROOT, NM_OK};
use crate::commands::NmCommand;
use crate::montgomery::{NmMontgomery, reducer};
use crate::runs::carry_out;
use crate::transforms::{found_root, multiplied, root_code, transformed, transformed_back};

/// Whether the root suits lists of n = `length` words: n is a power of two, and for n above 1 the root to the
/// power n/2 is -1 modulo m. `NM_NO_ROOT`: it doesn't. `NM_BAD_CONTEXT`: the context isn't one that
/// `nm_montgomery` makes.
#[unsafe(no_mangle)]
pub extern "C" fn nm_montgomery_root_fits(context: &NmMontgomery, root: u64, length: usize) -> u32
    ensures fits { let m = context.now.modulus in IsMontgomery context.now → Suits m (root % m) length → result ≡ NM_OK }
    ensures no_root { let m = context.now.modulus in
        IsMontgomery context.now → (Suits m (root % m) length → ⊥) → result ≡ NM_NO_ROOT }
    ensures bad_context { (IsMontgomery context.now → ⊥) → result ≡ NM_BAD_CONTEXT }
{
    match reducer(context) {
        Some(ring) => root_code(&ring, root, length),
        None => NM_BAD_CONTEXT,
    }
}

/// Writes a root that suits lists of n = `length` words: x to the power (m - 1)/n, rounded down, for the least x from 2
/// to 255 for which it does. `NM_NO_ROOT`: it does for no x, as where n is no power of two. `NM_BAD_CONTEXT`: as for
/// `nm_montgomery_root_fits`.
#[unsafe(no_mangle)]
pub extern "C" fn nm_montgomery_find_root(
    context: &NmMontgomery,
    length: usize,
    root: &mut u64,
) -> u32
    ensures did { let m = context.now.modulus in
        IsMontgomery context.now → ((x : ℕ) × (2 ≤ x) × (x < 256) × Suits m (root_by m length x) length) → Did result
        ((x : ℕ) × (x < 256) × IsFirstBase m length x × (root.new ≡ root_by m length x)) }
    ensures no_root { let m = context.now.modulus in
        IsMontgomery context.now → ((x : ℕ) → 2 ≤ x → x < 256 → Suits m (root_by m length x) length → ⊥)
        → Refused NM_NO_ROOT result root.old root.new }
    ensures bad_context { (IsMontgomery context.now → ⊥) → Refused NM_BAD_CONTEXT result root.old root.new }
{
    match reducer(context) {
        Some(ring) => found_root(&ring, length, root),
        None => NM_BAD_CONTEXT,
    }
}

/// Replaces the words by their transform by the root: entry j is the sum of x_i·root^(i·j) modulo m. `NM_NO_ROOT`:
/// the root doesn't suit the length. `NM_BAD_CONTEXT`: as for `nm_montgomery_root_fits`.
#[unsafe(no_mangle)]
pub extern "C" fn nm_montgomery_ntt(context: &NmMontgomery, xs: &mut [u64], root: u64) -> u32
    ensures did { let m = context.now.modulus in let n = length xs.old in
        IsMontgomery context.now → Suits m (root % m) n → Did result
        ((j : ℕ) → j < n → slice_index xs.new j ≡ transform m (root % m) n (residues m xs.old) j) }
    ensures no_root { let m = context.now.modulus in
        IsMontgomery context.now → (Suits m (root % m) (length xs.old) → ⊥)
        → Refused NM_NO_ROOT result xs.old xs.new }
    ensures bad_context { (IsMontgomery context.now → ⊥) → Refused NM_BAD_CONTEXT result xs.old xs.new }
{
    match reducer(context) {
        Some(ring) => transformed(&ring, xs, root),
        None => NM_BAD_CONTEXT,
    }
}

/// Undoes `nm_montgomery_ntt`: replaces the words by the residues modulo m whose transform by the root they are.
/// `NM_NO_ROOT`: the root doesn't suit the length. `NM_NO_INVERSE`: the length has no inverse modulo m.
/// `NM_BAD_CONTEXT`: as for `nm_montgomery_root_fits`.
#[unsafe(no_mangle)]
pub extern "C" fn nm_montgomery_intt(context: &NmMontgomery, xs: &mut [u64], root: u64) -> u32
    ensures did { let m = context.now.modulus in let n = length xs.old in
        IsMontgomery context.now → Suits m (root % m) n → HasInverse m n → Did result
        (IsInverseTransform m (root % m) n (residues m xs.old) (slice_index xs.new)) }
    ensures no_inverse { let m = context.now.modulus in let n = length xs.old in
        IsMontgomery context.now → Suits m (root % m) n → (HasInverse m n → ⊥)
        → Refused NM_NO_INVERSE result xs.old xs.new }
    ensures no_root { let m = context.now.modulus in
        IsMontgomery context.now → (Suits m (root % m) (length xs.old) → ⊥)
        → Refused NM_NO_ROOT result xs.old xs.new }
    ensures bad_context { (IsMontgomery context.now → ⊥) → Refused NM_BAD_CONTEXT result xs.old xs.new }
{
    match reducer(context) {
        Some(ring) => transformed_back(&ring, xs, root),
        None => NM_BAD_CONTEXT,
    }
}

/// Replaces the first list by the cyclic product of both lists modulo m, and the second by its transform by the
/// root. `NM_BAD_ARGUMENT`: the lengths differ. `NM_NO_ROOT`: the root doesn't suit them. `NM_NO_INVERSE`: the
/// length has no inverse modulo m. `NM_BAD_CONTEXT`: as for `nm_montgomery_root_fits`.
#[unsafe(no_mangle)]
pub extern "C" fn nm_montgomery_convolve(
    context: &NmMontgomery,
    xs: &mut [u64],
    ys: &mut [u64],
    root: u64,
) -> u32
    ensures did { let m = context.now.modulus in let n = length xs.old in
        IsMontgomery context.now → length ys.old ≡ n → Suits m (root % m) n → HasInverse m n → Did result
        (IsConvolution m (root % m) n (residues m xs.old) (residues m ys.old)
        (slice_index xs.new) (slice_index ys.new)) }
    ensures no_inverse { let m = context.now.modulus in let n = length xs.old in
        IsMontgomery context.now → length ys.old ≡ n → Suits m (root % m) n → (HasInverse m n → ⊥)
        → BothRefused NM_NO_INVERSE result xs.old xs.new ys.old ys.new }
    ensures no_root { let m = context.now.modulus in let n = length xs.old in
        IsMontgomery context.now → length ys.old ≡ n → (Suits m (root % m) n → ⊥)
        → BothRefused NM_NO_ROOT result xs.old xs.new ys.old ys.new }
    ensures bad_argument { IsMontgomery context.now → length ys.old ≢ length xs.old
        → BothRefused NM_BAD_ARGUMENT result xs.old xs.new ys.old ys.new }
    ensures bad_context { (IsMontgomery context.now → ⊥)
        → BothRefused NM_BAD_CONTEXT result xs.old xs.new ys.old ys.new }
{
    match reducer(context) {
        Some(ring) => multiplied(&ring, xs, ys, root),
        None => NM_BAD_CONTEXT,
    }
}

/// Carries out the commands in order on the residues of the words, and replaces the words by the resulting
/// residues; `carried_out` is the number of commands carried out. `NM_NO_INVERSE`: the inverse of command number
/// `carried_out` doesn't exist, and the residues are those after the commands before it. `NM_BAD_ARGUMENT`: an
/// operation has no name, or a register number isn't below the number of registers. `NM_BAD_CONTEXT`: as for
/// `nm_montgomery_root_fits`.
#[unsafe(no_mangle)]
pub extern "C" fn nm_montgomery_run(
    context: &NmMontgomery,
    registers: &mut [u64],
    commands: &[NmCommand],
    carried_out: &mut usize,
) -> u32
    ensures did { let m = context.now.modulus in let start = residues_of m registers.old in
        let wholes = map ring_command_of commands.now in
        IsMontgomery context.now → All (IsAdmittedBy (length registers.old)) commands.now
        → ((at : ℕ) → IsStop m start wholes at → ⊥)
        → Did result (IsRunTo m start wholes (length commands.now) carried_out.new registers.new) }
    ensures no_inverse { let m = context.now.modulus in let start = residues_of m registers.old in
        let wholes = map ring_command_of commands.now in
        (at : ℕ) → IsMontgomery context.now → All (IsAdmittedBy (length registers.old)) commands.now
        → IsStop m start wholes at
        → (result ≡ NM_NO_INVERSE) × IsRunTo m start wholes at carried_out.new registers.new }
    ensures bad_argument { IsMontgomery context.now → (All (IsAdmittedBy (length registers.old)) commands.now → ⊥)
        → BothRefused NM_BAD_ARGUMENT result registers.old registers.new carried_out.old carried_out.new }
    ensures bad_context { (IsMontgomery context.now → ⊥)
        → BothRefused NM_BAD_CONTEXT result registers.old registers.new carried_out.old carried_out.new }
{
    match reducer(context) {
        Some(ring) => carry_out(&ring, registers, commands, carried_out),
        None => NM_BAD_CONTEXT,
    }
}
