//! Callers of residue number systems.

ghost use Rattle.std.specs.Prelude.{◌≡◌, ℕ, ◌<◌, length, slice_index, MatchOption};
ghost use Rattle.modular_ring.specs.Systems.{AreResidues, IsSystem};

use modular_ring::residues::{are_reduced, decode, is_system};

/// The number with these residues; `None` exactly where the moduli are no system, or a residue isn't below its
/// modulus.
///
/// # Preconditions
///
/// - the lists have the same length
pub fn number_of(moduli: &[u64], residues: &[u64]) -> Option<u128>
    requires { length residues.now ≡ length moduli.now }
    ensures { MatchOption result (IsSystem moduli.now
        → ((i : ℕ) → i < length moduli.now → slice_index residues.now i < slice_index moduli.now i) → ⊥)
        (AreResidues moduli.now residues.now) }
{
    if is_system(moduli) && are_reduced(moduli, residues) {
        Some(decode(moduli, residues))
    } else {
        None
    }
}
