//! The rings of the lattice standards FIPS 204 (ML-DSA) and FIPS 203 (ML-KEM), by planned transforms.
//!
//! Their transforms, inverses and products are those of the standards, for every list of residues, and don't branch on
//! the residues as compiled and tested: see `docs/secrets.md` in the repository.
#![tactic(auto)]

pub mod ml_dsa;
pub mod ml_kem;
