//! Modular rings over machine words, by the names of the crate `num-modular`.
//!
//! The root exports the types of reducers, integers and dividers, their aliases and their traits. These modules have
//! what the Rust crate hasn't:
//!
//! - `commands`: lists of commands run over any reducer; `transforms`: transforms and lists over any reducer; `ring`: both
//! - `plans`: transforms by a table
//! - `families`: the generic types behind the aliases
//! - `hashes`: polynomial hashes and a search
//! - `residues`: residue number systems
//! - `secrets`: powers and inverses of secrets
// rattle: line
//! - `laws`: what proofs may cite; `modrun`: the body of the program
// rust: //! - `applications`: check digits, erasure codes, long products and other modules that use the library
#![tactic(auto)]
// rust: #![cfg_attr(not(test), no_std)]
// rust: #![forbid(unsafe_code)]
// rust: // The proofs name the loops and branches of the sources, so these stay as they are where clippy has a shorter form.
// rust: #![allow(clippy::collapsible_if, clippy::if_same_then_else, clippy::manual_find, clippy::manual_map)]
// rust: #![allow(clippy::manual_range_contains, clippy::needless_range_loop, clippy::redundant_field_names)]
// rust: #![allow(clippy::collapsible_match, clippy::double_must_use, clippy::single_match)]
// rust: #![doc = include_str!("../README.md")]

// rust: #[path = "../fixed.rs"]
// rust: #[macro_use]
// rust: mod fixed;
// rust: #[path = "../additions.rs"]
// rust: mod additions;
// rust: #[cfg(any(feature = "num-traits", feature = "serde"))]
// rust: #[path = "../features.rs"]
// rust: mod features;
// rust: #[cfg(doctest)]
// rust: #[doc = include_str!("../FROM_NUM_MODULAR.md")]
// rust: mod from_num_modular {}
// rust: #[path = "../layers/mod.rs"]
// rust: mod layers;
// rust: #[path = "../traits.rs"]
// rust: mod traits;

// rust: mod modular_barrett;
// rust: mod modular_folds;
// rust: mod modular_monty;
// rust: mod modular_plan_passes;
// rust: mod modular_plan_transforms;
// rust: mod modular_prim;
// rust: mod modular_reduced;
// rust: mod modular_ring;
// rust: mod modular_secret;
// rust: mod modular_symbols;
// rust: mod modular_transform;
// rust: mod modular_word;
// rust: #[cfg(feature = "capi")]
// rust: #[doc(hidden)]
// rust: pub mod num_modular_c;

// rust: /// Modules that use the library, each proved in its field's own words: hashes, residue systems, check digits, erasure
// rust: /// codes, products of long numbers (where a usize has 64 bits), and the rings of FIPS 204 and 203.
// rust: pub mod applications {
// rust:     pub mod check_digits;
// rust:     #[doc(hidden)]
// rust:     pub mod examples;
// rust:     pub mod lattice_rings;
// rust:     #[cfg(target_pointer_width = "64")]
// rust:     pub mod long_product;
// rust:     pub mod mersenne_hash;
// rust:     pub mod residue_numbers;
// rust:     pub mod ring_codes;
// rust: }
pub mod barrett;
pub mod commands;
pub mod families;
pub mod hashes;
// tests: item
pub mod laws;
pub mod mersenne;
// rattle: line
pub mod modrun;
pub mod monty;
pub mod plans;
pub mod preinv;
pub mod prim;
pub mod proth;
pub mod reduced;
pub mod residues;
pub mod ring;
pub mod secrets;
pub mod solinas;
pub mod transforms;
pub mod word;

pub use modular_barrett::normalized::{Normalized2by1Divisor, StoredDivisor};
pub use modular_barrett::one_by_one::{FitsDivisor, PreMulInv1by1};
pub use modular_barrett::premul::PreMulInv2by1;
pub use modular_folds::mersenne::{FixedMersenne, FixedMersenne32, FixedMersenne64};
pub use modular_folds::solinas::{FixedTrinomialSolinas32, FixedTrinomialSolinas64};
pub use modular_monty::fixed::{FixedMontgomery32, FixedMontgomery64};
pub use modular_monty::montgomery::Montgomery;
pub use modular_monty::odd_montgomery::OddMontgomery;
pub use modular_monty::preinv::{PreModInv, PreparedInverse};
pub use modular_monty::proth::{FixedProth32, FixedProth64};
pub use modular_prim::exact::{DivExact, DivExactAssign};
pub use modular_prim::numbered::Numbered;
pub use modular_prim::operations::{ModularAbs, ModularCoreOps, ModularPow, ModularUnaryOps};
pub use modular_prim::plain_word::PlainWord;
pub use modular_reduced::modular_integer::ModularInteger;
pub use modular_reduced::reduced_int::{ReducedInt, VanillaInt};
pub use modular_reduced::reducer::Reducer;
pub use modular_reduced::vanilla::Vanilla;
pub use modular_symbols::operands::{IntegerValued, SymbolWord, UnsignedOperand};
pub use modular_symbols::operations::ModularOps;
pub use modular_symbols::reference_operations::ModularRefOps;
pub use modular_symbols::symbols::ModularSymbols;
// rust instead: pub use crate::additions::{Divide1by1, Divide2by1, RingWord};
pub use modular_word::ring_word::RingWord;

/// An integer over [`Montgomery`]: modulo a number that is at least 1.
///
/// # Examples
///
/// ```
/// use num_modular::{ModularInteger, MontgomeryInt};
///
/// let x = MontgomeryInt::<u64>::new(10, &97);
/// assert_eq!((x * x).residue(), 3); // 100 - 97
/// ```
pub type MontgomeryInt<T> = ReducedInt<T, Montgomery<T>>;

/// An integer over [`OddMontgomery`]: modulo an odd number.
///
/// # Examples
///
/// ```
/// use num_modular::{ModularInteger, OddMontgomeryInt};
///
/// let x = OddMontgomeryInt::<u64>::new(10, &97);
/// assert_eq!((x * x).residue(), 3); // 100 - 97
/// ```
pub type OddMontgomeryInt<T> = ReducedInt<T, OddMontgomery<T>>;

/// An integer over the fixed reducer of this name: over [`FixedMontgomery32`], modulo the odd parameter P.
///
/// # Examples
///
/// ```
/// use num_modular::{FixedMontgomeryInt32, ModularInteger};
///
/// let x = FixedMontgomeryInt32::<97>::new(10, &97);
/// assert_eq!((x * x).residue(), 3); // 100 - 97
/// ```
pub type FixedMontgomeryInt32<const P: u32> = ReducedInt<u32, FixedMontgomery32<P>>;

/// An integer over the fixed reducer of this name: over [`FixedMontgomery64`], modulo the odd parameter P.
///
/// # Examples
///
/// ```
/// use num_modular::{FixedMontgomeryInt64, ModularInteger};
///
/// let x = FixedMontgomeryInt64::<97>::new(10, &97);
/// assert_eq!((x * x).residue(), 3); // 100 - 97
/// ```
pub type FixedMontgomeryInt64<const P: u64> = ReducedInt<u64, FixedMontgomery64<P>>;

/// An integer over the fixed reducer of this name: over [`FixedProth32`], modulo K * 2^N + 1, where N is from 1 to 31,
/// K odd and below 2^N, and the modulus at most 2654435769.
///
/// # Examples
///
/// ```
/// use num_modular::{FixedProthInt32, ModularInteger};
///
/// let x = FixedProthInt32::<5, 3>::new(10, &97); // 3 * 2^5 + 1
/// assert_eq!((x * x).residue(), 3);
/// ```
pub type FixedProthInt32<const N: u8, const K: u8> = ReducedInt<u32, FixedProth32<N, K>>;

/// An integer over the fixed reducer of this name: over [`FixedProth64`], modulo K * 2^N + 1, where N is from 1 to 63,
/// K odd and below 2^N, and the modulus at most 11400714819323199485.
///
/// # Examples
///
/// ```
/// use num_modular::{FixedProth64, FixedProthInt64, ModularInteger};
///
/// let x = FixedProthInt64::<57, 29>::new(1 << 57, &FixedProth64::<57, 29>::MODULUS);
/// assert_eq!((x * 29 + 1).residue(), 0); // 29 * 2^57 + 1
/// ```
pub type FixedProthInt64<const N: u8, const K: u8> = ReducedInt<u64, FixedProth64<N, K>>;

/// An integer over the fixed reducer of this name: over [`FixedMersenne`], modulo 2^P - K, where P is at most 64, K odd
/// and less than half of 2^P.
///
/// # Examples
///
/// ```
/// use num_modular::{FixedMersenne, FixedMersenneInt, ModularInteger};
///
/// let x = FixedMersenneInt::<61, 1>::new(1 << 60, &FixedMersenne::<61, 1>::MODULUS);
/// assert_eq!((x * 6).residue(), 3); // 3 * 2^61
/// ```
pub type FixedMersenneInt<const P: u8, const K: u64> = ReducedInt<umax, FixedMersenne<P, K>>;

/// An integer over the fixed reducer of this name: over [`FixedMersenne32`], modulo 2^P - K, where P is at most 32, K
/// odd and less than half of 2^P.
///
/// # Examples
///
/// ```
/// use num_modular::{FixedMersenne32, FixedMersenneInt32, ModularInteger};
///
/// let x = FixedMersenneInt32::<31, 1>::new(1 << 30, &FixedMersenne32::<31, 1>::MODULUS);
/// assert_eq!((x * 6).residue(), 3); // 3 * 2^31
/// ```
pub type FixedMersenneInt32<const P: u8, const K: u32> = ReducedInt<u32, FixedMersenne32<P, K>>;

/// An integer over the fixed reducer of this name: over [`FixedMersenne64`], modulo 2^P - K, where P is at most 64, K
/// odd and less than half of 2^P.
///
/// # Examples
///
/// ```
/// use num_modular::{FixedMersenne64, FixedMersenneInt64, ModularInteger};
///
/// let x = FixedMersenneInt64::<61, 1>::new(1 << 60, &FixedMersenne64::<61, 1>::MODULUS);
/// assert_eq!((x * 6).residue(), 3); // 3 * 2^61
/// ```
pub type FixedMersenneInt64<const P: u8, const K: u64> = ReducedInt<u64, FixedMersenne64<P, K>>;

/// An integer over the fixed reducer of this name: over [`FixedTrinomialSolinas32`], modulo 2^P1 - 2^P2 + K, where P1
/// is at most 32, P2 from 1 to P1 - 1, K odd with a magnitude below 2^P2.
///
/// # Examples
///
/// ```
/// use num_modular::{FixedSolinasInt32, FixedTrinomialSolinas32, ModularInteger};
///
/// let m = FixedTrinomialSolinas32::<16, 8, 1>::MODULUS; // 65281
/// assert_eq!(FixedSolinasInt32::<16, 8, 1>::new(1 << 16, &m).residue(), 255); // 2^8 - 1
/// ```
pub type FixedSolinasInt32<const P1: u8, const P2: u8, const K: i32> = ReducedInt<
    u32,
    FixedTrinomialSolinas32<P1, P2, K>,
>;

/// An integer over the fixed reducer of this name: over [`FixedTrinomialSolinas64`], modulo 2^P1 - 2^P2 + K, where P1
/// is at most 64, P2 from 1 to P1 - 1, K odd with a magnitude below 2^P2.
///
/// # Examples
///
/// ```
/// use num_modular::{FixedSolinasInt64, FixedTrinomialSolinas64, ModularInteger};
///
/// let m = FixedTrinomialSolinas64::<64, 32, 1>::MODULUS;
/// let x = FixedSolinasInt64::<64, 32, 1>::new(1 << 32, &m);
/// assert_eq!((x * x).residue(), (1 << 32) - 1);
/// ```
pub type FixedSolinasInt64<const P1: u8, const P2: u8, const K: i64> = ReducedInt<
    u64,
    FixedTrinomialSolinas64<P1, P2, K>,
>;

/// The widest unsigned integer type.
///
/// # Examples
///
/// ```
/// use num_modular::umax;
///
/// assert_eq!(umax::MAX, u128::MAX);
/// ```
#[allow(non_camel_case_types)]
pub type umax = u128;

/// The widest signed integer type.
///
/// # Examples
///
/// ```
/// use num_modular::imax;
///
/// assert_eq!(imax::MAX, i128::MAX);
/// ```
#[allow(non_camel_case_types)]
pub type imax = i128;

// tests: item
// rust: #[macro_use]
// rust: #[path = "../runtime.rs"]
// rust: mod runtime;

// tests: item
// rust: #[allow(clippy::all, dead_code, unused_imports, unused_must_use, unused_variables, unstable_name_collisions)]
// rust: mod proved_tests {
// rust:     pub mod test_callers;
// rust:     pub mod test_operations;
// rust:     pub mod test_rings;
// rust:     pub mod test_secrets;
// rust:     pub mod test_users;
// rust: }
