//! Reducers by Montgomery's representation whose modulus is K * 2^N + 1.

ghost use Rattle.std.specs.Prelude.{◌≡◌, ℕ, ◌+◌, ◌*◌, ◌%◌, ◌^◌, ◌<◌};
ghost use Rattle.std.proofs.Common.{refl};
ghost use Rattle.modular_word.specs.Reduction.{IsReduction};
ghost use Rattle.modular_monty.specs.Montgomery.{montgomery_form, montgomery_value, negated_inverse_of};
ghost use Rattle.modular_monty.specs.Montgomery.{IsOddModulus, IsOddRing};
ghost use Rattle.modular_monty.specs.MontgomeryLaws.{montgomery_canonical};
ghost use Rattle.modular_monty.specs.Proth.{IsProth, IsProthRange, greatest_proth_32, greatest_proth_64, proth_modulus};

use crate::computed::computed_once;
use crate::known::{reduce_by_known, sum_known};
use crate::odd_ring::{OddModulus, OddRing, reduce_below_by, unless_unit_base};
// rattle: line
use modular_reduced::reducer::Reducer;
use modular_word::paths::clearing;

// The number k * 2^n + 1, for parameters in range.
const fn modulus_32(n: u8, k: u8) -> u32
    ensures { IsProthRange 32 greatest_proth_32 n k → result ≡ proth_modulus n k }
{
    ((k as u32) << (n % 32)).wrapping_add(1)
}

// What is precomputed of the modulus. It is a type because proofs use what the type of a constant guarantees, not
// its value.
#[derive(Clone, Copy)]
struct Computed32<const N: u8, const K: u8> {
    negated_inverse: u32,
    square: u32,
    ghost ring: { IsProthRange 32 greatest_proth_32 N K
        → IsOddRing 32 (2 ^ 32) (proth_modulus N K) negated_inverse square },
}

/// The number K * 2^N + 1 as a modulus for words of 32 bits.
// rust instead: #[derive(Clone, Copy)]
#[derive(Debug, Clone, Copy)]
// rust: #[must_use]
pub struct ProthNumber32<const N: u8, const K: u8> {
    // Private, so that a value exists only for parameters in range; the numbers come from the parameters.
    // rust instead: pub(crate) _made: (),
    made: (),
    ghost range: { IsProthRange 32 greatest_proth_32 N K },
    ghost ring: { IsOddModulus 32 (2 ^ 32) (proth_modulus N K) },
}

impl<const N: u8, const K: u8> ProthNumber32<N, K> {
    const COMPUTED: Computed32<N, K> = {
        let (negated_inverse, square) = computed_once(modulus_32(N, K) as u64, 32);
        Computed32 {
            negated_inverse: negated_inverse as u32,
            square: square as u32,
        }
    };

    // The modulus. Conditions: N is from 1 to 31, K is odd, and K is below 2^N; K·2^N + 1 is at most 2654435769.
    // rust: #[track_caller]
    // rust instead: const fn value() -> u32
    fn value() -> u32
        requires { IsProthRange 32 greatest_proth_32 N K }
        ensures { result ≡ proth_modulus N K }
    {
        prove!(0 < N && N < 32 && K % 2 == 1 && (K as u32) < 1 << N);
        // rust: assert!(0 < N && N < 32 && K % 2 == 1 && (K as u32) < 1 << N,
        // rust:     "N must be from 1 to 31, K must be odd, and K must be below 2^N");
        prove!(((K as u64) << N) < 2654435769);
        // rust: assert!(((K as u64) << N) < 2654435769, "K·2^N + 1 must be at most 2654435769");
        modulus_32(N, K)
    }

    /// The product of x and the modulus, by a product with K and a shift.
    // rust instead: pub const fn shift_mul(&self, x: u32) -> u64
    pub fn shift_mul(&self, x: u32) -> u64
        ensures { result ≡ x * proth_modulus N K }
    {
        ((x as u64 * K as u64) << N) + x as u64
    }
}

/// The reducer of K * 2^N + 1: Montgomery's representation in words of 32 bits, where the form of v is v * 2^32 modulo
/// m.
///
/// The parameters are in range where N is from 1 to 31, K is odd, below 2^N and below 256, and m, as a whole
/// number, is at most 2654435769. For other moduli there is `FixedMontgomery32`.
///
/// Source: Handbook of Applied Cryptography, section 14.3.2.
///
/// # Examples
///
/// ```
/// use num_modular::{FixedProth32, Reducer};
///
/// const RING: FixedProth32<27, 15> = FixedProth32::RING; // 15 * 2^27 + 1
/// assert_eq!(RING.residue(RING.transform(u32::MAX)), 268435453);
/// ```
pub type FixedProth32<const N: u8, const K: u8> = OddRing<u32, ProthNumber32<N, K>>;

impl<const N: u8, const K: u8> OddRing<u32, ProthNumber32<N, K>> {
    /// The modulus K * 2^N + 1.
    ///
    /// # Conditions
    ///
    /// - the parameters are in range
    ///
    /// # Examples
    ///
    /// ```
    /// use num_modular::FixedProth32;
    ///
    /// assert_eq!(FixedProth32::<5, 3>::fixed_modulus(), 97); // 3 * 2^5 + 1
    /// ```
    // rust: #[track_caller]
    // rust instead: pub const fn fixed_modulus() -> u32
    pub fn fixed_modulus() -> u32
        requires { IsProthRange 32 greatest_proth_32 N K }
        ensures { result ≡ proth_modulus N K }
    {
        ProthNumber32::<N, K>::value()
    }

    /// Montgomery's reduction of t: the u below the modulus with u * 2^32 congruent to t.
    ///
    /// # Preconditions
    ///
    /// - t is below the modulus times 2^32
    ///
    /// # Examples
    ///
    /// ```
    /// use num_modular::FixedProth32;
    ///
    /// assert_eq!(FixedProth32::<5, 3>::RING.reduce(96 << 32), 96);
    /// ```
    pub fn reduce(&self, t: u64) -> u32
        requires { t < 2 ^ 32 * proth_modulus N K }
        ensures { IsReduction (2 ^ 32) (proth_modulus N K) t result }
    {
        self.kept.redc(t)
    }
}

impl<const N: u8, const K: u8> OddModulus<u32> for ProthNumber32<N, K> {
    ghost admits = { IsProth 32 greatest_proth_32 N K };

    ghost modulus = { λ _. proth_modulus N K };

    ghost negated_inverse = { λ _. negated_inverse_of (2 ^ 32) (proth_modulus N K) };

    ghost square = { λ _. (2 ^ 32 * 2 ^ 32) % proth_modulus N K };

    // Condition: the modulus is that of the parameters.
    // rust: #[track_caller]
    fn keep(m: u32) -> Self {
        prove!(m == Self::value());
        // rust: assert!(m == FixedProth32::<N, K>::MODULUS, "the modulus must be that of the parameters: {} and {}",
        // rust:     m, FixedProth32::<N, K>::MODULUS);
        // rust instead: ProthNumber32 { _made: () }
        ProthNumber32 { made: () }
    }

    fn modulus(&self) -> u32 {
        Self::value()
    }

    fn square_of_base(&self) -> u32 {
        Self::COMPUTED.square
    }

    fn sum(&self, a: u32, b: u32) -> u32 {
        sum_known(a, b, Self::value())
    }

    fn redc(&self, t: u64) -> u32 {
        let m = Self::value();
        let x = clearing(m, Self::COMPUTED.negated_inverse, t);
        reduce_by_known(m, t, x, self.shift_mul(x))
    }

    fn redc_below(&self, t: u64) -> u32 {
        let m = Self::value();
        let inverse = Self::COMPUTED.negated_inverse;
        let x = clearing(m, inverse, t);
        unless_unit_base(m, inverse, t, reduce_below_by(m, t, x, self.shift_mul(x)))
    }

    ghost admitted = { λ m. record { range = m.range; same = refl } };

    ghost is_odd_ring = { λ m. m.ring };
}

// The number k * 2^n + 1, for parameters in range.
const fn modulus_64(n: u8, k: u8) -> u64
    ensures { IsProthRange 64 greatest_proth_64 n k → result ≡ proth_modulus n k }
{
    ((k as u64) << (n % 64)).wrapping_add(1)
}

// What is precomputed of the modulus. It is a type because proofs use what the type of a constant guarantees, not
// its value.
#[derive(Clone, Copy)]
struct Computed64<const N: u8, const K: u8> {
    negated_inverse: u64,
    square: u64,
    ghost ring: { IsProthRange 64 greatest_proth_64 N K
        → IsOddRing 64 (2 ^ 64) (proth_modulus N K) negated_inverse square },
}

/// The number K * 2^N + 1 as a modulus for words of 64 bits.
// rust instead: #[derive(Clone, Copy)]
#[derive(Debug, Clone, Copy)]
// rust: #[must_use]
pub struct ProthNumber64<const N: u8, const K: u8> {
    // Private, so that a value exists only for parameters in range; the numbers come from the parameters.
    // rust instead: pub(crate) _made: (),
    made: (),
    ghost range: { IsProthRange 64 greatest_proth_64 N K },
    ghost ring: { IsOddModulus 64 (2 ^ 64) (proth_modulus N K) },
}

impl<const N: u8, const K: u8> ProthNumber64<N, K> {
    const COMPUTED: Computed64<N, K> = {
        let (negated_inverse, square) = computed_once(modulus_64(N, K), 64);
        Computed64 {
            negated_inverse,
            square,
        }
    };

    // The modulus. Conditions: N is from 1 to 63, K is odd, and K is below 2^N; K·2^N + 1 is at most
    // 11400714819323199485.
    // rust: #[track_caller]
    // rust instead: const fn value() -> u64
    fn value() -> u64
        requires { IsProthRange 64 greatest_proth_64 N K }
        ensures { result ≡ proth_modulus N K }
    {
        prove!(0 < N && N < 64 && K % 2 == 1 && (K as u64) < 1 << N);
        // rust: assert!(0 < N && N < 64 && K % 2 == 1 && (K as u64) < 1 << N,
        // rust:     "N must be from 1 to 63, K must be odd, and K must be below 2^N");
        prove!(((K as u128) << N) < 11400714819323199485);
        // rust: assert!(((K as u128) << N) < 11400714819323199485, "K·2^N + 1 must be at most 11400714819323199485");
        modulus_64(N, K)
    }

    /// The product of x and the modulus, by a product with K and a shift.
    // rust instead: pub const fn shift_mul(&self, x: u64) -> u128
    pub fn shift_mul(&self, x: u64) -> u128
        ensures { result ≡ x * proth_modulus N K }
    {
        ((x as u128 * K as u128) << N) + x as u128
    }
}

/// The reducer of K * 2^N + 1: Montgomery's representation in words of 64 bits, where the form of v is v * 2^64 modulo
/// m.
///
/// The parameters are in range where N is from 1 to 63, K is odd, below 2^N and below 256, and m, as a whole
/// number, is at most 11400714819323199485. For other moduli there is `FixedMontgomery64`.
///
/// Source: Handbook of Applied Cryptography, section 14.3.2.
///
/// # Examples
///
/// ```
/// use num_modular::{FixedProth64, Reducer};
///
/// const RING: FixedProth64<57, 29> = FixedProth64::RING; // 29 * 2^57 + 1
/// let x = RING.transform(2);
/// assert_eq!(RING.residue(RING.pow(x, &57)), 1 << 57);
/// ```
pub type FixedProth64<const N: u8, const K: u8> = OddRing<u64, ProthNumber64<N, K>>;

impl<const N: u8, const K: u8> OddRing<u64, ProthNumber64<N, K>> {
    /// The modulus K * 2^N + 1.
    ///
    /// # Conditions
    ///
    /// - the parameters are in range
    ///
    /// # Examples
    ///
    /// ```
    /// use num_modular::FixedProth64;
    ///
    /// assert_eq!(FixedProth64::<57, 29>::fixed_modulus(), (29 << 57) + 1);
    /// ```
    // rust: #[track_caller]
    // rust instead: pub const fn fixed_modulus() -> u64
    pub fn fixed_modulus() -> u64
        requires { IsProthRange 64 greatest_proth_64 N K }
        ensures { result ≡ proth_modulus N K }
    {
        ProthNumber64::<N, K>::value()
    }

    /// Montgomery's reduction of t: the u below the modulus with u * 2^64 congruent to t.
    ///
    /// # Preconditions
    ///
    /// - t is below the modulus times 2^64
    ///
    /// # Examples
    ///
    /// ```
    /// use num_modular::FixedProth64;
    ///
    /// assert_eq!(FixedProth64::<57, 29>::RING.reduce(1000 << 64), 1000);
    /// ```
    pub fn reduce(&self, t: u128) -> u64
        requires { t < 2 ^ 64 * proth_modulus N K }
        ensures { IsReduction (2 ^ 64) (proth_modulus N K) t result }
    {
        self.kept.redc(t)
    }
}

impl<const N: u8, const K: u8> OddModulus<u64> for ProthNumber64<N, K> {
    ghost admits = { IsProth 64 greatest_proth_64 N K };

    ghost modulus = { λ _. proth_modulus N K };

    ghost negated_inverse = { λ _. negated_inverse_of (2 ^ 64) (proth_modulus N K) };

    ghost square = { λ _. (2 ^ 64 * 2 ^ 64) % proth_modulus N K };

    // Condition: the modulus is that of the parameters.
    // rust: #[track_caller]
    fn keep(m: u64) -> Self {
        prove!(m == Self::value());
        // rust: assert!(m == FixedProth64::<N, K>::MODULUS, "the modulus must be that of the parameters: {} and {}",
        // rust:     m, FixedProth64::<N, K>::MODULUS);
        // rust instead: ProthNumber64 { _made: () }
        ProthNumber64 { made: () }
    }

    fn modulus(&self) -> u64 {
        Self::value()
    }

    fn square_of_base(&self) -> u64 {
        Self::COMPUTED.square
    }

    fn sum(&self, a: u64, b: u64) -> u64 {
        sum_known(a, b, Self::value())
    }

    fn redc(&self, t: u128) -> u64 {
        let m = Self::value();
        let x = clearing(m, Self::COMPUTED.negated_inverse, t);
        reduce_by_known(m, t, x, self.shift_mul(x))
    }

    fn redc_below(&self, t: u128) -> u64 {
        let m = Self::value();
        let inverse = Self::COMPUTED.negated_inverse;
        let x = clearing(m, inverse, t);
        unless_unit_base(m, inverse, t, reduce_below_by(m, t, x, self.shift_mul(x)))
    }

    ghost admitted = { λ m. record { range = m.range; same = refl } };

    ghost is_odd_ring = { λ m. m.ring };
}
