//! The computations of `any_reducer`, for each reducer.

ghost use Rattle.std.specs.Prelude.{◌≡◌, ◌+◌, ◌*◌, ◌%◌, ◌≤◌};

use crate::any_reducer::three_results;
use num_modular::{
    FixedMersenne, FixedMersenne32, FixedMersenne64, FixedMontgomery32, FixedMontgomery64,
    FixedProth32, FixedProth64, FixedTrinomialSolinas32, FixedTrinomialSolinas64, Montgomery,
    PreMulInv2by1, Reducer, Vanilla,
};

/// `three_results` over the plain reducer.
///
/// # Preconditions
///
/// - m is at least 1
///
/// # Examples
///
/// ```
/// use num_modular::applications::examples::each_reducer::by_plain_remainders;
///
/// assert_eq!(by_plain_remainders((1, 2, 3, 4), (5, 6, 7, 8), 50), (1, 6, 20)); // the last is 70 - 50
/// ```
pub fn by_plain_remainders(
    x: (u64, u64, u64, u64),
    y: (u64, u64, u64, u64),
    m: u64,
) -> (u64, u64, u64)
    requires { 1 ≤ m }
    ensures trip { result.0 ≡ x.0 % m }
    ensures one { result.1 ≡ (x.0 * y.0 + 1) % m }
    ensures inner { result.2 ≡ (x.0 * y.0 + x.1 * y.1 + (x.2 * y.2 + x.3 * y.3)) % m }
{
    three_results(&Vanilla::<u64>::new(&m), x, y)
}

/// `three_results` by the reciprocal of m.
///
/// # Preconditions
///
/// - m is at least 1
///
/// # Examples
///
/// ```
/// use num_modular::applications::examples::each_reducer::by_reciprocals;
///
/// assert_eq!(by_reciprocals((1, 2, 3, 4), (5, 6, 7, 8), 50), (1, 6, 20)); // the last is 70 - 50
/// ```
pub fn by_reciprocals(x: (u64, u64, u64, u64), y: (u64, u64, u64, u64), m: u64) -> (u64, u64, u64)
    requires { 1 ≤ m }
    ensures trip { result.0 ≡ x.0 % m }
    ensures one { result.1 ≡ (x.0 * y.0 + 1) % m }
    ensures inner { result.2 ≡ (x.0 * y.0 + x.1 * y.1 + (x.2 * y.2 + x.3 * y.3)) % m }
{
    three_results(&PreMulInv2by1::<u64>::new(m), x, y)
}

/// `three_results` in Montgomery's representation.
///
/// # Preconditions
///
/// - m is at least 1
///
/// # Examples
///
/// ```
/// use num_modular::applications::examples::each_reducer::by_montgomery;
///
/// assert_eq!(by_montgomery((1, 2, 3, 4), (5, 6, 7, 8), 50), (1, 6, 20)); // the last is 70 - 50
/// ```
pub fn by_montgomery(x: (u64, u64, u64, u64), y: (u64, u64, u64, u64), m: u64) -> (u64, u64, u64)
    requires { 1 ≤ m }
    ensures trip { result.0 ≡ x.0 % m }
    ensures one { result.1 ≡ (x.0 * y.0 + 1) % m }
    ensures inner { result.2 ≡ (x.0 * y.0 + x.1 * y.1 + (x.2 * y.2 + x.3 * y.3)) % m }
{
    three_results(&Montgomery::<u64>::new(m), x, y)
}

/// `three_results` in Montgomery's representation, modulo the odd parameter 13.
///
/// # Examples
///
/// ```
/// use num_modular::applications::examples::each_reducer::modulo_13;
///
/// // the residues of 10, 51 and 700
/// assert_eq!(modulo_13((10, 20, 30, 40), (5, 6, 7, 8)), (10, 12, 11));
/// ```
pub fn modulo_13(x: (u32, u32, u32, u32), y: (u32, u32, u32, u32)) -> (u32, u32, u32)
    ensures trip { result.0 ≡ x.0 % 13 }
    ensures one { result.1 ≡ (x.0 * y.0 + 1) % 13 }
    ensures inner { result.2 ≡ (x.0 * y.0 + x.1 * y.1 + (x.2 * y.2 + x.3 * y.3)) % 13 }
{
    three_results(&FixedMontgomery32::<13>::new(&13), x, y)
}

/// `three_results` modulo 15.
///
/// # Examples
///
/// ```
/// use num_modular::applications::examples::each_reducer::modulo_15;
///
/// // the residues of 10, 51 and 700
/// assert_eq!(modulo_15((10, 20, 30, 40), (5, 6, 7, 8)), (10, 6, 10));
/// ```
pub fn modulo_15(x: (u64, u64, u64, u64), y: (u64, u64, u64, u64)) -> (u64, u64, u64)
    ensures trip { result.0 ≡ x.0 % 15 }
    ensures one { result.1 ≡ (x.0 * y.0 + 1) % 15 }
    ensures inner { result.2 ≡ (x.0 * y.0 + x.1 * y.1 + (x.2 * y.2 + x.3 * y.3)) % 15 }
{
    three_results(&FixedMontgomery64::<15>::new(&15), x, y)
}

/// `three_results` modulo 2^4 + 1.
///
/// # Examples
///
/// ```
/// use num_modular::applications::examples::each_reducer::modulo_17;
///
/// // the residues of 10, 51 and 700
/// assert_eq!(modulo_17((10, 20, 30, 40), (5, 6, 7, 8)), (10, 0, 3));
/// ```
pub fn modulo_17(x: (u32, u32, u32, u32), y: (u32, u32, u32, u32)) -> (u32, u32, u32)
    ensures trip { result.0 ≡ x.0 % 17 }
    ensures one { result.1 ≡ (x.0 * y.0 + 1) % 17 }
    ensures inner { result.2 ≡ (x.0 * y.0 + x.1 * y.1 + (x.2 * y.2 + x.3 * y.3)) % 17 }
{
    three_results(&FixedProth32::<4, 1>::new(&17), x, y)
}

/// `three_results` modulo 3·2^5 + 1.
///
/// # Examples
///
/// ```
/// use num_modular::applications::examples::each_reducer::modulo_97;
///
/// // the residues of 10, 51 and 700
/// assert_eq!(modulo_97((10, 20, 30, 40), (5, 6, 7, 8)), (10, 51, 21));
/// ```
pub fn modulo_97(x: (u64, u64, u64, u64), y: (u64, u64, u64, u64)) -> (u64, u64, u64)
    ensures trip { result.0 ≡ x.0 % 97 }
    ensures one { result.1 ≡ (x.0 * y.0 + 1) % 97 }
    ensures inner { result.2 ≡ (x.0 * y.0 + x.1 * y.1 + (x.2 * y.2 + x.3 * y.3)) % 97 }
{
    three_results(&FixedProth64::<5, 3>::new(&97), x, y)
}

/// `three_results` modulo 2^5 - 1.
///
/// # Examples
///
/// ```
/// use num_modular::applications::examples::each_reducer::modulo_31;
///
/// // the residues of 10, 51 and 700
/// assert_eq!(modulo_31((10, 20, 30, 40), (5, 6, 7, 8)), (10, 20, 18));
/// ```
pub fn modulo_31(x: (u32, u32, u32, u32), y: (u32, u32, u32, u32)) -> (u32, u32, u32)
    ensures trip { result.0 ≡ x.0 % 31 }
    ensures one { result.1 ≡ (x.0 * y.0 + 1) % 31 }
    ensures inner { result.2 ≡ (x.0 * y.0 + x.1 * y.1 + (x.2 * y.2 + x.3 * y.3)) % 31 }
{
    three_results(&FixedMersenne32::<5, 1>::new(&31), x, y)
}

/// `three_results` modulo 2^5 - 3.
///
/// # Examples
///
/// ```
/// use num_modular::applications::examples::each_reducer::modulo_29;
///
/// // the residues of 10, 51 and 700
/// assert_eq!(modulo_29((10, 20, 30, 40), (5, 6, 7, 8)), (10, 22, 4));
/// ```
pub fn modulo_29(x: (u64, u64, u64, u64), y: (u64, u64, u64, u64)) -> (u64, u64, u64)
    ensures trip { result.0 ≡ x.0 % 29 }
    ensures one { result.1 ≡ (x.0 * y.0 + 1) % 29 }
    ensures inner { result.2 ≡ (x.0 * y.0 + x.1 * y.1 + (x.2 * y.2 + x.3 * y.3)) % 29 }
{
    three_results(&FixedMersenne64::<5, 3>::new(&29), x, y)
}

/// `three_results` modulo 2^7 - 1, in the widest words.
///
/// # Examples
///
/// ```
/// use num_modular::applications::examples::each_reducer::modulo_127;
///
/// // the residues of 10, 51 and 700
/// assert_eq!(modulo_127((10, 20, 30, 40), (5, 6, 7, 8)), (10, 51, 65));
/// ```
pub fn modulo_127(x: (u128, u128, u128, u128), y: (u128, u128, u128, u128)) -> (u128, u128, u128)
    ensures trip { result.0 ≡ x.0 % 127 }
    ensures one { result.1 ≡ (x.0 * y.0 + 1) % 127 }
    ensures inner { result.2 ≡ (x.0 * y.0 + x.1 * y.1 + (x.2 * y.2 + x.3 * y.3)) % 127 }
{
    three_results(&FixedMersenne::<7, 1>::new(&127), x, y)
}

/// `three_results` modulo 2^8 - 2^4 + 1.
///
/// # Examples
///
/// ```
/// use num_modular::applications::examples::each_reducer::modulo_241;
///
/// // the residues of 10, 51 and 700
/// assert_eq!(modulo_241((10, 20, 30, 40), (5, 6, 7, 8)), (10, 51, 218));
/// ```
pub fn modulo_241(x: (u32, u32, u32, u32), y: (u32, u32, u32, u32)) -> (u32, u32, u32)
    ensures trip { result.0 ≡ x.0 % 241 }
    ensures one { result.1 ≡ (x.0 * y.0 + 1) % 241 }
    ensures inner { result.2 ≡ (x.0 * y.0 + x.1 * y.1 + (x.2 * y.2 + x.3 * y.3)) % 241 }
{
    three_results(&FixedTrinomialSolinas32::<8, 4, 1>::new(&241), x, y)
}

/// `three_results` modulo 2^8 - 2^3 - 1.
///
/// # Examples
///
/// ```
/// use num_modular::applications::examples::each_reducer::modulo_247;
///
/// // the residues of 10, 51 and 700
/// assert_eq!(modulo_247((10, 20, 30, 40), (5, 6, 7, 8)), (10, 51, 206));
/// ```
pub fn modulo_247(x: (u64, u64, u64, u64), y: (u64, u64, u64, u64)) -> (u64, u64, u64)
    ensures trip { result.0 ≡ x.0 % 247 }
    ensures one { result.1 ≡ (x.0 * y.0 + 1) % 247 }
    ensures inner { result.2 ≡ (x.0 * y.0 + x.1 * y.1 + (x.2 * y.2 + x.3 * y.3)) % 247 }
{
    three_results(&FixedTrinomialSolinas64::<8, 3, -1>::new(&247), x, y)
}
