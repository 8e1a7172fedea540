//! First uses of the library, one function for each kind.

ghost use Rattle.std.specs.Prelude.{◌≡◌, ◌+◌, ◌*◌, ◌/◌, ◌%◌, ◌≤◌, pos};
ghost use Rattle.num_modular.specs.Jacobi.{checked_jacobi_of};

use num_modular::ring::{RingCommand, RunEnd, run};
use num_modular::{
    FixedMersenne64, ModularInteger, ModularSymbols, MontgomeryInt, PreMulInv1by1, PreMulInv2by1,
    Reducer, RingWord,
};

/// x·y + 1 modulo 97, in Montgomery's representation.
///
/// # Examples
///
/// ```
/// use num_modular::applications::examples::first_use::product_and_one;
///
/// assert_eq!(product_and_one(10, 20), 7); // 201 - 2 * 97
/// ```
#[tactic(auto, using(num_modular::specs::Remainders::remainders))]
pub fn product_and_one(x: u64, y: u64) -> u64
    ensures { result ≡ (x * y + 1) % 97 }
{
    let x = MontgomeryInt::<u64>::new(x, &97);
    let y = x.convert(y);
    (x * y + 1).residue()
}

/// n modulo m by a division of two words by one, as a list of commands.
///
/// # Conditions
///
/// - (debug) m is at least 1
///
/// # Examples
///
/// ```
/// use num_modular::applications::examples::first_use::residue_by_commands;
///
/// assert_eq!(residue_by_commands(1000, 97), 30); // 1000 - 10 * 97
/// ```
// rust: #[cfg_attr(debug_assertions, track_caller)]
pub fn residue_by_commands(n: u64, m: u64) -> u64
    requires { 1 ≤ m }
    ensures { result ≡ n % m }
{
    let reducer = PreMulInv2by1::<u64>::new(m);
    let mut registers = [reducer.transform(0); 2];
    let end = run(&reducer, &mut registers, &[RingCommand::Load { dst: 1, n }]);
    prove!(end == RunEnd::Done);
    // rust: debug_assert!(end == RunEnd::Done, "m must be at least 1");
    reducer.residue(registers[1])
}

/// x·y modulo the Mersenne prime 2^61 - 1, by folds.
///
/// # Examples
///
/// ```
/// use num_modular::applications::examples::first_use::product_by_folds;
///
/// assert_eq!(product_by_folds(1 << 60, 6), 3); // 6 * 2^60 = 3 * 2^61
/// ```
#[tactic(auto, using(num_modular::specs::Remainders::remainders))]
pub fn product_by_folds(x: u64, y: u64) -> u64
    ensures { result ≡ (x * y) % 2305843009213693951 }
{
    let ring = FixedMersenne64::<61, 1>::new(&FixedMersenne64::<61, 1>::fixed_modulus());
    ring.residue(ring.mul(&ring.transform(x), &ring.transform(y)))
}

/// Whole minutes and seconds, by the multiplier of 60 in place of a division.
///
/// # Examples
///
/// ```
/// use num_modular::applications::examples::first_use::minutes_and_seconds;
///
/// assert_eq!(minutes_and_seconds(3725), (62, 5));
/// ```
pub fn minutes_and_seconds(seconds: u32) -> (u32, u32)
    ensures minutes { result.0 ≡ seconds / 60 }
    ensures left { result.1 ≡ seconds % 60 }
{
    let sixty = PreMulInv1by1::<u32>::new(60);
    sixty.div_rem(seconds, 60)
}

/// The Jacobi symbol of x over n; `None` exactly for an even n and for 0.
///
/// # Examples
///
/// ```
/// use num_modular::applications::examples::first_use::symbol;
///
/// assert_eq!(symbol(2, 15), Some(1));
/// assert_eq!(symbol(2, 14), None);
/// ```
pub fn symbol(x: u64, n: u64) -> Option<i8>
    ensures { result ≡ checked_jacobi_of (pos x) (pos n) }
{
    x.checked_jacobi(&n)
}

/// x^2 + y^2 modulo any reducer's modulus.
///
/// # Examples
///
/// ```
/// use num_modular::applications::examples::first_use::sum_of_squares;
/// use num_modular::Montgomery;
///
/// let ring = Montgomery::<u64>::new(10);
/// assert_eq!(sum_of_squares(&ring, 3, 4), 5); // 25 - 2 * 10
/// ```
#[tactic(auto, using(num_modular::specs::Remainders::remainders))]
pub fn sum_of_squares<T: RingWord, R: Reducer<T>>(ring: &R, x: T, y: T) -> T
    ensures { let m = R.modulus ring.now in
        T.number result ≡ (T.number x * T.number x + T.number y * T.number y) % m }
{
    let x = ring.transform(x);
    let y = ring.transform(y);
    ring.residue(ring.add(&ring.sqr(x), &ring.sqr(y)))
}
