//! Sums, differences, doubles and negatives modulo m of words below m, without a division.

ghost use Rattle.std.specs.Prelude.{◌≡◌, ℕ, ◌+◌, ◌*◌, ◌%◌, ◌<◌, ◌≤◌, pos, ◌-ℤ◌, neg_ℤ};
ghost use Rattle.modular_word.specs.Residues.{residue};

// rust: use crate::additions::choose;
use modular_word::path_word::PathWord;

/// The residue of a word below 2m: the smaller of x and x - m modulo the base, which compilers select without a
/// branch.
///
/// # Preconditions
///
/// - the word is below 2m
pub fn reduced_once<T: PathWord>(x: T, m: T) -> T
    requires { T.number x < 2 * T.number m }
    ensures value { T.number result ≡ T.number x % T.number m }
    ensures below { T.number result < T.number m }
{
    // Reading the word gives the proof that it fits its width.
    let _ = m.is_below(x);
    let less = x.wrapping_sub(m);
    if less.is_below(x) { less } else { x }
}

/// The residue of a + b, below m.
///
/// The carry of a + (b - m) chooses between two sums; both need a, so that LLVM selects without a branch.
///
/// # Preconditions
///
/// - a and b are below m
pub fn add_below<T: PathWord>(a: T, b: T, m: T) -> T
    requires left { T.number a < T.number m }
    requires right { T.number b < T.number m }
    ensures value { T.number result ≡ (T.number a + T.number b) % T.number m }
    ensures below { T.number result < T.number m }
{
    // Reading the word gives the proof that it fits its width.
    let _ = m.is_below(a);
    let (rest, above) = a.overflowing_add(b.wrapping_sub(m));
    if above { rest } else { a.plus(b) }
}

/// The residue of a - b, below m.
///
/// # Preconditions
///
/// - a and b are below m
// Inlined before LLVM simplifies it, which then knows the modulus of a fixed reducer, and selects.
#[inline(always)]
pub fn sub_below<T: PathWord>(a: T, b: T, m: T) -> T
    requires left { T.number a < T.number m }
    requires right { T.number b < T.number m }
    ensures value { T.number result ≡ residue (T.number m) (pos (T.number a) -ℤ pos (T.number b)) }
    ensures below { T.number result < T.number m }
{
    // This test, which depends on m alone, makes LLVM load m before it compares a and b. Otherwise it branches on a and b
    // around the load.
    // rust: assert!(!m.is_zero_word(), "m must be at least 1");
    // Reading the word gives the proof that it fits its width.
    let _ = m.is_below(a);
    let less = a.wrapping_sub(b);
    // rust: choose(a.is_below(b), less.wrapping_add(m), less)
    // rattle: item
    if a.is_below(b) {
        less.wrapping_add(m)
    } else {
        less
    }
}

/// The residue of a - b, as [`sub_below`] returns it, but branchless for words of 64 bits: the latency is higher, but
/// no branch mispredicts where either number may be the greater.
///
/// # Preconditions
///
/// - a and b are below m
pub fn branchless_sub_below<T: PathWord>(a: T, b: T, m: T) -> T
    requires left { T.number a < T.number m }
    requires right { T.number b < T.number m }
    ensures value { T.number result ≡ residue (T.number m) (pos (T.number a) -ℤ pos (T.number b)) }
    ensures below { T.number result < T.number m }
{
    a.minus_modulo(b, m)
}

/// The residue of 2a, below m, as [`dbl_below`] returns it, but faster in loops where m isn't a constant: at 32 bits
/// and more LLVM turns the choice of `dbl_below` into a branch in some of them, which mispredicts.
///
/// # Preconditions
///
/// - a is below m
pub fn dbl_below_stored<T: PathWord>(a: T, m: T) -> T
    requires { T.number a < T.number m }
    ensures value { T.number result ≡ (2 * T.number a) % T.number m }
    ensures below { T.number result < T.number m }
{
    if T::bits() == 8 {
        doubled_once(a, m)
    } else if T::bits() == 16 {
        dbl_below(a, m)
    } else {
        add_below(a, a, m)
    }
}

/// The residue of 2a, below m, by a comparison with m/2, which doesn't wait for the double.
///
/// # Preconditions
///
/// - a is below m
pub fn dbl_below<T: PathWord>(a: T, m: T) -> T
    requires { T.number a < T.number m }
    ensures value { T.number result ≡ (2 * T.number a) % T.number m }
    ensures below { T.number result < T.number m }
{
    // Reading the word gives the proof that it fits its width.
    let _ = m.is_below(a);
    let high = m.minus(m.half());
    let twice = a.wrapping_add(a);
    let less = twice.wrapping_sub(m);
    if a.is_below(high) { twice } else { less }
}

// The residue of 2a, below m, by a comparison of the sum, for lists of words of 8 bits. Condition: a is below m.
fn doubled_once<T: PathWord>(a: T, m: T) -> T
    requires { T.number a < T.number m }
    ensures value { T.number result ≡ (2 * T.number a) % T.number m }
    ensures below { T.number result < T.number m }
{
    // Reading the word gives the proof that it fits its width.
    let _ = m.is_below(a);
    let (sum, over) = a.overflowing_add(a);
    let less = sum.wrapping_sub(m);
    if over || !sum.is_below(m) { less } else { sum }
}

/// The residue of -a, below m.
///
/// # Preconditions
///
/// - a is below m
pub fn neg_below<T: PathWord>(a: T, m: T) -> T
    requires { T.number a < T.number m }
    ensures value { T.number result ≡ residue (T.number m) (neg_ℤ (pos (T.number a))) }
    ensures below { T.number result < T.number m }
{
    // As in `sub_below`.
    // rust: assert!(!m.is_zero_word(), "m must be at least 1");
    if a.is_zero_word() { a } else { m.minus(a) }
}
