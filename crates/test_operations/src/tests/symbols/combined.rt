//! Code that is generic over the traits that combine the operations, with its callers.

ghost use Rattle.std.specs.Prelude.{◌≡◌, ◌*◌, ◌%◌, ◌≤◌, pos};
ghost use Rattle.modular_symbols.specs.Jacobi.{checked_jacobi_of};

use modular_symbols::operands::UnsignedOperand;
use modular_symbols::operations::ModularOps;
use modular_symbols::reference_operations::ModularRefOps;

/// The Jacobi symbol over m of the residue of x·y; `None` exactly for an even m.
///
/// # Preconditions
///
/// - m is at least 1
pub fn product_symbol<M: UnsignedOperand + Copy, T: ModularOps<T, M, T> + Copy>(
    x: T,
    y: T,
    m: M,
) -> Option<i8>
    requires { 1 ≤ M.whole_number m }
    ensures { result
        ≡ checked_jacobi_of (pos ((T.whole_number x * T.whole_number y) % M.whole_number m)) (pos (M.whole_number m)) }
{
    x.mulm(y, m).checked_jacobi(m)
}

/// The same over plain references.
// rust instead: pub fn product_symbol_ref<T: ModularRefOps + Copy>(x: &T, y: &T, m: &T) -> Option<i8>
pub fn product_symbol_ref<T: ModularRefOps>(x: &T, y: &T, m: &T) -> Option<i8>
    requires { 1 ≤ T.whole_number m.now }
    ensures { result
        ≡ checked_jacobi_of (pos ((T.whole_number x.now * T.whole_number y.now) % T.whole_number m.now))
        (pos (T.whole_number m.now)) }
{
    x.mulm_ref(y, m).checked_jacobi_ref(m)
}

/// Both for words of 8 bits, with equal results.
pub fn symbols_of_8_bits(x: u8, y: u8, m: u8) -> (Option<i8>, Option<i8>)
    requires { 1 ≤ m }
    ensures value { result.0 ≡ checked_jacobi_of (pos ((x * y) % m)) (pos m) }
    ensures same { result.1 ≡ result.0 }
{
    (product_symbol(x, y, &m), product_symbol_ref(&x, &y, &m))
}

/// Both for words of 64 bits.
pub fn symbols_of_64_bits(x: u64, y: u64, m: u64) -> (Option<i8>, Option<i8>)
    requires { 1 ≤ m }
    ensures value { result.0 ≡ checked_jacobi_of (pos ((x * y) % m)) (pos m) }
    ensures same { result.1 ≡ result.0 }
{
    (product_symbol(x, y, &m), product_symbol_ref(&x, &y, &m))
}
