//! Callers of the modular operations.

ghost use Rattle.std.specs.Prelude.{◌≡◌, ◌≤◌};
ghost use Rattle.modular_word.specs.Inverses.{IsInversion};

use modular_prim::operations::{ModularCoreOps, ModularUnaryOps};

/// 3 + 4 modulo 5.
pub fn sum_modulo_5() -> u8
    ensures { result ≡ 2 }
{
    3u8.addm(4, &5)
}

/// The inverse of a modulo m; `None` exactly where there is none.
///
/// # Preconditions
///
/// - m is at least 1
pub fn inverse_modulo(a: u8, m: u8) -> Option<u8>
    requires { 1 ≤ m }
    ensures { IsInversion (λ x. x) m a result }
{
    a.invm(&m)
}
