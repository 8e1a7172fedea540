//! Code that is generic over the traits of the modular operations, proved from their contracts alone. Condition of each:
//! the modulus is at least 1, or what is stored fits the divisor.

ghost use Rattle.std.specs.Prelude.{◌≡◌, ◌≢◌, ℕ, IsTrue, IsFalse, ◌+◌, ◌*◌, ◌%◌, ◌^◌, ◌≤◌, pos, ◌-ℤ◌};
ghost use Rattle.modular_word.specs.Division.{IsExactQuotient};
ghost use Rattle.modular_word.specs.Inverses.{IsInversion};
ghost use Rattle.modular_word.specs.Residues.{residue};

use modular_prim::exact::{DivExact, DivExactAssign};
use modular_prim::numbered::Numbered;
use modular_prim::operations::{ModularAbs, ModularCoreOps, ModularPow, ModularUnaryOps};

/// The residue of x·y + y, of any kind of operands.
pub fn product_and_sum<R: Numbered + Copy, M: Numbered + Copy, T: ModularCoreOps<R, M, Output = T>>(
    x: T,
    y: R,
    m: M,
) -> T
    requires { 1 ≤ M.whole_number m }
    ensures { T.whole_number result
        ≡ ((T.whole_number x * R.whole_number y) % M.whole_number m + R.whole_number y) % M.whole_number m }
{
    x.mulm(y, m).addm(y, m)
}

/// The residue of x - y, of any kind of operands.
pub fn difference<R: Numbered, M: Numbered, T: ModularCoreOps<R, M>>(x: T, y: R, m: M) -> T::Output
    requires { 1 ≤ M.whole_number m }
    ensures { T.Output.whole_number result
        ≡ residue (M.whole_number m) (pos (T.whole_number x) -ℤ pos (R.whole_number y)) }
{
    x.subm(y, m)
}

/// The residue of (2x)^2, of any kind of operands.
pub fn square_of_double<M: Numbered + Copy, T: ModularUnaryOps<M, Output = T>>(x: T, m: M) -> T
    requires { 1 ≤ M.whole_number m }
    ensures { T.whole_number result
        ≡ ((2 * T.whole_number x) % M.whole_number m * ((2 * T.whole_number x) % M.whole_number m)) % M.whole_number m }
{
    x.dblm(m).sqm(m)
}

/// The inverse of x, of any kind of operands; `None` exactly where there is none.
pub fn inverse<M: Numbered, T: ModularUnaryOps<M>>(x: T, m: M) -> Option<T::Output>
    requires { 1 ≤ M.whole_number m }
    ensures { IsInversion T.Output.whole_number (M.whole_number m) (T.whole_number x) result }
{
    x.invm(m)
}

/// The residue of a power, of any kind of operands.
pub fn power<E: Numbered, M: Numbered, T: ModularPow<E, M>>(x: T, exp: E, m: M) -> T::Output
    requires { 1 ≤ M.whole_number m }
    ensures { T.Output.whole_number result ≡ T.whole_number x ^ E.whole_number exp % M.whole_number m }
{
    x.powm(exp, m)
}

/// The residue of a signed number.
pub fn signed<M: Numbered, T: ModularAbs<M>>(x: T, m: &M) -> M
    requires { 1 ≤ M.whole_number m.now }
    ensures { M.whole_number result ≡ residue (M.whole_number m.now) (T.integer_value x) }
{
    x.absm(m)
}

/// The quotient of n by d; `None` exactly where d doesn't divide n.
pub fn quotient<D: Numbered, P, N: DivExact<D, P>>(n: N, d: D, pre: &P) -> Option<N::Output>
    requires { N.fits d pre.now }
    ensures { IsExactQuotient N.Output.whole_number (N.whole_number n) (D.whole_number d) result }
{
    n.div_exact(d, pre)
}

/// Divides the number by d in place and returns true; where d doesn't divide it, leaves it unchanged and returns false.
pub fn divided<D: Numbered, P, N: DivExactAssign<D, P>>(n: &mut N, d: D, pre: &P) -> bool
    requires { N.fits d pre.now }
    ensures exact { IsTrue result → N.whole_number n.new * D.whole_number d ≡ N.whole_number n.old }
    ensures unchanged { IsFalse result → n.new ≡ n.old }
    ensures none { IsFalse result → (k : ℕ) → k * D.whole_number d ≢ N.whole_number n.old }
{
    n.div_exact_assign(d, pre)
}
