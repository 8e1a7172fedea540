//! Words of the pointer width.

ghost use Rattle.std.specs.Prelude.{◌≡◌, ◌%◌, ◌≤◌, pos, IfSome, option_map};
ghost use Rattle.modular_symbols.specs.Jacobi.{checked_jacobi_of};
ghost use Rattle.modular_symbols.specs.Steps.{jacobi_steps};

/// The Jacobi symbol and the number of steps: the symbol is that of a over n, and the steps are halvings and swaps,
/// counted from the residue of a; `None` exactly for an even n.
///
/// # Examples
///
/// ```
/// use num_modular::prim::counted::wsize::checked_jacobi_counted;
///
/// assert_eq!(checked_jacobi_counted(2, 15), Some((1, 2))); // 2 is halved, 15 reduced modulo 1
/// assert_eq!(checked_jacobi_counted(2, 14), None);
/// ```
pub fn checked_jacobi_counted(a: usize, n: usize) -> Option<(i8, u32)>
    ensures symbol { option_map (λ found. found.0) result ≡ checked_jacobi_of (pos a) (pos n) }
    ensures count { IfSome result (λ found. found.1 ≡ jacobi_steps (a % n) n) }
    ensures at_most { IfSome result (λ found. found.1 ≤ 128) }
{
    super::checked_jacobi_counted(false, a, n)
}
