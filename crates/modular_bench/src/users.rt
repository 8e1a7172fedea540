//! A search by hashes.

ghost use Rattle.std.specs.Prelude.{◌≡◌, IsTrue, None, Some};
ghost use Rattle.num_modular.specs.Hashes.{IsSearch};

use num_modular::hashes::{base, find};

/// The first position of the pattern in the text, by hashes at the base n; false, with the position unchanged,
/// where there is none.
#[unsafe(no_mangle)]
pub extern "C" fn bench_find(n: u64, text: &[u8], pattern: &[u8], position: &mut usize) -> bool
    ensures found { IsTrue result → IsSearch text.now pattern.now (Some position.new) }
    ensures absent { (IsTrue result → ⊥) → IsSearch text.now pattern.now None × (position.new ≡ position.old) }
{
    match find(base(n), text, pattern) {
        Some(at) => {
            *position = at;
            true
        }
        None => false,
    }
}
