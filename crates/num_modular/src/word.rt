//! Words and their double words: the helpers of each width, and the traits of words.

pub use modular_prim::plain_word::PlainWord;
pub use modular_word::ring_word::RingWord;
// rust instead: pub use crate::modular_word::word::{w8, w16, w32, w64};
pub use modular_word::word::{w8, w16, w32, w64, wsize};
// rust: #[cfg(target_pointer_width = "64")]
// rust: pub use crate::modular_word::word::wsize;
