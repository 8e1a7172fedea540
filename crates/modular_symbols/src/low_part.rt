//! The lowest 32 bits of a word of any width.

ghost use Rattle.std.specs.Prelude.{◌≡◌, ◌%◌, ◌^◌};

use modular_prim::plain_word::PlainWord;

/// A machine word whose lowest bits can be read.
// rust instead: pub trait LowPart: Sized + PlainWord {
pub trait LowPart: PlainWord {
    /// The lowest 32 bits; the whole word where it has no more.
    fn low_part(self) -> u32
        ensures { result ≡ Self.number self % 2 ^ 32 };
}

impl LowPart for u8 {
    fn low_part(self) -> u32 {
        self as u32
    }
}

impl LowPart for u16 {
    fn low_part(self) -> u32 {
        self as u32
    }
}

impl LowPart for u32 {
    fn low_part(self) -> u32 {
        self
    }
}

impl LowPart for u64 {
    fn low_part(self) -> u32 {
        (self & 0xffff_ffff) as u32
    }
}

// rust: #[cfg(target_pointer_width = "64")]
impl LowPart for usize {
    fn low_part(self) -> u32 {
        (self & 0xffff_ffff) as u32
    }
}
