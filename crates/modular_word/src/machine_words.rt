//! The words of the five widths, with their double words.

ghost use Rattle.std.specs.Prelude.{◌≡◌, ◌+◌, ◌*◌, ◌/◌, ◌%◌, ◌^◌, ◌<◌};
ghost use Rattle.std.proofs.Common.{refl};

use crate::path_word::PathWord;

impl PathWord for u8 {
    type Double = u16;

    ghost double_number = { λ x. x };

    ghost base = { 2 ^ 8 };

    fn plus(self, rhs: u8) -> u8 {
        self + rhs
    }

    fn minus(self, rhs: u8) -> u8 {
        self - rhs
    }

    fn minus_modulo(self, rhs: u8, m: u8) -> u8 {
        if self < rhs {
            m - (rhs - self)
        } else {
            self - rhs
        }
    }

    fn times(self, rhs: u8) -> u8 {
        self * rhs
    }

    fn wrapping_add(self, rhs: u8) -> u8 {
        self.wrapping_add(rhs)
    }

    // LLVM vectorizes this comparison over several short words, but not the carry of `u8::overflowing_add`.
    fn overflowing_add(self, rhs: u8) -> (u8, bool) {
        let sum = self.wrapping_add(rhs);
        (sum, sum < rhs)
    }

    fn wrapping_sub(self, rhs: u8) -> u8 {
        self.wrapping_sub(rhs)
    }

    fn wrapping_mul(self, rhs: u8) -> u8 {
        self.wrapping_mul(rhs)
    }

    fn shift_right(self, by: u32) -> u8 {
        self >> by
    }

    fn shift_left(self, by: u32) -> u8 {
        self << by
    }

    fn low_bits(self, count: u32) -> u8 {
        self & ((1 << count) - 1)
    }

    fn leading_zeros(self) -> u32 {
        self.leading_zeros()
    }

    fn trailing_zeros(self) -> u32 {
        self.trailing_zeros()
    }

    fn is_below(self, other: u8) -> bool {
        self < other
    }

    fn product(self, rhs: u8) -> u16 {
        self as u16 * rhs as u16
    }

    #[tactic(auto, using(crate::proofs::Shifts::shifted_fits))]
    fn shift_left_wide(self, by: u32) -> u16 {
        (self as u16) << by
    }

    fn split(double: u16) -> (u8, u8) {
        ((double & 0xff) as u8, (double >> 8) as u8)
    }

    fn merge(low: u8, high: u8) -> u16 {
        low as u16 + ((high as u16) << 8)
    }

    fn double_plus(first: u16, second: u16) -> u16 {
        first + second
    }

    fn double_shift_right(double: u16, by: u32) -> u16 {
        double >> by
    }

    fn double_overflowing_add(first: u16, second: u16) -> (u16, bool) {
        first.overflowing_add(second)
    }

    ghost base_is = { refl };
}

impl PathWord for u16 {
    type Double = u32;

    ghost double_number = { λ x. x };

    ghost base = { 2 ^ 16 };

    fn plus(self, rhs: u16) -> u16 {
        self + rhs
    }

    fn minus(self, rhs: u16) -> u16 {
        self - rhs
    }

    fn minus_modulo(self, rhs: u16, m: u16) -> u16 {
        if self < rhs {
            m - (rhs - self)
        } else {
            self - rhs
        }
    }

    fn times(self, rhs: u16) -> u16 {
        self * rhs
    }

    fn wrapping_add(self, rhs: u16) -> u16 {
        self.wrapping_add(rhs)
    }

    // As for `u8`.
    fn overflowing_add(self, rhs: u16) -> (u16, bool) {
        let sum = self.wrapping_add(rhs);
        (sum, sum < rhs)
    }

    fn wrapping_sub(self, rhs: u16) -> u16 {
        self.wrapping_sub(rhs)
    }

    fn wrapping_mul(self, rhs: u16) -> u16 {
        self.wrapping_mul(rhs)
    }

    fn shift_right(self, by: u32) -> u16 {
        self >> by
    }

    fn shift_left(self, by: u32) -> u16 {
        self << by
    }

    fn low_bits(self, count: u32) -> u16 {
        self & ((1 << count) - 1)
    }

    fn leading_zeros(self) -> u32 {
        self.leading_zeros()
    }

    fn trailing_zeros(self) -> u32 {
        self.trailing_zeros()
    }

    fn is_below(self, other: u16) -> bool {
        self < other
    }

    fn product(self, rhs: u16) -> u32 {
        self as u32 * rhs as u32
    }

    #[tactic(auto, using(crate::proofs::Shifts::shifted_fits))]
    fn shift_left_wide(self, by: u32) -> u32 {
        (self as u32) << by
    }

    fn split(double: u32) -> (u16, u16) {
        ((double & 0xffff) as u16, (double >> 16) as u16)
    }

    fn merge(low: u16, high: u16) -> u32 {
        low as u32 + ((high as u32) << 16)
    }

    fn double_plus(first: u32, second: u32) -> u32 {
        first + second
    }

    fn double_shift_right(double: u32, by: u32) -> u32 {
        double >> by
    }

    fn double_overflowing_add(first: u32, second: u32) -> (u32, bool) {
        first.overflowing_add(second)
    }

    ghost base_is = { refl };
}

impl PathWord for u32 {
    type Double = u64;

    ghost double_number = { λ x. x };

    ghost base = { 2 ^ 32 };

    fn plus(self, rhs: u32) -> u32 {
        self + rhs
    }

    fn minus(self, rhs: u32) -> u32 {
        self - rhs
    }

    fn minus_modulo(self, rhs: u32, m: u32) -> u32 {
        if self < rhs {
            m - (rhs - self)
        } else {
            self - rhs
        }
    }

    fn times(self, rhs: u32) -> u32 {
        self * rhs
    }

    fn wrapping_add(self, rhs: u32) -> u32 {
        self.wrapping_add(rhs)
    }

    fn overflowing_add(self, rhs: u32) -> (u32, bool) {
        self.overflowing_add(rhs)
    }

    fn wrapping_sub(self, rhs: u32) -> u32 {
        self.wrapping_sub(rhs)
    }

    fn wrapping_mul(self, rhs: u32) -> u32 {
        self.wrapping_mul(rhs)
    }

    fn shift_right(self, by: u32) -> u32 {
        self >> by
    }

    fn shift_left(self, by: u32) -> u32 {
        self << by
    }

    fn low_bits(self, count: u32) -> u32 {
        self & ((1 << count) - 1)
    }

    fn leading_zeros(self) -> u32 {
        self.leading_zeros()
    }

    fn trailing_zeros(self) -> u32 {
        self.trailing_zeros()
    }

    fn is_below(self, other: u32) -> bool {
        self < other
    }

    fn product(self, rhs: u32) -> u64 {
        self as u64 * rhs as u64
    }

    #[tactic(auto, using(crate::proofs::Shifts::shifted_fits))]
    fn shift_left_wide(self, by: u32) -> u64 {
        (self as u64) << by
    }

    fn split(double: u64) -> (u32, u32) {
        ((double & 0xffff_ffff) as u32, (double >> 32) as u32)
    }

    fn merge(low: u32, high: u32) -> u64 {
        low as u64 + ((high as u64) << 32)
    }

    fn double_plus(first: u64, second: u64) -> u64 {
        first + second
    }

    fn double_shift_right(double: u64, by: u32) -> u64 {
        double >> by
    }

    fn double_overflowing_add(first: u64, second: u64) -> (u64, bool) {
        first.overflowing_add(second)
    }

    ghost base_is = { refl };
}

impl PathWord for u64 {
    type Double = u128;

    ghost double_number = { λ x. x };

    ghost base = { 2 ^ 64 };

    fn plus(self, rhs: u64) -> u64 {
        self + rhs
    }

    fn minus(self, rhs: u64) -> u64 {
        self - rhs
    }

    #[tactic(auto, using(crate::proofs::Borrows::difference_with_borrow, crate::proofs::Borrows::difference_without_borrow))]
    fn minus_modulo(self, rhs: u64, m: u64) -> u64 {
        let difference = (self as u128).wrapping_sub(rhs as u128);
        let (low, borrowed) = <u64 as PathWord>::split(difference);
        low.wrapping_add(borrowed & m)
    }

    fn times(self, rhs: u64) -> u64 {
        self * rhs
    }

    fn wrapping_add(self, rhs: u64) -> u64 {
        self.wrapping_add(rhs)
    }

    fn overflowing_add(self, rhs: u64) -> (u64, bool) {
        self.overflowing_add(rhs)
    }

    fn wrapping_sub(self, rhs: u64) -> u64 {
        self.wrapping_sub(rhs)
    }

    fn wrapping_mul(self, rhs: u64) -> u64 {
        self.wrapping_mul(rhs)
    }

    fn shift_right(self, by: u32) -> u64 {
        self >> by
    }

    fn shift_left(self, by: u32) -> u64 {
        self << by
    }

    fn low_bits(self, count: u32) -> u64 {
        self & ((1 << count) - 1)
    }

    fn leading_zeros(self) -> u32 {
        self.leading_zeros()
    }

    fn trailing_zeros(self) -> u32 {
        self.trailing_zeros()
    }

    fn is_below(self, other: u64) -> bool {
        self < other
    }

    fn product(self, rhs: u64) -> u128 {
        self as u128 * rhs as u128
    }

    #[tactic(auto, using(crate::proofs::Shifts::shifted_fits))]
    fn shift_left_wide(self, by: u32) -> u128 {
        (self as u128) << by
    }

    fn split(double: u128) -> (u64, u64) {
        (
            (double & 0xffff_ffff_ffff_ffff) as u64,
            (double >> 64) as u64,
        )
    }

    fn merge(low: u64, high: u64) -> u128 {
        low as u128 + ((high as u128) << 64)
    }

    fn double_plus(first: u128, second: u128) -> u128 {
        first + second
    }

    fn double_shift_right(double: u128, by: u32) -> u128 {
        double >> by
    }

    fn double_overflowing_add(first: u128, second: u128) -> (u128, bool) {
        first.overflowing_add(second)
    }

    ghost base_is = { refl };
}

// rust: #[cfg(target_pointer_width = "64")]
impl PathWord for usize {
    type Double = u128;

    ghost double_number = { λ x. x };

    ghost base = { 2 ^ 64 };

    fn plus(self, rhs: usize) -> usize {
        self + rhs
    }

    fn minus(self, rhs: usize) -> usize {
        self - rhs
    }

    #[tactic(auto, using(crate::proofs::Borrows::difference_with_borrow, crate::proofs::Borrows::difference_without_borrow))]
    fn minus_modulo(self, rhs: usize, m: usize) -> usize {
        let difference = (self as u128).wrapping_sub(rhs as u128);
        let (low, borrowed) = <usize as PathWord>::split(difference);
        low.wrapping_add(borrowed & m)
    }

    fn times(self, rhs: usize) -> usize {
        self * rhs
    }

    fn wrapping_add(self, rhs: usize) -> usize {
        self.wrapping_add(rhs)
    }

    fn overflowing_add(self, rhs: usize) -> (usize, bool) {
        self.overflowing_add(rhs)
    }

    fn wrapping_sub(self, rhs: usize) -> usize {
        self.wrapping_sub(rhs)
    }

    fn wrapping_mul(self, rhs: usize) -> usize {
        self.wrapping_mul(rhs)
    }

    fn shift_right(self, by: u32) -> usize {
        self >> by
    }

    fn shift_left(self, by: u32) -> usize {
        self << by
    }

    fn low_bits(self, count: u32) -> usize {
        self & ((1 << count) - 1)
    }

    fn leading_zeros(self) -> u32 {
        self.leading_zeros()
    }

    fn trailing_zeros(self) -> u32 {
        self.trailing_zeros()
    }

    fn is_below(self, other: usize) -> bool {
        self < other
    }

    fn product(self, rhs: usize) -> u128 {
        self as u128 * rhs as u128
    }

    #[tactic(auto, using(crate::proofs::Shifts::shifted_fits))]
    fn shift_left_wide(self, by: u32) -> u128 {
        (self as u128) << by
    }

    fn split(double: u128) -> (usize, usize) {
        (
            (double & 0xffff_ffff_ffff_ffff) as usize,
            (double >> 64) as usize,
        )
    }

    fn merge(low: usize, high: usize) -> u128 {
        low as u128 + ((high as u128) << 64)
    }

    fn double_plus(first: u128, second: u128) -> u128 {
        first + second
    }

    fn double_shift_right(double: u128, by: u32) -> u128 {
        double >> by
    }

    fn double_overflowing_add(first: u128, second: u128) -> (u128, bool) {
        first.overflowing_add(second)
    }

    ghost base_is = { refl };
}
