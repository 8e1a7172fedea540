//! The number of an operand: a signed or unsigned word, or a reference to one.

ghost use Rattle.std.specs.Prelude.{ℕ, ℤ, pos};

/// An operand: an unsigned word, or a reference to one, for the modular operations.
///
/// It has no methods.
pub trait Numbered {
    // The whole number of an operand, with which one contract covers operands by value and by reference.
    ghost whole_number: { Self → ℕ };
}

impl Numbered for u8 {
    ghost whole_number = { λ x. x };
}

impl Numbered for u16 {
    ghost whole_number = { λ x. x };
}

impl Numbered for u32 {
    ghost whole_number = { λ x. x };
}

impl Numbered for u64 {
    ghost whole_number = { λ x. x };
}

impl Numbered for usize {
    ghost whole_number = { λ x. x };
}

impl Numbered for u128 {
    ghost whole_number = { λ x. x };
}

impl<T: Numbered> Numbered for &T {
    ghost whole_number = { λ x. T.whole_number x.now };
}

/// An operand of the symbols: a signed or unsigned word, or a reference to one.
///
/// It has no methods.
pub trait IntegerValued {
    // The integer of an operand.
    ghost integer_value: { Self → ℤ };
}

impl IntegerValued for u8 {
    ghost integer_value = { pos };
}

impl IntegerValued for u16 {
    ghost integer_value = { pos };
}

impl IntegerValued for u32 {
    ghost integer_value = { pos };
}

impl IntegerValued for u64 {
    ghost integer_value = { pos };
}

impl IntegerValued for usize {
    ghost integer_value = { pos };
}

impl IntegerValued for u128 {
    ghost integer_value = { pos };
}

impl IntegerValued for i8 {
    ghost integer_value = { λ z. z };
}

impl IntegerValued for i16 {
    ghost integer_value = { λ z. z };
}

impl IntegerValued for i32 {
    ghost integer_value = { λ z. z };
}

impl IntegerValued for i64 {
    ghost integer_value = { λ z. z };
}

impl IntegerValued for isize {
    ghost integer_value = { λ z. z };
}

impl IntegerValued for i128 {
    ghost integer_value = { λ z. z };
}

impl<T: IntegerValued> IntegerValued for &T {
    ghost integer_value = { λ x. T.integer_value x.now };
}
