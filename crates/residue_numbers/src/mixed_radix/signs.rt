//! Negative numbers in a residue system, which the upper half of the range represents.

ghost use Rattle.std.specs.Prelude.{◌≡◌, ◌↔◌, ◌<ℤ◌, pos, IsTrue, length};
ghost use Rattle.std.specs.Ordering.{MatchOrdering};
ghost use Rattle.num_modular.specs.Systems.{range_of};
ghost use Rattle.residue_numbers.specs.MixedRadix.{mixed_number, AreDigits};
ghost use Rattle.residue_numbers.specs.Signs.{signed_number};

use crate::mixed_radix::System;
use std::cmp::Ordering;

impl<'a> System<'a> {
    /// Whether the digits represent a negative number: they denote one in the mixed radix.
    ///
    /// With the product M of the moduli, a number x below M/2 represents itself, and one from M/2 on represents x - M.
    /// So an odd M has the numbers from -(M - 1)/2 to (M - 1)/2, and an even one those from -M/2 to M/2 - 1. It takes
    /// no product.
    ///
    /// Source: Szabo and Tanaka, Residue Arithmetic and Its Applications to Computer Technology.
    ///
    /// # Conditions
    ///
    /// - each modulus has a digit below it
    ///
    /// # Examples
    ///
    /// ```
    /// use num_modular::applications::residue_numbers::mixed_radix::System;
    ///
    /// let mut inverses = [0; 3];
    /// let system = System::new(&[3, 5, 7], &mut inverses).unwrap();
    /// assert!(system.is_negative(&[2, 4, 6])); // 104 represents -1
    /// assert!(!system.is_negative(&[1, 2, 3])); // 52
    /// ```
    // rust: #[track_caller]
    pub fn is_negative(&self, digits: &[u64]) -> bool
        requires count { length digits.now ≡ length self.now.moduli.now }
        requires digits { AreDigits self.now.moduli.now digits.now }
        ensures { let x = mixed_number self.now.moduli.now digits.now in
            IsTrue result ↔ (signed_number (range_of self.now.moduli.now) x <ℤ pos 0) }
    {
        // rust: assert!(digits.len() == self.moduli.len() && crate::residues::are_reduced(self.moduli, digits),
        // rust:     "each modulus must have a digit below it");
        let mut place = self.moduli.len();
        'digits: while place > 0 {
            place -= 1;
            let half = self.moduli[place] / 2;
            if digits[place] != half {
                return digits[place] > half;
            }
            // The half of an odd modulus leaves the sign to the digits below.
            if self.moduli[place] % 2 == 0 {
                return true;
            }
        }
        false
    }

    /// How two numbers with signs compare: those that two lists of digits represent, where those from half of the range
    /// on are negative, as `is_negative` has it.
    ///
    /// # Conditions
    ///
    /// - each modulus has a left digit and a right one below it
    ///
    /// # Examples
    ///
    /// ```
    /// use num_modular::applications::residue_numbers::mixed_radix::System;
    /// use std::cmp::Ordering;
    ///
    /// let mut inverses = [0; 3];
    /// let system = System::new(&[3, 5, 7], &mut inverses).unwrap();
    /// assert_eq!(system.compare_signed(&[2, 4, 6], &[0, 0, 0]), Ordering::Less); // -1 and 0
    /// ```
    // rust: #[track_caller]
    pub fn compare_signed(&self, left: &[u64], right: &[u64]) -> Ordering
        requires left { length left.now ≡ length self.now.moduli.now }
        requires right { length right.now ≡ length self.now.moduli.now }
        requires left_digits { AreDigits self.now.moduli.now left.now }
        requires right_digits { AreDigits self.now.moduli.now right.now }
        ensures { let range = range_of self.now.moduli.now in
            let x = signed_number range (mixed_number self.now.moduli.now left.now) in
            let y = signed_number range (mixed_number self.now.moduli.now right.now) in
            MatchOrdering result (x <ℤ y) (x ≡ y) (y <ℤ x) }
    {
        // rust: assert!(left.len() == self.moduli.len() && crate::residues::are_reduced(self.moduli,
        // rust:     left) && right.len() == self.moduli.len() && crate::residues::are_reduced(self.moduli, right),
        // rust:     "each modulus must have a left digit and a right one below it");
        let is_left = self.is_negative(left);
        let is_right = self.is_negative(right);
        if is_left == is_right {
            self.compare(left, right)
        } else if is_left {
            Ordering::Less
        } else {
            Ordering::Greater
        }
    }
}
