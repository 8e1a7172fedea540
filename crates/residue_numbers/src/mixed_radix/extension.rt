//! Base extension: the residues of a number modulo further moduli.

ghost use Rattle.std.specs.Prelude.{◌≡◌, ℕ, ◌%◌, ◌<◌, ◌≤◌, length, slice_index};
ghost use Rattle.num_modular.specs.Systems.{range_of, AreResidues};
ghost use Rattle.residue_numbers.specs.MixedRadix.{mixed_number, AreDigits};

use crate::mixed_radix::{System, number_modulo, write_residues};

impl<'a> System<'a> {
    /// The residue of a number modulo m: by its digits in the mixed radix.
    ///
    /// The modulus may have divisors in common with those of the system.
    ///
    /// # Conditions
    ///
    /// - m is at least 1, and each modulus of the system has a digit
    ///
    /// # Examples
    ///
    /// ```
    /// use num_modular::applications::residue_numbers::mixed_radix::System;
    ///
    /// let mut inverses = [0; 3];
    /// let system = System::new(&[3, 5, 7], &mut inverses).unwrap();
    /// assert_eq!(system.residue_modulo(10, &[2, 2, 1]), 3); // 23
    /// ```
    // rust: #[track_caller]
    pub fn residue_modulo(&self, m: u64, digits: &[u64]) -> u64
        requires modulus { 1 ≤ m }
        requires digits { length digits.now ≡ length self.now.moduli.now }
        ensures { result ≡ mixed_number self.now.moduli.now digits.now % m }
    {
        // rust: assert!(m > 0 && digits.len() == self.moduli.len(),
        // rust:     "m must be at least 1, and each modulus of the system must have a digit");
        number_modulo(m, self.moduli, digits, self.moduli.len())
    }

    /// Writes the residues modulo other moduli: by base extension, of the only number below the product of the system's
    /// moduli that has these residues.
    ///
    /// It writes the number's digits too, as `digits` does, and computes with words of 64 bits alone. The other moduli
    /// may have common divisors.
    ///
    /// Source: Szabo and Tanaka, Residue Arithmetic and Its Applications to Computer Technology.
    ///
    /// # Conditions
    ///
    /// - each modulus of the system has a residue below it (`are_reduced` of `num_modular::residues` tells) and
    ///   room for a digit
    /// - the others are above 0, and each has room for a residue
    ///
    /// # Examples
    ///
    /// ```
    /// use num_modular::applications::residue_numbers::mixed_radix::System;
    ///
    /// let mut inverses = [0; 3];
    /// let system = System::new(&[3, 5, 7], &mut inverses).unwrap();
    /// let (mut digits, mut extended) = ([0; 3], [0; 2]);
    /// system.extend(&[2, 3, 2], &mut digits, &[11, 10], &mut extended);
    /// assert_eq!(extended, [1, 3]); // 23
    /// ```
    // rust: #[track_caller]
    pub fn extend(&self, residues: &[u64], digits: &mut [u64], moduli: &[u64], extended: &mut [u64])
        requires count { length residues.now ≡ length self.now.moduli.now }
        requires reduced { (i : ℕ) → i < length self.now.moduli.now →
            slice_index residues.now i < slice_index self.now.moduli.now i }
        requires digits { length digits.old ≡ length self.now.moduli.now }
        requires positive { (i : ℕ) → i < length moduli.now → 0 < slice_index moduli.now i }
        requires room { length extended.old ≡ length moduli.now }
        ensures digits { AreDigits self.now.moduli.now digits.new }
        ensures number { AreResidues self.now.moduli.now residues.now (mixed_number self.now.moduli.now digits.new) }
        ensures extended { (x : ℕ) → x < range_of self.now.moduli.now → AreResidues self.now.moduli.now residues.now x →
            AreResidues moduli.now extended.new x }
    {
        // rust: assert!(residues.len() == self.moduli.len() && crate::residues::are_reduced(self.moduli,
        // rust:     residues) && digits.len() == self.moduli.len(),
        // rust:     "each modulus of the system must have a residue below it and room for a digit");
        // rust: assert!(moduli.iter().all(|m| *m > 0) && extended.len() == moduli.len(),
        // rust:     "the others must be above 0, and each must have room for a residue");
        self.digits(residues, digits);
        write_residues(self.moduli, digits, moduli, extended);
    }
}
