//! The codes that the calls return. A call that returns another code than `NM_OK` leaves its arguments unchanged,
//! unless its doc says otherwise.

/// The result is written.
pub const NM_OK: u32 = 0;

/// An inverse that the call needs doesn't exist.
pub const NM_NO_INVERSE: u32 = 1;

/// An argument breaks a precondition of the call.
pub const NM_BAD_ARGUMENT: u32 = 2;

/// A context of a divisor or a modulus isn't one that the library made for it.
pub const NM_BAD_CONTEXT: u32 = 3;

/// The root doesn't suit the length, or none was found.
pub const NM_NO_ROOT: u32 = 4;

/// The pattern doesn't occur.
pub const NM_NOT_FOUND: u32 = 5;

/// There are fewer symbols than the message has.
pub const NM_TOO_FEW_SYMBOLS: u32 = 6;

/// A place isn't below the number of points.
pub const NM_PLACE_OUT_OF_RANGE: u32 = 7;

/// A place occurs twice.
pub const NM_PLACE_TWICE: u32 = 8;

/// The difference of two points has no inverse.
pub const NM_POINTS_DONT_FIT: u32 = 9;

/// No word of the code is near enough to the symbols.
pub const NM_TOO_MANY_ERRORS: u32 = 10;

/// A point has no inverse, so that the share there would say something of the secret.
pub const NM_POINT_WITHOUT_INVERSE: u32 = 11;

/// The number or word isn't one of the code, or no symbol makes it one.
pub const NM_NOT_ACCEPTED: u32 = 12;
