//! Permutations of lists in place.

ghost use Rattle.std.specs.Prelude.{◌≡◌, ◌-◌, ◌^◌, ◌<◌, ◌≤◌, length};
ghost use Rattle.modular_transform.specs.Orders.{IsReordered, bits_reversed, mirrored};

// The number of rows, and of columns, of a tile, and its logarithm to base 2.
const SIDE: usize = 8;

const SIDE_BITS: u32 = 3;

/// Moves each entry to the index with the bits in the opposite order.
///
/// # Preconditions
///
/// - there are 2^bits entries
/// - `bits` is at most 64
pub fn reverse_places<T: Copy>(entries: &mut [T], bits: u32)
    requires few { bits ≤ 64 }
    requires whole { length entries.old ≡ 2 ^ bits }
    ensures { IsReordered (bits_reversed bits) entries.old entries.new }
{
    if bits < 2 * SIDE_BITS {
        reverse_one_by_one(entries, bits);
    } else {
        reverse_by_tiles(entries, bits);
    }
}

// Entry by entry.
fn reverse_one_by_one<T: Copy>(entries: &mut [T], bits: u32)
    requires few { bits ≤ 64 }
    requires whole { length entries.old ≡ 2 ^ bits }
    ensures { IsReordered (bits_reversed bits) entries.old entries.new }
{
    let mut other = 0;
    'places: for place in 0..entries.len() {
        other = next_reversed(other, place, bits);
        if place < other {
            entries.swap(place, other);
        }
    }
}

// The indexes of a tile differ in their highest bits, the rows, and in their lowest bits, the columns. A tile is
// exchanged with the tile of the reversed number, rows with columns, so that each step touches few cache lines.
//
// Source: Carter and Gatlin, "Towards an optimal bit-reversal permutation program", here without a buffer.
#[tactic(auto, using(crate::proofs::BitReversal::bits_reversed_of_zero, crate::proofs::Tiles::place_of, crate::proofs::Reordering::reordered_none, crate::proofs::Tiles::tiles_reversed, crate::proofs::Tiles::tiles_of_whole))]
fn reverse_by_tiles<T: Copy>(entries: &mut [T], bits: u32)
    requires few { bits ≤ 64 }
    requires tiles { 6 ≤ bits }
    requires whole { length entries.old ≡ 2 ^ bits }
    ensures { IsReordered (bits_reversed bits) entries.old entries.new }
{
    let step = entries.len() / SIDE;
    let mut other = 0;
    'tiles: for tile in 0..step / SIDE {
        other = next_reversed(other, tile, bits - 2 * SIDE_BITS);
        if tile <= other {
            let mut to_column = 0;
            'rows: for row in 0..SIDE {
                to_column = next_reversed(to_column, row, SIDE_BITS);
                let mut to_row = 0;
                'columns: for column in 0..SIDE {
                    to_row = next_reversed(to_row, column, SIDE_BITS);
                    if tile < other || row * SIDE + column < to_row * SIDE + to_column {
                        let place = row * step + tile * SIDE + column;
                        entries.swap(place, to_row * step + other * SIDE + to_column);
                    }
                }
            }
        }
    }
}

/// The reversed bits of `place`, from those of `place` - 1, in `last`.
///
/// Where `place` ends in t zeros, the lowest bits of `place` - 1 are a zero and t ones, and these t + 1 bits change.
///
/// # Preconditions
///
/// - `place` is below 2^bits
/// - `bits` is at most 63
#[tactic(auto, using(crate::proofs::BitReversal::bits_reversed_of_zero, crate::proofs::BitReversal::step_in_word))]
pub fn next_reversed(last: usize, place: usize, bits: u32) -> usize
    requires few { bits ≤ 63 }
    requires below { place < 2 ^ bits }
    requires last { last ≡ bits_reversed bits (place - 1) }
    ensures { result ≡ bits_reversed bits place }
{
    if place == 0 {
        return 0;
    }
    let n: usize = 1 << bits;
    let step = 1 << (bits - 1 - place.trailing_zeros());
    last + step - (n - 2 * step)
}

/// Reverses the order of all entries but the first.
pub fn mirror<T: Copy>(entries: &mut [T])
    ensures { IsReordered (mirrored (length entries.old)) entries.old entries.new }
{
    let n = entries.len();
    'places: for place in 1..n {
        let other = n - place;
        if place < other {
            entries.swap(place, other);
        }
    }
}
