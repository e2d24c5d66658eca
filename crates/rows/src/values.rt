// What a row of a stored node has in the pools. Each function says what it reads of their entries and, by a clause
// `told`, that this is what the stored column has there.
ghost use Rattle.std.specs.Prelude.{◌≡◌, ℕ, ◌+◌, ◌/◌, ◌%◌, ◌^◌, ◌<◌, Bool, false, List, [], map, length, ◌==◌, slice_index_or};
ghost use Rattle.std.proofs.Math.Option.{Option as Given};
ghost use Rattle.columns.specs.Column.{View as Viewed, short};
ghost use Rattle.columns.specs.Masks.{mask_valid};
ghost use Rattle.pools.specs.Used.{used};
ghost use Rattle.pools.specs.Store.{Segment, no_halves};
ghost use Rattle.pools.specs.Held.{BitsLie, MaskLies, view_from};
ghost use Rattle.rows.specs.Views.{parts_of, view_parts};
ghost use Rattle.pools.specs.Bits.{bit_of, mask_bit, MaskThere};

use crate::views::ViewParts;
use pools::bits::bit;
use pools::pool::Pool;
use pools::records::View;

// The bit of a row, where the bits start at a place of the byte pool.
pub fn bit_at(bytes: &Pool<'_, u8>, place: usize, row: usize) -> bool
    requires { place + row / 8 < length (used bytes.now) }
    ensures is { result ≡ bit_of (used bytes.now) place row }
    ensures told { (rows : ℕ) (bits spare : List Bool) → BitsLie (used bytes.now) place rows bits spare → row < rows → result ≡ slice_index_or bits row false }
{
    bit(bytes.get(place + row / 8), row % 8)
}

// Whether a row is valid; without a mask every row is.
pub fn is_valid(bytes: &Pool<'_, u8>, mask: Option<usize>, row: usize) -> bool
    requires { MaskThere (used bytes.now) mask row }
    ensures is { result ≡ mask_bit (used bytes.now) mask row }
    ensures told { (rows : ℕ) (bits : Given (List Bool)) (spare : List Bool) → MaskLies (used bytes.now) mask rows bits spare → row < rows → result ≡ mask_valid bits row }
{
    // `is_none_or` was tried: both clauses stayed open, since what it tells of the closure leaves out what `bit_at` told there.
    match mask {
        None => true,
        Some(place) => bit_at(bytes, place, row),
    }
}

// The entry of a row, where one lies for each row from a place on: a value of any width, or an offset.
pub fn value_at<T: Copy>(values: &Pool<'_, T>, place: usize, row: usize) -> T
    requires { place + row < length (used values.now) }
    ensures is { (d : _) → result ≡ slice_index_or (used values.now) (place + row) d }
    ensures told { (rows : ℕ) (vs : List _) (d : _) → Segment (used values.now) place rows vs → row < rows → result ≡ slice_index_or vs row d }
{
    values.get(place + row)
}

// The view of a row, taken apart.
pub fn view_at(views: &Pool<'_, View>, place: usize, row: usize) -> ViewParts
    requires { place + row < length (used views.now) }
    ensures is { result ≡ parts_of (slice_index_or (used views.now) (place + row) no_halves) }
    ensures told { (rows : ℕ) (vs : List Viewed) → Segment (map view_from (used views.now)) place rows vs → row < rows → result ≡ view_parts (slice_index_or vs row (short 0 [])) }
{
    ViewParts::from(value_at(views, place, row))
}
