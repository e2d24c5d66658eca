// Numbers by their width, and the run that a row is in.
ghost use Rattle.std.specs.Prelude.{◌≡◌, ℕ, ◌+◌, ◌^◌, ◌<◌, ◌≤◌, List, map, length, slice_index};
ghost use Rattle.columns.specs.Says.{entry};
ghost use Rattle.pools.specs.Parts.{part_of, Inside};
ghost use Rattle.pools.specs.Store.{store, Lies};
ghost use Rattle.pools.specs.Held.{values_pool};
ghost use Rattle.rows.specs.Ranged.{Rises};

use formats::format::Width;
use pools::pools::Pools;
use pools::records::Part;

// The number at a place of the pool of its width.
pub fn number_at(pools: &Pools<'_>, width: Width, place: usize) -> u64
    requires { place < length (values_pool (store pools.now) width) }
    ensures { result ≡ slice_index (values_pool (store pools.now) width) place }
{
    match width {
        Width::One => u64::from(pools.bytes.get(place)),
        Width::Two => u64::from(pools.shorts.get(place)),
        Width::Four => u64::from(pools.words.get(place)),
        Width::Eight => pools.longs.get(place),
    }
}

// The run that a row is in: the first whose end is above the row, found by halves.
pub fn entry_of(pools: &Pools<'_>, width: Width, ends: Part, row: u64) -> usize
    requires inside { Inside (values_pool (store pools.now) width) ends }
    requires small { ends.start + ends.len < 2 ^ 64 }
    requires rising { Rises (part_of (values_pool (store pools.now) width) ends) }
    ensures is { result ≡ entry (part_of (values_pool (store pools.now) width) ends) row }
    ensures told { (es : List ℕ) → Lies (values_pool (store pools.now) width) ends es → result ≡ entry es row }
{
    match width {
        Width::One => run_of(pools.bytes.part(ends), row),
        Width::Two => run_of(pools.shorts.part(ends), row),
        Width::Four => run_of(pools.words.part(ends), row),
        Width::Eight => run_of(pools.longs.part(ends), row),
    }
}

// The first end that is above the row, among ends of any width.
fn run_of<T: Copy>(ends: &[T], row: u64) -> usize
where
    u64: From<T>,
    ensures { (number : T → ℕ) → ((x : T) (n : ℕ) → ⟦<u64 as From<T>>⟧.from_gives x n → n ≡ number x) → Rises (map number ends.now) → result ≡ entry (map number ends.now) row }
{
    ends.partition_point(|end| u64::from(*end) <= row)
}
