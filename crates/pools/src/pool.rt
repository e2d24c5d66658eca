// One make of pool for every kind of entry: a lent slice, used up to a mark that only rises. It is no `Vec`, since the shelf has
// no heap. That the mark is in range is no invariant of the type, which would ask it of whoever lends: a fresh shelf takes pools
// with any mark, and sets it to 0.
ghost use Rattle.std.specs.Prelude.{◌≡◌, ◌+◌, ◌-◌, ◌<◌, ◌≤◌, min, ◌&&◌, [], ◌∷◌, length, nat_le, slice_index_or};
ghost use Rattle.pools.specs.Grown.{most_entries};
ghost use Rattle.pools.specs.Kept.{Standing};
ghost use Rattle.pools.specs.Parts.{part_of, Inside};
ghost use Rattle.pools.specs.Used.{used, room, Fit, Gains};

use crate::records::Part;

// However long the slice is, no entry past these is used.
pub const MOST_ENTRIES: usize = 1_048_576;

#[derive(Drop)]
pub struct Pool<'a, T> {
    pub lent: &'a mut [T],
    pub mark: usize,
}

// A pool over what is lent, with nothing used of it.
impl<'a, T> From<&'a mut [T]> for Pool<'a, T> {
    ghost from_gives = { λ lent pool. (pool.lent ≡ lent) × (pool.mark ≡ 0) };

    fn from(lent: &'a mut [T]) -> Pool<'a, T> {
        Pool { lent, mark: 0 }
    }
}

impl<T> Pool<'_, T> {
    // The entries below the mark.
    pub fn used(&self) -> &[T]
        requires { Standing self.now }
        ensures { result.now ≡ used self.now }
    {
        &self.lent[..self.mark]
    }

    // The entries of a part that lies below the mark.
    pub fn part(&self, part: Part) -> &[T]
        requires { Inside (used self.now) part }
        ensures { result.now ≡ part_of (used self.now) part }
    {
        part.of(self.lent)
    }
}

impl<'a, T: Copy> Pool<'a, T> {
    // How many entries can be added.
    pub fn free(&self) -> usize
        ensures { result ≡ room self.now }
    {
        left(self.lent.len(), self.mark)
    }

    // Whether so many more entries fit.
    pub fn fits(&self, more: usize) -> bool
        ensures { result ≡ nat_le (self.now.mark + more) (length self.now.lent.now) && nat_le (self.now.mark + more) most_entries }
    {
        fits(self.lent.len(), self.mark, more)
    }

    pub fn append(&mut self, entry: T)
        requires { Fit self.old 1 }
        ensures { Gains self.old (entry ∷ []) self.new }
    {
        self.lent[self.mark] = entry;
        self.mark += 1;
    }

    // Adds each entry in turn.
    pub fn extend(&mut self, entries: &[T])
        requires { Fit self.old (length entries.now) }
        ensures { Gains self.old entries.now self.new }
    {
        let end = self.mark + entries.len();
        self.lent[self.mark..end].copy_from_slice(entries);
        self.mark = end;
    }

    // The entry at a place below the mark.
    pub fn get(&self, place: usize) -> T
        requires { place < length (used self.now) }
        ensures { (d : _) → result ≡ slice_index_or (used self.now) place d }
    {
        self.lent[place]
    }
}

// How many entries are left of so many, with so many used.
pub fn left(len: usize, mark: usize) -> usize
    ensures { result ≡ min len most_entries - mark }
{
    len.min(MOST_ENTRIES).saturating_sub(mark)
}

// Whether so many entries more fit into a pool of this length with this mark.
pub fn fits(len: usize, mark: usize, more: usize) -> bool
    ensures { result ≡ (nat_le (mark + more) len && nat_le (mark + more) most_entries) }
{
    mark.checked_add(more)
        .is_some_and(|end| end <= len && end <= MOST_ENTRIES)
}
