// Entries as they lie in a buffer, into the pools.
ghost use Rattle.std.specs.Prelude.{◌≡◌, ◌*◌, ◌<◌, ◌≤◌, List, length, take, slice_set};
ghost use Rattle.std.specs.List.{AllZip};
ghost use Rattle.pools.specs.Laid.{entries_in};
ghost use Rattle.pools.specs.Used.{Fit, Gains};

use pools::laid::Laid;
use pools::pool::Pool;

// Writes an entry in its place.
fn set<E: Copy>(lent: &mut [E], place: usize, entry: E)
    requires { place < length lent.old }
    ensures { lent.new ≡ slice_set lent.old place entry }
{
    lent[place] = entry;
}

// Adds as many entries as the buffer has, each made of what lies there for it, and says where they start.
pub(crate) fn put_entries<T: Laid, E: From<T> + Copy>(
    pool: &mut Pool<'_, E>,
    body: &[u8],
    count: usize,
) -> usize
    requires sized { 0 < T.SIZE }
    requires room { Fit pool.old count }
    requires filled { T.SIZE * count ≡ length body.now }
    ensures added { (new : List _) × AllZip E.from_gives (entries_in (λ bytes. T.told (take T.SIZE bytes)) T.SIZE count body.now) new × Gains pool.old new pool.new }
    ensures start { result ≡ pool.old.mark }
{
    let start = pool.mark;
    // The mark is written once, after the walk, and not by `append` with each entry, which would wait for the one before it.
    let mut mark = start;
    for entry in body.chunks_exact(T::SIZE) {
        set(pool.lent, mark, E::from(T::first_of(entry)));
        mark += 1;
    }
    pool.mark = mark;
    start
}
