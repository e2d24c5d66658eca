// Whether the pools have room for what is to be added.
ghost use Rattle.std.specs.Prelude.{◌≡◌, position};
ghost use Rattle.std.specs.List.{zip};
ghost use Rattle.columns.specs.Pools.{full_pool};
ghost use Rattle.formats.specs.Spelled.{lifted};
ghost use Rattle.pools.specs.Marked.{listed};
ghost use Rattle.pools.specs.Used.{is_short};

use crate::entries::Entries;
use crate::pool::fits;

// The place of the first pool that is too short, the three lists being by pool.
fn first_short(lengths: &[usize], marks: &[usize], needs: &[usize]) -> Option<usize>
    ensures { result ≡ position is_short (zip (zip lengths.now marks.now) needs.now) }
{
    lengths
        .iter()
        .zip(marks.iter())
        .zip(needs.iter())
        .position(|((len, mark), more)| !fits(*len, *mark, *more))
}

// The lowest pool that is too short for so many entries more of each.
pub fn full_pool(lengths: &Entries, marks: &Entries, needs: &Entries) -> Option<usize>
    ensures { result ≡ lifted (full_pool (listed lengths.now) (listed marks.now) (listed needs.now)) }
{
    let place = first_short(&lengths.by_pool(), &marks.by_pool(), &needs.by_pool())?;
    Some(place + 1)
}
