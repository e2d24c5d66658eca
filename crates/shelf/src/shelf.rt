// The calls.
ghost use Rattle.std.specs.Prelude.{◌≡◌, [], length};
ghost use Rattle.pools.specs.Marked.{marked, no_marks};
ghost use Rattle.shelf.specs.Stands.{Stands};

use crate::owner::Shelf;
use pools::pools::{Marks, Pools};

// The pools that are lent, with every mark at 0.
fn emptied<'a>(mut pools: Pools<'a>) -> Pools<'a>
    ensures { result ≡ marked no_marks pools.entry }
{
    pools.resume(Marks::default());
    pools
}

impl<'a> Shelf<'a> {
    // A fresh shelf over pools of any length and content, no call made yet: it holds what it is lent, every mark at 0.
    pub fn new(pools: Pools<'a>, slip: &'a mut [(u16, u32)]) -> Shelf<'a>
        ensures stands { Stands [] result.pools (length result.slip.now) }
        ensures lent { result.pools ≡ marked no_marks pools.entry }
        ensures slip_lent { result.slip ≡ slip.entry }
    {
        Shelf {
            pools: emptied(pools),
            slip,
        }
    }
}
