// Entries of pools 1 to 11, the pair slip being the last.
ghost use Rattle.std.specs.Prelude.{◌≡◌};
ghost use Rattle.pools.specs.Marked.{listed};

use crate::pools::Marks;

// A number for each pool: how long it is, how much of it is used, or how much is needed of it.
#[derive(Clone, Copy, PartialEq, Eq, Debug, Default)]
pub struct Entries {
    pub pools: Marks,
    pub slip: usize,
}

impl From<Marks> for Entries {
    // with nothing of the slip
    ghost from_gives = { λ pools all. all ≡ record { pools = pools; slip = 0 } };

    fn from(pools: Marks) -> Entries {
        Entries { pools, slip: 0 }
    }
}

impl Entries {
    // By pool, in the order of their numbers.
    pub fn by_pool(&self) -> [usize; 11]
        ensures { result ≡ listed self.now }
    {
        let pools = &self.pools;
        [
            pools.columns,
            pools.nodes,
            pools.bytes,
            pools.shorts,
            pools.words,
            pools.longs,
            pools.offsets,
            pools.views,
            pools.lists,
            pools.buffers,
            self.slip,
        ]
    }
}
