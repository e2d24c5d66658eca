// The pools that are read.
ghost use Rattle.pools.specs.Kept.{Ready};

use pools::pools::Pools;

// Pools whose marks are in range.
#[derive(Clone, Copy)]
pub(crate) struct Shown<'a> {
    pub(crate) pools: &'a Pools<'a>,
    ghost ready: { Ready pools.now },
}
