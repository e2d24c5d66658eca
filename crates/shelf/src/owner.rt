// The shelf with the memory that it is lent: the pools and the slip, always as some list of calls on a fresh shelf leaves
// them.
ghost use Rattle.std.specs.Prelude.{length};
ghost use Rattle.shelf.specs.Stands.{Reached};

use pools::pools::Pools;

#[derive(Drop)]
pub struct Shelf<'a> {
    pub(crate) pools: Pools<'a>,
    pub(crate) slip: &'a mut [(u16, u32)],
    ghost reached: { ∥ Reached pools (length slip.now) ∥₁ },
}
