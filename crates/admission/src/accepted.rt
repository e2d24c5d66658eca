use pools::entries::Entries;

// A parcel that may be stored: how many nodes are drafted, and what they need of the pools.
#[derive(Clone, Copy)]
pub struct Accepted {
    pub nodes: usize,
    pub needs: Entries,
}
