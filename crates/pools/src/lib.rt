// The pools: lent memory that only grows, and what lies in it.
#![tactic(auto)]

pub mod bits;
pub mod entries;
pub mod laid;
pub mod laws;
pub mod pool;
pub mod pools;
pub mod records;
pub mod room;
pub mod slip;
