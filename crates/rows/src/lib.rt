// The rows of stored nodes, as they are read off the pools.
#![tactic(auto)]

pub mod buffers;
pub mod ranges;
pub mod runs;
pub mod tree;
pub mod values;
pub mod views;
