// Storing an accepted parcel in the pools.
#![tactic(auto)]

pub mod body;
pub mod copy;
pub mod lent;
pub mod node;
pub mod nodes;
pub mod read;
pub mod spans;
pub mod store;
