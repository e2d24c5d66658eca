// The shelf: the calls, and the memory that it is lent.
#![tactic(auto)]

pub mod files;
pub mod owner;
pub mod reads;
pub mod service;
pub mod shelf;
