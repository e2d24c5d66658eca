// The structure of a parcel: its nodes, one after another, with where their parts lie.
#![tactic(auto)]

pub mod allow;
mod begin;
pub mod draft;
pub mod items;
pub mod node;
mod parts;
mod reader;
pub mod sent;
