// Whether the nodes of a parcel are sound.
#![tactic(auto)]

pub mod data_buffers;
pub mod ends;
pub mod fill;
pub mod index;
pub mod kinds;
pub mod ladder;
pub mod lents;
pub mod masks;
pub mod node;
pub mod offsets;
pub mod places;
pub mod roles;
pub mod sent;
pub mod shelved;
pub mod sound;
pub mod values;
pub mod views;
