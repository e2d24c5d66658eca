// Whether a parcel is accepted: it is read, it is sound, and there is room for it.
#![tactic(auto)]

pub mod accepted;
pub mod examine;
pub mod needs;
