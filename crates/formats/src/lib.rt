// Format strings: what a spelling says of a node.
#![tactic(auto)]

pub mod decimal;
pub mod format;
pub mod kind;
