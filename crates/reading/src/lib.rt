// The text of a row of a stored column.
#![tactic(auto)]

pub mod ink;
pub mod laws;
pub mod leaves;
pub mod pen;
pub mod read;
pub mod row;
pub mod shape;
pub mod shown;
