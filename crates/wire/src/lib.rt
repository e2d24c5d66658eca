// The program's wire form: calls as bytes, and answers as lines.
#![tactic(auto)]

pub mod answer;
pub mod call;
pub mod decode;
mod kind;
pub mod serve;
