// A recorded line: its fields, and whether an answer is the one that it tells.
#![tactic(auto)]

pub mod answers;
pub mod fields;
pub mod outputs;
