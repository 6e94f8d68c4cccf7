// Replay's lines: what an input line orders, and the output line of an answer.
#![tactic(auto)]

pub mod line;
pub mod said;
pub mod word;
