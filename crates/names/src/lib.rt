// The JSON keys and fixed texts of the Rust, by number.
#![tactic(auto)]

pub mod key;
pub mod text;
