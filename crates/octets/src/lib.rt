// Octets: numbers read from them, texts emitted as them, and copies.
#![tactic(auto)]

pub mod emit;
pub mod read;
pub mod text;
