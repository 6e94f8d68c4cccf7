// Item records: cells made, taken apart, put into a lent output and read back.
#![tactic(auto)]

pub mod answer;
pub mod cell;
pub mod class;
pub mod emit;
pub mod entry;
pub mod record;
pub mod walk;
