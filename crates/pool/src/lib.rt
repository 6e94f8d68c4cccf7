// A store of pending units, in lent memory: tables in words and times, chains in list and home, octets in blocks.
// docs/STORE.md has every offset.
#![tactic(auto)]

pub mod link;
pub mod make;
pub mod place;
pub mod test;
pub mod unit;
