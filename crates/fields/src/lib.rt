// What parsers share: entries of type, length and value, and members that may be left out.
#![tactic(auto)]

pub mod member;
pub mod part;
pub mod tlv;
