// Whole numbers as text, in decimals: read where a text starts, and written into lent bytes.
#![tactic(auto)]

pub mod read;
pub mod write;
