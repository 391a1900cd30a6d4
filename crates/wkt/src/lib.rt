// The drawing office's text: a POLYGON line is read and written, and areas are written as a MULTIPOLYGON line.
#![tactic(auto)]

pub mod read;
pub mod write;
