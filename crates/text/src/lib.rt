// Lines of text on slices: taken apart into pieces, numbers and bytes in hex, and put into a buffer. What comes from outside may be any bytes.
#![tactic(auto)]

pub mod fields;
pub mod hex;
pub mod numbers;
pub mod pieces;
pub mod print;
pub mod put;
