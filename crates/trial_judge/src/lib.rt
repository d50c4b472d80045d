// What a finished copy owes, judged from the stores of a copy's time alone: bytes as they are, no code and no definition of the library.
#![tactic(auto)]

pub mod again;
pub mod copy;
pub mod counts;
pub mod fields;
