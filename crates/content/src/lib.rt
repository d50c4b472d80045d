// The bytes of files, read, written and cut short: what a call is to do, decided before any byte changes, and the bytes that it leaves.
#![tactic(auto)]

pub mod apply;
pub mod plan;
