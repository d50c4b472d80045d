// The image: whether it fits a start or a running copy, what its directories name and what a finish writes, and the
// entries that a file call cuts.
#![tactic(auto)]

pub mod cut;
pub mod fit;
pub mod naming;
