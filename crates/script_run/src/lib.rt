// A script's lines on the three buffers: what a line does, and what it is answered. Any bytes may be lent.
#![tactic(auto)]

mod calls;
pub mod run;

// `ok` or `no` with its number, which is 0 where the line is no command, and whether a copy has finished in the line.
#[derive(Clone, Copy, PartialEq, Eq, Debug)]
pub struct Reply {
    pub answer: Result<usize, usize>,
    pub finished: bool,
}
