// The library beside a plain store, and a burst beside single steps: an event is done by both.
#![tactic(auto)]

pub mod both;
pub mod burst;
pub mod calls;
