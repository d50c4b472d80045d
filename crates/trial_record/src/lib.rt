// A copy under way in a list of events, followed by answers and stores alone; whole lists; and what
// was tried.
#![tactic(auto)]

pub mod copy;
pub mod finished;
pub mod list;
pub mod tried;
