// Lists of calls by chance: what each event asks for, and the list as lines of `replay`.
#![tactic(auto)]

pub mod event;
pub mod print;
