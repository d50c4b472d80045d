// The plain store's file calls.
#![tactic(auto)]

pub mod plain;
