// What keeps a store sound: laws alone.
#![tactic(auto)]
