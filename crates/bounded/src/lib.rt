// Numbers below a bound: tests of all or some, counts, the lowest that passes. No code.
#![tactic(auto)]
