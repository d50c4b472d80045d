// Document 01's "Track cases": the ones to be proved, in one table. No code.
#![tactic(auto)]
