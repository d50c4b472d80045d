// The theory of a running copy, over entries, inodes and the copier's notes. No code.
#![tactic(auto)]
