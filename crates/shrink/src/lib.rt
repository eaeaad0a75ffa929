// Document 02's shrinking of a list before the walk, and putting the removed entries back after it: definitions (specs/) and theorems (proofs/).
// No code.
#![tactic(auto)]
