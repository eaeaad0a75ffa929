// The Zykov tree and the walks over it: definitions (specs/) and theorems (proofs/). No code: the crate walk has that.
#![tactic(auto)]
