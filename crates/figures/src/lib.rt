// Document 01's small lists and their figures, proved of what the walks promise. No code: the table is in specs/, its law in proofs/.
#![tactic(auto)]
