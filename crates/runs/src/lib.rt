// Calls made one after the other: what stays fit, what a call changes, and what comes back. There is no code here: the laws in
// proofs/ are what the promises cite.
#![tactic(auto)]
