// What the whole product promises, as theorems in proofs/ over the definitions that the contracts below equal.
// There is no code here: a reader who believes specs/ of the crates needs proofs/ of this one and nothing else.
#![tactic(auto)]
