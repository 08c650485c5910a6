#![tactic(auto)]

// No code: proofs/ has the laws of sound desks, which the calls and the theorems above cite.
