#![tactic(auto)]

// No code: proofs/ has what insert, update and delete do to the chains of rows, which the theorems above cite.
