#![tactic(auto)]

// No code: specs/ has the paper's whole worked run, proofs/ that the rules answer it so.
