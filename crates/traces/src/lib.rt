#![tactic(auto)]

// No code: specs/ has what each call leaves of the bytes of the areas, proofs/ that it does.
