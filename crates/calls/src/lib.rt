#![tactic(auto)]

// No code: specs/ has what each of the twelve calls leaves, once for the script, the library and the theorems; proofs/ that a refused call changes nothing but
// the mark that a 10 sets.
