#![tactic(auto)]

// No code: proofs/ has what the calls uphold: the rows that they write, take back and sweep are the machine's, and every page's header stays right
// but for its checksum, so that a sealed store opens.
