#![tactic(auto)]

// No code: proofs/ has what withdraw and sweep do to the chains of all rows, which the theorems above cite, and that what the sweep removes is there for
// no open session.
