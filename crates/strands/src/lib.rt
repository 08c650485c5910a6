#![tactic(auto)]

// No code: what freeing entries does to chains, and that rows are independent.
