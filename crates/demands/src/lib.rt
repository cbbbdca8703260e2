#![tactic(auto)]
// No code: what follows from the promises of the crates below.
