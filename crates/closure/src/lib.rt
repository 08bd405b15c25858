// The theory that the verdict rests on: fault sets, what a notice reaches in spite of one, the verdict and its
// witness. Definitions in specs/, theorems in proofs/; it has no code, and knows nothing of runs.
#![tactic(auto)]
