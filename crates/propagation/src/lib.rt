// The theory that the run rests on: runs by the rules, and demand 3. Definitions in specs/, theorems in proofs/; it
// has no code.
#![tactic(auto)]
