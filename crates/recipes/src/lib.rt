#![tactic(auto)]

// The three codes as recipes for bytes, and the proofs that they work. There is no code here.
