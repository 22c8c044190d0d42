#![tactic(auto)]

// What a level of a code over a store means, and why it keeps the store's meaning. There is no code here: definitions and proofs.
