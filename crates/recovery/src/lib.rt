#![tactic(auto)]

// How the bytes of a code word give one another back: rules, weights and their laws, which the codes rest on.
