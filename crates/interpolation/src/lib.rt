#![tactic(auto)]

// Interpolation over the field of 256 elements: why the weights of the Cauchy code give every byte of a word back.
