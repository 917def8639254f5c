// The spectrum of document 01 as definitions (specs/) and the laws about them (proofs/): permutation, levels, direct sum and distance.
// The functions that compute it stand in crate hartley.
#![tactic(auto)]
