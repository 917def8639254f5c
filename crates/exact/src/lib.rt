// Exact smoothing as definitions (specs/) and the theorem about them (proofs/). The functions that compute it stand in crate smoothing.
#![tactic(auto)]
