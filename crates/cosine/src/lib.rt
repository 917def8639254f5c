// Definitions and laws of cosines in whole numbers (document 01, Cosines): specs/ holds what a reader must believe, proofs/ the laws. There is
// no function here.
#![tactic(auto)]
