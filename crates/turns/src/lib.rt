// A pair modulo 2^31 − 1 and its turn (document 02, Item 7): specs/ holds what a reader must believe, proofs/ the laws. There is no function here.
#![tactic(auto)]
