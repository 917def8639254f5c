// Document 02, Item 3: which disorder. The rule as it was, with one number for three disorders (specs/), and the theorem that holds it against the rule
// in force (proofs/). The rule in force stands in crates record and trace.
#![tactic(auto)]
