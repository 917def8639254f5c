// The starred samples of document 01, as rows of one table of definitions, which hold. No code.
#![tactic(auto)]
