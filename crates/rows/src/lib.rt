// Document 01's "Rows to prove together", with rows of document 02, held against the definitions that the public contracts cite.
#![tactic(auto)]
