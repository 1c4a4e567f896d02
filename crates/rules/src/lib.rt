// No code: specs/ holds document 01's rules of the files, which the contracts of most other crates cite.
#![tactic(auto)]
