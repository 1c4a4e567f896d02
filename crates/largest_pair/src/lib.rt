// The pair of files with the most flow records, in definitions and laws: no code.
#![tactic(auto)]
