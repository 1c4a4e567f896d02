// The block sheet, in definitions and laws: no code.
#![tactic(auto)]
