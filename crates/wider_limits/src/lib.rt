// Wider limits against those of an older part, in definitions and laws: no code.
#![tactic(auto)]
