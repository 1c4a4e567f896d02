// Sentences for answers, in definitions and laws: no code.
#![tactic(auto)]
