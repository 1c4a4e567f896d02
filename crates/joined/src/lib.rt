// Two models as one, in definitions and laws: no code.
#![tactic(auto)]
