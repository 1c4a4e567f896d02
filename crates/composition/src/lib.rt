// Two models working side by side, and a model with actions hidden, in definitions and laws: no code.
#![tactic(auto)]
