// Strong certificates, in definitions and laws: no code.
#![tactic(auto)]
