// The strong step rule, in definitions and laws: no code.
#![tactic(auto)]
