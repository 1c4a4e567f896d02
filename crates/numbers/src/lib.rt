// Numbers in decimal, and the greatest common divisor: no code.
#![tactic(auto)]
