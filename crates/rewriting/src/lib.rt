// Document 02, K10: a stored pair rewritten in lowest terms. No code: the definitions are in specs.
#![tactic(auto)]
