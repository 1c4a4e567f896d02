// PRISM's explicit files, request K9 of document 02: no code.
#![tactic(auto)]
