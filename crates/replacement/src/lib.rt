// That the merged model may be used for its original, in definitions and laws of files: no code.
#![tactic(auto)]
