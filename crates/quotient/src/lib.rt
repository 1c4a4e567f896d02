// The merged model, in definitions and laws: no code.
#![tactic(auto)]
