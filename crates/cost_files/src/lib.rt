// No code: specs/ holds the files of models with costs and how they are judged (document 02, K6).
#![tactic(auto)]
