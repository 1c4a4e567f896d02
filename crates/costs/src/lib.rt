// No code: specs/ holds the step rule with costs (document 02, K6), for automata of any size.
#![tactic(auto)]
