// No code: specs/ holds the automaton, the step rule, the largest relation and two automata side by side, for automata of any size.
#![tactic(auto)]
