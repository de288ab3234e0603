// The poll of a state: what it answers and the next state. The definitions and the laws stand in specs/: there is nothing to execute.
#![tactic(auto)]
