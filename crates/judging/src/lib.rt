// Judging a policy: looking entries up, refusals 12 to 15 with their count, and the verdict of a byte string. Definitions and theorems only: there is nothing to execute.
#![tactic(auto)]
