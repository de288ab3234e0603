// The flow rule over a network, conditions 10 and 11, and the image of a box of queues. Definitions and theorems only: there is nothing to execute.
#![tactic(auto)]
