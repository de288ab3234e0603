// The text of a listing. Definitions only: there is nothing to execute.
#![tactic(auto)]
