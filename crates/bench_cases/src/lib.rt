// Document 01's bench cases P1 to P11, proved from the definitions. There is nothing to execute.
#![tactic(auto)]
