// Runs of an accepted certificate over exact fractions. Definitions and theorems only: there is nothing to execute.
#![tactic(auto)]
