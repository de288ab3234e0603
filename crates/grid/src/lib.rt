// The grid of queue boxes: intervals, cell numbers, the image of a cell and its successors. Definitions and theorems only: there is nothing to execute.
#![tactic(auto)]
