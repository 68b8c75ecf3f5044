// Lists and sums by what a function gives for each index, and lists none of whose first numbers is
// above a limit. No code: the definitions stand in specs, their laws in proofs.

#![tactic(auto)]
