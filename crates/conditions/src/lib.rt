// A test of each number below n. It has no code: the definition stands in specs, its laws and those
// of tests joined by 'and' and 'or' in proofs.

#![tactic(auto)]
