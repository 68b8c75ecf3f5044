// What a book on age basis 2 becomes on basis 1, and what the converter promises. No code: the
// definitions stand in specs, their theorems in proofs, the call in `age_basis`.

#![tactic(auto)]
