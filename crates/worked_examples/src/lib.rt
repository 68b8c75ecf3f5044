// The worked examples of docs/WORKED_EXAMPLES.md for cost rates, spread and deviation, as theorems
// on their definitions, and books of which the trial figures speak. It has no code. They stand
// apart from the calls, whose contracts alone decide whether an edit of a definition is refused.

#![tactic(auto)]
