// The contents of a practice book: which draw of a start number becomes which field. No code: the
// definitions stand in specs; in proofs, that every such book is accepted, and that the contents
// are what is drawn part after part.

#![tactic(auto)]
