// No code: what is proved of the whole, said so that a person who knows document 01 can read it.
// `specs/Examples.antt` has the starred examples of the document and what each must give;
// `proofs/` has the theorems, each with its sentence above it and a proof that cites the crates' own.
#![tactic(auto)]
