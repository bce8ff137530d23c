// No code: the small definitions that every crate's definitions are made of (`specs/`), and the laws
// that every proof uses (`proofs/`).
#![tactic(auto)]
