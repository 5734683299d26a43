// What proofs share that walk a function's code by hand: this crate is in proofs/, and has no code.

#![tactic(auto)]
