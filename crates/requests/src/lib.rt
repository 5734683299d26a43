// Every list of requests on lent bytes, demand 3 among the laws: this crate is in specs/ and proofs/, and has no code.

#![tactic(auto)]
