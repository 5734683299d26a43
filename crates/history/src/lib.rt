#![tactic(auto)]

// Demand 3, the one claim about every list of events: this crate is in specs/ and proofs/, and has no code.
