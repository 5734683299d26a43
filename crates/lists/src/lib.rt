#![tactic(auto)]

// Laws of tests, lists and columns, which every other crate cites: this crate is in specs/ and proofs/, and has no code.
