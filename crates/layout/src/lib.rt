// Where each part of the store lies: definitions in specs/, laws in proofs/; here the sizes and offsets that code reckons with.
#![tactic(auto)]

pub mod lend;
pub mod sizes;
