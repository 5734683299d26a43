// A sound store with its settings, lent as bytes: its parts, each read as the rules' state has it, and what the code of an event promises.
#![tactic(auto)]

use rules::refusal::Refusal;

pub mod brick;
pub mod bucket;
pub mod copies;
pub mod place;
pub mod proxy;
pub mod store;

// What an event answers: a key (put, get; for deliver 1 taken, 0 set aside; else 0), or the question that was answered no.
pub type Answer = Result<u64, Refusal>;
