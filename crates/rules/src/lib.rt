// What the rules fix in code: the settings with their limits, blocks, keys and views as types of their own, and what a refusal says.
#![tactic(auto)]

pub mod constants;
pub mod numbers;
pub mod refusal;
pub mod settings;
