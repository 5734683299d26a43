// What the copies of a bucket, and the append buffers, say of a block; and what events ask of it.

#![tactic(auto)]

pub mod asks;
pub mod block;
pub mod buffer;
pub mod copy;
