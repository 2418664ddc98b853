// The delta cache as a counter of any kind: it keeps the meaning, and the bound of six epochs.
#![tactic(auto)]

pub mod cache;
pub mod counting;
pub mod revival;
