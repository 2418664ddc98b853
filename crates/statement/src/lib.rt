// What is told of a script that was played, in words: its records, their outcomes and the summary.
#![tactic(auto)]

pub mod asked;
pub mod outcome;
pub mod phrases;
pub mod sight;
pub mod statement;
pub mod summary;
