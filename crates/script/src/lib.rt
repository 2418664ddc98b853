// The records of a script: which call sixteen bytes ask for, and the sixteen bytes that answer it.
#![tactic(auto)]

pub mod answer;
pub mod answer_laws;
pub mod fields;
pub mod kind;
pub mod player;
pub mod record;
pub mod record_laws;
#[cfg(test)]
mod tests;
