// The command line of the program: what its words ask for, and why it can fail.
#![tactic(auto)]

pub mod failure;
pub mod options;
