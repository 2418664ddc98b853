// The tables of the delta cache: a record for each object and the delta slots of all cores,
// and what each operation makes of them, exactly.
#![tactic(auto)]

pub mod ledger;
pub mod operations;
pub mod record;
pub mod slot;
pub mod slots;
pub mod spot;
