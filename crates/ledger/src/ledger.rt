use super::record::Record;
use super::slots::DeltaSlots;
use counter::epoch::Clock;

/// A record for each object, by its number, with room for the largest kind: fixed memory. There is no object 0.
#[derive(Clone, Copy)]
pub struct Records {
    pub entries: [Record; 1025],
}

/// What a delta cache keeps.
#[derive(Clone, Copy)]
pub struct Ledger {
    pub records: Records,
    pub slots: DeltaSlots,
    pub clock: Clock,
}
