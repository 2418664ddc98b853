// Laws of the records, each proved because a contract here names it.
ghost use Rattle.script.specs.RecordLaws.{RecordBytes, RoundTrip, OneRecord};

/// The record that is written for a call is sixteen bytes.
#[tactic(auto, using(crate::proofs::Trips::record_bytes_lem))]
pub fn record_bytes()
    ensures { RecordBytes }
{}

/// Reading the record that is written for a call gives the call back.
#[tactic(auto, using(crate::proofs::Trips::round_trip))]
pub fn round_trip()
    ensures { RoundTrip }
{}

/// Bytes that ask for a call are the record that is written for it, so there is one for each call.
#[tactic(auto, using(crate::proofs::OneRecord::one_record_lem))]
pub fn one_record()
    ensures { OneRecord }
{}
