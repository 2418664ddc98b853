// The words for faults and parts. Texts and no `Display`: a contract names each, and an outcome is promised to the byte.
ghost use Rattle.std.specs.Prelude.{◌≡◌};
ghost use Rattle.statement.specs.Phrases.{reason_words, fault_words, part_words};

use model::fault::{Fault, Part, Reason, SpaceFault, TreeFault};

/// Why a call was refused, without place and part.
pub fn fault_words(fault: Fault) -> &'static str
    ensures { result.now ≡ fault_words fault }
{
    match fault {
        Fault::Space(SpaceFault::Refused { reason, .. }) => reason_words(reason),
        Fault::Space(SpaceFault::Tree(TreeFault::Pool(_))) => "no free frame",
        Fault::Space(SpaceFault::Tree(TreeFault::TooFewNodes { .. })) => "too few free nodes",
        Fault::BadRecord => "bad record",
    }
}

fn reason_words(reason: Reason) -> &'static str
    ensures { result.now ≡ reason_words reason }
{
    match reason {
        Reason::CoreNotInService => "core not in service",
        Reason::BadRange => "count 0 or a page past the last",
        Reason::NoLabel => "label 0",
        Reason::Mapped => "mapped",
        Reason::Closing => "closing",
        Reason::Vacant => "vacant",
        Reason::NoFrame => "no frame in the source",
        Reason::AlreadyOpen => "unmapping already open",
        Reason::NoneOpen => "no unmapping open",
        Reason::StillWaiting => "cores still waited for",
        Reason::LastEpoch => "epoch at its last",
        Reason::BadSetUp => "set up outside the ranges",
    }
}

/// The part that refused a call.
pub fn part_words(part: Part) -> &'static str
    ensures { result.now ≡ part_words part }
{
    match part {
        Part::Space => "space",
        Part::Tree => "tree",
        Part::FramePool => "frame pool",
        Part::Script => "script",
    }
}
