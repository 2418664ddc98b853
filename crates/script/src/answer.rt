ghost use Rattle.std.specs.Prelude.{◌≡◌, length};
ghost use Rattle.script.specs.Replies.{place_number, told_of, reply_bytes};

use super::record::RECORD;
use model::fault::Fault;
use model::page::{Epoch, Page};

/// What is answered to one record.
#[derive(Clone, Copy, PartialEq, Eq, Debug)]
pub struct Reply {
    /// The kind byte of the record, whether or not it is a kind.
    pub kind: u8,
    /// The core byte of the record.
    pub core: u8,
    pub outcome: Result<u32, Fault>,
    /// The epoch after the call.
    pub epoch: Epoch,
}

// An outcome in numbers, as the format of an answer has them: 0 is promised where there is none, so no Option.
#[derive(Clone, Copy)]
struct Told {
    number: u8,
    part: u8,
    place: u32,
    answer: u32,
}

impl Reply {
    /// The reply's sixteen bytes.
    #[tactic(auto, unfolding(crate::specs::Replies::reply_bytes))]
    pub fn to_bytes(self) -> [u8; RECORD]
        ensures value { result ≡ reply_bytes self }
        ensures full { length result ≡ 16 }
    {
        let (kind, core) = (self.kind, self.core);
        let Told {
            number,
            part,
            place,
            answer,
        } = Told::from(self.outcome);
        let [p0, p1, p2, p3] = place.to_le_bytes();
        let [a0, a1, a2, a3] = answer.to_le_bytes();
        let [e0, e1, e2, e3] = self.epoch.to_le_bytes();
        [
            kind, core, number, part, p0, p1, p2, p3, a0, a1, a2, a3, e0, e1, e2, e3,
        ]
    }
}

impl From<Result<u32, Fault>> for Told {
    ghost from_gives = { λ outcome told. told ≡ told_of outcome };

    // An answer comes without a fault, and a fault with the answer 0.
    fn from(outcome: Result<u32, Fault>) -> Told {
        match outcome {
            Ok(answer) => Told {
                number: 0,
                part: 0,
                place: place_code(None),
                answer,
            },
            Err(fault) => Told {
                number: fault.number(),
                part: fault.part().number(),
                place: place_code(fault.place()),
                answer: 0,
            },
        }
    }
}

// Here, where the record is written, a place becomes a number, and nowhere before.
/// A place as replies have it. No page has the number that stands for none.
pub fn place_code(place: Option<Page>) -> u32
    ensures { result ≡ place_number place }
{
    place.unwrap_or(u32::MAX)
}
